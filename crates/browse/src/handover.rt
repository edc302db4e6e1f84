//! Visits on their way from the threads that hear them to the one that has them attended to.

use crate::presence::Presence;
use std::alloc::Global;
use std::collections::VecDeque;
use std::mem;
use std::sync::{Condvar, Mutex, Wait};
use web_requests::Visit;

/// As many visits may wait as there are seats in format 2.
const MOST_WAITING: usize = 256;

#[derive(Drop)]
struct State {
    presence: Presence,
    waiting: VecDeque<Visit>,
}

/// What visits are handed through, the first one first, and how many of those that were handed in
/// haven't ended. It is over at the end, and once nobody comes and nobody is there any more.
#[derive(Drop)]
pub struct Handover {
    state: Mutex<State>,
    changed: Condvar,
}

impl Handover {
    /// Nobody came yet.
    pub fn new(alloc: Global) -> Handover {
        Handover {
            state: Mutex::new(State {
                presence: Presence::new(),
                waiting: VecDeque::new(alloc),
            }),
            changed: Condvar::new(),
        }
    }

    /// Hands in a visit. It is given back if it is over, if 256 wait already, or if memory runs out.
    pub fn receive<R: Wait>(&self, rt: &R, visit: Visit) -> Result<(), Visit> {
        let mut state = self.state.lock(rt);
        if state.presence.is_over() || state.waiting.len() >= MOST_WAITING {
            return Err(visit);
        }
        if let Err(refused) = state.waiting.push_back(visit) {
            return Err(refused.value);
        }
        state.presence.come();
        self.changed.notify_all();
        Ok(())
    }

    /// Waits for a visit; `None` once it is over.
    pub fn next<R: Wait>(&self, rt: &R) -> Option<Visit> {
        let mut state = self.changed.wait_while(rt, self.state.lock(rt), |state| {
            !state.presence.is_over() && state.waiting.is_empty()
        });
        if state.presence.is_over() {
            return None;
        }
        state.waiting.pop_front()
    }

    /// Says that a visit has ended.
    pub fn leave<R: Wait>(&self, rt: &R) {
        self.state.lock(rt).presence.leave();
        self.changed.notify_all();
    }

    /// Says that nobody comes any more.
    pub fn outdate<R: Wait>(&self, rt: &R) {
        self.state.lock(rt).presence.outdate();
        self.changed.notify_all();
    }

    /// Whether it is over.
    pub fn is_over<R: Wait>(&self, rt: &R) -> bool {
        self.state.lock(rt).presence.is_over()
    }

    /// Ends it, also for those who are there: the visits that nobody took.
    pub fn stop<R: Wait>(&self, rt: &R, alloc: Global) -> VecDeque<Visit> {
        let mut state = self.state.lock(rt);
        state.presence.stop();
        self.changed.notify_all();
        mem::replace(&mut state.waiting, VecDeque::new(alloc))
    }
}
