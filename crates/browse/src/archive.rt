//! The recording that is looked at, which is opened again once it has grown.

use crate::handover::Handover;
use crate::keeping::{Keeper, Keeping};
use crate::opening::{FileEnd, Opened, open};
use crate::presence::is_to_be_opened;
use file_disk::Progress;
use recorder_threads::shared_book::Token;
use sockets::Bell;
use std::fs::File;
use std::io;
use std::net::{Net, TcpListener, TcpStream};
use std::rt::Files;
use std::sync::{Arc, Wait};
use std::thread::{Scope, Threads};
use std::time::{Clock, Instant};
use telling::Event;
use web_requests::{Visit, Wish};

/// An opening of the recording: when it was done, and how many milliseconds it took.
#[derive(Clone, Copy)]
struct Opening {
    done: Option<Instant>,
    took: u64,
}

/// The recording, of which each viewer that comes is shown as much as there is. One thread opens it,
/// others keep what was opened.
#[derive(Drop)]
pub struct Archive {
    // Where the recording ended when it was opened last, and through what one comes to that.
    end: FileEnd,
    newest: Arc<Handover>,
    // All that is kept, the newest too.
    kept: Vec<Arc<Handover>>,
    last: Opening,
    // Whether the last opening failed.
    is_failing: bool,
}

// How many milliseconds have passed; none if the clock can't be read.
fn passed_since<R: Clock>(rt: &R, start: Option<Instant>) -> u64 {
    match start.map(|start| start.elapsed(rt)) {
        Some(Ok(passed)) => u64::try_from(passed.as_millis()).unwrap_or(u64::MAX),
        _ => 0,
    }
}

// One that began then and is done now.
fn opening_since<R: Clock>(rt: &R, began: Option<Instant>) -> Opening {
    Opening {
        done: Instant::now(rt).ok(),
        took: passed_since(rt, began),
    }
}

// What a thread keeps of what was opened.
fn keeping_of<R: AllocGlobal + Net>(rt: &R, opened: Box<Opened>) -> io::Result<Keeping> {
    let alloc = rt.alloc();
    Ok(Keeping {
        opened,
        token: Token::new(alloc)?,
        bell: Bell::new(rt)?,
        visits: Arc::new(alloc, Handover::new(alloc))?,
    })
}

impl Archive {
    /// A recording whose opening began then, and what is to be kept of it.
    pub fn new<R: AllocGlobal + Clock + Net>(
        rt: &R,
        opened: Box<Opened>,
        began: Option<Instant>,
    ) -> io::Result<(Archive, Keeping)> {
        let last = opening_since(rt, began);
        let end = opened.end;
        let keeping = keeping_of(rt, opened)?;
        let mut kept = Vec::new(rt.alloc());
        kept.push(keeping.visits.clone()?)?;
        let archive = Archive {
            end,
            newest: keeping.visits.clone()?,
            kept,
            last,
            is_failing: false,
        };
        Ok((archive, keeping))
    }

    // Whether the recording is to be opened again.
    fn is_to_be_opened<R>(&self, keeper: &Keeper<'_, R>) -> bool
    where
        R: AllocGlobal + Clock + Files<File = File> + Wait,
    {
        let rt = keeper.porch.rt;
        let passed = passed_since(rt, self.last.done);
        let has_grown = self.end.is_passed(rt, keeper.recording);
        is_to_be_opened(self.newest.is_over(rt), has_grown, self.last.took, passed)
    }

    // Opens the recording again, and has that kept instead of what was opened last; `None` if that
    // can't be done.
    fn open_again<'s, R, E>(
        &mut self,
        keeper: &'s Keeper<'s, R>,
        scope: &'s Scope<'s, E>,
    ) -> Option<()>
    where
        R: AllocGlobal + Clock + Files<File = File> + Sync + Threads + Wait,
        R: Net<Stream = TcpStream, Listener = TcpListener>,
    {
        let rt = keeper.porch.rt;
        let opened = open(rt, keeper.recording, Progress::silent()).ok()?;
        let end = opened.end;
        let keeping = keeping_of(rt, opened).ok()?;
        let newest = keeping.visits.clone().ok()?;
        self.kept.push(keeping.visits.clone().ok()?).ok()?;
        if scope.spawn(move || keeper.keep(keeping)).is_err() {
            let _none = newest.stop(rt, rt.alloc());
            return None;
        }
        self.newest.outdate(rt);
        self.newest = newest;
        self.end = end;
        Some(())
    }

    // Opens the recording again. That it can't be is told once while that lasts.
    fn renew<'s, R, E>(&mut self, keeper: &'s Keeper<'s, R>, scope: &'s Scope<'s, E>)
    where
        R: AllocGlobal + Clock + Files<File = File> + Sync + Threads + Wait,
        R: Net<Stream = TcpStream, Listener = TcpListener>,
    {
        let rt = keeper.porch.rt;
        self.kept.retain(|visits| !visits.is_over(rt));
        let began = Instant::now(rt).ok();
        let is_failing = self.open_again(keeper, scope).is_none();
        self.last = opening_since(rt, began);
        if is_failing && !self.is_failing {
            keeper
                .telling
                .tell(rt, Event::NotOpenedAgain(keeper.recording));
        }
        self.is_failing = is_failing;
    }

    /// Has the recording opened again for viewers who come once it has grown, and hands each visit
    /// to who keeps what was opened last, until no more come.
    pub fn receive_all<'s, R, E>(
        &mut self,
        keeper: &'s Keeper<'s, R>,
        front: &Handover,
        scope: &'s Scope<'s, E>,
    )
    where
        R: AllocGlobal + Clock + Files<File = File> + Sync + Threads + Wait,
        R: Net<Stream = TcpStream, Listener = TcpListener>,
    {
        let rt = keeper.porch.rt;
        for _ in rt.forever() {
            let Some(visit) = front.next(rt) else {
                break;
            };
            if matches!(visit.wish, Wish::Watch(_)) && self.is_to_be_opened(keeper) {
                self.renew(keeper, scope);
            }
            if let Err(visit) = self.newest.receive(rt, visit) {
                keeper.turn_away(visit);
            }
            front.leave(rt);
        }
    }

    /// Ends all visits.
    pub fn stop<R: Clock + Wait>(&self, keeper: &Keeper<'_, R>) {
        let porch = keeper.porch;
        for visits in &self.kept {
            for visit in visits.stop(porch.rt, porch.alloc) {
                keeper.turn_away(visit);
            }
        }
    }
}
