//! How browsers come in: each connection is heard on a thread of its own.

use crate::handover::Handover;
use crate::keeping::Keeper;
use reception::Stop;
use recorder_threads::accept_until_rung;
use sockets::wait_for_stop;
use std::net::{SocketAddr, TcpListener, TcpStream};
use std::sync::{Arc, Wait};
use std::thread;
use std::thread::{Scope, Threads};
use std::time::Clock;
use telling::Event;

/// Where browsers come in, and who is told of those that want something of the recording.
#[derive(Drop)]
pub struct Entrance<'a, R> {
    pub keeper: &'a Keeper<'a, R>,
    pub front: &'a Handover,
    /// When it ends.
    pub stop: Stop,
}

impl<'a, R: Threads + Clock + Wait + Sync> Entrance<'a, R> {
    // Hears a connection, and hands it on if it wants something of the recording.
    fn hear(&self, stream: Arc<TcpStream>, from: SocketAddr, number: u64) {
        let porch = self.keeper.porch;
        let Some(visit) = porch.hear(stream, from, number) else {
            return;
        };
        if let Err(visit) = self.front.receive(porch.rt, visit) {
            self.keeper.turn_away(visit);
        }
    }

    // Has a connection heard, if it is one of few. One too many is closed.
    fn take<'s, E>(&'s self, scope: &'s Scope<'s, E>, stream: TcpStream, from: SocketAddr) {
        let porch = self.keeper.porch;
        let Some((number, stream)) = porch.lobby.enter(porch.rt, porch.alloc, stream) else {
            self.keeper.telling.tell(porch.rt, Event::Dropped(from));
            return;
        };
        if scope
            .spawn(move || self.hear(stream, from, number))
            .is_err()
        {
            porch.lobby.leave(porch.rt, number);
            self.keeper.telling.tell(porch.rt, Event::NoThread(from));
        }
    }

    /// Takes browsers in until the bell rings, and waits until each is heard: whether the listener
    /// was sound until then.
    pub fn accept_browsers(&self, listener: &TcpListener) -> bool {
        let porch = self.keeper.porch;
        let is_sound = thread::scope(thread::scope_env(), porch.rt, |scope| {
            accept_until_rung(
                porch.rt,
                listener,
                porch.bell,
                self.keeper.telling,
                |stream, from| self.take(scope, stream, from),
            )
        });
        for visit in self.front.stop(porch.rt, porch.alloc) {
            self.keeper.turn_away(visit);
        }
        is_sound
    }

    /// Waits for what ends it from outside, and ends it.
    pub fn wait_for_end(&self) {
        let porch = self.keeper.porch;
        if let Ok(true) = wait_for_stop(porch.rt, self.stop, porch.bell) {
            self.keeper.telling.tell(porch.rt, Event::Stopped);
            porch.bell.ring();
        }
    }
}
