//! Viewers who come while the recording is read.

ghost use Rattle.std.specs.Prelude.{◌<◌, ◌^◌, length};

use reception::Arrival;
use recorder_threads::connections::{Greeting, Guest, Hall};
use recorder_threads::{Comer, ViewerStream, accept_until_rung};
use sockets::Bell;
use std::alloc::Global;
use std::net::{SocketAddr, TcpListener, TcpStream};
use std::sync::{Mutex, Wait};
use std::thread;
use std::thread::{Scope, Threads};
use std::time::Clock;
use telling::{Event, Telling};
use terms::ScreenSize;

/// The door for those who are greeted while the recording is read.
#[derive(Drop)]
pub struct Door<'a, R> {
    pub rt: &'a R,
    pub alloc: Global,
    pub listener: &'a TcpListener,
    pub hall: &'a Hall,
    pub telling: &'a Telling,
}

impl<'a, R: Clock + Wait> Door<'a, R> {
    // Ends a handshake without a viewer, and tells how.
    fn end_handshake(&self, event: Event<'_>) {
        self.hall.give_up(self.rt);
        self.telling.tell(self.rt, event);
    }
}

/// Greets those who come while the recording is read, and keeps them for the recorder.
#[derive(Drop)]
pub struct Greeter<'a, R> {
    door: Door<'a, R>,
    /// Rings once the recording is read.
    bell: Bell,
    size: ScreenSize,
    name: Vec<u8>,
    comers: Mutex<Vec<Comer>>,
    ghost named: { length name.items < 2 ^ 32 },
}

impl<'a, R> Greeter<'a, R> {
    /// One of a recording of this size and name.
    pub fn new(door: Door<'a, R>, bell: Bell, size: ScreenSize, name: Vec<u8>) -> Greeter<'a, R>
        requires { length name.items < 2 ^ 32 }
    {
        let comers = Mutex::new(Vec::new(door.alloc));
        Greeter {
            door,
            bell,
            size,
            name,
            comers,
        }
    }

    /// Says that the recording is read: nobody is greeted here any more.
    pub fn end(&self) {
        self.bell.ring();
    }

    /// Those who came, in the order in which they were greeted.
    pub fn into_comers(self) -> Vec<Comer> {
        let Greeter { comers, .. } = self;
        comers.into_inner()
    }
}

impl<'a, R: Clock + Wait> Greeter<'a, R> {
    // Hears a connection's handshake, as far as it comes: who goes on.
    fn greet(&self, stream: TcpStream, from: SocketAddr) -> Option<Comer> {
        let mut guest = Guest::new(
            self.door.alloc,
            ViewerStream::Plain(stream),
            self.size,
            &self.name,
        )
        .ok()?;
        match guest.greet(self.door.rt, &self.bell) {
            Ok(Greeting::Whole | Greeting::UnderWay) => Some(Comer { guest, from }),
            Ok(Greeting::Over) | Err(_) => None,
        }
    }

    // Greets a connection, and keeps who goes on.
    fn attend(&self, stream: TcpStream, from: SocketAddr) {
        let is_kept = match self.greet(stream, from) {
            Some(comer) => self.comers.lock(self.door.rt).push(comer).is_ok(),
            None => false,
        };
        if !is_kept {
            self.door.end_handshake(Event::Unheard(from));
        }
    }
}

impl<'a, R: Threads + Clock + Wait + Sync> Greeter<'a, R> {
    // Has a connection greeted on a thread of its own. Nobody has a seat yet, so that nobody is turned
    // away but by the number of handshakes.
    fn take<'s, E>(&'s self, scope: &'s Scope<'s, E>, stream: TcpStream, from: SocketAddr) {
        match self.door.hall.arrive(self.door.rt) {
            Arrival::Greeted => {
                if scope.spawn(move || self.attend(stream, from)).is_err() {
                    self.door.end_handshake(Event::NoThread(from));
                }
            }
            Arrival::TurnedAway(reason) => self.door.end_handshake(Event::TurnedAway(from, reason)),
            Arrival::Dropped => self.door.telling.tell(self.door.rt, Event::Dropped(from)),
        }
    }

    /// Greets those who come until the recording is read.
    pub fn greet_all(&self) {
        thread::scope(thread::scope_env(), self.door.rt, |scope| {
            accept_until_rung(
                self.door.rt,
                self.door.listener,
                &self.bell,
                self.door.telling,
                |stream, from| self.take(scope, stream, from),
            );
        });
    }
}
