//! Those who are served, and their sockets.

use crate::guests::{Entrance, Guests, Progress};
use std::alloc::Global;
use std::io;
use std::net::{Shutdown, TcpStream};
use std::sync::atomic::{AtomicU64, Ordering};
use std::sync::{Arc, Mutex, Wait};
use std::time::{Clock, Instant};

/// The connections that are served, and a handle of each one's socket, so that one that gives way is
/// shut.
#[derive(Drop)]
struct Served {
    guests: Guests,
    sockets: Vec<(u64, Arc<TcpStream>)>,
}

impl Served {
    // Gives the socket of this number back.
    fn take_socket(&mut self, number: u64) -> Option<Arc<TcpStream>> {
        let position = self.sockets.iter().position(|(other, _)| *other == number)?;
        let (_, socket) = self.sockets.swap_remove(position);
        Some(socket)
    }
}

/// Who is served, under a lock.
#[derive(Drop)]
pub struct Lobby {
    started: Instant,
    next: AtomicU64,
    served: Mutex<Served>,
}

impl Lobby {
    /// Nobody is served. An error is of the clock.
    pub fn new<R: AllocGlobal + Clock>(rt: &R) -> io::Result<Lobby> {
        Ok(Lobby {
            started: Instant::now(rt)?,
            next: AtomicU64::new(0),
            served: Mutex::new(Served {
                guests: Guests::new(),
                sockets: Vec::new(rt.alloc()),
            }),
        })
    }

    // The time, in milliseconds of the server.
    fn now<R: Clock>(&self, rt: &R) -> u64 {
        match self.started.elapsed(rt) {
            Ok(elapsed) => u64::try_from(elapsed.as_millis()).unwrap_or(u64::MAX),
            Err(_) => 0,
        }
    }

    /// Receives a connection: the number under which it is served, and its socket. It isn't served
    /// if all are busy, or memory runs out. One that gives way to it is shut.
    pub fn enter<R: Clock + Wait>(
        &self,
        rt: &R,
        alloc: Global,
        stream: TcpStream,
    ) -> Option<(u64, Arc<TcpStream>)> {
        let number = self.next.fetch_add(1, Ordering::SeqCst);
        let now = self.now(rt);
        let stream = Arc::new(alloc, stream).ok()?;
        let kept = stream.clone().ok()?;
        let mut served = self.served.lock(rt);
        served.sockets.reserve(1).ok()?;
        match served.guests.enter(number, now) {
            Entrance::Full => return None,
            Entrance::Free => {}
            Entrance::InPlaceOf(gone) => {
                if let Some(socket) = served.take_socket(gone) {
                    let _shut = socket.shutdown(Shutdown::Both);
                }
            }
        }
        served.sockets.push((number, kept)).ok()?;
        Some((number, stream))
    }

    /// Notes that a connection has come so far.
    pub fn note<R: Clock + Wait>(&self, rt: &R, number: u64, progress: Progress) {
        let now = self.now(rt);
        self.served.lock(rt).guests.note(number, now, progress);
    }

    /// Ends the service of a connection.
    pub fn leave<R: Wait>(&self, rt: &R, number: u64) {
        let mut served = self.served.lock(rt);
        served.guests.leave(number);
        let _socket = served.take_socket(number);
    }
}
