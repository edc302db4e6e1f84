//! The connection to a host.

ghost use Rattle.std.specs.Prelude.{◌≡◌, ◌<◌, [], Option, None, Some, IfNone, IfOk, IfSome, length};
ghost use Rattle.host_stream.specs.Streams.{GivesAll, GivesNext, HasGiven, HasRead, IsForSame};
ghost use Rattle.host_session.specs.Session.{name_of, size_of, told_by};
ghost use Rattle.book_workers.specs.Receipts.{IsOfScreen, screen_of};
ghost use Rattle.connections.specs.Giving.{NoneGiven};

use crate::clock::Stopwatch;
use crate::limits::{HANDSHAKE, REQUEST};
use crate::room::Room;
use book_workers::HostSource;
use book_workers::key_index::Stamped;
use book_workers::shared_book::{Mark, Ticket};
use host_session::HostFault;
use host_stream::{HostEnd, HostStream, Next};
use rfb_wire::HostMessage;
use sockets::{pause, time_left, watch_over, write_within};
use std::alloc::{AllocError, Global};
use std::marker::Model;
use std::net::{Net, Shutdown, TcpStream, ToSocketAddrs};
use std::sync::{Mutex, Wait};
use std::time::{Clock, Duration, Instant};
use std::{io, thread};
use telling::{Event, Telling};
use terms::{Format, ScreenSize};
use thiserror::Error;

/// How many bytes are read at a time.
const PIECE: usize = 1 << 16;

/// Why there is no connection to a host.
#[derive(Clone, Copy, Debug, PartialEq, Eq, Error)]
pub enum ConnectFault {
    /// None of its addresses can be reached, each within 30 seconds; it broke off, or was silent for
    /// as long in its handshake.
    #[error("the host isn't reached")]
    Socket,
    /// It sent a fault in its handshake, or is of another size.
    #[error("{0}")]
    Host(#[source] HostFault),
}

// A socket to the first of a host's addresses that can be reached, each within 30 seconds.
fn reach<R: Net<Stream = TcpStream>>(rt: &R, address: &str) -> io::Result<TcpStream> {
    let mut last = io::ErrorKind::AddrNotAvailable.into();
    for found in address.to_socket_addrs(rt)? {
        match TcpStream::connect_timeout(rt, &found, Duration::from_secs(HANDSHAKE)) {
            Ok(socket) => return Ok(socket),
            Err(error) => last = error,
        }
    }
    Err(last)
}

/// A connection to a host: its socket, and what has come of its stream, which contracts see.
#[derive(Drop)]
pub struct Host {
    alloc: Global,
    socket: TcpStream,
    stream: HostStream,
    buffer: Vec<u8>,
    ghost room: { 0 < length buffer.items },
}

impl Model for Host {
    ghost use Rattle.host_stream.specs.Streams.{Stream};

    ghost Value = { Stream };

    ghost view = { λ h. h.stream };
}

impl Host {
    /// Connects to a host whose messages are for a recording of this format, and which is of this
    /// size, if one is expected, and ends its handshake, which may take 30 seconds. What fails is
    /// told. No message that has come with the handshake is lost.
    pub fn connect<R: Net<Stream = TcpStream> + AllocGlobal + Clock + Wait>(
        rt: &R,
        address: &str,
        format: Format,
        expected: Option<ScreenSize>,
        telling: &Telling,
    ) -> Result<Host, ConnectFault>
        ensures none { IfOk result NoneGiven }
        ensures format { IfOk result (λ host. host.session.format ≡ format) }
        ensures expected { IfOk result (λ host. host.session.expected ≡ expected) }
    {
        let socket = match reach(rt, address) {
            Ok(socket) => socket,
            Err(error) => {
                telling.tell_failure(rt, "connect to host", address, &error);
                return Err(ConnectFault::Socket);
            }
        };
        let mut host = match Host::over(rt.alloc(), socket, format, expected) {
            Ok(host) => host,
            Err(error) => {
                telling.tell_failure(rt, "connect to host", address, &error);
                return Err(ConnectFault::Socket);
            }
        };
        if let Err(error) = host.greet(rt) {
            telling.tell_failure(rt, "handshake of host", address, &error);
            return Err(ConnectFault::Socket);
        }
        host.is_welcome(rt, address, telling)?;
        Ok(host)
    }

    fn over(
        alloc: Global,
        socket: TcpStream,
        format: Format,
        expected: Option<ScreenSize>,
    ) -> io::Result<Host>
        ensures none { IfOk result NoneGiven }
        ensures format { IfOk result (λ host. host.session.format ≡ format) }
        ensures expected { IfOk result (λ host. host.session.expected ≡ expected) }
    {
        watch_over(&socket)?;
        let mut buffer = Vec::new(alloc);
        buffer.resize(PIECE, 0)?;
        Ok(Host {
            alloc,
            socket,
            stream: HostStream::new(alloc, format, expected),
            buffer,
        })
    }

    // Reads until the handshake has ended, well or not; an error is of the socket, or of the time.
    fn greet<R: Clock>(&mut self, rt: &R) -> io::Result<()>
        ensures read { HasRead self.old self.new }
        ensures same { IsForSame self.old.session self.new.session }
    {
        let started = Instant::now(rt)?;
        for _ in 0..u64::MAX {
            if self.stream.size().is_some() || !self.stream.is_read_next() {
                break;
            }
            let left = time_left(rt, started, HANDSHAKE)?;
            self.socket.set_read_timeout(Some(left))?;
            match self.read_piece() {
                Err(error) if error.kind() == io::ErrorKind::WouldBlock => {
                    return Err(io::ErrorKind::TimedOut.into());
                }
                outcome => outcome?,
            }
            self.tell(rt)?;
        }
        self.socket.set_read_timeout(None)
    }

    // Whether the handshake ended well: tells how.
    fn is_welcome<R: Wait>(
        &self,
        rt: &R,
        address: &str,
        telling: &Telling,
    ) -> Result<(), ConnectFault> {
        if let Some((size, name)) = self.screen() {
            telling.tell(
                rt,
                Event::Host {
                    address,
                    size,
                    name,
                },
            );
            return Ok(());
        }
        let end = self.end();
        if let HostEnd::Fault(HostFault::Failed) = end {
            telling.tell(rt, Event::HostRefused(self.stream.reason()));
        }
        telling.tell(rt, Event::HostEnded(end));
        match end {
            HostEnd::Fault(fault) => Err(ConnectFault::Host(fault)),
            _ => Err(ConnectFault::Socket),
        }
    }

    /// The size of the host's screen, and its name.
    pub fn screen(&self) -> Option<(ScreenSize, &[u8])>
        ensures size { IfSome result (λ screen. Some screen.0 ≡ size_of (told_by self.now.session.reader self.now.session.kept)) }
        ensures name { IfSome result (λ screen. screen.1.now ≡ name_of (told_by self.now.session.reader self.now.session.kept)) }
        ensures none { IfNone result (size_of (told_by self.now.session.reader self.now.session.kept) ≡ None) }
    {
        let size = self.stream.size()?;
        Some((size, self.stream.name()))
    }

    /// Another handle of the socket.
    pub fn socket(&self) -> io::Result<TcpStream> {
        self.socket.try_clone()
    }

    // Tells the host that nothing more is wanted: how its stream ended.
    fn hang_up(&self) -> HostEnd {
        let _shut = self.socket.shutdown(Shutdown::Both);
        self.end()
    }

    // Reads a piece, and takes its messages, once none waits. What ends the stream is kept; an error
    // is of a read.
    fn read_piece(&mut self) -> io::Result<()>
        requires none { self.old.waiting ≡ [] }
        requires goes_on { self.old.end ≡ None }
        ensures read { HasRead self.old self.new }
        ensures same { IsForSame self.old.session self.new.session }
    {
        self.stream.read_from(&mut &self.socket, &mut self.buffer)
    }

    // Writes what is due to the host.
    fn tell<R: Clock>(&mut self, rt: &R) -> io::Result<()>
        ensures given { HasRead self.old self.new }
        ensures same { IsForSame self.old.session self.new.session }
        ensures waiting { self.new.waiting ≡ self.old.waiting }
        ensures end { self.new.end ≡ self.old.end }
    {
        let mut due = Vec::new(self.alloc);
        self.stream.say(&mut due)?;
        write_within(rt, &self.socket, &due, REQUEST)
    }

    // How the stream ended.
    fn end(&self) -> HostEnd {
        self.stream.end().unwrap_or(HostEnd::Closed(0))
    }

    // Reads from the host, once there is room for what comes: first it is asked for more.
    fn ask<M: Mark, R: Clock + Wait>(&mut self, rt: &R, room: &Room<M>, was_short: bool) -> bool
        requires none { self.old.waiting ≡ [] }
        requires goes_on { self.old.end ≡ None }
        ensures read { HasRead self.old self.new }
        ensures same { IsForSame self.old.session self.new.session }
    {
        room.intake.wait_for_room(rt);
        match self.tell(rt) {
            Err(error) if error.kind() == io::ErrorKind::OutOfMemory => {
                if !was_short {
                    room.telling.tell(rt, Event::Shortage);
                }
                thread::sleep(rt, pause());
                true
            }
            // If the host takes no more, reading meets its end, which says how it ended.
            _ => {
                let _read = self.read_piece();
                was_short
            }
        }
    }

    // The next message; `None` once all that came was given, at the stream's end, or if the recorder
    // was asked to end.
    fn next<M: Mark, R: Clock + Wait>(&mut self, rt: &R, room: &Room<M>) -> Option<HostMessage>
        ensures given { IfSome result (GivesNext self.old self.new) }
        ensures all { IfNone result (GivesAll self.old self.new) }
        ensures same { IsForSame self.old.session self.new.session }
    {
        let mut is_short = false;
        for _ in rt.forever() {
            match self.stream.next(room.is_stopped()) {
                Next::Message(message) => return Some(message),
                Next::Ended => return None,
                Next::Read => is_short = self.ask(rt, room, is_short),
            }
        }
        unreachable!()
    }
}

/// A host, and the clock by which its messages have their times.
#[derive(Drop)]
pub struct HostOnClock {
    pub host: Box<Host>,
    pub stopwatch: Stopwatch,
}

/// A host's messages, each with the time when it came. How its stream ended is then told. Contracts
/// see the stream, the time that was told last, and how many bytes the last message has.
#[derive(Drop)]
pub struct Messages<'a, M: Mark, R: Clock + Wait> {
    rt: &'a R,
    host: Box<Host>,
    stopwatch: Stopwatch,
    room: &'a Room<M>,
    end: &'a Mutex<HostEnd>,
    handed: u64,
}

impl<'a, M: Mark, R: Clock + Wait> Model for Messages<'a, M, R> {
    ghost use Rattle.connections.specs.Giving.{Giving};

    ghost Value = { Giving };

    ghost view = { λ m. record { stream = m.host.value; time = m.stopwatch; handed = m.handed } };
}

impl<'a, M: Mark, R: Clock + Wait> Messages<'a, M, R> {
    /// Those of a host, whose screen has the recording's size and whose messages have its format.
    pub fn new(
        rt: &'a R,
        host: HostOnClock,
        room: &'a Room<M>,
        end: &'a Mutex<HostEnd>,
    ) -> Messages<'a, M, R>
        ensures { result ≡ record { stream = host.host.value; time = host.stopwatch; handed = 0 } }
    {
        let HostOnClock { host, stopwatch } = host;
        Messages {
            rt,
            host,
            stopwatch,
            room,
            end,
            handed: 0,
        }
    }
}

impl<'a, M: Mark, R: Clock + Wait> HostSource<Ticket<M>> for Messages<'a, M, R> {
    ghost use Rattle.std.specs.Prelude.{◌⊎◌, ◌≤◌, [], false};
    ghost use Rattle.connections.specs.Giving.{IsOfAnother};
    ghost use Rattle.book_workers.specs.Receipts.{IsOfScreen, screen_of};

    ghost screen = { λ m. screen_of M.head };

    ghost is_modelled = { ⊥ };

    ghost account = { λ m. record { first = 0; given = []; told = []; has_ended = false } };

    ghost ticket_of = { λ t. t };

    fn next(&mut self) -> Option<Stamped>
        ensures sized { IfSome result (λ r. IsOfScreen (screen_of M.head) r.message) }
        ensures stays { screen_of M.head ≡ screen_of M.head }
        ensures next { IfSome result (λ r. GivesNext self.old.stream self.new.stream r.message) }
        ensures all { IfNone result (GivesAll self.old.stream self.new.stream ⊎ IsOfAnother (screen_of M.head) self.old.stream self.new.stream) }
        ensures same { IsForSame self.old.stream.session self.new.stream.session }
        ensures time { IfSome result (λ r. (self.old.time ≤ r.time) × (self.new.time ≡ r.time)) }
        ensures handed { IfSome result (λ r. self.new.handed ≡ length r.message.bytes) }
    {
        let Some(message) = self.host.next(self.rt, self.room) else {
            *self.end.lock(self.rt) = self.host.hang_up();
            return None;
        };
        // The session has the recording's size and format, so that each message has them.
        if !self.room.is_for(&message) {
            *self.end.lock(self.rt) = self.host.hang_up();
            return None;
        }
        self.handed = message.bytes().len() as u64;
        Some(Stamped {
            time: self.stopwatch.now(self.rt),
            message,
        })
    }

    fn accepted(&mut self, _ticket: Ticket<M>)
        ensures same { self.new ≡ self.old }
    {
        self.room.intake.accept(self.rt, self.handed);
    }
}
