//! A connection of a browser: its request is heard, and what is answered is written to it.

ghost use Rattle.std.specs.Prelude.{◌≤◌, IfOk, length};

use crate::answer::Extent;
use crate::guests::Progress;
use crate::lobby::Lobby;
use sockets::{Bell, Connection, Woken, time_left};
use std::alloc::Global;
use std::io;
use std::io::Write;
use std::net::{Shutdown, TcpStream};
use std::sync::Wait;
use std::time::{Clock, Duration, Instant};

/// Within how many seconds a request has to come.
const REQUEST: u64 = 10;

/// Within how many seconds an answer has to be taken.
const ANSWER: u64 = 60;

/// For how many seconds at most the other side's end is waited for.
const END: u64 = 2;

/// How many bytes are read at a time.
const PIECE: usize = 2048;

/// Writes an answer to a socket whose other side may be slow, but not slower than a minute. Once the
/// bell rings, one that takes nothing for a second is given up.
#[derive(Drop)]
pub struct Outlet<'a, R: Clock> {
    rt: &'a R,
    bell: &'a Bell,
    stream: &'a TcpStream,
    started: Instant,
}

impl<'a, R: Clock> Outlet<'a, R> {
    /// From now on.
    pub fn new(rt: &'a R, bell: &'a Bell, stream: &'a TcpStream) -> io::Result<Outlet<'a, R>> {
        let started = Instant::now(rt)?;
        Ok(Outlet {
            rt,
            bell,
            stream,
            started,
        })
    }
}

impl<R: Clock> Outlet<'_, R> {
    // Whether a write that took nothing is to be tried again.
    fn goes_on(&self, error: &io::Error) -> bool {
        error.kind() == io::ErrorKind::WouldBlock
            && self.bell.wait(None, Some(Duration::ZERO)) != Woken::Rung
    }
}

impl<R: Clock> Write for Outlet<'_, R> {
    fn write(&mut self, bytes: &[u8]) -> io::Result<usize> {
        for _ in 0..u64::MAX {
            let left = time_left(self.rt, self.started, ANSWER)?;
            self.stream
                .set_write_timeout(Some(left.min(Duration::from_secs(1))))?;
            match (&mut &*self.stream).write(bytes) {
                Err(error) if self.goes_on(&error) => {}
                outcome => return outcome,
            }
        }
        Err(io::ErrorKind::TimedOut.into())
    }

    fn flush(&mut self) -> io::Result<()> {
        Ok(())
    }
}

// The next bytes, as many as the buffer holds at most; none at the end. An error is that the time
// is over, that the bell rang, or the socket's.
fn read_piece<R: Clock>(
    rt: &R,
    bell: &Bell,
    stream: &TcpStream,
    started: Instant,
    seconds: u64,
    buffer: &mut [u8],
) -> io::Result<usize>
    ensures { IfOk result (λ count. count ≤ length buffer.old) }
{
    let left = time_left(rt, started, seconds)?;
    match stream.wait(bell, left) {
        Woken::Ready => Connection::read(stream, buffer),
        _ => Err(io::ErrorKind::TimedOut.into()),
    }
}

/// What was heard of a connection.
#[derive(Clone, Copy, Debug, PartialEq, Eq)]
pub struct Heard<T> {
    /// What it asks for.
    pub asked: T,
    /// How much of the answer it is given.
    pub extent: Extent,
}

/// Reads until what came is judged: what it is.
pub fn hear<R: Clock + Wait, T: Drop, F: Fn(&[u8]) -> Option<T>>(
    rt: &R,
    alloc: Global,
    bell: &Bell,
    lobby: &Lobby,
    stream: &TcpStream,
    number: u64,
    judge: F,
) -> io::Result<Heard<T>>
    requires { F.IsAlwaysCallable judge }
{
    let mut head = Vec::new(alloc);
    let mut buffer = [0u8; PIECE];
    let started = Instant::now(rt)?;
    for _ in 0..u64::MAX {
        let count = read_piece(rt, bell, stream, started, REQUEST, &mut buffer)?;
        if count == 0 {
            break;
        }
        head.extend_from_slice(&buffer[..count])?;
        let judged = judge(&head);
        let Some(asked) = judged else {
            lobby.note(rt, number, Progress::Asking);
            continue;
        };
        lobby.note(rt, number, Progress::Answered);
        let extent = Extent::of(&head);
        return Ok(Heard { asked, extent });
    }
    Err(io::ErrorKind::UnexpectedEof.into())
}

/// Reads what else comes of a connection whose answer is written until the other side has ended too,
/// and not for long: a socket that is closed with bytes unread may take back what was written.
/// Meanwhile it gives way to others.
pub fn wait_for_end<R: Clock + Wait>(
    rt: &R,
    bell: &Bell,
    lobby: &Lobby,
    stream: &TcpStream,
    number: u64,
) -> io::Result<()> {
    lobby.note(rt, number, Progress::Over);
    stream.shutdown(Shutdown::Write)?;
    let mut buffer = [0u8; PIECE];
    let started = Instant::now(rt)?;
    for _ in 0..u64::MAX {
        if read_piece(rt, bell, stream, started, END, &mut buffer)? == 0 {
            break;
        }
    }
    Ok(())
}
