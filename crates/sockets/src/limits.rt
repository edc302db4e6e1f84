//! Limits of sockets: of silence, of a write, and of what a peer leaves unacknowledged.

use libc::net::{
    IPPROTO_TCP, SO_KEEPALIVE, SOL_SOCKET, TCP_KEEPCNT, TCP_KEEPIDLE, TCP_KEEPINTVL,
    TCP_USER_TIMEOUT, setsockopt,
};
use std::io;
use std::io::Write;
use std::net::TcpStream;
use std::os::fd::AsRawFd;
use std::time::{Clock, Duration, Instant};

/// For how many milliseconds a thread waits before it tries again what memory or the system was
/// short of.
const SHORTAGE: u64 = 200;

/// After how many seconds of silence the system asks a peer whether it is there.
const IDLE: u32 = 60;

/// How many seconds lie between two such questions.
const INTERVAL: u32 = 10;

/// How many of them may stay without an answer.
const QUESTIONS: u32 = 6;

/// For how many milliseconds bytes may stay unacknowledged.
const UNACKNOWLEDGED: u32 = 120_000;

// An option's value, as the system reads it.
fn value(number: u32) -> [u8; 16] {
    let [first, second, third, fourth] = number.to_ne_bytes();
    [
        first, second, third, fourth, 0, 0, 0, 0, 0, 0, 0, 0, 0, 0, 0, 0,
    ]
}

/// Has small writes go out at once, and a peer that vanished noticed: within two minutes, also if
/// nothing is written to it. If the system refuses one of these options, the rest stands.
pub fn watch_over(stream: &TcpStream) -> io::Result<()> {
    stream.set_nodelay(true)?;
    let socket = stream.as_raw_fd();
    let (idle, interval) = (value(IDLE), value(INTERVAL));
    let (questions, unacknowledged) = (value(QUESTIONS), value(UNACKNOWLEDGED));
    // SAFETY: each option takes a number, which is the first four bytes of its value.
    unsafe {
        setsockopt(socket, SOL_SOCKET, SO_KEEPALIVE, &value(1), 4);
        setsockopt(socket, IPPROTO_TCP, TCP_KEEPIDLE, &idle, 4);
        setsockopt(socket, IPPROTO_TCP, TCP_KEEPINTVL, &interval, 4);
        setsockopt(socket, IPPROTO_TCP, TCP_KEEPCNT, &questions, 4);
        setsockopt(socket, IPPROTO_TCP, TCP_USER_TIMEOUT, &unacknowledged, 4);
    }
    Ok(())
}

/// How long a thread waits before it tries again what memory or the system was short of.
pub fn pause() -> Duration {
    Duration::from_millis(SHORTAGE)
}

/// What is left of so many seconds that began at this moment; `TimedOut` if nothing is.
pub fn time_left<R: Clock>(rt: &R, started: Instant, seconds: u64) -> io::Result<Duration> {
    match Duration::from_secs(seconds).checked_sub(started.elapsed(rt)?) {
        Some(left) if !left.is_zero() => Ok(left),
        _ => Err(io::ErrorKind::TimedOut.into()),
    }
}

/// Writes all these bytes within so many seconds as a whole, however many pieces the peer takes
/// them in; `TimedOut` if it doesn't.
pub fn write_within<R: Clock>(
    rt: &R,
    stream: &TcpStream,
    bytes: &[u8],
    seconds: u64,
) -> io::Result<()> {
    write_while(rt, stream, bytes, seconds, || true)
}

/// The same, as long as this goes on, which is asked for each second in which the peer takes nothing:
/// `WouldBlock` if it doesn't.
pub fn write_while<R: Clock, F: Fn() -> bool>(
    rt: &R,
    stream: &TcpStream,
    bytes: &[u8],
    seconds: u64,
    goes_on: F,
) -> io::Result<()>
    requires { F.IsAlwaysCallable goes_on }
{
    let mut rest = bytes;
    if rest.is_empty() {
        return Ok(());
    }
    let started = Instant::now(rt)?;
    for _ in 0..u64::MAX {
        let left = time_left(rt, started, seconds)?;
        stream.set_write_timeout(Some(left.min(Duration::from_secs(1))))?;
        match (&mut &*stream).write(rest) {
            Ok(0) => return Err(io::ErrorKind::WriteZero.into()),
            Ok(count) => rest = &rest[count..],
            Err(error) if error.kind() == io::ErrorKind::Interrupted => {}
            Err(error) if error.kind() == io::ErrorKind::WouldBlock && goes_on() => {}
            Err(error) => return Err(error),
        }
        if rest.is_empty() {
            return Ok(());
        }
    }
    Ok(())
}
