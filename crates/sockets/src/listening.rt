//! Listening at an address, and accepting connections until a bell rings.

use crate::bell::{Bell, Woken};
use crate::limits::pause;
use std::alloc::Global;
use std::io;
use std::net::{Net, SocketAddr, TcpListener, TcpStream};
use std::os::fd::AsRawFd;

/// What the system answers when it is short of descriptors or memory: ENOMEM, ENFILE, EMFILE and
/// ENOBUFS of Linux.
const SHORTAGES: [i32; 4] = [12, 23, 24, 105];

/// What it answers when the listener itself is of no more use: EBADF, EINVAL, ENOTSOCK and
/// EOPNOTSUPP. Each other failure is of one connection.
const FINAL: [i32; 4] = [9, 22, 88, 95];

/// What came of a wait for a connection.
#[derive(Debug, Drop)]
pub enum Accepted {
    /// A connection, and the address that it is from.
    Connection(TcpStream, SocketAddr),
    /// The bell rang.
    Rung,
    /// Nothing for now: a signal came, or one connection failed.
    Nothing,
    /// The system is short of descriptors or memory, which was waited out for a moment.
    Shortage(io::Error),
    /// The listener is of no more use.
    Broken(io::Error),
}

/// Listens at an address; a number alone is a port of this machine, which no other machine reaches.
pub fn listen_at<R: Net<Stream = TcpStream, Listener = TcpListener>>(
    rt: &R,
    alloc: Global,
    address: &str,
) -> io::Result<TcpListener> {
    if address.bytes().all(|byte| byte.is_ascii_digit()) {
        let address = format!(in alloc; "127.0.0.1:{address}")?;
        return TcpListener::bind(rt, address.as_str());
    }
    TcpListener::bind(rt, address)
}

/// Waits for a connection to a listener that doesn't block, until the bell rings.
pub fn accept(listener: &TcpListener, bell: &Bell) -> Accepted {
    match bell.wait(Some(listener.as_raw_fd()), None) {
        Woken::Rung => return Accepted::Rung,
        Woken::TimedOut => return Accepted::Nothing,
        Woken::Ready => {}
    }
    let error = match listener.accept() {
        Ok((stream, from)) => return Accepted::Connection(stream, from),
        Err(error) => error,
    };
    let number = error.raw_os_error().unwrap_or(0);
    if FINAL.contains(&number) {
        return Accepted::Broken(error);
    }
    if SHORTAGES.contains(&number) {
        let _paused = bell.wait(None, Some(pause()));
        return Accepted::Shortage(error);
    }
    Accepted::Nothing
}
