//! What ends the waits of threads once a recorder is done.

use libc::net::{POLLIN, poll};
use libc::types::pollfd;
use std::io;
use std::net::{Net, Shutdown};
use std::os::fd::{AsRawFd, RawFd};
use std::os::unix::net::UnixStream;
use std::time::Duration;

/// What ended a wait.
#[derive(Clone, Copy, Debug, PartialEq, Eq)]
pub enum Woken {
    /// There is something to read, or nothing more will come.
    Ready,
    /// The bell rang.
    Rung,
    /// The time is over, or a signal came.
    TimedOut,
}

/// Rings once, for good, and ends every wait that looks at it, now or later.
#[derive(Drop)]
pub struct Bell {
    ear: UnixStream,
    mouth: UnixStream,
}

impl Bell {
    /// One that hasn't rung. An error is the system's.
    pub fn new<R: Net>(rt: &R) -> io::Result<Bell> {
        let (ear, mouth) = UnixStream::pair(rt)?;
        Ok(Bell { ear, mouth })
    }

    /// Rings.
    pub fn ring(&self) {
        let _rung = self.mouth.shutdown(Shutdown::Both);
    }

    /// Waits until this descriptor can be read from, the bell rings, or so much time has passed;
    /// without a descriptor, for the other two.
    pub fn wait(&self, descriptor: Option<RawFd>, limit: Option<Duration>) -> Woken {
        let mut watched = [
            pollfd {
                fd: self.ear.as_raw_fd(),
                events: POLLIN,
                revents: 0,
            },
            // The system passes over a negative descriptor.
            pollfd {
                fd: descriptor.unwrap_or(-1),
                events: POLLIN,
                revents: 0,
            },
        ];
        let timeout = match limit {
            None => -1,
            Some(limit) => i32::try_from(limit.as_millis()).unwrap_or(i32::MAX),
        };
        if poll(&mut watched, timeout) <= 0 {
            return Woken::TimedOut;
        }
        let [rung, _] = watched;
        if rung.revents != 0 {
            Woken::Rung
        } else {
            Woken::Ready
        }
    }
}
