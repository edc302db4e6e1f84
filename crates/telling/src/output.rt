//! A descriptor that is written to only while it takes bytes.

ghost use Rattle.std.specs.Prelude.{◌≤◌, IfSome, length};

use libc::net::{POLLOUT, poll};
use libc::types::pollfd;
use std::io;
use std::os::fd::RawFd;

/// How many bytes are written at a time: as many as a pipe takes at once when `poll` says that it
/// can be written to.
const PIECE: usize = 4096;

/// The same for a terminal, which makes room for 256 at a time.
const TERMINAL_PIECE: usize = 128;

/// How many milliseconds a wait takes at most.
const PATIENCE: i32 = 100;

/// Standard error, or another descriptor.
#[derive(Drop)]
pub struct Output {
    descriptor: RawFd,
    is_terminal: bool,
}

impl Output {
    /// This descriptor.
    pub fn new(descriptor: RawFd) -> Output {
        Output {
            descriptor,
            is_terminal: libc::isatty(descriptor) == 1,
        }
    }

    // How many of these bytes are written at a time, so that they go at once.
    fn piece_of(&self, bytes: &[u8]) -> usize
        ensures { result ≤ length bytes.now }
    {
        if !self.is_terminal {
            return bytes.len().min(PIECE);
        }
        // A terminal makes two bytes of a newline, which need room of their own.
        let newline = bytes.iter().position(|byte| *byte == b'\n');
        let text = newline.unwrap_or(bytes.len());
        text.max(1).min(TERMINAL_PIECE).min(bytes.len())
    }

    /// Waits for a tenth of a second at most until bytes can be written, or a write says why not:
    /// whether one of these came.
    pub fn wait(&self) -> bool {
        let mut watched = [pollfd {
            fd: self.descriptor,
            events: POLLOUT,
            revents: 0,
        }];
        poll(&mut watched, PATIENCE) > 0
    }

    /// Writes the first of these bytes, as many as go at once: how many; `None` if the system
    /// refuses them.
    pub fn write(&self, bytes: &[u8]) -> Option<usize>
        ensures { IfSome result (λ count. count ≤ length bytes.now) }
    {
        let count = libc::write(self.descriptor, &bytes[..self.piece_of(bytes)]);
        if let Ok(count) = usize::try_from(count) {
            return Some(count);
        }
        match io::Error::from_raw_os_error(os::errno()).kind() {
            io::ErrorKind::Interrupted | io::ErrorKind::WouldBlock => Some(0),
            _ => None,
        }
    }
}
