//! What carries the bytes between a viewer and its two threads.

ghost use Rattle.std.specs.Prelude.{◌≤◌, IfOk, length};

use crate::bell::{Bell, Woken};
use crate::limits::{watch_over, write_while};
use carriage::Carriage;
use std::alloc::Global;
use std::io;
use std::io::Read;
use std::net::{Shutdown, TcpStream};
use std::os::fd::AsRawFd;
use std::time::{Clock, Duration};

/// A way to a viewer, which one thread reads from and both write to. A TCP socket is one; a viewer's
/// threads know no other of its sides.
pub trait Connection: Drop {
    /// The carriage of a connection that begins.
    fn carriage(&self, alloc: Global) -> Carriage;

    /// Has small writes go out at once, and a viewer that vanished noticed.
    fn watch_over(&self) -> io::Result<()>;

    /// Waits until something came, and reads it, at most as long as the buffer: how many bytes, and
    /// none at the end.
    fn read(&self, buffer: &mut [u8]) -> io::Result<usize>
        ensures { IfOk result (λ count. count ≤ length buffer.old) };

    /// Writes all these bytes within so many seconds as a whole, as long as this goes on, which is
    /// asked for each second in which the viewer takes nothing: `TimedOut` if it doesn't take them,
    /// `WouldBlock` if it takes nothing and this doesn't go on.
    fn write_while<R: Clock, F: Fn() -> bool>(
        &self,
        rt: &R,
        bytes: &[u8],
        seconds: u64,
        goes_on: F,
    ) -> io::Result<()>
        requires { F.IsAlwaysCallable goes_on };

    /// The same, whatever happens meanwhile.
    fn write_within<R: Clock>(&self, rt: &R, bytes: &[u8], seconds: u64) -> io::Result<()> {
        self.write_while(rt, bytes, seconds, || true)
    }

    /// Waits for so long at most until something came, or the bell rings.
    fn wait(&self, bell: &Bell, limit: Duration) -> Woken;

    /// Ends it. Reads and writes that wait come back.
    fn shut(&self);
}

impl Connection for TcpStream {
    fn carriage(&self, _alloc: Global) -> Carriage {
        Carriage::Plain
    }

    fn watch_over(&self) -> io::Result<()> {
        watch_over(self)
    }

    fn read(&self, buffer: &mut [u8]) -> io::Result<usize>
        ensures { IfOk result (λ count. count ≤ length buffer.old) }
    {
        let mut stream = self;
        for _ in 0..u64::MAX {
            match Read::read(&mut stream, buffer) {
                Err(error) if error.kind() == io::ErrorKind::Interrupted => {}
                outcome => return outcome,
            }
        }
        Ok(0)
    }

    fn write_while<R: Clock, F: Fn() -> bool>(
        &self,
        rt: &R,
        bytes: &[u8],
        seconds: u64,
        goes_on: F,
    ) -> io::Result<()>
        requires { F.IsAlwaysCallable goes_on }
    {
        write_while(rt, self, bytes, seconds, goes_on)
    }

    fn wait(&self, bell: &Bell, limit: Duration) -> Woken {
        bell.wait(Some(self.as_raw_fd()), Some(limit))
    }

    fn shut(&self) {
        let _ended = self.shutdown(Shutdown::Both);
    }
}
