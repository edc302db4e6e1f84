//! A viewer's connection, of VNC or of a browser.

ghost use Rattle.std.specs.Prelude.{◌≤◌, IfOk, length};

use carriage::Carriage;
use sockets::{Bell, Connection, WebStream, Woken};
use std::alloc::Global;
use std::io;
use std::net::TcpStream;
use std::time::{Clock, Duration};

/// A viewer's connection.
#[derive(Drop)]
pub enum ViewerStream {
    /// A viewer of VNC.
    Plain(TcpStream),
    /// One in a browser.
    Web(WebStream),
}

impl Connection for ViewerStream {
    fn carriage(&self, alloc: Global) -> Carriage {
        match self {
            ViewerStream::Plain(stream) => stream.carriage(alloc),
            ViewerStream::Web(stream) => stream.carriage(alloc),
        }
    }

    fn watch_over(&self) -> io::Result<()> {
        match self {
            ViewerStream::Plain(stream) => Connection::watch_over(stream),
            ViewerStream::Web(stream) => stream.watch_over(),
        }
    }

    fn read(&self, buffer: &mut [u8]) -> io::Result<usize>
        ensures { IfOk result (λ count. count ≤ length buffer.old) }
    {
        match self {
            ViewerStream::Plain(stream) => Connection::read(stream, buffer),
            ViewerStream::Web(stream) => stream.read(buffer),
        }
    }

    fn write_while<R: Clock, F: Fn() -> bool>(
        &self,
        rt: &R,
        bytes: &[u8],
        seconds: u64,
        goes_on: F,
    ) -> io::Result<()>
        requires { F.IsAlwaysCallable goes_on }
    {
        match self {
            ViewerStream::Plain(stream) => stream.write_while(rt, bytes, seconds, goes_on),
            ViewerStream::Web(stream) => stream.write_while(rt, bytes, seconds, goes_on),
        }
    }

    fn wait(&self, bell: &Bell, limit: Duration) -> Woken {
        match self {
            ViewerStream::Plain(stream) => stream.wait(bell, limit),
            ViewerStream::Web(stream) => stream.wait(bell, limit),
        }
    }

    fn shut(&self) {
        match self {
            ViewerStream::Plain(stream) => stream.shut(),
            ViewerStream::Web(stream) => stream.shut(),
        }
    }
}
