//! A viewer in a browser: the same bytes, in frames.

ghost use Rattle.std.specs.Prelude.{◌≤◌, IfOk, length};

use crate::bell::{Bell, Woken};
use crate::connection::Connection;
use carriage::Carriage;
use std::alloc::Global;
use std::io;
use std::net::TcpStream;
use std::sync::Arc;
use std::time::{Clock, Duration};

/// A socket whose upgrade to a WebSocket was answered.
#[derive(Drop)]
pub struct WebStream(pub Arc<TcpStream>);

impl Connection for WebStream {
    fn carriage(&self, alloc: Global) -> Carriage {
        Carriage::framed(alloc)
    }

    fn watch_over(&self) -> io::Result<()> {
        self.0.watch_over()
    }

    fn read(&self, buffer: &mut [u8]) -> io::Result<usize>
        ensures { IfOk result (λ count. count ≤ length buffer.old) }
    {
        Connection::read(&*self.0, buffer)
    }

    fn write_while<R: Clock, F: Fn() -> bool>(
        &self,
        rt: &R,
        bytes: &[u8],
        seconds: u64,
        goes_on: F,
    ) -> io::Result<()>
        requires { F.IsAlwaysCallable goes_on }
    {
        self.0.write_while(rt, bytes, seconds, goes_on)
    }

    fn wait(&self, bell: &Bell, limit: Duration) -> Woken {
        self.0.wait(bell, limit)
    }

    fn shut(&self) {
        self.0.shut();
    }
}
