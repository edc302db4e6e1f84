//! Accepting connections, one after another.

use sockets::{Accepted, Bell, accept};
use std::net::{SocketAddr, TcpListener, TcpStream};
use std::sync::Wait;
use telling::Telling;

/// Accepts connections, and hands each on, until the bell rings: whether it did. A shortage of the
/// system is told of once while it lasts.
pub fn accept_until_rung<R: Wait, F: Fn(TcpStream, SocketAddr)>(
    rt: &R,
    listener: &TcpListener,
    bell: &Bell,
    telling: &Telling,
    take: F,
) -> bool
    requires { F.IsAlwaysCallable take }
{
    let mut is_short = false;
    for _ in rt.forever() {
        match accept(listener, bell) {
            Accepted::Rung => return true,
            Accepted::Nothing => {}
            Accepted::Connection(stream, from) => {
                is_short = false;
                take(stream, from);
            }
            Accepted::Shortage(error) => {
                if !is_short {
                    telling.tell_failure(rt, "accept", "viewers", &error);
                }
                is_short = true;
            }
            Accepted::Broken(error) => {
                telling.tell_failure(rt, "accept", "viewers", &error);
                return false;
            }
        }
    }
    unreachable!()
}
