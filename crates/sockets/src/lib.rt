//! Sockets of a server that hostile peers reach: waits that a bell ends, limits of silence and of
//! writes, and a way to a peer of whatever kind.
#![tactic(auto)]

mod bell;
mod connection;
mod limits;
mod listeners;
mod listening;
mod stop;
mod web_stream;

pub use bell::{Bell, Woken};
pub use connection::Connection;
pub use limits::{pause, time_left, watch_over, write_while, write_within};
pub use listeners::Listeners;
pub use listening::{Accepted, accept, listen_at};
pub use stop::wait_for_stop;
pub use web_stream::WebStream;
