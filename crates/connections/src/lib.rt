//! The connections of a recorder, to its host and to its viewers: sockets and the limits that they
//! have, and what their threads share.
#![tactic(auto)]

mod clock;
mod facts;
mod guest;
mod host;
mod limits;
mod room;
mod viewer;

pub use book_workers;
pub use book_workers::{broadcast, flusher_core, replay, shared_book};
pub use clock::{Stopwatch, time_after};
pub use facts::Facts;
pub use guest::{Greeting, Guest};
pub use host::{ConnectFault, Host, HostOnClock, Messages};
pub use room::{Beginning, Device, Hall, Intake, Room};
pub use viewer::{Standing, Viewer, turn_away};
