//! The threads of a recorder whose recording is open: they record its host, commit, and serve viewers,
//! until all is done.
#![tactic(auto)]

mod accepting;
mod browsers;
mod comer;
mod committing;
mod doors;
mod ends;
mod entrance;
mod no_turnstile;
mod refusing;
mod service;
mod viewer_stream;
mod work;

pub use accepting::accept_until_rung;
pub use comer::Comer;
pub use doors::Doors;
pub use refusals;
pub use refusing::refuse;
pub use service::{Outcome, Service, run_threads};
pub use viewer_stream::ViewerStream;
pub use watching::{broadcast, connections, shared_book};
pub use work::Work;
