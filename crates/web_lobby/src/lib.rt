//! Browsers that ask over HTTP: who is served, how a request is heard, and how it is answered.
#![tactic(auto)]

mod answer;
mod guests;
mod hearing;
mod lobby;

pub use answer::{
    Extent, Head, UPGRADE_REQUIRED, status_of, write_answer, write_failure, write_head,
    write_refusal,
};
pub use guests::{Entrance, Guest, Guests, Progress};
pub use hearing::{Heard, Outlet, hear, wait_for_end};
pub use lobby::Lobby;
