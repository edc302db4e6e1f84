//! Who may watch a recorder, how long it goes on, and what it may ask its host for: plain numbers
//! and steps, without a socket or a thread.
#![tactic(auto)]

mod backlog;
mod reception;
mod term;

pub use backlog::Backlog;
pub use reception::Reception;
pub use term::{Arrival, Reason, Stop, Term};
