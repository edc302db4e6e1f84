//! `recorderd serve`: a recorder between a host and viewers, over sockets and threads.
#![tactic(auto)]

mod greeter;
mod serving;

pub use recorder_opening;
pub use serving::{serve, serve_on};
