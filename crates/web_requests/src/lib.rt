//! Browsers' requests: heard, and answered unless something of a recording is asked for.
#![tactic(auto)]

mod porch;
mod visit;

pub use porch::Porch;
pub use visit::{Visit, Wish};
