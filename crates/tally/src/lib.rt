//! A number that two holders know, and that changes only if both come together.
#![tactic(auto)]

mod tally;

pub use tally::{Counterpart, Halves, Tally};
