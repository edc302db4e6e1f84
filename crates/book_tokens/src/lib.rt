//! The tokens of a desk that threads share: how far a history of what it accepted and committed was
//! seen, and numbers that are given once each.
#![tactic(auto)]

mod history;
mod mark;
mod numbers;
mod pens;

pub use history::{Front, Growth, History};
pub use mark::{Mark, Named, Token};
pub use numbers::{NumberProof, NumberSource};
pub use pens::{Accepting, Committing, Count, Counting, Pen, Right};
