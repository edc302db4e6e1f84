//! What a viewer in a browser is shown, as its orders have it.
#![tactic(auto)]

mod course;
mod steering;

pub use course::{Course, Stage};
pub use steering::{Showing, Steering};

#[cfg(test)]
mod tests;
