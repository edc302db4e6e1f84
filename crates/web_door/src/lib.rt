//! What the bytes of a browser's connection ask for: a page, a text, or a viewer's connection.
#![tactic(auto)]

mod request;
mod upgrade;

pub use request::{Judged, Refusal, judge};
pub use upgrade::write_answer;

#[cfg(test)]
mod tests;
