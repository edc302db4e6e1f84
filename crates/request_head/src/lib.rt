//! The head of an HTTP request: whether it is sound, whole, only reads, and is sent here.
#![tactic(auto)]

mod fields;
mod head;
mod host;

pub use fields::first_value;
pub use head::{Fault, LONGEST_HEAD, MOST_FIELDS, Reading, front, read_head, wants_head_alone};
pub use host::is_allowed;

#[cfg(test)]
mod tests;
