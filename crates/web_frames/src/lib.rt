//! The frames of a viewer in a browser (RFC 6455, section 5): what they carry, and those of answers.
#![tactic(auto)]

mod fault;
mod frames;
mod heard;

pub use fault::Fault;
pub use frames::{Frames, LONGEST_FRAME, cuts_do_not_matter, frames_are_read_as_written};
pub use heard::{END_OF_TEXT, Heard};

#[cfg(test)]
mod tests;
