//! Tests of the crates of a recording, from its disk up to the shared book.
#![tactic(auto)]

mod desk;

pub use desk::{ONE_PIXEL, desk_of_one_pixel};

#[cfg(test)]
mod tests;
