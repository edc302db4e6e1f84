//! Drills: scripts that run on a desk over a disk in memory, which fails when they say so.
#![tactic(auto)]

mod answer;
mod bench;
mod fuse;
mod steps;

pub use answer::Answer;
pub use bench::{Ran, run, run_and_read, run_over};
