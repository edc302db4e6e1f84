//! A recording of format 1, written again in format 2: the same blocks, with the digests that chain
//! them.
#![tactic(auto)]

mod copying;
mod fault;
mod migrating;

pub use fault::MigrateFault;
pub use migrating::{may_be_migrated, migrate};
