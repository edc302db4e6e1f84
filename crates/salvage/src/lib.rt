//! What a damaged recording still has, on another disk: its header, and the blocks before the first
//! that isn't right.
#![tactic(auto)]

mod copying;
mod fault;
mod judge;
mod salvaging;

pub use fault::SalvageFault;
pub use judge::Judge;
pub use salvaging::{Salvaged, salvage};
