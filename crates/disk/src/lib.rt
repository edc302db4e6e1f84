//! A disk that may crash, as a trait: what reads give, what is held through a crash, and the
//! offsets that a crash may leave torn; and disks in memory that keep its rules, for tests and for
//! drills.
#![tactic(auto)]

mod device;
mod failing;
mod fused;
mod memory;
mod switch;

pub use device::{Disk, DiskFault};
pub use failing::FailingDisk;
pub use fused::FusedDisk;
pub use memory::{Fill, MemoryDisk};
pub use switch::Switch;
