//! How a recording gets its name: an account over the calls of a folder that may crash.
#![tactic(auto)]

mod draft;
mod laws;
mod memory_folder;
mod publishing;
mod settling;
mod standing;
mod system_folder;
mod target;

pub use draft::{DraftFault, Leftover, make_draft};
pub use laws::{
    a_free_name, a_kept_name, a_recording_in_the_making, a_settled_recording,
    a_settled_recording_that_grows, a_target_in_the_making,
};
pub use memory_folder::{Chosen, MemoryFile, MemoryFolder};
pub use publishing::{PublishFault, publish};
pub use settling::{Settled, settle};
pub use standing::{Standing, StandingFault, stand_at};
pub use system_folder::{Access, Found, Identity, Kind, SystemFolder};
pub use target::{Target, TargetFault, target_at};

#[cfg(test)]
mod tests;
