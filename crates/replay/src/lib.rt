//! Screens of a recording: after any number of its messages, and from any of its blocks on. Also how
//! many of them have come at a moment.
#![tactic(auto)]

mod fault;
mod moment;
mod playing;
mod screens;
mod slice;

pub use fault::{OutputFault, ReplayFault};
pub use key_index;
pub use moment::count_at;
pub use playing::{Replay, from_block, from_count};
pub use screens::screen_at;
pub use slice::Slice;
