//! What a page tells of a recording's course: its blocks, few of them by themselves and many
//! together.
#![tactic(auto)]

mod stretch;
mod text;
mod timeline;

pub use stretch::{Block, Stretch};
pub use text::{Facts, write_timeline};
pub use timeline::Timeline;

#[cfg(test)]
mod tests;
