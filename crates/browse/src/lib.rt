//! A page on which a recording is looked at, served over HTTP.
#![tactic(auto)]

mod archive;
mod browsing;
mod entrance;
mod handover;
mod keeping;
mod opening;
mod presence;

pub use browsing::{Browsing, browse};
pub use file_commands;
pub use presence::{Presence, is_due, is_to_be_opened};
