//! The page on which a session is watched live, and gone back in.
#![tactic(auto)]

mod page;

pub use page::{PAGE, SCRIPT, STYLE};
