//! How moments of a recording, and names and paths, are spelled on the command line and in what is
//! told.
#![tactic(auto)]

mod escaping;
mod moments;

pub use escaping::Escaped;
pub use moments::moment;
