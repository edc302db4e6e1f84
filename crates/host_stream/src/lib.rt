//! What has come of a host's stream: its messages, each of which is given once, and how it ended.
#![tactic(auto)]

mod end;
mod laws;
mod stream;
#[cfg(test)]
mod tests;

pub use end::HostEnd;
pub use laws::each_message_is_of_its_host;
pub use stream::{HostStream, Next};
