//! What `recorderd serve` begins with: the recording, the host, and the listeners.
#![tactic(auto)]

mod beginning;
mod draft;
mod opening;
mod reading;
mod recording;

pub use opening::{Begun, Listened, Opened, Opening, Source};
pub use reading::Reading;
pub use recording::is_still_at;
