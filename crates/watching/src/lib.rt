//! What a viewer's worker works for: a recording that is shown as it grows, or in its own time.
#![tactic(auto)]

mod failure;
mod live;
mod played;
mod still;
mod viewing;
mod watching;

pub use connections;
pub use connections::{book_workers, broadcast, flusher_core, shared_book};
pub use live::Live;
pub use played::Played;
pub use still::Still;
pub use viewing::Viewing;
pub use watching::{Guide, Watching};
