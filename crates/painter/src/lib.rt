//! Screens that are painted by the messages of a host (RFC 6143, section 7.7).
#![tactic(auto)]

mod colors;
mod key;
mod laws;
mod numbering;
mod pixel;
mod reading;
mod rectangle;
mod row;
mod screen;
mod sending;
mod shared_rows;
mod sheet;
mod snapshot;
mod update;

pub use laws::written_update_paints;
pub use screen::Screen;
pub use snapshot::Snapshot;
pub use update::ScreenPart;
