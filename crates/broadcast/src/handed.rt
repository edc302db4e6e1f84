//! What a viewer is handed that doesn't paint by itself.

use painter::Snapshot;
use replay::Slice;

/// Messages that a seat is handed, and a snapshot of the screen after them, if there is one.
#[derive(Drop)]
pub struct Handed {
    pub slice: Slice,
    /// The screen after the last of the messages, or at their number if there are none.
    pub snapshot: Option<Snapshot>,
}
