//! The messages of a stream, in whatever pieces it comes.

ghost use Rattle.std.specs.Prelude.{◌<◌};

use rfb_wire::{HostMessage, ServerReader};
use std::alloc::Global;
use terms::{ScreenSize, WireFault};

/// The size of the screens.
pub(crate) const SIZE: ScreenSize = ScreenSize {
    width: 320,
    height: 240,
};

/// Why a stream is refused.
#[derive(Drop)]
pub(crate) enum Refused {
    /// The reader found this fault.
    Wire(WireFault),
    /// Pieces of another length gave other messages.
    Cut,
}

// The messages of a stream that comes in pieces of this length.
fn messages_of(alloc: Global, stream: &[u8], length: usize) -> Result<Vec<HostMessage>, WireFault>
    requires { 0 < length }
{
    let mut reader = ServerReader::new(alloc, SIZE);
    let mut messages = Vec::new(alloc);
    for piece in stream.chunks(length) {
        reader.feed(piece, &mut messages)?;
    }
    Ok(messages)
}

/// Whether the messages have the same bytes and rectangles.
pub(crate) fn are_same(first: &[HostMessage], second: &[HostMessage]) -> bool {
    if first.len() != second.len() {
        return false;
    }
    for (one, other) in first.iter().zip(second.iter()) {
        if one.bytes() != other.bytes() || one.rectangles() != other.rectangles() {
            return false;
        }
    }
    true
}

/// The messages of a stream that comes as a whole, if they are the same in pieces of 1, 7 and 1,000
/// bytes.
pub(crate) fn messages_in_pieces(
    alloc: Global,
    stream: &[u8],
) -> Result<Vec<HostMessage>, Refused> {
    let whole = messages_of(alloc, stream, stream.len().max(1)).map_err(Refused::Wire)?;
    for length in [1, 7, 1_000] {
        let pieces = messages_of(alloc, stream, length).map_err(Refused::Wire)?;
        if !are_same(&whole, &pieces) {
            return Err(Refused::Cut);
        }
    }
    Ok(whole)
}
