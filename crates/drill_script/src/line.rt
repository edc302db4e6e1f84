//! What a line says.

use terms::{Format, ScreenSize};

/// What a stop leaves of the bytes that were not synced.
#[derive(Clone, Copy, Debug, PartialEq, Eq)]
pub enum Fill {
    /// `held`: the bytes of the last sync.
    Held,
    /// `now`: the bytes as they were written.
    Now,
    /// Two hexadecimal digits: this byte at each offset that was written since the last sync.
    Byte(u8),
}

/// The position at which a new seat begins.
#[derive(Clone, Copy, Debug, PartialEq, Eq)]
pub enum Start {
    /// `live`: after the last committed message.
    Live,
    /// `N`: after the first N messages.
    At(u64),
}

/// A line of a drill script.
#[derive(Debug, PartialEq, Eq, Drop)]
pub enum Line {
    /// `new W H K NAME`: a new recording of format 1, of a screen of W by H, with a key each K
    /// messages; `new2 W H K NAME`: one of format 2.
    New {
        format: Format,
        size: ScreenSize,
        key_interval: u16,
        name: Vec<u8>,
    },
    /// `open`: the recording is closed and opened again.
    Open,
    /// Any other line, which wants a recording that is open.
    OnDesk(DeskLine),
}

/// A line that wants a recording that is open, and a desk on it.
#[derive(Debug, PartialEq, Eq, Drop)]
pub enum DeskLine {
    /// `host T HEX`: these bytes came from the host, T milliseconds after the start.
    Host { time: u32, bytes: Vec<u8> },
    /// `take`: the accepted messages go into a block.
    Take,
    /// `body`: the block is written, with its gate closed.
    Body,
    /// `gate`: the block's gate is opened.
    Gate,
    /// `join live`, `join N`: a viewer takes a free seat, live or after the first N messages.
    Join { start: Start },
    /// `next S LIMIT`: the next messages of seat S, LIMIT of them at most.
    Next { seat: u32, limit: u32 },
    /// `seek S N`: seat S goes to position N, after the first N messages.
    Seek { seat: u32, count: u64 },
    /// `leave S`: seat S is free again.
    Leave { seat: u32 },
    /// `pixel N X Y`: the colour at (X, Y) after N messages.
    Pixel { count: u64, x: u16, y: u16 },
    /// `fail N`: the device call after N more fails, once.
    Fail { calls: u64 },
    /// `stop N FILL`: N more device calls pass, and then all fail. The next `open` finds what FILL
    /// leaves.
    Stop { calls: u64, fill: Fill },
}
