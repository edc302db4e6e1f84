//! The formats of a recording, and the limits of what each records.

ghost use Rattle.std.specs.Prelude.{◌≡◌, ◌↔◌, ◌<◌, IsTrue};
ghost use Rattle.terms.specs.Limits.{limits, AreLimits, IsSize, is_size};

use crate::ScreenSize;

/// The format of a recording, which its header names; the limits of screens and of messages go by
/// it.
#[derive(Clone, Copy, Debug, PartialEq, Eq)]
pub enum Format {
    /// Blocks of numbers and a body.
    One,
    /// The same, each with a digest that continues the one before it.
    Two,
}

/// A screen that is recorded: its size, and the format of the recording, by whose limits its
/// messages are judged.
#[derive(Clone, Copy, Debug, PartialEq, Eq)]
pub struct RecordedScreen {
    pub format: Format,
    pub size: ScreenSize,
}

/// The limits of what a format records.
#[derive(Clone, Copy, Debug, PartialEq, Eq)]
pub struct Limits {
    /// The most pixels in a row or a column of a screen.
    pub side: u16,
    /// The most pixels of a screen.
    pub area: u32,
    /// The most bytes of a host's message.
    pub message: usize,
    /// The most bytes of a block's body.
    pub body: usize,
    /// How many viewers may watch at a time.
    pub seats: usize,
}

impl Format {
    /// Its limits. Format 1 has sides to 8,192, an area to 2^23, messages to 2^26 bytes, bodies to
    /// 2^27 bytes and 64 seats; format 2 sides to 16,384, an area to 2^25, messages to 2^28 bytes,
    /// bodies to 2^29 bytes and 256 seats.
    pub const fn limits(self) -> Limits
        ensures value { result ≡ limits self }
        ensures bounds { AreLimits result }
    {
        match self {
            Format::One => Limits {
                side: 8192,
                area: 1 << 23,
                message: 1 << 26,
                body: 1 << 27,
                seats: 64,
            },
            Format::Two => Limits {
                side: 16384,
                area: 1 << 25,
                message: 1 << 28,
                body: 1 << 29,
                seats: 256,
            },
        }
    }
}

impl Limits {
    /// Whether a screen may have this size: at least one pixel, and its sides and its area within
    /// the limits.
    pub fn allow(self, size: ScreenSize) -> bool
        ensures is { IsTrue result ↔ IsSize self size.width size.height }
        ensures tested { result ≡ is_size self size.width size.height }
    {
        1 <= size.width
            && size.width <= self.side
            && 1 <= size.height
            && size.height <= self.side
            && u32::from(size.width) * u32::from(size.height) <= self.area
    }
}
