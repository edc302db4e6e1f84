//! What the crates above mean by one word: the format of a recording and its limits, a screen's
//! size, an area of a screen, a field of bytes, the length of data, what is wrong with a peer's
//! bytes, running out of memory, a number in text; and, for contracts, readings, conversations and
//! numbers.
#![tactic(auto)]

mod appending;
mod area;
mod decimal;
mod format;
mod front;
mod measuring;
mod number;
mod pixel_format_fault;
mod screen_size;
mod wire_fault;

pub use appending::{append_come, keep_below, whole_or_none};
pub use area::Area;
pub use decimal::decimal_number;
pub use format::{Format, Limits, RecordedScreen};
pub use front::field;
pub use measuring::{NoLength, WholeFields};
pub use number::{four_bytes, read_u16, read_u32, two_bytes};
pub use pixel_format_fault::PixelFormatFault;
pub use screen_size::ScreenSize;
pub use wire_fault::WireFault;

/// Out of memory: a growth was refused.
pub type NoMemory = std::alloc::AllocError;
