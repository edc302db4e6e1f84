//! Pixel formats of the remote framebuffer protocol, and the colours of their pixels (RFC 6143,
//! section 7.4).
#![tactic(auto)]

mod appending;
mod canvas;
mod colors;
mod format;
mod laws;
mod pixels;
mod runs;
mod votes;

pub use canvas::Canvas;
pub use colors::same;
pub use format::{PixelFormat, host_pixel};
pub use laws::{valid_formats, written_as_read};
pub use pixels::Pixels;
pub use runs::end_of_number;
pub use votes::most_voted;

/// A colour: how much of red, green and blue, each from 0 to its channel's maximum. A colour of a
/// screen has channels of at most 255.
#[derive(Clone, Copy, Debug, PartialEq, Eq)]
pub struct Color {
    pub r: u16,
    pub g: u16,
    pub b: u16,
}
