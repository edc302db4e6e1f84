//! Why a pixel format is refused.

ghost use Rattle.terms.specs.Fault.{IsNumber, format_faults};

use thiserror::Error;

/// The first test that a pixel format fails; they stand here in their order. Each is made of all
/// three channels before the next one.
#[derive(Debug, Clone, Copy, PartialEq, Eq, Error)]
pub enum PixelFormatFault {
    /// A pixel has other than 8, 16 or 32 bits.
    #[error("a pixel of other than 8, 16 or 32 bits")]
    BadBits = 1,
    /// Pixels are no colours, but indices into a colour map.
    #[error("not a true-color format")]
    NoTrueColor,
    /// A channel's maximum is not one less than a power of two.
    #[error("a maximum that is not one less than a power of two")]
    BadMax,
    /// A channel has bits outside the pixel.
    #[error("a channel outside the pixel")]
    FieldOutside,
    /// Two channels have a bit in common.
    #[error("channels that overlap")]
    FieldsOverlap,
}

impl PixelFormatFault {
    /// The fault's number, by which it is printed: 1 to 5, in the order of the tests.
    pub fn number(&self) -> u64
        ensures { IsNumber format_faults self.now result }
    {
        *self as u64
    }
}
