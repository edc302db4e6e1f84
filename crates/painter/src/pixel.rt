//! What a screen keeps for a pixel.

ghost use Rattle.std.specs.Prelude.{◌<◌, ◌^◌};

/// The colour of a pixel: its number in the host's format, lowest byte first, whose unused highest
/// byte is 0.
#[derive(Clone, Copy, PartialEq)]
pub(crate) struct Pixel {
    pub(crate) number: u32,
    pub(crate) ghost short: { number < 2 ^ 24 },
}

pub(crate) const BLACK: Pixel = Pixel { number: 0 };
