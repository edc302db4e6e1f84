//! How the pixels of a rectangle are written.

ghost use Rattle.std.specs.Prelude.{◌≡◌};
ghost use Rattle.rect_data.specs.Data.{number_of};
ghost use Rattle.rect_data.specs.Grammar.{encoding_of};

/// How the pixels of a rectangle are written (RFC 6143, section 7.7).
#[derive(Clone, Copy, Debug, PartialEq, Eq)]
pub enum Encoding {
    /// All pixels by rows, from the top and the left (section 7.7.1).
    Raw = 0,
    /// An area of the screen, which is copied (section 7.7.2).
    CopyRect = 1,
    /// A background, and subrectangles over it (section 7.7.3).
    Rre = 2,
    /// Tiles of 16 by 16 pixels, each with its own background and subrectangles, or its pixels
    /// (section 7.7.4).
    Hextile = 5,
}

impl Encoding {
    /// The encoding that has this number; none if it isn't one of the four.
    pub fn from_number(number: u32) -> Option<Encoding>
        ensures { result ≡ encoding_of number }
    {
        match number {
            0 => Some(Encoding::Raw),
            1 => Some(Encoding::CopyRect),
            2 => Some(Encoding::Rre),
            5 => Some(Encoding::Hextile),
            _ => None,
        }
    }

    /// The number by which a rectangle's header names it: 0, 1, 2 or 5.
    pub fn number(self) -> u32
        ensures { result ≡ number_of self }
    {
        self as u32
    }
}
