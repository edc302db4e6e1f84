//! Why bytes are refused.

ghost use Rattle.std.specs.Prelude.{◌≡◌};
ghost use Rattle.terms.specs.declared.wire_fault.WireFault.TheVariants as faults;
ghost use Rattle.terms.specs.Fault.{wire_number};

use crate::PixelFormatFault;
use std::alloc::{AllocError, AllocFailed};
use thiserror::Error;

/// What is wrong with the bytes of a peer, a viewer or a host, at the first field that is refused.
#[derive(Debug, Clone, Copy, PartialEq, Eq, Error)]
pub enum WireFault {
    /// No message has this type.
    #[error("a message of an unknown type")]
    UnknownType,
    /// A rectangle leaves the screen.
    #[error("a rectangle outside the screen")]
    OutsideScreen,
    /// A rectangle's encoding, which has this number, is not known.
    #[error("an unknown encoding: {0}")]
    Encoding(i32),
    /// An update of more than 67,108,864 bytes.
    #[error("an update that is too long")]
    TooLong,
    /// A subrectangle of an RRE rectangle leaves the rectangle.
    #[error("RRE data that are refused")]
    BadRre,
    /// In a Hextile rectangle, a tile's mask may not stand there, or a subrectangle leaves its
    /// tile.
    #[error("Hextile data that are refused")]
    BadHextile,
    /// The area from which a CopyRect rectangle is copied leaves the screen.
    #[error("a rectangle copied from outside the screen")]
    SourceOutside,
    /// A pixel format is refused, for this reason.
    #[error("a pixel format that is refused: {0}")]
    BadFormat(PixelFormatFault),
    /// There is no memory for what the bytes say.
    #[error("no memory")]
    NoMemory,
}

impl From<AllocError> for WireFault {
    ghost from_gives = { λ _ f. f ≡ faults.NoMemory };

    fn from(_fault: AllocError) -> WireFault {
        WireFault::NoMemory
    }
}

impl<T: Drop> From<AllocFailed<T>> for WireFault {
    ghost from_gives = { λ _ f. f ≡ faults.NoMemory };

    fn from(_fault: AllocFailed<T>) -> WireFault {
        WireFault::NoMemory
    }
}

impl WireFault {
    /// The fault's number, by which it is printed: 1 to 7 in the order above, 8 for a pixel format,
    /// and 9 for memory that ran out.
    pub fn number(&self) -> u64
        ensures { result ≡ wire_number self.now }
    {
        match self {
            WireFault::UnknownType => 1,
            WireFault::OutsideScreen => 2,
            WireFault::Encoding(_) => 3,
            WireFault::TooLong => 4,
            WireFault::BadRre => 5,
            WireFault::BadHextile => 6,
            WireFault::SourceOutside => 7,
            WireFault::BadFormat(_) => 8,
            WireFault::NoMemory => 9,
        }
    }
}
