//! Why a line could not be read.

ghost use Rattle.std.specs.Prelude.{◌≡◌};
ghost use Rattle.drill_script.specs.declared.fault.LineFault.TheVariants.{NoMemory};

use hex::FromHexError;
use std::alloc::AllocError;
use thiserror::Error;

/// Why a line could not be read.
#[derive(Debug, Clone, Copy, PartialEq, Eq, Error)]
pub enum LineFault {
    /// The text is no line of a drill script.
    #[error("not a line of a drill script")]
    Bad,
    /// There was no memory for the line's bytes.
    #[error("out of memory")]
    NoMemory,
}

impl From<AllocError> for LineFault {
    ghost from_gives = { λ _ fault. fault ≡ NoMemory };

    fn from(_fault: AllocError) -> LineFault {
        LineFault::NoMemory
    }
}

impl From<FromHexError> for LineFault {
    ghost use Rattle.drill_script.specs.Faults.{IsOfHex};

    ghost from_gives = { IsOfHex };

    fn from(fault: FromHexError) -> LineFault {
        match fault {
            FromHexError::OutOfMemory => LineFault::NoMemory,
            FromHexError::InvalidHexCharacter { .. }
            | FromHexError::OddLength
            | FromHexError::InvalidStringLength => LineFault::Bad,
        }
    }
}
