//! What ends a connection.

ghost use Rattle.std.specs.Prelude.{◌≡◌};
ghost use Rattle.web_frames.specs.Frames.{code_of};

use std::alloc::AllocError;
use thiserror::Error as ThisError;
use websocket::error::Error;
use websocket::protocol::CloseCode;

/// Why a viewer's frames are read no further.
#[derive(Clone, Copy, Debug, PartialEq, Eq, ThisError)]
pub enum Fault {
    /// It has closed the connection as RFC 6455 has it (section 7.1.4).
    #[error("closed")]
    Closed,
    /// A frame is unmasked, has a reserved bit or opcode, or is out of turn (sections 5.1 to 5.5).
    #[error("a frame breaks the protocol")]
    Protocol,
    /// A frame, or a message in fragments, is longer than is taken.
    #[error("a message is too long")]
    TooLong,
    /// A text, or the reason of a close, isn't UTF-8 (section 8.1).
    #[error("a text isn't UTF-8")]
    NotUtf8,
    /// Out of memory.
    #[error("out of memory")]
    NoMemory,
}

impl Fault {
    /// The code that the connection is closed with (RFC 6455, section 7.4.1).
    pub fn code(self) -> CloseCode
        ensures { result ≡ code_of self }
    {
        match self {
            Fault::Closed => CloseCode::Normal,
            Fault::Protocol => CloseCode::Protocol,
            Fault::TooLong => CloseCode::Size,
            Fault::NotUtf8 => CloseCode::Invalid,
            Fault::NoMemory => CloseCode::Error,
        }
    }
}

impl From<AllocError> for Fault {
    ghost use Rattle.std.specs.Prelude.{◌≡◌};
    ghost use Rattle.web_frames.specs.declared.fault.Fault.TheVariants.{NoMemory};

    ghost from_gives = { λ _ f. f ≡ NoMemory };

    fn from(_error: AllocError) -> Fault {
        Fault::NoMemory
    }
}

impl From<Error> for Fault {
    ghost use Rattle.std.specs.Prelude.{◌≡◌};
    ghost use Rattle.web_frames.specs.Frames.{fault_of};

    ghost from_gives = { λ error f. f ≡ fault_of error };

    fn from(error: Error) -> Fault {
        match error {
            Error::ConnectionClosed | Error::AlreadyClosed => Fault::Closed,
            Error::Capacity(_) => Fault::TooLong,
            Error::Protocol(_) => Fault::Protocol,
            Error::Utf8 => Fault::NotUtf8,
            Error::OutOfMemory => Fault::NoMemory,
        }
    }
}
