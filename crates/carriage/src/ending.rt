//! Why a viewer's connection ends.

ghost use Rattle.std.specs.Prelude.{◌≡◌};
ghost use Rattle.carriage.specs.Endings.{code_of_ending};

use reception::Reason;
use web_frames::Fault;
use websocket::protocol::CloseCode;

/// Why a viewer's connection ends, as it is told in a WebSocket's close (RFC 6455, section 7.4).
#[derive(Clone, Copy, Debug, PartialEq, Eq)]
pub enum Ending {
    /// The recorder has ended, and all was shown.
    Ended,
    /// There is no seat.
    TurnedAway(Reason),
    /// It was to begin after more messages than there are.
    TooFar,
    /// What it was to be shown can't be read.
    Unreadable,
    /// It asked for what there isn't.
    Unknown,
    /// It broke the rules of frames.
    Faulty(Fault),
}

impl Ending {
    /// The code: one of the protocol's, or from 4000 on.
    pub fn code(self) -> CloseCode
        ensures { result ≡ code_of_ending self }
    {
        match self {
            Ending::Ended => CloseCode::Normal,
            Ending::TurnedAway(Reason::Full) => CloseCode::Library(4001),
            Ending::TurnedAway(Reason::Enough) => CloseCode::Library(4002),
            Ending::TurnedAway(Reason::Closing) => CloseCode::Library(4003),
            Ending::TooFar => CloseCode::Library(4004),
            Ending::Unreadable => CloseCode::Library(4005),
            Ending::Unknown => CloseCode::Policy,
            Ending::Faulty(fault) => fault.code(),
        }
    }

    /// The reason, in words.
    pub fn reason(self) -> &'static str {
        match self {
            Ending::Ended => "the recorder has ended",
            Ending::TurnedAway(reason) => reason.text(),
            Ending::TooFar => "the recording has fewer messages",
            Ending::Unreadable => "the recording can't be read",
            Ending::Unknown => "there is no such thing to ask for",
            Ending::Faulty(Fault::Closed) => "closed",
            Ending::Faulty(Fault::Protocol) => "a frame breaks the protocol",
            Ending::Faulty(Fault::TooLong) => "a message is too long",
            Ending::Faulty(Fault::NotUtf8) => "a text isn't UTF-8",
            Ending::Faulty(Fault::NoMemory) => "memory is short",
        }
    }
}
