//! Why bytes are refused.

ghost use Rattle.std.specs.Prelude.{◌≡◌};
ghost use Rattle.rfb_wire.specs.Fault.{bytes_number};

use terms::WireFault;
use thiserror::Error;

/// Why bytes are not one recorded message.
#[derive(Debug, Clone, Copy, PartialEq, Eq, Error)]
pub enum BytesFault {
    /// They hold no fault, and are not exactly one recorded message.
    #[error("not exactly one recorded message")]
    NotOne,
    /// What a reader answers for them.
    #[error("{0}")]
    Wire(WireFault),
}

impl BytesFault {
    /// The fault's number, by which it is printed: 0 for `NotOne`, else the reader's fault's.
    pub fn number(&self) -> u64
        ensures { result ≡ bytes_number self.now }
    {
        match self {
            BytesFault::NotOne => 0,
            BytesFault::Wire(fault) => fault.number(),
        }
    }
}
