//! Why no digest is told.

use thiserror::Error;

/// Why no digest is told.
#[derive(Clone, Copy, Debug, PartialEq, Eq, Error)]
pub enum DigestFault {
    /// The recording is of format 1, whose blocks have none.
    #[error("the recording has no digests")]
    NoDigests = 1,
    /// No block has it; or, if none is asked for, there is no block.
    #[error("no block has this digest")]
    NotFound,
}

impl DigestFault {
    ghost use Rattle.std.specs.Prelude.{◌≤◌};

    /// The number that programs print.
    pub fn number(self) -> u64
        ensures { (1 ≤ result) × (result ≤ 2) }
    {
        self as u64
    }
}
