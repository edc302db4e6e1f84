//! Why a viewer's session ends.

ghost use Rattle.std.specs.Prelude.{◌≡◌};
ghost use Rattle.viewer_session.specs.Fault.{session_number};

use terms::WireFault;
use thiserror::Error;

/// Why a session with a viewer ends, at the first field that is refused (RFC 6143, sections 7.1 to
/// 7.5).
#[derive(Debug, Clone, Copy, PartialEq, Eq, Error)]
pub enum SessionFault {
    /// A message is refused for this fault, or memory ran out.
    #[error("a message of the viewer: {0}")]
    Wire(WireFault),
    /// The viewer speaks another version than 003.008.
    #[error("a viewer of another version")]
    Version,
    /// It chooses another security type than None.
    #[error("a viewer that chooses another security type than None")]
    Security,
    /// It is closed.
    #[error("a session that is closed")]
    Closed,
}

impl SessionFault {
    /// The fault's number, by which it is printed: that of the wire's fault, or 20 to 22 in the
    /// order above.
    pub fn number(&self) -> u64
        ensures { result ≡ session_number self.now }
    {
        match self {
            SessionFault::Wire(fault) => fault.number(),
            SessionFault::Version => 20,
            SessionFault::Security => 21,
            SessionFault::Closed => 22,
        }
    }
}
