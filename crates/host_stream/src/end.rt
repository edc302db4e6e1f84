//! How a host's stream ended.

use host_session::HostFault;

/// How a host's stream ended.
#[derive(Clone, Copy, Debug, PartialEq, Eq)]
pub enum HostEnd {
    /// At its end, after so many bytes of a message that isn't whole, which are dropped.
    Closed(u64),
    /// By a failure of its socket.
    Socket,
    /// By a fault.
    Fault(HostFault),
}
