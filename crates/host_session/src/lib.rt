//! The recorder's side of a VNC host's connection (RFC 6143, version 3.8), without a socket.
#![tactic(auto)]

mod exchange;
mod expected;
mod fault;
mod handshake;
mod laws;
mod listening;
mod request;
mod session;
mod stage;

pub use fault::HostFault;
pub use laws::{
    a_session_follows_its_stream, a_stopped_session_follows_its_stream, any_cut_gives_the_same,
    one_conversation,
};
pub use session::HostSession;
