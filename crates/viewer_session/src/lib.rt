//! What a viewer of a recording sees: the screen at a position, the pixels that it lacks, and the
//! updates that answer what it asks for (RFC 6143).
#![tactic(auto)]

mod fault;
mod giving;
mod greeting;
mod handshake;
mod laws;
mod listener;
mod noting;
mod painting;
mod session;
mod shown;
mod update;
mod view;

pub use fault::SessionFault;
pub use handshake::is_whole;
pub use laws::{
    a_refused_stream_is_not_followed, a_viewer_is_served, any_cut_gives_the_same, one_refusal,
};
pub use session::Session;
pub use shared_updates;
