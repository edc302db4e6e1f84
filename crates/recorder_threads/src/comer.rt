//! Who comes before the recording is open.

use crate::viewer_stream::ViewerStream;
use std::net::SocketAddr;
use watching::connections::Guest;

/// One who came while the recording was read, and the address that it came from. The handshake is
/// whole, or goes on.
#[derive(Drop)]
pub struct Comer {
    pub guest: Guest<ViewerStream>,
    pub from: SocketAddr,
}
