//! What viewers and browsers come in by.

use sockets::Listeners;
use web_lobby::Lobby;

/// The listeners for viewers and for browsers, and who of these is served.
#[derive(Drop)]
pub struct Doors<'a> {
    pub listeners: &'a Listeners,
    /// By which names browsers may ask, besides addresses and `localhost`.
    pub names: &'a [&'a [u8]],
    /// The browsers that are served.
    pub lobby: &'a Lobby,
}
