//! A browser that wants something of a recording.

use std::net::{SocketAddr, TcpStream};
use std::sync::Arc;
use web_target::{Beginning, Survey};

/// What a browser wants of a recording.
#[derive(Clone, Copy, Debug, PartialEq, Eq)]
pub enum Wish {
    /// To be told what came when. It isn't answered yet.
    Times(Survey),
    /// To watch, from here on. The upgrade to a WebSocket is answered.
    Watch(Beginning),
}

/// A connection whose request is heard.
#[derive(Drop)]
pub struct Visit {
    pub stream: Arc<TcpStream>,
    /// The address that it is from.
    pub from: SocketAddr,
    /// Its number in the lobby, which one that watches has left.
    pub number: u64,
    pub wish: Wish,
}
