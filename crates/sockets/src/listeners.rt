//! Where a recorder is connected to.

use std::net::TcpListener;

/// The listeners for viewers and for browsers, of which one may be left out.
#[derive(Drop)]
pub struct Listeners {
    pub viewers: Option<TcpListener>,
    pub web: Option<TcpListener>,
}
