//! How a viewer's bytes are carried: as they are, or in the frames of a WebSocket.
#![tactic(auto)]

mod carriage;
mod ending;
mod framed;
mod status;

pub use carriage::Carriage;
pub use ending::Ending;
pub use framed::Framed;
pub use status::Status;

#[cfg(test)]
mod tests;
