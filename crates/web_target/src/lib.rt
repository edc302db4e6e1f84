//! What a browser asks for: by the target of its request, and by the texts of its connection.
#![tactic(auto)]

mod asked;
mod order;
mod target;
mod words;

pub use asked::{Asked, Beginning, Order, Playback, Survey};
pub use order::order_of;
pub use target::asked_by;

#[cfg(test)]
mod tests;
