//! The shared book: a desk under a lock, and receipts and tickets for what threads were told.
#![tactic(auto)]

mod closed;
mod held;
mod receipt;
mod shared;

pub use book_tokens::{Mark, Token};
pub use broadcast;
pub use closed::Closed;
pub use flusher_core;
pub use held::Held;
pub use receipt::{Delivery, Ending, FlusherPen, HostPen, Receipt, Ticket};
pub use shared::{Shared, Sharing};
