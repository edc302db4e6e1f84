//! The workers that host, flush and view beside each other, over a shared book, and those that they
//! work for.
#![tactic(auto)]

mod occupied;
mod parties;
mod workers;

pub use parties::{HostSource, Point, ReceiptSink, Turnstile, ViewerSink, ViewerWish};
pub use replay;
pub use replay::key_index;
pub use shared_book;
pub use shared_book::{broadcast, flusher_core};
pub use workers::{FlusherEnd, ViewerEnd, run_flusher, run_host, run_viewer};
