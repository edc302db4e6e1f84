//! What the program has instead of a turnstile, which only tests look into.

use watching::book_workers::{Point, Turnstile};

/// Holds no worker.
#[derive(Drop)]
pub struct NoTurnstile;

impl Turnstile for NoTurnstile {
    fn pass(&self, _point: Point) {}
}
