//! How many bytes are read.

use std::alloc::{AllocError, Global};
use std::sync::Arc;
use std::sync::atomic::{AtomicU64, Ordering};

/// How many bytes were read of a file, for who asks meanwhile: each that is made by
/// [`share`](Tally::share) has the same.
#[derive(Drop)]
pub struct Tally {
    bytes: Arc<AtomicU64>,
}

impl Tally {
    /// None was read.
    pub fn new(alloc: Global) -> Result<Tally, AllocError> {
        let bytes = Arc::new(alloc, AtomicU64::new(0))?;
        Ok(Tally { bytes })
    }

    /// The same.
    pub fn share(&self) -> Result<Tally, AllocError> {
        let bytes = self.bytes.clone()?;
        Ok(Tally { bytes })
    }

    /// So many more are read.
    pub fn add(&self, bytes: usize) {
        self.bytes.fetch_add(bytes as u64, Ordering::SeqCst);
    }

    /// How many were read.
    pub fn bytes(&self) -> u64 {
        self.bytes.load(Ordering::SeqCst)
    }
}
