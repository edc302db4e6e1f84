//! How far a file is written.

use std::alloc::{AllocError, Global};
use std::sync::Arc;
use std::sync::atomic::{AtomicU64, Ordering};

/// The highest offset up to which a file was written, for whoever asks in the end if the file has
/// it all: each that is made by [`share`](Written::share) has the same.
#[derive(Drop)]
pub struct Written {
    end: Arc<AtomicU64>,
}

impl Written {
    /// Nothing is written.
    pub fn new(alloc: Global) -> Result<Written, AllocError> {
        let end = Arc::new(alloc, AtomicU64::new(0))?;
        Ok(Written { end })
    }

    /// The same.
    pub fn share(&self) -> Result<Written, AllocError> {
        let end = self.end.clone()?;
        Ok(Written { end })
    }

    /// Notes that the file is written up to this offset.
    pub fn note(&self, end: u64) {
        self.end.fetch_max(end, Ordering::SeqCst);
    }

    /// Up to which offset it is written.
    pub fn end(&self) -> u64 {
        self.end.load(Ordering::SeqCst)
    }
}
