//! What the system said of the last call of a file that failed.

use std::alloc::{AllocError, Global};
use std::io;
use std::sync::Arc;
use std::sync::atomic::{AtomicI32, Ordering};

/// The system's word for the last call that failed, if one did, for who tells of it: each that is
/// made by [`share`](LastError::share) has the same.
#[derive(Drop)]
pub struct LastError {
    // The system's number of the failure, or 0.
    number: Arc<AtomicI32>,
}

impl LastError {
    /// No call has failed.
    pub fn new(alloc: Global) -> Result<LastError, AllocError> {
        let number = Arc::new(alloc, AtomicI32::new(0))?;
        Ok(LastError { number })
    }

    /// The same.
    pub fn share(&self) -> Result<LastError, AllocError> {
        let number = self.number.clone()?;
        Ok(LastError { number })
    }

    /// Notes a failure; one that isn't the system's is none of its words.
    pub fn note(&self, error: &io::Error) {
        if let Some(number) = error.raw_os_error() {
            self.number.store(number, Ordering::SeqCst);
        }
    }

    /// The failure that was noted last.
    pub fn get(&self) -> Option<io::Error> {
        match self.number.load(Ordering::SeqCst) {
            0 => None,
            number => Some(io::Error::from_raw_os_error(number)),
        }
    }
}
