//! How a recorder ends that isn't done.

use crate::refusal::Refusal;
use std::alloc::{AllocError, AllocFailed};
use std::io;
use thiserror::Error;

/// How a recorder ends that isn't done.
#[derive(Debug, Drop, Error)]
pub enum Stopped {
    /// It is refused, which is still to be told.
    #[error("{0}")]
    Refused(#[source] Refusal),
    /// It was refused, and that was told.
    #[error("it was refused")]
    Told,
    /// A stream can't be written, or memory for the program's own work runs out.
    #[error("{0}")]
    Failed(#[source] io::Error),
}

impl Stopped {
    /// Memory for the program's own work runs out.
    pub fn out_of_memory() -> Stopped {
        Stopped::Failed(io::ErrorKind::OutOfMemory.into())
    }
}

impl From<Refusal> for Stopped {
    fn from(refusal: Refusal) -> Stopped {
        Stopped::Refused(refusal)
    }
}

impl From<AllocError> for Stopped {
    fn from(_: AllocError) -> Stopped {
        Stopped::out_of_memory()
    }
}

impl<T: Drop> From<AllocFailed<T>> for Stopped {
    fn from(_: AllocFailed<T>) -> Stopped {
        Stopped::out_of_memory()
    }
}

impl From<io::Error> for Stopped {
    fn from(error: io::Error) -> Stopped {
        Stopped::Failed(error)
    }
}
