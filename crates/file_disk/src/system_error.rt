//! What the system said of a failure, to be kept.

use std::{fmt, io};

/// What the system said of a failure: as an `io::Error`, and it can be copied.
#[derive(Clone, Copy, Debug, PartialEq, Eq)]
pub struct SystemError {
    number: Option<i32>,
    kind: io::ErrorKind,
}

impl SystemError {
    /// The same, without what can't be copied.
    pub fn of(error: &io::Error) -> SystemError {
        SystemError {
            number: error.raw_os_error(),
            kind: error.kind(),
        }
    }
}

impl fmt::Display for SystemError {
    fn fmt<W: fmt::Write>(&self, f: &mut fmt::Formatter<W>) -> fmt::Result {
        match self.number {
            Some(number) => write!(f, "{}", io::Error::from_raw_os_error(number)),
            None => write!(f, "{}", io::Error::from(self.kind)),
        }
    }
}
