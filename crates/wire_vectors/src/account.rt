//! An account of what comes of a vector.

use std::alloc::{AllocError, AllocFailed, Global};
use std::fmt::{Display, Write};
use std::io;
use terms::NoMemory;

/// Why nothing is told of a vector.
#[derive(Clone, Copy)]
pub(crate) enum Untold {
    /// Its words are no vector.
    NoVector,
    /// There is no memory for what comes of it.
    NoMemory,
}

impl From<AllocError> for Untold {
    fn from(_fault: AllocError) -> Untold {
        Untold::NoMemory
    }
}

impl<T: Drop> From<AllocFailed<T>> for Untold {
    fn from(_fault: AllocFailed<T>) -> Untold {
        Untold::NoMemory
    }
}

impl From<Untold> for io::Error {
    fn from(why: Untold) -> io::Error {
        match why {
            Untold::NoVector => io::ErrorKind::InvalidData.into(),
            Untold::NoMemory => io::ErrorKind::OutOfMemory.into(),
        }
    }
}

/// What happened, one thing after the other. Words are compared, so spaces count for nothing but to
/// part them.
#[derive(Drop)]
pub(crate) struct Account {
    pub(crate) alloc: Global,
    pub(crate) text: String,
}

impl Account {
    /// Before anything has happened.
    pub(crate) fn new(alloc: Global) -> Account {
        Account {
            alloc,
            text: String::new(alloc),
        }
    }

    /// Tells what happened, after a semicolon if it isn't the first.
    pub(crate) fn tell(&mut self, told: &str) -> Result<(), NoMemory> {
        let comma = if self.text.is_empty() { "" } else { "; " };
        self.text.push_str(comma)?;
        self.text.push_str(told)
    }

    /// Tells what happened once so many bytes had come, or so many times.
    pub(crate) fn tell_at(&mut self, count: usize, told: &str) -> Result<(), NoMemory> {
        self.tell("")?;
        write!(self.text, "{count} {told}")
    }

    /// Tells what happened once so many bytes had come, with a number.
    pub(crate) fn tell_number_at<N: Display + Drop>(
        &mut self,
        count: usize,
        told: &str,
        number: N,
    ) -> Result<(), NoMemory> {
        self.tell_at(count, told)?;
        self.add_number(number)
    }

    /// Goes on with what was told last.
    pub(crate) fn add(&mut self, more: &str) -> Result<(), NoMemory> {
        self.text.push_str(more)
    }

    /// Adds a number after a space.
    pub(crate) fn add_number<N: Display + Drop>(&mut self, number: N) -> Result<(), NoMemory> {
        write!(self.text, " {number}")
    }

    /// Adds numbers, each after a space.
    pub(crate) fn add_numbers<N: Copy + Display + Drop>(
        &mut self,
        numbers: &[N],
    ) -> Result<(), NoMemory> {
        for number in numbers {
            self.add_number(*number)?;
        }
        Ok(())
    }

    /// Adds bytes in words of hexadecimal digits, 20 bytes each, or one byte and a count if all are
    /// the same.
    pub(crate) fn add_bytes(&mut self, bytes: &[u8]) -> Result<(), NoMemory> {
        if let Some(first) = bytes.first() {
            if bytes.len() > 16 && bytes.iter().all(|byte| byte == first) {
                let digits = hex::encode(self.alloc, [*first])?;
                return write!(self.text, " {digits}*{}", bytes.len());
            }
        }
        for word in bytes.chunks(20) {
            self.add_number(hex::encode(self.alloc, word)?)?;
        }
        Ok(())
    }
}
