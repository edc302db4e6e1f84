//! An input and an output that may fail.

use std::alloc::Global;
use std::io;
use std::io::{Read, Write};

/// An input.
#[derive(Drop)]
pub enum Input<'a> {
    Bytes(&'a [u8]),
    Unreadable,
}

impl Read for Input<'_> {
    fn read(&mut self, buffer: &mut [u8]) -> io::Result<usize> {
        match self {
            Input::Bytes(bytes) => bytes.read(buffer),
            Input::Unreadable => Err(io::ErrorKind::Other.into()),
        }
    }
}

/// An output that keeps what it takes, and fails if it has no more room.
#[derive(Drop)]
pub struct Output {
    pub bytes: Vec<u8>,
    room: usize,
}

impl Output {
    /// An output with room for so many bytes.
    pub fn new(alloc: Global, room: usize) -> Output {
        Output {
            bytes: Vec::new(alloc),
            room,
        }
    }
}

impl Write for Output {
    fn write(&mut self, bytes: &[u8]) -> io::Result<usize> {
        let taken = bytes.len().min(self.room);
        if taken == 0 && bytes.len() > 0 {
            return Err(io::ErrorKind::Other.into());
        }
        self.bytes.extend_from_slice(&bytes[..taken])?;
        self.room -= taken;
        Ok(taken)
    }

    fn flush(&mut self) -> io::Result<()> {
        Ok(())
    }
}
