//! The recording whose header and messages are recorded again.

use disk::MemoryDisk;
use gated_journal::{Header, HeaderFault};
use key_index::{IndexFault, Indexed, Stamped};
use std::alloc::Global;
use std::io;

/// A header and messages.
#[derive(Drop)]
pub struct Source {
    header: Header,
    pub messages: Vec<Stamped>,
}

// A failure to read one.
fn invalid() -> io::Error {
    io::ErrorKind::InvalidData.into()
}

// The same header again.
fn header_again(alloc: Global, header: &Header) -> Result<Header, HeaderFault> {
    Header::with_format(
        alloc,
        header.format(),
        header.size(),
        header.key_interval(),
        header.name(),
    )
}

// An opening, which promises nothing here, so that nothing is proved beside all that it does.
fn opened(alloc: Global, bytes: Vec<u8>) -> Result<Indexed<MemoryDisk>, IndexFault> {
    match Indexed::open(alloc, MemoryDisk::from_bytes(alloc, bytes)) {
        Ok(index) => Ok(index),
        Err(refused) => Err(refused.fault),
    }
}

/// The messages of the recording that these bytes are; `None` if they are none.
pub fn messages_of(alloc: Global, bytes: Vec<u8>) -> Option<Vec<Stamped>> {
    let mut index = opened(alloc, bytes).ok()?;
    index.read_from(0, u32::MAX).ok()
}

impl Source {
    /// The header and the messages of the recording that these bytes are.
    pub fn of(alloc: Global, file: &[u8]) -> io::Result<Source> {
        let Ok(index) = opened(alloc, file.to_vec(alloc)?) else {
            return Err(invalid());
        };
        let header = header_again(alloc, index.header()).map_err(|_| invalid())?;
        match messages_of(alloc, file.to_vec(alloc)?) {
            Some(messages) => Ok(Source { header, messages }),
            None => Err(invalid()),
        }
    }

    /// The header again.
    pub fn header(&self, alloc: Global) -> io::Result<Header> {
        header_again(alloc, &self.header).map_err(|_| invalid())
    }

    /// How many messages other ones are, if they are a beginning of these.
    pub fn count_of(&self, others: &[Stamped]) -> Option<usize> {
        if others.len() > self.messages.len() {
            return None;
        }
        for (one, other) in self.messages.iter().zip(others) {
            if !one.same(other) {
                return None;
            }
        }
        Some(others.len())
    }
}
