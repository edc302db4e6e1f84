//! What the opening of a file comes to.

use disk::MemoryDisk;
use gated_journal::{Journal, ReadFault};
use key_index::{IndexFault, Indexed};
use sha2::{Digest, Sha256};
use std::alloc::Global;
use std::fmt::{self, Display, Formatter, Write};

/// As what a file is opened.
#[derive(Clone, Copy)]
pub enum Kind {
    Blocks,
    Messages,
}

/// What an opening is answered.
#[derive(Clone, Copy, PartialEq, Eq, Drop)]
pub enum Outcome {
    /// So many blocks or messages.
    Opened(u64),
    Refused(IndexFault),
    /// It was opened, and then couldn't be read.
    Unreadable(ReadFault),
}

impl Display for Outcome {
    fn fmt<W: Write>(&self, f: &mut Formatter<W>) -> fmt::Result {
        match self {
            Outcome::Opened(count) => write!(f, "opened {count}"),
            Outcome::Refused(fault) => write!(f, "{fault:?}"),
            Outcome::Unreadable(fault) => write!(f, "unreadable {fault:?}"),
        }
    }
}

// Reads the header, each block's entries and body, and the offset after the last gate.
fn read_blocks(
    alloc: Global,
    journal: &mut Journal<MemoryDisk>,
    read: &mut Sha256,
) -> Result<(), ReadFault> {
    let size = journal.header().size();
    read.update(size.width.to_be_bytes());
    read.update(size.height.to_be_bytes());
    read.update(journal.header().key_interval().to_be_bytes());
    read.update(journal.header().name());
    let mut body = Vec::new(alloc);
    for block in 0..journal.blocks() {
        body.clear();
        let entries = journal.body(block, &mut body)?;
        read.update(entries.to_be_bytes());
        read.update((body.len() as u64).to_be_bytes());
        read.update(body.as_slice());
    }
    read.update(journal.end().to_be_bytes());
    Ok(())
}

// Reads each message: its time, the count of the last key screen before it, and its bytes.
fn read_messages(index: &mut Indexed<MemoryDisk>, read: &mut Sha256) -> Result<(), ReadFault> {
    for number in 0..index.committed() {
        let key = index.key_before(number);
        for stamped in index.read_from(number, 1)? {
            read.update(stamped.time.to_be_bytes());
            read.update(key.to_be_bytes());
            read.update((stamped.message.bytes().len() as u64).to_be_bytes());
            read.update(stamped.message.bytes());
        }
    }
    Ok(())
}

fn of_blocks(alloc: Global, file: Vec<u8>, read: &mut Sha256) -> Outcome {
    match Journal::open(alloc, MemoryDisk::from_bytes(alloc, file)) {
        Ok(mut journal) => match read_blocks(alloc, &mut journal, read) {
            Ok(()) => Outcome::Opened(journal.blocks()),
            Err(fault) => Outcome::Unreadable(fault),
        },
        Err(refused) => Outcome::Refused(IndexFault::Journal(refused.fault)),
    }
}

fn of_messages(alloc: Global, file: Vec<u8>, read: &mut Sha256) -> Outcome {
    match Indexed::open(alloc, MemoryDisk::from_bytes(alloc, file)) {
        Ok(mut index) => match read_messages(&mut index, read) {
            Ok(()) => Outcome::Opened(index.committed()),
            Err(fault) => Outcome::Unreadable(fault),
        },
        Err(refused) => Outcome::Refused(refused.fault),
    }
}

/// What the opening of a file is answered. All that is then read of it is put after what was read.
pub fn outcome_of(alloc: Global, kind: Kind, file: Vec<u8>, read: &mut Sha256) -> Outcome {
    match kind {
        Kind::Blocks => of_blocks(alloc, file, read),
        Kind::Messages => of_messages(alloc, file, read),
    }
}
