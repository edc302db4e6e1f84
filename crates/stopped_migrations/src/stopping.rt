//! A migration whose devices stop.

use disk::{Disk, FailingDisk, Fill, FusedDisk, MemoryDisk, Switch};
use gated_journal::{OpenFault, ReadFault};
use key_index::{IndexFault, Indexed, Stamped};
use migration::{MigrateFault, migrate};
use std::alloc::{AllocError, Global};
use std::io;

/// What a stop leaves of the target.
#[derive(Clone, Copy, PartialEq, Eq)]
pub enum Left {
    NoRecording,
    /// A recording with the source's messages, each of them.
    AllMessages,
    Other,
}

/// A migration that was run.
#[derive(Clone, Copy)]
pub struct Run {
    /// Whether a device stopped in it.
    pub is_stopped: bool,
    pub left: Left,
}

// A disk that stops by this switch.
fn stopping(disk: MemoryDisk, switch: &Switch) -> Result<FusedDisk, AllocError> {
    let failing = FailingDisk::new(disk, switch.clone()?);
    Ok(FusedDisk::new(failing, switch.clone()?))
}

// Whether these are the same messages, which may be recorded in two formats.
fn are_same(some: &[Stamped], others: &[Stamped]) -> bool {
    if some.len() != others.len() {
        return false;
    }
    for (one, other) in some.iter().zip(others) {
        if one.time != other.time
            || one.message.size() != other.message.size()
            || one.message.bytes() != other.message.bytes()
        {
            return false;
        }
    }
    true
}

// An opening, and a reading of all messages. They promise nothing here, so that nothing is proved
// beside all that they do.
fn opened<D: Disk + Drop>(alloc: Global, disk: D) -> Result<Indexed<D>, IndexFault> {
    match Indexed::open(alloc, disk) {
        Ok(index) => Ok(index),
        Err(refused) => Err(refused.fault),
    }
}

fn messages_of<D: Disk>(index: &mut Indexed<D>) -> Result<Vec<Stamped>, ReadFault> {
    index.read_from(0, u32::MAX)
}

fn left_by(index: &mut Indexed<MemoryDisk>, messages: &[Stamped]) -> Left {
    match messages_of(index) {
        Ok(read) if are_same(&read, messages) => Left::AllMessages,
        Ok(_) | Err(_) => Left::Other,
    }
}

// What an opening finds on what a stop left.
fn found(alloc: Global, disk: MemoryDisk, messages: &[Stamped]) -> Left {
    match opened(alloc, disk) {
        Ok(mut index) => left_by(&mut index, messages),
        Err(IndexFault::Journal(OpenFault::NotARecording)) => Left::NoRecording,
        Err(_) => Left::Other,
    }
}

// The target after a migration, and whether a device stopped in it; `None` if anything else ended
// it.
fn target_after(
    alloc: Global,
    source: &mut Indexed<FusedDisk>,
    target: FusedDisk,
) -> Option<(FusedDisk, bool)> {
    match migrate(alloc, source, target) {
        Ok(index) => Some((index.close(), false)),
        Err(refused) => match refused.fault {
            MigrateFault::Source | MigrateFault::Target => Some((refused.disk, true)),
            _ => None,
        },
    }
}

// The recording that these bytes are, on a disk that stops by this switch.
fn source_of(alloc: Global, file: &[u8], switch: &Switch) -> io::Result<Indexed<FusedDisk>> {
    let disk = MemoryDisk::from_bytes(alloc, file.to_vec(alloc)?);
    match opened(alloc, stopping(disk, switch)?) {
        Ok(source) => Ok(source),
        Err(_) => Err(io::ErrorKind::InvalidData.into()),
    }
}

// Migrates a recording with these messages onto this disk.
fn migrate_onto(
    alloc: Global,
    source: &mut Indexed<FusedDisk>,
    target: FusedDisk,
    messages: &[Stamped],
    fill: Fill,
) -> io::Result<Run> {
    let Some((disk, is_stopped)) = target_after(alloc, source, target) else {
        return Err(io::ErrorKind::InvalidData.into());
    };
    Ok(Run {
        is_stopped,
        left: found(alloc, disk.left(fill), messages),
    })
}

// Migrates a recording onto an empty disk, and stops both devices after so many calls.
fn run_until(
    alloc: Global,
    source: &mut Indexed<FusedDisk>,
    switch: &Switch,
    calls: u64,
    fill: Fill,
) -> io::Result<Run> {
    let target = stopping(MemoryDisk::new(alloc), switch)?;
    let Ok(messages) = messages_of(source) else {
        return Err(io::ErrorKind::InvalidData.into());
    };
    switch.stop_after(calls);
    migrate_onto(alloc, source, target, &messages, fill)
}

/// Migrates the recording that these bytes are onto an empty disk, whose device and the source's
/// stop after so many calls. `InvalidData`: they are none that can be read.
pub fn migrated(alloc: Global, file: &[u8], calls: u64, fill: Fill) -> io::Result<Run> {
    let switch = Switch::new(alloc)?;
    let mut source = source_of(alloc, file, &switch)?;
    run_until(alloc, &mut source, &switch, calls, fill)
}
