//! A disk in memory, which can tell its past.

ghost use Rattle.std.specs.Prelude.{◌≡◌, ◌+◌, ◌<◌, ◌≤◌, ◌^◌, [], ◌∷◌, ◌++◌, length, take, drop, IsOk, IfOk, OnOk, OnErr};
ghost use Rattle.disk.specs.Contents.{put, IsOnDisk, IsWritten, IsWithinWrite, CountsFailure};
ghost use Rattle.disk.specs.History.{present, GoesOn};
ghost use Rattle.disk.specs.Memory.{IsAsBefore, history_of, noted_write};

mod crash;

use crate::device::{Disk, DiskFault, one_more_failed};
pub use crash::Fill;
use std::alloc::{AllocError, Global};
use std::marker::Model;

/// A write as it is kept, so that it can be undone.
#[derive(Drop)]
struct NotedWrite {
    offset: usize,
    count: usize,
    length_before: usize,
    replaced: Vec<u8>,
}

impl Model for NotedWrite {
    ghost use Rattle.disk.specs.Overwrite.{Overwrite};

    ghost Value = { Overwrite };

    ghost view = { λ w. record {
      offset = w.offset;
      count = w.count;
      length_before = w.length_before;
      replaced = w.replaced.items;
    } };
}

#[derive(Drop)]
enum Event {
    Wrote(NotedWrite),
    Synced,
}

/// A disk whose file is in memory. It keeps a record of every write, with the bytes that it
/// replaced, and of every sync, so that contracts can read what is held, what was touched and each
/// moment of the past.
///
/// A call fails if it finds no memory, and does nothing then.
#[derive(Drop)]
pub struct MemoryDisk {
    bytes: Vec<u8>,
    events: Vec<Event>,
    failures: u64,
}

impl Model for MemoryDisk {
    ghost use Rattle.std.specs.Prelude.{reverse};
    ghost use Rattle.disk.specs.Memory.{Kept};

    ghost Value = { Kept };

    ghost view = { λ d. record {
      bytes = d.bytes.items;
      events = reverse d.events.items;
      failures = d.failures;
    } };
}

impl MemoryDisk {
    /// An empty file, all of it held.
    pub fn new(alloc: Global) -> MemoryDisk
        ensures empty { result ≡ record { bytes = []; events = []; failures = 0 } }
        ensures held { IsOnDisk (present (history_of result)) }
    {
        MemoryDisk::from_bytes(alloc, Vec::new(alloc))
    }

    /// A file with these bytes, all of them held.
    pub fn from_bytes(alloc: Global, bytes: Vec<u8>) -> MemoryDisk
        ensures file { result ≡ record { bytes = bytes.items; events = []; failures = 0 } }
        ensures held { IsOnDisk (present (history_of result)) }
    {
        MemoryDisk {
            bytes,
            events: Vec::new(alloc),
            failures: 0,
        }
    }

    /// What reads give.
    pub fn bytes(&self) -> &[u8]
        ensures now { result.now ≡ self.now.bytes }
        ensures present { result.now ≡ (present (history_of self.now)).now }
    {
        &self.bytes
    }
}

// Puts the bytes there, and notes what they replaced. A refusal changes nothing.
fn write(
    file: &mut Vec<u8>,
    events: &mut Vec<Event>,
    offset: usize,
    bytes: &[u8],
) -> Result<(), AllocError>
    requires fits { offset + length bytes.now < 2 ^ 64 }
    requires within { offset ≤ length file.old.items }
    ensures written { OnOk result (file.new.items ≡ put file.old.items offset bytes.now) }
    ensures noted { OnOk result (events.new.items
        ≡ events.old.items ++ Event.Wrote (noted_write offset bytes.now file.old.items) ∷ []) }
    ensures refused { OnErr result
        ((file.new.items ≡ file.old.items) × (events.new.items ≡ events.old.items)) }
{
    let length_before = file.len();
    let overlap = bytes.len().min(length_before - offset);
    let end = offset + overlap;
    let alloc = *file.allocator();
    let replaced = Vec::from_slice(alloc, &file[offset..end])?;
    // What may be refused comes first: the growth by the bytes past the end, and the note.
    file.extend_from_slice(&bytes[overlap..])?;
    let note = NotedWrite {
        offset,
        count: bytes.len(),
        length_before,
        replaced,
    };
    if events.push(Event::Wrote(note)).is_err() {
        file.truncate(length_before);
        return Err(AllocError);
    }
    file[offset..end].copy_from_slice(&bytes[..overlap]);
    Ok(())
}

impl Disk for MemoryDisk {
    ghost use Rattle.disk.specs.MemoryLaws.{Agrees-moments_of};

    ghost is_modelled = { Unit {0} };

    ghost history = { history_of };

    ghost failures = { λ d. d.failures };

    // A call that fails does nothing: the file and the record stay as they were.
    ghost after_fault = { IsAsBefore };

    fn len(&mut self) -> Result<u64, DiskFault>
        ensures length { IfOk result (λ n. n ≡ length (present (history_of self.old)).now) }
        ensures history { history_of self.new ≡ history_of self.old }
        ensures fault { OnErr result (IsAsBefore self.old self.new) }
        ensures counts { CountsFailure self.old.failures self.new.failures result }
        ensures never_fails { IsOk result }
    {
        Ok(self.bytes.len() as u64)
    }

    fn read_at(&mut self, offset: u64, buffer: &mut [u8]) -> Result<(), DiskFault>
        requires fits { offset + length buffer.old < 2 ^ 64 }
        requires within { offset + length buffer.old ≤ length (present (history_of self.old)).now }
        ensures read { OnOk result
            (buffer.new ≡ take (length buffer.old) (drop offset (present (history_of self.old)).now)) }
        ensures history { history_of self.new ≡ history_of self.old }
        ensures fault { OnErr result (IsAsBefore self.old self.new) }
        ensures counts { CountsFailure self.old.failures self.new.failures result }
        ensures never_fails { IsOk result }
    {
        let start = offset as usize;
        buffer.copy_from_slice(&self.bytes[start..start + buffer.len()]);
        Ok(())
    }

    fn write_at(&mut self, offset: u64, bytes: &[u8]) -> Result<(), DiskFault>
        requires fits { offset + length bytes.now < 2 ^ 64 }
        requires within { offset ≤ length (present (history_of self.old)).now }
        ensures written { OnOk result (IsWritten offset bytes.now (present (history_of self.old)) (present (history_of self.new))) }
        ensures goes_on { GoesOn (history_of self.old) (history_of self.new)
            (IsWithinWrite offset (length bytes.now) (present (history_of self.old))) }
        ensures fault { OnErr result (IsAsBefore self.old self.new) }
        ensures noted { OnOk result (self.new ≡ record {
          bytes = put self.old.bytes offset bytes.now;
          events = Event.Wrote (noted_write offset bytes.now self.old.bytes) ∷ self.old.events;
          failures = self.old.failures;
        }) }
        ensures counts { CountsFailure self.old.failures self.new.failures result }
    {
        match write(&mut self.bytes, &mut self.events, offset as usize, bytes) {
            Ok(()) => Ok(()),
            Err(_) => Err(one_more_failed(&mut self.failures)),
        }
    }

    fn sync(&mut self) -> Result<(), DiskFault> {
        if self.events.push(Event::Synced).is_err() {
            return Err(one_more_failed(&mut self.failures));
        }
        Ok(())
    }

    ghost agrees = { λ disk _. Agrees-moments_of disk.bytes disk.events };
}
