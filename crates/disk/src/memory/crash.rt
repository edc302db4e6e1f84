//! What a crash leaves of a disk in memory.

ghost use Rattle.std.specs.Prelude.{◌≡◌, ℕ, ◌⊎◌, ◌<◌, ◌∷◌, ◌++◌, [], length, reverse, take, slice_index, if◌then◌else◌};
ghost use Rattle.disk.specs.Contents.{MayLeave, is_between};
ghost use Rattle.disk.specs.History.{present};
ghost use Rattle.disk.specs.Memory.{IsTakenBack, history_of, before_write, held_of, is_touched};
ghost use Rattle.disk.specs.Crash.{IsLeft};
ghost use Rattle.disk.specs.Overwrite.{Overwrite};

use super::{Event, MemoryDisk, NotedWrite};

/// What a crash is taken to leave, of all that the rules of a disk allow.
#[derive(Clone, Copy, Debug, PartialEq, Eq)]
pub enum Fill {
    /// What stood at the last successful sync.
    Held,
    /// What reads gave: each write since the sync is whole.
    Now,
    /// The length that reads gave, and this byte at each offset that was written since the sync.
    Byte(u8),
}

impl MemoryDisk {
    /// What a crash now leaves, as a disk with an empty record. It takes no memory.
    pub fn left(self, fill: Fill) -> MemoryDisk
        ensures allowed { MayLeave (present (history_of self)) result.bytes }
        ensures filled { IsLeft fill (present (history_of self)) result.bytes }
        ensures sound { result ≡ record { bytes = result.bytes; events = []; failures = 0 } }
    {
        let MemoryDisk {
            mut bytes,
            mut events,
            failures: _,
        } = self;
        match fill {
            Fill::Held => undo_to_sync(&mut bytes, &mut events),
            Fill::Now => {}
            Fill::Byte(byte) => overwrite_to_sync(&mut bytes, &mut events, byte),
        }
        events.clear();
        MemoryDisk {
            bytes,
            events,
            failures: 0,
        }
    }

    // The disk as it was before its newest event, if that is a write.
    pub(crate) fn without_newest_write(self) -> MemoryDisk
        ensures { (result ≡ self) ⊎ IsTakenBack self result }
    {
        let MemoryDisk {
            mut bytes,
            mut events,
            failures,
        } = self;
        undo_newest(&mut bytes, &mut events);
        MemoryDisk {
            bytes,
            events,
            failures,
        }
    }
}

// Undoes the newest event, if it is a write.
fn undo_newest(file: &mut Vec<u8>, events: &mut Vec<Event>)
    ensures { ((file.new.items ≡ file.old.items) × (events.new.items ≡ events.old.items))
        ⊎ ((write : Overwrite) × (events.old.items ≡ events.new.items ++ Event.Wrote write ∷ [])
        × (file.new.items ≡ before_write write file.old.items)) }
{
    if let Some(Event::Wrote(write)) = events.last() {
        undo(file, write);
        let _ = events.pop();
    }
}

// Undoes each write since the last sync, the newest first.
fn undo_to_sync(file: &mut Vec<u8>, events: &mut Vec<Event>)
    ensures { file.new.items ≡ held_of file.old.items (reverse events.old.items) }
{
    while let Some(Event::Wrote(write)) = events.pop() {
        undo(file, &write);
    }
}

// Undoes a write.
fn undo(file: &mut Vec<u8>, write: &NotedWrite)
    ensures { file.new.items ≡ before_write write.now file.old.items }
{
    put_back(file, write);
    file.truncate(write.length_before);
}

// Puts back what a write replaced. What it added past the end stays.
fn put_back(file: &mut [u8], write: &NotedWrite)
    ensures { take write.now.length_before file.new ≡ before_write write.now file.old }
{
    let start = write.offset.min(file.len());
    let count = (file.len() - start)
        .min(write.count)
        .min(write.replaced.len());
    file[start..start + count].copy_from_slice(&write.replaced[..count]);
}

// Writes this byte at each offset that was written since the last sync.
fn overwrite_to_sync(file: &mut Vec<u8>, events: &mut Vec<Event>, byte: u8)
    ensures same_length { length file.new.items ≡ length file.old.items }
    ensures each { (p : ℕ) → p < length file.old.items → slice_index file.new.items p
        ≡ (if is_touched (reverse events.old.items) p then byte else slice_index file.old.items p) }
{
    while let Some(Event::Wrote(write)) = events.pop() {
        overwrite(file, &write, byte);
    }
}

// Writes this byte at each offset of a write's range.
fn overwrite(file: &mut [u8], write: &NotedWrite, byte: u8)
    ensures { (p : ℕ) → p < length file.old → slice_index file.new p
        ≡ (if is_between write.now.offset write.now.count p then byte else slice_index file.old p) }
{
    let start = write.offset.min(file.len());
    let count = write.count.min(file.len() - start);
    file[start..start + count].fill(byte);
}
