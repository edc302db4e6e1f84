//! What a crash leaves of a folder in memory.

ghost use Rattle.std.specs.Prelude.{◌≡◌, ◌≤◌, ℕ, Some, None, IfOk, OnOk, MatchOption, Contains, length, length as size};
ghost use Rattle.disk.specs.Contents.{Contents};
ghost use Rattle.disk.specs.Contents as disk;
ghost use Rattle.recording_name.specs.Folder.{Folder};
ghost use Rattle.recording_name.specs.Memory.{state_of, history_of, after, written, syncs};

use super::{Event, MemoryFolder, bytes_after, named, put};
use std::alloc::{AllocError, Global};

/// Which of all that the rules of a folder allow a crash leaves.
#[derive(Clone, Copy, Debug, PartialEq, Eq)]
pub struct Chosen {
    /// A name names what it named so many steps before, or when the folder was last synced.
    pub steps: usize,
    /// Of the writes of a file since its last sync, those whose bit is set, the first one's the lowest;
    /// a range that none of these wrote has zeros, if it had no bytes.
    pub writes: u64,
}
// Whether the folder is synced by an event.
fn syncs_folder(event: &Event) -> bool
    ensures { result ≡ syncs event.now }
{
    match event {
        Event::FolderSynced => true,
        _ => false,
    }
}

// Whether an event gives this name a file, or takes it.
fn is_of_name(event: &Event, name: &str) -> bool {
    match event {
        Event::Named { name: its, file: _ } => its.as_str() == name,
        Event::Made { name: its, file: _ } => its.as_str() == name,
        _ => false,
    }
}

// What a name named so many steps ago, or when the folder was last synced.
fn left_name(events: &[Event], name: &str, steps: usize) -> Option<u64>
    ensures { Contains ((state_of events.now).recent name.now) result }
{
    let mut earlier = events;
    let mut left = steps;
    while let Some((event, before)) = earlier.split_last() {
        if left == 0 || syncs_folder(event) {
            break;
        }
        if is_of_name(event, name) {
            left -= 1;
        }
        earlier = before;
    }
    named(earlier, name)
}

// Writes these bytes into what is left of a file that had so many bytes.
fn leave_write(
    left: &mut Vec<u8>,
    length: usize,
    offset: usize,
    bytes: &[u8],
) -> Result<(), AllocError>
    ensures { OnOk result ((c : Contents) → length ≡ size c.now → disk.MayLeave c left.old.items
        → disk.MayLeave (written offset bytes.now c) left.new.items) }
{
    let start = offset.min(length);
    if left.len() < start {
        left.resize(start, 0)?;
    }
    put(left, start, bytes)
}

// What is left of a file's bytes after an event, if a write is left as this bit says.
fn leave(
    event: &Event,
    file: u64,
    now: &[u8],
    is_chosen: bool,
    left: &mut Vec<u8>,
) -> Result<(), AllocError>
    ensures { OnOk result ((f : Folder) → now.now ≡ (f.files file).now → disk.MayLeave (f.files file) left.old.items
        → disk.MayLeave ((after f event.now).files file) left.new.items) }
{
    match event {
        Event::Made { name: _, file: its } if *its == file => left.clear(),
        Event::Wrote {
            file: its,
            offset,
            bytes,
        } if *its == file && is_chosen => leave_write(left, now.len(), *offset, bytes)?,
        Event::FileSynced { file: its } if *its == file => {
            left.clear();
            left.extend_from_slice(now)?;
        }
        _ => {}
    }
    Ok(())
}

// Which writes are still to come, once this event is past.
fn rest_of(event: &Event, file: u64, all: u64, rest: u64) -> u64 {
    match event {
        Event::Made { name: _, file: its } if *its == file => all,
        Event::FileSynced { file: its } if *its == file => all,
        Event::Wrote {
            file: its,
            offset: _,
            bytes: _,
        } if *its == file => rest >> 1,
        _ => rest,
    }
}

// The bytes that a crash after these events leaves in a file.
fn left_bytes(
    alloc: Global,
    events: &[Event],
    file: u64,
    writes: u64,
) -> Result<Vec<u8>, AllocError>
    ensures { IfOk result (λ bytes. disk.MayLeave ((state_of events.now).files file) bytes.items) }
{
    let mut now = Vec::new(alloc);
    let mut left = Vec::new(alloc);
    let mut rest = writes;
    for event in events {
        leave(event, file, &now, rest & 1 == 1, &mut left)?;
        bytes_after(event, file, &mut now)?;
        rest = rest_of(event, file, writes, rest);
    }
    Ok(left)
}

// What a crash after these events leaves at a name.
fn left_after(
    alloc: Global,
    events: &[Event],
    name: &str,
    chosen: Chosen,
) -> Result<Option<Vec<u8>>, AllocError>
    ensures { IfOk result (λ found. MatchOption found (Contains ((state_of events.now).recent name.now) None)
        (λ bytes. (file : ℕ) × Contains ((state_of events.now).recent name.now) (Some file)
        × disk.MayLeave ((state_of events.now).files file) bytes.items)) }
{
    let Some(file) = left_name(events, name, chosen.steps) else {
        return Ok(None);
    };
    Ok(Some(left_bytes(alloc, events, file, chosen.writes)?))
}

impl MemoryFolder {
    /// How many events there were, each of them a moment.
    pub fn moments(&self) -> usize
        ensures { result ≡ length self.now }
    {
        self.events.len()
    }

    /// What a crash after so many events leaves at a name: the file's bytes, or nothing.
    pub fn left_at(
        &self,
        moment: usize,
        name: &str,
        chosen: Chosen,
    ) -> Result<Option<Vec<u8>>, AllocError>
        requires { moment ≤ length self.now }
        ensures { IfOk result (λ found. MatchOption found (Contains (((history_of self.now).at moment).recent name.now) None)
            (λ bytes. (file : ℕ) × Contains (((history_of self.now).at moment).recent name.now) (Some file)
            × disk.MayLeave (((history_of self.now).at moment).files file) bytes.items)) }
    {
        let alloc = *self.events.allocator();
        left_after(alloc, &self.events[..moment], name, chosen)
    }
}
