//! What crashes and refusals leave of a recording's life in a folder, and whether a recorder goes on
//! from that.

use crate::life::{DRAFT, Done, PATH, begin, go_on};
use crate::source::{Source, messages_of};
use recording_name::{Chosen, MemoryFolder, SystemFolder};
use std::alloc::Global;
use std::io;

/// What is in the folder before the recording's life begins.
#[derive(Clone, Copy, PartialEq, Eq)]
pub enum First {
    Nothing,
    /// A file without bytes at the recording's path.
    Empty,
    /// A part of a header under the draft's name.
    Draft,
}

/// What is left at the recording's path.
#[derive(Clone, Copy, PartialEq, Eq)]
pub enum Left {
    /// What was there at first.
    AtFirst,
    /// A recording with each message that was committed, and at most the one that was accepted then.
    Recording,
    /// The one or the other, by what a crash leaves of names and bytes.
    Either,
    /// Anything else.
    Wrong,
    /// None of that is wrong, but a recorder doesn't go on from it.
    Dead,
}

/// A life, up to a refusal or to its end.
#[derive(Drop)]
pub struct Life {
    folder: MemoryFolder,
    first: First,
    /// How many moments the folder had when it began, and when each step was done: that the recording
    /// was made, and each message recorded.
    begin: usize,
    ends: Vec<usize>,
    pub is_done: bool,
}

// More than a name has had between two syncs of its folder, and all writes of a file between two of
// its own.
const NAMES: usize = 3;

const WRITES: u64 = 4;

// A file with these bytes, all of it on the device.
fn put_file(folder: &mut MemoryFolder, name: &str, bytes: &[u8]) -> io::Result<()> {
    let file = folder.make(name)?;
    folder.write_at(&file, 0, bytes)?;
    folder.sync_file(&file)?;
    folder.sync_folder()
}

/// A folder in which this is, on the device.
pub fn folder_with(alloc: Global, first: First) -> io::Result<MemoryFolder> {
    let mut folder = MemoryFolder::new(alloc);
    match first {
        First::Nothing => {}
        First::Empty => put_file(&mut folder, PATH, b"")?,
        First::Draft => put_file(&mut folder, DRAFT, b"\0RFBREC2")?,
    }
    Ok(folder)
}

/// A recorder begins in this folder, and records each message of a source.
pub fn live(
    alloc: Global,
    folder: MemoryFolder,
    first: First,
    source: &Source,
) -> io::Result<Life> {
    let begin_moment = folder.moments();
    let mut ends = Vec::new(alloc);
    let mut done = begin(alloc, folder, source.header(alloc)?);
    for (number, stamped) in source.messages.iter().enumerate() {
        if !done.is_done {
            break;
        }
        ends.push(done.folder.moments())?;
        let Done { folder, is_done: _ } = done;
        done = go_on(alloc, folder, number as u64, stamped);
    }
    if done.is_done {
        ends.push(done.folder.moments())?;
    }
    Ok(Life {
        folder: done.folder,
        first,
        begin: begin_moment,
        ends,
        is_done: done.is_done,
    })
}

// What two crashes leave, taken together.
fn together(one: Left, other: Left) -> Left {
    match (one, other) {
        (Left::Wrong, _) | (_, Left::Wrong) => Left::Wrong,
        (Left::Dead, _) | (_, Left::Dead) => Left::Dead,
        (one, other) if one == other => one,
        _ => Left::Either,
    }
}

impl Life {
    // What these bytes are, or no file, if so many steps were done.
    fn judged(&self, alloc: Global, source: &Source, steps: usize, left: Option<Vec<u8>>) -> Left {
        let is_there = self.first == First::Empty;
        match left {
            None if steps == 0 && !is_there => Left::AtFirst,
            Some(bytes) if steps == 0 && is_there && bytes.is_empty() => Left::AtFirst,
            None => Left::Wrong,
            Some(bytes) => match messages_of(alloc, bytes).and_then(|some| source.count_of(&some)) {
                Some(count) if count <= steps && steps <= count.saturating_add(1) => {
                    Left::Recording
                }
                _ => Left::Wrong,
            },
        }
    }

    // Whether a recorder that comes after this crash ends with all messages in its recording.
    fn goes_on(
        &self,
        alloc: Global,
        source: &Source,
        moment: usize,
        path: Chosen,
        draft: Chosen,
    ) -> io::Result<bool> {
        let moment = moment.min(self.folder.moments());
        let mut folder = MemoryFolder::new(alloc);
        if let Some(bytes) = self.folder.left_at(moment, PATH, path)? {
            put_file(&mut folder, PATH, &bytes)?;
        }
        if let Some(bytes) = self.folder.left_at(moment, DRAFT, draft)? {
            put_file(&mut folder, DRAFT, &bytes)?;
        }
        Ok(live(alloc, folder, self.first, source)?.is_done)
    }

    // What a crash at this moment leaves that leaves this of the names and of the bytes.
    fn left_by(
        &self,
        alloc: Global,
        source: &Source,
        moment: usize,
        chosen: Chosen,
    ) -> io::Result<Left> {
        let moment = moment.min(self.folder.moments());
        let steps = self.ends.iter().filter(|end| **end <= moment).count();
        let found = self.folder.left_at(moment, PATH, chosen)?;
        let left = self.judged(alloc, source, steps, found);
        if left == Left::Wrong {
            return Ok(left);
        }
        for steps in 0..NAMES {
            let draft = Chosen { steps, ..chosen };
            if !self.goes_on(alloc, source, moment, chosen, draft)? {
                return Ok(Left::Dead);
            }
        }
        Ok(left)
    }

    /// What crashes at this moment leave, by all that a crash may leave of names and of bytes.
    pub fn left_at(&self, alloc: Global, source: &Source, moment: usize) -> io::Result<Left> {
        let mut all = self.left_by(
            alloc,
            source,
            moment,
            Chosen {
                steps: 0,
                writes: 0,
            },
        )?;
        for steps in 0..NAMES {
            for writes in 0..WRITES {
                let left = self.left_by(alloc, source, moment, Chosen { steps, writes })?;
                all = together(all, left);
            }
        }
        Ok(all)
    }

    /// Whether a call was to fail, and none has.
    pub fn is_unhurt(&self) -> bool {
        self.folder.is_to_fail()
    }

    /// The first of its moments, and the last.
    pub fn moments(&self) -> (usize, usize) {
        (self.begin, self.folder.moments())
    }
}
