//! The command `migrate`.

use crate::command::Work;
use crate::file_fault::{name_kept, opened};
use crate::out_file::{demand_no_recording, open_target};
use crate::recording::open_path;
use crate::refusing::Ended;
use file_disk::{FileDisk, OsFolder, Progress};
use key_index::Indexed;
use migration::{may_be_migrated, migrate};
use recording_name::settle;
use refusals::Refusal;
use std::alloc::Global;
use std::fs::File;
use std::io::Write;
use std::rt::Files;

/// Which recording is migrated, and to which file.
#[derive(Clone, Copy)]
pub struct Migration<'a> {
    /// The recording's file, of format 1.
    pub recording: &'a str,
    /// The file that is written, which has no bytes or isn't there yet.
    pub out: &'a str,
}

// How many messages a recording has once it is migrated to a disk.
fn migrated_to(
    alloc: Global,
    index: &mut Indexed<FileDisk>,
    target: FileDisk,
) -> Result<u64, Refusal> {
    match migrate(alloc, index, target) {
        Ok(migrated) => Ok(migrated.committed()),
        Err(refused) => Err(Refusal::Migrate(refused.fault)),
    }
}

// Writes a recording of format 1 again in format 2: how many messages it has.
fn migrated<'a, R: Files<File = File> + AllocGlobal>(
    rt: &R,
    what: &Migration<'a>,
    progress: Progress,
) -> Result<u64, Ended<'a>> {
    let alloc = rt.alloc();
    let mut index = open_path(rt, what.recording, progress)?;
    may_be_migrated(&index).map_err(Refusal::Migrate)?;
    let mut folder = OsFolder::of(rt, what.out);
    let file = open_target(rt, &mut folder, what.out, what.recording)?;
    let shared = opened(file.share(), what.out)?;
    demand_no_recording(&shared, what.out)?;
    let target = FileDisk::new(shared).watched(progress);
    let count = migrated_to(alloc, &mut index, target)?;
    name_kept(settle(&mut folder, &file, what.out), what.out)?;
    Ok(count)
}

impl<R: Files<File = File> + AllocGlobal, O: Write> Work<'_, R, O> {
    /// Writes a recording of format 1 again in format 2, and tells how many messages it has.
    pub fn migrate<'a>(&mut self, what: &Migration<'a>) -> Result<(), Ended<'a>> {
        let count = migrated(self.rt, what, self.progress)?;
        self.progress.end();
        Ok(writeln!(self.out, "migrated {count}")?)
    }
}
