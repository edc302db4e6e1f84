//! The command `salvage`.

ghost use Rattle.std.specs.Prelude.{◌≤◌};
ghost use Rattle.recording_bytes.specs.declared.format.TheConstants.{LONGEST_FILE};

use crate::after_end::{AfterEnd, after_gate};
use crate::command::Work;
use crate::file_fault::{name_kept, opened};
use crate::out_file::open_target;
use crate::refusing::{Ended, LeftOut};
use crate::source_file::open_source;
use block_walk::WholeBlocks;
use file_disk::{DiskOfFile, FileDisk, OsFile, OsFolder, Progress, ShownFile};
use key_index::IndexFault;
use recording_bytes::OPEN_GATE;
use recording_name::settle;
use refusals::{DigestFault, Refusal};
use salvage::{Salvaged, salvage};
use std::alloc::Global;
use std::fs::File;
use std::io::Write;
use std::rt::Files;
use terms::Format;

/// Which recording is salvaged, and to which file.
#[derive(Clone, Copy)]
pub struct Salvaging<'a> {
    /// The recording's file.
    pub recording: &'a str,
    /// The file that is written, which has no bytes or isn't there yet.
    pub out: &'a str,
    /// Whether blocks are written, too, that go on with the digests after the recording's end.
    pub with_hidden: bool,
}

// The whole blocks of a file that may show a gate open.
type SourceBlocks = Box<WholeBlocks<DiskOfFile<ShownFile>>>;

// What is salvaged: the whole blocks of a recording, how many bytes its file has, and the file.
#[derive(Drop)]
struct Source {
    blocks: SourceBlocks,
    length: u64,
    file: File,
}

// The whole blocks that reads of a file give.
fn blocks_of(alloc: Global, file: ShownFile, progress: Progress) -> Result<SourceBlocks, Refusal> {
    let disk = DiskOfFile::over(file).watched(progress);
    let no_memory = Refusal::Recording(IndexFault::NoMemory);
    match WholeBlocks::open(alloc, disk) {
        Ok(blocks) => Box::new(alloc, blocks).map_err(|_| no_memory),
        Err(refused) => Err(Refusal::Recording(IndexFault::Journal(refused.fault))),
    }
}

// What is salvaged of a recording. In format 1 nothing tells which bytes after its end are blocks;
// in format 2 those are that go on with the digests, once the gate at the end is shown open.
fn source_of<'a, R: Files<File = File> + AllocGlobal>(
    rt: &R,
    what: &Salvaging<'a>,
    progress: Progress,
) -> Result<Source, Ended<'a>> {
    let alloc = rt.alloc();
    let file = open_source(rt, what.recording)?;
    let length = file.metadata()?.len();
    let as_it_is = ShownFile::new(OsFile::to_read(rt, file.try_clone()?));
    let mut blocks = blocks_of(alloc, as_it_is, progress)?;
    if what.with_hidden && blocks.header().format() == Format::One {
        return Err(Refusal::Digest(DigestFault::NoDigests).into());
    }
    let gate = blocks.gate();
    if what.with_hidden && blocks.fault().is_none() && gate.saturating_add(1) < length {
        let opened = OsFile::to_read(rt, file.try_clone()?);
        let shown = ShownFile::with_byte(opened, gate, OPEN_GATE);
        let all = blocks_of(alloc, shown, progress)?;
        if all.blocks() > blocks.blocks() {
            blocks = all;
        }
    }
    Ok(Source {
        blocks,
        length,
        file,
    })
}

// What was salvaged: how many messages; and what is left out, or follows the end.
#[derive(Drop)]
struct Outcome {
    messages: u64,
    left_out: Option<LeftOut>,
    after_end: Option<AfterEnd>,
}

// What is left out of a file of this length, whose recording has this fault, or what follows its
// end.
fn outcome_of<R: Files<File = File> + AllocGlobal>(
    rt: &R,
    salvaged: &Salvaged<FileDisk>,
    length: u64,
    fault: Option<IndexFault>,
    file: File,
) -> Result<Outcome, Refusal>
    requires { salvaged.now.journal.end ≤ LONGEST_FILE }
{
    let journal = &salvaged.journal;
    let gate = journal.end().saturating_sub(1);
    let left_out = salvaged.wrong.or(fault).map(|fault| LeftOut {
        bytes: length.saturating_sub(gate),
        after: salvaged.last_time,
        fault,
    });
    let after_end = match left_out {
        Some(_) => Ok(None),
        None => after_gate(rt, file, journal.header(), &journal.last_digest(), gate),
    };
    Ok(Outcome {
        messages: salvaged.messages,
        left_out,
        after_end: after_end?,
    })
}

// Writes what is right of a source.
fn salvaged<R: Files<File = File> + AllocGlobal>(
    rt: &R,
    source: Source,
    target: FileDisk,
) -> Result<Outcome, Refusal> {
    let Source {
        mut blocks,
        length,
        file,
    } = source;
    let fault = blocks.fault().map(IndexFault::Journal);
    let salvaged = salvage(rt.alloc(), &mut blocks, target);
    drop(blocks);
    match salvaged {
        Ok(salvaged) => outcome_of(rt, &salvaged, length, fault, file),
        Err(refused) => Err(Refusal::Salvage(refused.fault)),
    }
}

impl<R: Files<File = File> + AllocGlobal, O: Write> Work<'_, R, O> {
    /// Writes the blocks of a recording before its first fault into a new one, tells how many
    /// messages they have, and notes what is left out, or what follows its end.
    pub fn salvage<'a>(&mut self, what: &Salvaging<'a>) -> Result<(), Ended<'a>> {
        let source = source_of(self.rt, what, self.progress)?;
        let mut folder = OsFolder::of(self.rt, what.out);
        let file = open_target(self.rt, &mut folder, what.out, what.recording)?;
        let shared = opened(file.share(), what.out)?;
        let target = FileDisk::new(shared).watched(self.progress);
        let Outcome {
            messages,
            left_out,
            after_end,
        } = salvaged(self.rt, source, target)?;
        name_kept(settle(&mut folder, &file, what.out), what.out)?;
        self.left_out = left_out;
        self.after_end = after_end;
        self.progress.end();
        Ok(writeln!(self.out, "salvaged {messages}")?)
    }
}
