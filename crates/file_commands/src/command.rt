//! The commands on files, and how one is run.

use crate::after_end::AfterEnd;
use crate::chaining::Chaining;
use crate::exporting::Extract;
use crate::framing::Filming;
use crate::migrating::Migration;
use crate::picturing::Scene;
use crate::refusing::{Ended, LeftOut, answer};
use crate::salvaging::Salvaging;
use crate::timing::Timing;
use file_disk::Progress;
use std::fs::File;
use std::io;
use std::io::Write;
use std::rt::Files;

/// A command on files. A recording is opened for reading alone.
#[derive(Clone, Copy)]
pub enum FileCommand<'a> {
    /// `list` prints a line for each block of the recording at a path that counts.
    List(&'a str),
    /// `check` prints the size of the recording at a path, and how many messages and blocks count.
    Check(&'a str),
    /// `info` prints a line for the recording at a path: its format, its size, how much it holds, and
    /// whether it is being written.
    Info(&'a str),
    /// `digest` prints the number and the digest of the last block that counts, or of the one that has
    /// a given digest.
    Digest(Chaining<'a>),
    /// `times` prints a line for each stretch of a recording's time in which a message came: the
    /// time, number and block of its first message, and how many updates and bytes it has. The
    /// recording is read twice.
    Times(Timing<'a>),
    /// `picture` writes the screen at a moment of a recording as a picture. A file is created, or
    /// emptied if it is there, only once there is such a screen; one that can't be written, and the
    /// recording itself, are refused as a file.
    Picture(Scene<'a>),
    /// `frames` writes the screens of a recording as PPM pictures one after the other, so many a
    /// second of the recording.
    Frames(Filming<'a>),
    /// `export` writes a part of a recording as an FBS file, and prints how many messages it has.
    /// That file is created, or emptied if it is there, only once it is known that there are such a
    /// block and such an end; one that can't be, and the recording itself, are refused as a file.
    Export(Extract<'a>),
    /// `page` writes a part of a recording as a page that plays it in a browser, and prints how many
    /// messages it has. Its file is as that of `export`.
    Page(Extract<'a>),
    /// `migrate` writes a recording of format 1 again in format 2, and prints how many messages it
    /// has. The new file is created only once it is known that the recording can be migrated; one
    /// with bytes is refused, and stays as it is.
    Migrate(Migration<'a>),
    /// `salvage` writes the blocks of a recording before its first fault into a new one, as they
    /// are, also those after its end if that is asked for, and prints how many messages they have.
    /// What is left out is said on standard error. The new file is as that of `migrate`.
    Salvage(Salvaging<'a>),
    /// `fbs-check` prints the size of the FBS file at a path, how many messages it has, and how many
    /// bytes of an unfinished last one.
    FbsCheck(&'a str),
}

impl<'a> FileCommand<'a> {
    // Its word on the command line.
    fn word(&self) -> &'static str {
        match self {
            FileCommand::List(_) => "list",
            FileCommand::Check(_) => "check",
            FileCommand::Info(_) => "info",
            FileCommand::Digest(_) => "digest",
            FileCommand::Times(_) => "times",
            FileCommand::Picture(_) => "picture",
            FileCommand::Frames(_) => "frames",
            FileCommand::Export(_) => "export",
            FileCommand::Page(_) => "page",
            FileCommand::Migrate(_) => "migrate",
            FileCommand::Salvage(_) => "salvage",
            FileCommand::FbsCheck(_) => "fbs-check",
        }
    }

    // Does it.
    fn carry_out<R: Files<File = File> + AllocGlobal, O: Write>(
        &self,
        work: &mut Work<'_, R, O>,
    ) -> Result<(), Ended<'a>> {
        match self {
            FileCommand::List(path) => work.list(path),
            FileCommand::Check(path) => work.check(path),
            FileCommand::Info(path) => work.info(path),
            FileCommand::Digest(what) => work.digest(what),
            FileCommand::Times(what) => work.times(what),
            FileCommand::Picture(what) => work.picture(what),
            FileCommand::Frames(what) => work.frames(what),
            FileCommand::Export(what) => work.export(what),
            FileCommand::Page(what) => work.page(what),
            FileCommand::Migrate(what) => work.migrate(what),
            FileCommand::Salvage(what) => work.salvage(what),
            FileCommand::FbsCheck(path) => work.fbs_check(path),
        }
    }
}

/// What a command works with, beside what it asks for.
#[derive(Drop)]
pub struct Work<'a, R, O> {
    /// The system, with its files.
    pub rt: &'a R,
    /// What tells of long work.
    pub progress: Progress,
    /// What the command prints to.
    pub out: &'a mut O,
    /// What it leaves out, to be told on standard error.
    pub left_out: Option<LeftOut>,
    /// What it found after the end of a recording, to be told there too.
    pub after_end: Option<AfterEnd>,
}

/// Runs a command: what it prints is written to `out`, and long work told of to a person. Answers
/// whether it is done; else a line on `err` says why it is refused, and if `is_verbose` a second
/// one what the system said. An error is of the two writers, or of memory.
pub fn run<R: Files<File = File> + AllocGlobal, O: Write, E: Write>(
    rt: &R,
    command: &FileCommand<'_>,
    is_verbose: bool,
    progress: Progress,
    out: &mut O,
    err: &mut E,
) -> io::Result<bool> {
    let mut work = Work {
        rt,
        progress,
        out,
        left_out: None,
        after_end: None,
    };
    let outcome = command.carry_out(&mut work);
    let word = command.word();
    if let Some(after_end) = work.after_end {
        writeln!(err, "recorderd: {word} {after_end}")?;
    }
    if let Some(left_out) = work.left_out {
        writeln!(err, "recorderd: {word} {left_out}")?;
    }
    answer(word, outcome, is_verbose, err)
}
