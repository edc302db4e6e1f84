//! The recording's file, opened for reading alone.

use file_commands::{Ended, open_source};
use file_disk::{FileDisk, LastError, OsFolder, Progress, Written};
use flusher_core::Book;
use key_index::IndexFault;
use recorder_threads::broadcast::Desk;
use recorder_threads::refusals::Refusal;
use recording_bytes::OPEN_GATE;
use recording_name::{Identity, SystemFolder};
use std::alloc::AllocError;
use std::fs::File;
use std::os::unix::fs::FileExt;
use std::rt::Files;

/// The end of a recording: in which file, and at which offset the gate is that was closed there.
#[derive(Clone, Copy, Debug, PartialEq, Eq)]
pub struct FileEnd {
    identity: Identity,
    gate: u64,
}

/// A recording that is open: with seats for viewers, its end, and what the system says of its file.
#[derive(Drop)]
pub struct Opened {
    pub desk: Box<Desk<FileDisk>>,
    pub end: FileEnd,
    pub last_error: LastError,
}

// Which file a path leads to; `None` if that can't be told.
fn identity_at<R: AllocGlobal + Files<File = File>>(rt: &R, path: &str) -> Option<Identity> {
    match OsFolder::of(rt, path).follow(path) {
        Ok(Some(found)) => Some(found.identity),
        Ok(None) | Err(_) => None,
    }
}

// Whether the gate at an offset is open. Nothing is synced to know it: what is opened for viewers is.
fn is_open<R: AllocGlobal + Files<File = File>>(rt: &R, path: &str, gate: u64) -> bool {
    let Ok(file) = open_source(rt, path) else {
        return false;
    };
    let mut byte = [0u8; 1];
    file.read_exact_at(&mut byte, gate).is_ok() && byte == [OPEN_GATE]
}

impl FileEnd {
    /// Whether the recording at a path has more than it had, or is another one. One that isn't there
    /// any more has not.
    pub fn is_passed<R: AllocGlobal + Files<File = File>>(&self, rt: &R, path: &str) -> bool {
        match identity_at(rt, path) {
            Some(identity) => identity != self.identity || is_open(rt, path, self.gate),
            None => false,
        }
    }
}

// A file's disk, and what notes its failures.
fn noted<R: AllocGlobal + Files<File = File>>(
    rt: &R,
    file: File,
) -> Result<(LastError, FileDisk), AllocError> {
    let (last_error, written) = (LastError::new(rt.alloc())?, Written::new(rt.alloc())?);
    let disk = FileDisk::to_read(rt, file).noting(last_error.share()?, written);
    Ok((last_error, disk))
}

/// Opens the recording at a path, as far as it is written.
pub fn open<'a, R: AllocGlobal + Files<File = File>>(
    rt: &R,
    path: &'a str,
    progress: Progress,
) -> Result<Box<Opened>, Ended<'a>> {
    let alloc = rt.alloc();
    let no_memory = Refusal::Recording(IndexFault::NoMemory);
    // First: if another one replaces it meanwhile, that one is opened next.
    let identity = identity_at(rt, path);
    let file = open_source(rt, path)?;
    let Some(identity) = identity else {
        return Err(Refusal::File.into());
    };
    let (last_error, disk) = noted(rt, file).map_err(|_| no_memory)?;
    let mut progress = progress;
    let opened = Book::open(alloc, disk.watched(progress));
    progress.end();
    let book = match opened {
        Ok(book) => book,
        Err(refused) => return Err(Refusal::Recording(refused.fault).into()),
    };
    let gate = book.end().saturating_sub(1);
    let desk = Box::new(alloc, Desk::new(book)).map_err(|_| no_memory)?;
    let opened = Opened {
        desk,
        end: FileEnd { identity, gate },
        last_error,
    };
    Ok(Box::new(alloc, opened).map_err(|_| no_memory)?)
}
