//! A recording's life in a folder: it is made there, and gone on with.

use crate::folder_file::FolderFile;
use disk::MemoryDisk;
use file_disk::DiskOfFile;
use flusher_core::Book;
use gated_journal::{Header, Journal, OpenFault};
use key_index::Stamped;
use recording_name::{
    Access, Leftover, MemoryFile, MemoryFolder, Standing, SystemFolder, make_draft, publish,
    stand_at,
};
use rfb_wire::HostMessage;
use std::alloc::Global;
use std::io;

/// The recording's name.
pub const PATH: &str = "recording";

/// The name of the file in which it is made.
pub const DRAFT: &str = "recording.new";

/// More bytes than a creation that is cut off leaves of these recordings.
const LONGEST_LEFT: u64 = 64;

/// What a creation that was cut off leaves: a file that has no block.
#[derive(Drop)]
struct CutOff {
    alloc: Global,
}

impl Leftover for CutOff {
    ghost may_go = { λ _. Unit {0} };

    fn longest(&self) -> u64 {
        LONGEST_LEFT
    }

    fn is_left(&self, bytes: Vec<u8>) -> io::Result<bool> {
        match Journal::open(self.alloc, MemoryDisk::from_bytes(self.alloc, bytes)) {
            Ok(journal) => Ok(journal.blocks() == 0),
            Err(refused) => Ok(refused.fault == OpenFault::NotARecording),
        }
    }
}

/// A folder in which something was done, and whether that succeeded.
#[derive(Drop)]
pub struct Done {
    pub folder: MemoryFolder,
    pub is_done: bool,
}

// A recording in a file of a folder.
type FolderBook = Book<DiskOfFile<FolderFile>>;

// The folder of a book's file.
fn closed(book: FolderBook) -> MemoryFolder {
    book.close().into_file().folder
}

// Writes a recording without messages into a draft.
fn written(alloc: Global, folder: MemoryFolder, file: MemoryFile, header: Header) -> Done {
    let disk = DiskOfFile::over(FolderFile { folder, file });
    match Book::create(alloc, disk, header) {
        Ok(book) => Done {
            folder: closed(book),
            is_done: true,
        },
        Err(refused) => Done {
            folder: refused.disk.into_file().folder,
            is_done: false,
        },
    }
}

// Gives a draft its recording's name, if it is this file still. Whether that succeeded.
fn named<S: SystemFolder>(folder: &mut S, file: &S::LockedFile) -> bool {
    match (folder.look_up(DRAFT), folder.identify(file)) {
        (Ok(Some(named)), Ok(opened)) if named.identity == opened.identity => {
            publish(folder, file, DRAFT, PATH).is_ok()
        }
        _ => false,
    }
}

// Makes a recording, as a recorder does that finds none.
fn make(alloc: Global, folder: MemoryFolder, header: Header) -> Done {
    let mut folder = folder;
    let Ok(file) = make_draft(&mut folder, DRAFT, PATH, &CutOff { alloc }) else {
        return Done {
            folder,
            is_done: false,
        };
    };
    let mut done = written(alloc, folder, file, header);
    if done.is_done {
        done.is_done = named(&mut done.folder, &file);
    } else {
        let _removed = done.folder.remove(DRAFT);
    }
    done
}

/// What a recorder does first: it finds its recording, or makes it.
pub fn begin(alloc: Global, folder: MemoryFolder, header: Header) -> Done {
    let mut folder = folder;
    match stand_at(&mut folder, PATH, Access::Write) {
        Ok(Standing::Recording { .. }) => Done {
            folder,
            is_done: true,
        },
        Ok(Standing::Empty(_) | Standing::Nothing) => make(alloc, folder, header),
        Err(_) => Done {
            folder,
            is_done: false,
        },
    }
}

// Accepts a message and commits it. Whether that succeeded.
fn commit(book: &mut FolderBook, time: u32, message: HostMessage) -> bool {
    let header = book.header();
    if message.size() != header.size() || message.format() != header.format() {
        return false;
    }
    book.host(time, message).is_ok()
        && book.take().is_ok()
        && book.body().is_ok()
        && book.gate().is_ok()
}

// Records a message if it is the next one; one that is there is there.
fn recorded(alloc: Global, book: &mut FolderBook, number: u64, stamped: &Stamped) -> bool {
    if book.committed() > number {
        return true;
    }
    match stamped.message.copy(alloc) {
        Ok(message) => commit(book, stamped.time, message),
        Err(_) => false,
    }
}

/// Goes on with the recording: records its message of this number, if it isn't there.
pub fn go_on(alloc: Global, folder: MemoryFolder, number: u64, stamped: &Stamped) -> Done {
    let mut folder = folder;
    let Ok(file) = folder.open(PATH, Access::Write) else {
        return Done {
            folder,
            is_done: false,
        };
    };
    match Book::open(alloc, DiskOfFile::over(FolderFile { folder, file })) {
        Ok(mut book) => {
            let is_done = recorded(alloc, &mut book, number, stamped);
            Done {
                folder: closed(book),
                is_done,
            }
        }
        Err(refused) => Done {
            folder: refused.disk.into_file().folder,
            is_done: false,
        },
    }
}
