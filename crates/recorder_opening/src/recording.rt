//! The recording's file: opened if it has bytes, or made whole.

ghost use Rattle.std.specs.Prelude.{◌≢◌, OnOk};

use crate::draft::{CutOff, draft_path};
use crate::opening::Opening;
use block_walk::{hidden_after, read_header};
use connections::flusher_core::Book;
use file_disk::{FileDisk, LastError, LockedFile, OsFolder, Written};
use gated_journal::{CreateFault, Header};
use key_index::IndexFault;
use recording_name::{
    Access, DraftFault, Identity, PublishFault, Standing, StandingFault, SystemFolder, make_draft,
    publish, stand_at,
};
use refusals::Refusal;
use std::alloc::Global;
use std::fs::File;
use std::rt::Files;
use std::sync::Wait;
use std::time::{Clock, Duration};
use std::{io, thread};
use telling::Event;
use terms::Format;

/// How often a lock is tried, and for how many milliseconds it waits between two tries.
const TRIES: u32 = 5;

const BETWEEN_TRIES: u64 = 20;

/// How many blocks that go on with the digests a crash leaves at most after the end of a recording:
/// the one whose gate wasn't opened yet.
const LEFT_BY_CRASH: u64 = 1;

/// Whether a path leads to this file still, which has at least so many bytes.
pub fn is_still_at<R: AllocGlobal + Files<File = File>>(
    rt: &R,
    path: &str,
    identity: Identity,
    length: u64,
) -> bool {
    match OsFolder::of(rt, path).follow(path) {
        Ok(Some(found)) => found.identity == identity && found.length >= length,
        Ok(None) | Err(_) => false,
    }
}

/// A recording that is open.
#[derive(Drop)]
pub struct OpenRecording {
    pub book: Box<Book<FileDisk>>,
    pub identity: Identity,
}

/// A recording of which only the header is read: its file, open and locked.
#[derive(Drop)]
pub struct Unread {
    pub header: Header,
    file: LockedFile,
    identity: Identity,
    length: u64,
}

/// What stands at the recording's path.
#[derive(Drop)]
pub enum Found {
    /// A recording.
    Recording(Unread),
    /// A file without bytes, open and locked.
    Empty(LockedFile),
    /// Nothing.
    Nothing,
}

// Whether another process has locked what stands at a path.
fn is_locked<F: Drop>(standing: &Result<Standing<F>, StandingFault>) -> bool {
    match standing {
        Err(StandingFault::NotLocked(error)) => error.kind() == io::ErrorKind::WouldBlock,
        _ => false,
    }
}

// A value in a box, or this refusal, which is of memory.
fn boxed<T: Drop>(alloc: Global, value: T, refusal: Refusal) -> Result<Box<T>, Refusal> {
    Box::new(alloc, value).map_err(|_| refusal)
}

impl<'a, R: AllocGlobal + Clock + Eprint + Files<File = File> + Wait> Opening<'a, R> {
    // Tells why nothing at the recording's path can be gone on with, or made.
    fn tell_standing(&self, fault: StandingFault) {
        let path = self.plan.file;
        let (operation, error) = match fault {
            StandingFault::NoFile => return self.telling.tell(self.rt, Event::NoFile(path)),
            StandingFault::EmptyLink => return self.telling.tell(self.rt, Event::Link(path)),
            StandingFault::NotLocked(error) if error.kind() == io::ErrorKind::WouldBlock => {
                return self.telling.tell(self.rt, Event::Locked(path));
            }
            StandingFault::NotLocked(error) => ("lock", error),
            StandingFault::NotOpened(error) => ("open", error),
            StandingFault::NotSettled(error) => ("sync the folder of", error),
        };
        self.telling.tell_failure(self.rt, operation, path, &error);
    }

    // What stands at the recording's path, locked so that no two recorders write it: alone, or beside
    // others that only read. Who only looks whether a recorder writes it has it locked for a moment,
    // too; so it is tried again.
    fn standing(&self, access: Access) -> Result<Standing<LockedFile>, Refusal> {
        let path = self.plan.file;
        let mut folder = OsFolder::of(self.rt, path);
        let mut standing = stand_at(&mut folder, path, access);
        for _ in 1..TRIES {
            if !is_locked(&standing) {
                break;
            }
            thread::sleep(self.rt, Duration::from_millis(BETWEEN_TRIES));
            standing = stand_at(&mut folder, path, access);
        }
        match standing {
            Ok(standing) => Ok(standing),
            Err(fault) => {
                self.tell_standing(fault);
                Err(Refusal::File)
            }
        }
    }

    /// Tells what the device said last, if it said anything.
    pub fn tell_last_error(&self, operation: &str, path: &str) {
        if let Some(error) = self.last_error.get() {
            self.telling.tell_failure(self.rt, operation, path, &error);
        }
    }

    // A second handle of what is noted of the file; `None` if there is no memory for it.
    fn notes(&self) -> Option<(LastError, Written)> {
        Some((self.last_error.share().ok()?, self.written.share().ok()?))
    }

    // The header of the recording in a file of this length.
    fn header_of(&self, file: &LockedFile, length: u64) -> Result<Header, Refusal> {
        let again = self.again(file)?;
        let (last_error, written) = self
            .notes()
            .ok_or(Refusal::Recording(IndexFault::NoMemory))?;
        let mut disk = FileDisk::to_read(self.rt, again).noting(last_error, written);
        match read_header(self.rt.alloc(), &mut disk, length) {
            Ok(header) => Ok(header),
            Err(fault) => {
                self.tell_last_error("read", self.plan.file);
                Err(Refusal::Recording(IndexFault::Journal(fault)))
            }
        }
    }

    // A second handle of the recording's file.
    fn again(&self, file: &LockedFile) -> Result<File, Refusal> {
        self.given(file.share(), "open", self.plan.file, Refusal::File)
    }

    // Opens the recording in a file of this length. In format 2 all of it is read twice.
    fn open_book(
        &self,
        file: File,
        is_written: bool,
        length: u64,
        format: Format,
    ) -> Result<Box<Book<FileDisk>>, Refusal> {
        let no_memory = Refusal::Recording(IndexFault::NoMemory);
        let (last_error, written) = self.notes().ok_or(no_memory)?;
        let tally = self.reading.tally.share().map_err(|_| no_memory)?;
        written.note(length);
        self.reading.begin(match format {
            Format::One => length,
            Format::Two => length.saturating_mul(2),
        });
        let disk = if is_written {
            FileDisk::new(file)
        } else {
            FileDisk::to_read(self.rt, file)
        };
        let disk = disk.noting(last_error, written).counting(tally);
        match Book::open(self.rt.alloc(), disk) {
            Ok(book) => boxed(self.rt.alloc(), book, no_memory),
            Err(refused) => {
                self.tell_last_error("read", self.plan.file);
                Err(Refusal::Recording(refused.fault))
            }
        }
    }

    // Refuses a recording that was longer once: after the closed gate at its end more blocks go on
    // with its digests than a crash leaves there. What is recorded next would be written over them.
    fn demand_end(&self, book: &Book<FileDisk>, file: File) -> Result<(), Refusal> {
        let (last_error, written) = self
            .notes()
            .ok_or(Refusal::Recording(IndexFault::NoMemory))?;
        let mut disk = FileDisk::to_read(self.rt, file).noting(last_error, written);
        let gate = book.end().saturating_sub(1);
        let last = book.last_digest();
        let hidden = match hidden_after(self.rt.alloc(), &mut disk, book.header(), &last, gate) {
            Ok(hidden) => hidden,
            Err(fault) => {
                self.tell_last_error("read", self.plan.file);
                return Err(fault.into());
            }
        };
        if hidden.blocks > LEFT_BY_CRASH {
            self.telling.tell(self.rt, Event::Hidden(hidden.blocks));
            return Err(Refusal::Hidden);
        }
        Ok(())
    }

    /// Reads a recording that was found. One that is to be written is refused if blocks after its
    /// end go on with the digests and the plan doesn't give them up.
    pub fn read(&self, unread: Unread) -> Result<OpenRecording, Refusal> {
        let is_written = self.plan.host.is_some();
        let Unread {
            header,
            file,
            identity,
            length,
        } = unread;
        let book = self.open_book(self.again(&file)?, is_written, length, header.format())?;
        if is_written && !self.plan.overwrites {
            self.demand_end(&book, self.again(&file)?)?;
        }
        Ok(OpenRecording { book, identity })
    }

    /// Finds the recording at the plan's path, for a host to be written, else only to be read; locks
    /// its file, and reads its header. What is no file is refused, and so is a link to nothing or to a
    /// file without bytes.
    pub fn find(&self) -> Result<Found, Refusal> {
        let access = match self.plan.host {
            Some(_) => Access::Write,
            None => Access::Read,
        };
        match self.standing(access)? {
            Standing::Recording {
                file,
                found,
                settled: _,
            } => Ok(Found::Recording(Unread {
                header: self.header_of(&file, found.length)?,
                file,
                identity: found.identity,
                length: found.length,
            })),
            Standing::Empty(file) => Ok(Found::Empty(file)),
            Standing::Nothing => Ok(Found::Nothing),
        }
    }

    // Gives a whole recording its name, on the device.
    fn publish(
        &self,
        folder: &mut OsFolder<'_, R>,
        file: &LockedFile,
        draft: &str,
        path: &str,
    ) -> Result<(), Refusal>
        requires { draft.now ≢ path.now }
    {
        let (error, operation) = match publish(folder, file, draft, path) {
            Ok(()) => return Ok(()),
            Err(PublishFault::NotNamed(error)) => (error, "rename to"),
            Err(PublishFault::DraftLeft(error)) => (error, "rename to"),
            Err(PublishFault::NotSettled(error)) => (error, "sync the folder of"),
        };
        self.telling.tell_failure(self.rt, operation, path, &error);
        Err(Refusal::File)
    }

    // A new recording on the disk of a file, which is removed if that fails.
    fn make_book(
        &self,
        header: Header,
        disk: FileDisk,
        folder: &mut OsFolder<'_, R>,
        draft: &str,
    ) -> Result<Box<Book<FileDisk>>, Refusal> {
        let alloc = self.rt.alloc();
        let made = match Book::create(alloc, disk, header) {
            Ok(book) => boxed(alloc, book, Refusal::Create(CreateFault::NoMemory)),
            Err(refused) => {
                self.tell_last_error("write", draft);
                Err(Refusal::Create(refused.fault))
            }
        };
        if made.is_err() {
            let _removed = folder.remove(draft);
        }
        made
    }

    // Tells why there is no draft.
    fn tell_draft(&self, fault: DraftFault, draft: &str) {
        match fault {
            DraftFault::InTheWay => self.telling.tell(self.rt, Event::InTheWay(draft)),
            DraftFault::Taken => self.telling.tell(self.rt, Event::Locked(self.plan.file)),
            DraftFault::System(error) => {
                self.telling.tell_failure(self.rt, "make", draft, &error);
            }
        }
    }

    // The file in which the recording is made.
    fn make_draft(
        &self,
        folder: &mut OsFolder<'_, R>,
        draft: &str,
        path: &str,
    ) -> Result<LockedFile, Refusal>
        ensures { OnOk result (draft.now ≢ path.now) }
    {
        let leftover = CutOff {
            alloc: self.rt.alloc(),
        };
        match make_draft(folder, draft, path, &leftover) {
            Ok(file) => Ok(file),
            Err(fault) => {
                self.tell_draft(fault, draft);
                Err(Refusal::File)
            }
        }
    }

    /// Makes a recording at the plan's path if there is none, or no byte. It appears there whole:
    /// it is made under a name beside, with `.new` after it, and renamed once its header and first
    /// gate are on the device.
    pub fn create(&self, header: Header) -> Result<OpenRecording, Refusal> {
        let no_memory = Refusal::Create(CreateFault::NoMemory);
        let (last_error, written) = self.notes().ok_or(no_memory)?;
        let path = self.plan.file;
        let named = draft_path(self.rt.alloc(), path).map_err(|_| no_memory)?;
        let draft = named.as_str();
        let mut folder = OsFolder::of(self.rt, path);
        let file = self.make_draft(&mut folder, draft, path)?;
        let found = self.given(folder.identify(&file), "make", draft, Refusal::File)?;
        let disk = FileDisk::new(self.again(&file)?).noting(last_error, written);
        let book = self.make_book(header, disk, &mut folder, draft)?;
        self.publish(&mut folder, &file, draft, path)?;
        Ok(OpenRecording {
            book,
            identity: found.identity,
        })
    }
}
