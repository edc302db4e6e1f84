//! A folder in memory, which can tell its past.

ghost use Rattle.std.specs.Prelude.{◌≡◌, ◌⊎◌, ◌∷◌, ◌++◌, [], List, ℕ, Some, None, IfOk, IfSome, OnOk, OnErr, Contains, length};
ghost use Rattle.disk.specs.Contents.{put, IsWritten};
ghost use Rattle.recording_name.specs.Folder.{Folder, IsNamed};
ghost use Rattle.recording_name.specs.FolderHistory.{present, GoesOn};
ghost use Rattle.recording_name.specs.Kept.{WritesOnly};
ghost use Rattle.recording_name.specs.Memory.{after, history_of, state_of, given_of, IsBelow};

mod crash;

use crate::system_folder::{Access, Found, Identity, Kind, SystemFolder};
pub use crash::Chosen;
use std::alloc::{AllocError, Global};
use std::io;
use std::marker::Model;

/// What was done in a folder.
#[derive(Drop)]
enum Event {
    /// A name got a file, or names nothing any more.
    Named {
        name: String,
        file: Option<u64>,
    },
    /// The same, of a new file.
    Made {
        name: String,
        file: u64,
    },
    /// Bytes were written at an offset of a file.
    Wrote {
        file: u64,
        offset: usize,
        bytes: Vec<u8>,
    },
    FileSynced {
        file: u64,
    },
    FolderSynced,
}

/// A folder in memory, empty at first. It keeps a record of all that was done, so that contracts can
/// read each moment of the past, and tests what a crash leaves of one. A call fails if it is told
/// to, or finds no memory.
#[derive(Drop)]
pub struct MemoryFolder {
    events: Vec<Event>,
    /// After how many more calls one fails.
    calls_to_failure: Option<u64>,
}

impl Model for MemoryFolder {
    ghost use Rattle.recording_name.specs.declared.memory_folder.Event.{Event};
    ghost use Rattle.std.specs.Prelude.{List};

    ghost Value = { List Event };

    ghost view = { λ f. f.events.items };
}

/// A file of a folder in memory.
#[derive(Clone, Copy, Debug, PartialEq, Eq)]
pub struct MemoryFile {
    number: u64,
}

// What a name names after an event, by what it named before.
fn name_after(event: &Event, name: &str, before: Option<u64>) -> Option<u64>
    ensures { (f : Folder) → before ≡ f.names name.now → result ≡ (after f event.now).names name.now }
{
    match event {
        Event::Named { name: its, file } if its.as_str() == name => *file,
        Event::Made { name: its, file } if its.as_str() == name => Some(*file),
        _ => before,
    }
}

// What a name names after these events.
fn named(events: &[Event], name: &str) -> Option<u64>
    ensures { result ≡ (state_of events.now).names name.now }
{
    let mut file = None;
    for event in events {
        file = name_after(event, name, file);
    }
    file
}

// Which file an event gives a name.
fn given(event: &Event) -> Option<u64>
    ensures { result ≡ given_of event.now }
{
    match event {
        Event::Named { name: _, file } => *file,
        Event::Made { name: _, file } => Some(*file),
        _ => None,
    }
}

// A number that no name has named; `None` if all are taken.
fn unused(events: &[Event]) -> Option<u64>
    ensures { IfSome result (λ n. IsBelow n (state_of events.now)) }
{
    let mut next = 0;
    for event in events {
        if let Some(file) = given(event) {
            next = next.max(file.checked_add(1)?);
        }
    }
    Some(next)
}

// Puts these bytes at an offset of a file, or at its end if that is before it.
fn put(file: &mut Vec<u8>, offset: usize, bytes: &[u8]) -> Result<(), AllocError>
    ensures { OnOk result (file.new.items ≡ put file.old.items offset bytes.now) }
{
    let start = offset.min(file.len());
    let overlap = bytes.len().min(file.len() - start);
    file.extend_from_slice(&bytes[overlap..])?;
    file[start..start + overlap].copy_from_slice(&bytes[..overlap]);
    Ok(())
}

// What a file's bytes are after an event, by those before.
fn bytes_after(event: &Event, file: u64, bytes: &mut Vec<u8>) -> Result<(), AllocError>
    ensures { OnOk result ((f : Folder) → bytes.old.items ≡ (f.files file).now
        → bytes.new.items ≡ ((after f event.now).files file).now) }
{
    match event {
        Event::Made { name: _, file: its } if *its == file => bytes.clear(),
        Event::Wrote {
            file: its,
            offset,
            bytes: written,
        } if *its == file => put(bytes, *offset, written)?,
        _ => {}
    }
    Ok(())
}

// The bytes of a file.
fn bytes_of(alloc: Global, events: &[Event], file: u64) -> Result<Vec<u8>, AllocError>
    ensures { IfOk result (λ bytes. bytes.items ≡ ((state_of events.now).files file).now) }
{
    let mut bytes = Vec::new(alloc);
    for event in events {
        bytes_after(event, file, &mut bytes)?;
    }
    Ok(bytes)
}

// Nothing is at a name.
fn not_found() -> io::Error {
    io::ErrorKind::NotFound.into()
}

impl MemoryFolder {
    /// An empty folder.
    pub fn new(alloc: Global) -> MemoryFolder
        ensures { result ≡ [] }
    {
        MemoryFolder {
            events: Vec::new(alloc),
            calls_to_failure: None,
        }
    }

    /// After this many more calls, one call fails.
    pub fn fail_after(&mut self, calls: u64)
        ensures { self.new ≡ self.old }
    {
        self.calls_to_failure = Some(calls);
    }

    /// Whether the call that is to fail is still to come.
    pub fn is_to_fail(&self) -> bool {
        self.calls_to_failure.is_some()
    }

    /// Writes these bytes at an offset of a file, or at its end if that is before it.
    pub fn write_at(&mut self, file: &MemoryFile, offset: usize, bytes: &[u8]) -> io::Result<()>
        ensures written { OnOk result (IsWritten offset bytes.now ((present (history_of self.old)).files file.now.number)
            ((present (history_of self.new)).files file.now.number)) }
        ensures names { (name : List ℕ) → (present (history_of self.new)).names name ≡ (present (history_of self.old)).names name }
        ensures only { GoesOn (history_of self.old) (history_of self.new)
            (λ f. (f ≡ present (history_of self.old)) ⊎ WritesOnly file.now.number (present (history_of self.old)) f) }
    {
        self.count()?;
        let bytes = Vec::from_slice(*self.events.allocator(), bytes)?;
        self.note(Event::Wrote {
            file: file.number,
            offset,
            bytes,
        })
    }

    // Counts a call: it may be the one to fail.
    fn count(&mut self) -> io::Result<()>
        ensures { self.new ≡ self.old }
    {
        let Some(calls) = self.calls_to_failure else {
            return Ok(());
        };
        self.calls_to_failure = calls.checked_sub(1);
        match self.calls_to_failure {
            Some(_) => Ok(()),
            None => Err(io::ErrorKind::Other.into()),
        }
    }

    // Notes an event.
    fn note(&mut self, event: Event) -> io::Result<()>
        ensures ok { OnOk result (self.new ≡ self.old ++ event ∷ []) }
        ensures err { OnErr result (self.new ≡ self.old) }
    {
        Ok(self.events.push(event)?)
    }

    // What a name names.
    fn find(&mut self, name: &str) -> io::Result<Option<u64>>
        ensures found { IfOk result (λ file. file ≡ (present (history_of self.old)).names name.now) }
        ensures same { self.new ≡ self.old }
    {
        self.count()?;
        Ok(named(&self.events, name))
    }

    // A number that no name has named.
    fn next_number(&self) -> io::Result<u64>
        ensures { IfOk result (λ n. IsBelow n (state_of self.now)) }
    {
        match unused(&self.events) {
            Some(number) => Ok(number),
            None => Err(io::ErrorKind::StorageFull.into()),
        }
    }

    // What is told of a file.
    fn told_of(&self, number: u64) -> Result<Found, AllocError>
        ensures number { IfOk result (λ found. found.identity.inode ≡ number) }
        ensures length { IfOk result (λ found. found.length ≡ length ((present (history_of self.now)).files number).now) }
    {
        let bytes = bytes_of(*self.events.allocator(), &self.events, number)?;
        Ok(Found {
            identity: Identity {
                device: 0,
                inode: number,
            },
            kind: Kind::File,
            length: bytes.len() as u64,
        })
    }

    // Has a name name a file, or nothing.
    fn note_name(&mut self, name: &str, file: Option<u64>) -> io::Result<()>
        ensures named { OnOk result (IsNamed name.now file (present (history_of self.old)) (present (history_of self.new))) }
        ensures goes_on { GoesOn (history_of self.old) (history_of self.new) (IsNamed name.now file (present (history_of self.old))) }
        ensures err { OnErr result (self.new ≡ self.old) }
    {
        let name = String::from_str(*self.events.allocator(), name)?;
        self.note(Event::Named { name, file })
    }
}

impl SystemFolder for MemoryFolder {
    ghost use Rattle.recording_name.specs.MemoryLaws.{Agrees-history_of};

    type File = MemoryFile;

    type LockedFile = MemoryFile;

    ghost is_modelled = { Unit {0} };

    ghost history = { history_of };

    ghost number = { λ identity. identity.inode };

    ghost file = { λ file. file.number };

    ghost locked = { λ file. file.number };

    fn look_up(&mut self, name: &str) -> io::Result<Option<Found>> {
        match self.find(name)? {
            Some(number) => Ok(Some(self.told_of(number)?)),
            None => Ok(None),
        }
    }

    fn follow(&mut self, name: &str) -> io::Result<Option<Found>> {
        self.look_up(name)
    }

    fn identify(&mut self, opened: &MemoryFile) -> io::Result<Found> {
        self.count()?;
        Ok(self.told_of(opened.number)?)
    }

    fn make(&mut self, name: &str) -> io::Result<MemoryFile> {
        if self.find(name)?.is_some() {
            return Err(io::ErrorKind::AlreadyExists.into());
        }
        let number = self.next_number()?;
        let name = String::from_str(*self.events.allocator(), name)?;
        self.note(Event::Made { name, file: number })?;
        Ok(MemoryFile { number })
    }

    fn open(&mut self, name: &str, _access: Access) -> io::Result<MemoryFile> {
        match self.find(name)? {
            Some(number) => Ok(MemoryFile { number }),
            None => Err(not_found()),
        }
    }

    fn lock(&mut self, opened: MemoryFile, _access: Access) -> io::Result<MemoryFile> {
        self.count()?;
        Ok(opened)
    }

    fn read(&mut self, opened: &MemoryFile) -> io::Result<Vec<u8>> {
        self.count()?;
        let alloc = *self.events.allocator();
        Ok(bytes_of(alloc, &self.events, opened.number)?)
    }

    fn sync_file(&mut self, opened: &MemoryFile) -> io::Result<()> {
        self.count()?;
        self.note(Event::FileSynced {
            file: opened.number,
        })
    }

    fn sync_folder(&mut self) -> io::Result<()> {
        self.count()?;
        self.note(Event::FolderSynced)
    }

    fn rename(&mut self, from: &str, to: &str) -> io::Result<()> {
        let Some(file) = self.find(from)? else {
            return Err(not_found());
        };
        // Two names of one file: nothing is done.
        if self.find(to)? == Some(file) {
            return Ok(());
        }
        self.note_name(to, Some(file))?;
        self.note_name(from, None)
    }

    fn remove(&mut self, name: &str) -> io::Result<()> {
        if self.find(name)?.is_none() {
            return Err(not_found());
        }
        self.note_name(name, None)
    }

    ghost agrees = { λ folder _. Agrees-history_of folder };
}
