//! The file that a command writes.

ghost use Rattle.std.specs.Prelude.{◌↔◌, ◌≤◌, IsTrue, length};
ghost use Rattle.file_commands.specs.Fronts.{IsFrontOfRecording};

use crate::file_fault::{FileFault, opened, written};
use file_disk::{LockedFile, OsFolder, SystemError, create_exclusively};
use recording_name::{Kind, Target, TargetFault, target_at};
use std::fs::{File, Metadata, OpenOptions, Permissions};
use std::os::unix::fs::{FileExt, MetadataExt, PermissionsExt};
use std::rt::Files;
use std::{fs, io};

/// How many bytes tell a recording: its first gate, and what its header begins with.
const FRONT: usize = 8;

/// Who may read, write and run a file, of the bits of its mode.
const PERMISSIONS: u32 = 0o777;

// Whether a file with these bytes at its front holds a recording, a damaged one too.
fn is_front_of_recording(front: &[u8]) -> bool
    requires { 1 ≤ length front.now }
    ensures { IsTrue result ↔ IsFrontOfRecording front.now }
{
    let (_gate, text) = front.split_at(1);
    text == b"RFBREC1".as_slice() || text == b"RFBREC2".as_slice()
}

/// Refuses an open file that holds a recording. Fewer bytes than tell one are none.
pub fn demand_no_recording<'a>(file: &File, path: &'a str) -> Result<(), FileFault<'a>> {
    let mut front = [0; FRONT];
    match file.read_exact_at(&mut front, 0) {
        Ok(()) if is_front_of_recording(front.as_slice()) => {
            Err(FileFault::HoldsRecording(path))
        }
        _ => Ok(()),
    }
}

// Whether two are of one file of the system.
fn is_same_file(one: &Metadata, other: &Metadata) -> bool {
    one.dev() == other.dev() && one.ino() == other.ino()
}

// Lets those read and write a new file who may so a recording. Some file systems keep no modes.
fn keep_mode(file: &File, recording: &Metadata) {
    let mode = recording.permissions().mode() & PERMISSIONS;
    let _kept = file.set_permissions(Permissions::from_mode(mode));
}

// A new file, which who may read a recording may read.
fn make_like<R: Files<File = File>>(
    files: &R,
    path: &str,
    recording: &Metadata,
) -> io::Result<File> {
    let file = create_exclusively(files, path)?;
    keep_mode(&file, recording);
    Ok(file)
}

// Empties the file that is there. The recording itself is refused, under whatever name, and so is
// what holds another one: so it is asked of the open file, before it is emptied.
fn empty<'a, R: Files<File = File>>(
    files: &R,
    path: &'a str,
    recording: &Metadata,
) -> Result<File, FileFault<'a>> {
    // A pipe that is open for reading, too, is never at its end.
    let is_file = opened(fs::metadata(files, path), path)?.is_file();
    let there = OpenOptions::new()
        .read(is_file)
        .write(true)
        .open(files, path);
    let file = opened(there, path)?;
    let metadata = opened(file.metadata(), path)?;
    if is_same_file(&metadata, recording) {
        return Err(FileFault::Itself(path));
    }
    if metadata.is_file() {
        demand_no_recording(&file, path)?;
        written(file.set_len(0), path)?;
    }
    Ok(file)
}

/// Opens a file to be written, which is made, or emptied if it is there. A new one has the
/// recording's mode.
pub fn open_out<'a, R: Files<File = File>>(
    files: &R,
    path: &'a str,
    recording: &Metadata,
) -> Result<File, FileFault<'a>> {
    match make_like(files, path, recording) {
        Ok(file) => Ok(file),
        Err(error) if error.kind() == io::ErrorKind::AlreadyExists => {
            empty(files, path, recording)
        }
        Err(error) => Err(FileFault::Make(path, SystemError::of(&error))),
    }
}

// Why there is no file to which a recording is written.
fn target_fault(fault: TargetFault, path: &str) -> FileFault<'_> {
    match fault {
        TargetFault::NoFile(Kind::Folder) => FileFault::Folder(path),
        TargetFault::NoFile(_) => FileFault::NoFile(path),
        TargetFault::NotMade(error) => FileFault::Make(path, SystemError::of(&error)),
        TargetFault::NotOpened(error) => FileFault::Open(path, SystemError::of(&error)),
    }
}

/// A file to be read and written, locked: a new one with the mode of the file at another path, or one
/// that is there and stays as it is.
pub fn open_target<'a, R: AllocGlobal + Files<File = File>>(
    rt: &R,
    folder: &mut OsFolder<'_, R>,
    path: &'a str,
    like: &'a str,
) -> Result<LockedFile, FileFault<'a>> {
    let recording = opened(fs::metadata(rt, like), like)?;
    match target_at(folder, path) {
        Ok(Target::There(file)) => Ok(file),
        Ok(Target::Made(file)) => {
            keep_mode(&opened(file.share(), path)?, &recording);
            Ok(file)
        }
        Err(fault) => Err(target_fault(fault, path)),
    }
}
