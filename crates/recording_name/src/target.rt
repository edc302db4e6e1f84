//! The file to which a recording is written that is made of another one: it has its own name from the
//! start, and no whole recording until all is there.

ghost use Rattle.std.specs.Prelude.{◌≡◌, ◌⊎◌, ℕ, IfOk};
ghost use Rattle.recording_name.specs.Folder.{IsMade};
ghost use Rattle.recording_name.specs.FolderHistory.{present, GoesOn};
ghost use Rattle.recording_name.specs.Target.{IsTarget, IsNewIf};

use crate::system_folder::{Access, Kind, SystemFolder};
use std::io;
use thiserror::Error;

/// A file to be written, open and locked.
#[derive(Drop)]
pub enum Target<F: Drop> {
    /// A new one, for its owner alone.
    Made(F),
    /// One that is there, as it is.
    There(F),
}

/// Why there is no file to be written.
#[derive(Debug, Drop, Error)]
pub enum TargetFault {
    /// What is there is a folder, a device or a pipe.
    #[error("it is no file")]
    NoFile(Kind),
    /// It can't be made: the system's word.
    #[error("{0}")]
    NotMade(io::Error),
    /// It can't be opened or locked.
    #[error("{0}")]
    NotOpened(io::Error),
}

// Locks a file that is open.
fn locked<S: SystemFolder>(folder: &mut S, file: S::File) -> Result<S::LockedFile, TargetFault>
    ensures locked { S.is_modelled → IfOk result (λ locked. S.locked locked ≡ S.file file) }
    ensures history { S.is_modelled → S.history folder.new ≡ S.history folder.old }
{
    folder
        .lock(file, Access::Write)
        .map_err(TargetFault::NotOpened)
}

// A new file at a path; `None` if something is there.
fn make_new<S: SystemFolder>(
    folder: &mut S,
    path: &str,
) -> Result<Option<S::LockedFile>, TargetFault>
    ensures made { S.is_modelled → IfOk result (λ made. IsNewIf S.locked made path.now (present (S.history folder.new))) }
    ensures goes_on { S.is_modelled → GoesOn (S.history folder.old) (S.history folder.new)
        (λ f. (f ≡ present (S.history folder.old)) ⊎ ((i : ℕ) × IsMade path.now i (present (S.history folder.old)) f)) }
{
    match folder.make(path) {
        Ok(file) => Ok(Some(locked(folder, file)?)),
        Err(error) if error.kind() == io::ErrorKind::AlreadyExists => Ok(None),
        Err(error) => Err(TargetFault::NotMade(error)),
    }
}

// The file that a path leads to.
fn open_there<S: SystemFolder>(folder: &mut S, path: &str) -> Result<S::LockedFile, TargetFault>
    ensures history { S.is_modelled → S.history folder.new ≡ S.history folder.old }
{
    match folder.follow(path).map_err(TargetFault::NotOpened)? {
        Some(found) if found.kind != Kind::File => return Err(TargetFault::NoFile(found.kind)),
        _ => {}
    }
    let file = folder
        .open(path, Access::Write)
        .map_err(TargetFault::NotOpened)?;
    locked(folder, file)
}

/// The file at a path, to which a recording is written that is made of another one. A new one is made
/// if nothing is there; what is there stays as it is, for the caller to refuse. Once all is written,
/// `settle` brings it and its name onto the device.
pub fn target_at<S: SystemFolder>(
    folder: &mut S,
    path: &str,
) -> Result<Target<S::LockedFile>, TargetFault>
    // A new one has no bytes, and no other name.
    ensures made { S.is_modelled → IfOk result (λ target. IsTarget S.locked target path.now (present (S.history folder.new))) }
    // Nothing is done but that a file is made under this name, if it named nothing.
    ensures goes_on { S.is_modelled → GoesOn (S.history folder.old) (S.history folder.new)
        (λ f. (f ≡ present (S.history folder.old)) ⊎ ((i : ℕ) × IsMade path.now i (present (S.history folder.old)) f)) }
{
    match make_new(folder, path)? {
        Some(file) => Ok(Target::Made(file)),
        None => Ok(Target::There(open_there(folder, path)?)),
    }
}
