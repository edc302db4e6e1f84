//! What stands at a recording's path: it is opened, locked, and brought onto the device.

ghost use Rattle.std.specs.Prelude.{◌≡◌, ℕ, List, IfOk, OnOk, None};
ghost use Rattle.recording_name.specs.FolderHistory.{present, GoesOn};
ghost use Rattle.recording_name.specs.Kept.{Keeps, IsFree};
ghost use Rattle.recording_name.specs.Standing.{IsSettledFor, IsStanding};

use crate::settling::{Settled, is_at, settle};
use crate::system_folder::{Access, Found, Kind, SystemFolder};
use std::io;
use thiserror::Error;

/// What stands at a recording's path.
#[derive(Drop)]
pub enum Standing<F: Drop> {
    /// A file, open and locked, and what the system said of it then. One that is to be written has
    /// bytes.
    Recording {
        file: F,
        found: Found,
        /// How it was brought onto the device; `None` if it is only to be read, and who may only read
        /// it may not do that.
        settled: Option<Settled>,
    },
    /// A file without bytes, open and locked: a recording may be made in its place.
    Empty(F),
    /// Nothing: a recording may be made there.
    Nothing,
}

/// Why a recording can't be gone on with, or made.
#[derive(Debug, Drop, Error)]
pub enum StandingFault {
    /// It is a folder, a device or a pipe.
    #[error("it is no file")]
    NoFile,
    /// A link that leads to nothing, or to a file without bytes: a recording would replace the link.
    #[error("a link leads to nothing there, or to an empty file")]
    EmptyLink,
    /// It can't be opened: the system's word.
    #[error("{0}")]
    NotOpened(io::Error),
    /// It can't be locked, as if another recorder has it (`WouldBlock`).
    #[error("{0}")]
    NotLocked(io::Error),
    /// It can't be brought onto the device.
    #[error("{0}")]
    NotSettled(io::Error),
}

// Whether a failure says that only who may write may do this.
fn is_for_writers(error: &io::Error) -> bool {
    match error.kind() {
        io::ErrorKind::PermissionDenied
        | io::ErrorKind::ReadOnlyFilesystem
        | io::ErrorKind::InvalidInput => true,
        _ => false,
    }
}

// Brings a file that was found onto the device, if whom it is opened for may.
fn settle_for<S: SystemFolder>(
    folder: &mut S,
    file: &S::LockedFile,
    path: &str,
    access: Access,
) -> Result<Option<Settled>, StandingFault>
    ensures settled { S.is_modelled → IfOk result (λ settled. IsSettledFor settled access path.now (S.locked file.now) (present (S.history folder.old)) (present (S.history folder.new))) }
    ensures keeps { S.is_modelled → (name : List ℕ) → GoesOn (S.history folder.old) (S.history folder.new) (Keeps (present (S.history folder.old)) name) }
{
    match settle(folder, file, path) {
        Ok(settled) => Ok(Some(settled)),
        Err(error) if access == Access::Read && is_for_writers(&error) => Ok(None),
        Err(error) => Err(StandingFault::NotSettled(error)),
    }
}

// The file that a path leads to, open and locked.
fn open_locked<S: SystemFolder>(
    folder: &mut S,
    path: &str,
    access: Access,
) -> Result<S::LockedFile, StandingFault>
    ensures history { S.is_modelled → S.history folder.new ≡ S.history folder.old }
{
    let file = folder.open(path, access).map_err(StandingFault::NotOpened)?;
    folder.lock(file, access).map_err(StandingFault::NotLocked)
}

// Whether the path itself names nothing. It led to nothing: a link there leads nowhere.
fn demand_nothing<S: SystemFolder>(folder: &mut S, path: &str) -> Result<(), StandingFault>
    ensures nothing { S.is_modelled → OnOk result ((present (S.history folder.new)).names path.now ≡ None) }
    ensures history { S.is_modelled → S.history folder.new ≡ S.history folder.old }
{
    match folder.look_up(path) {
        Ok(None) => Ok(()),
        Ok(Some(_)) => Err(StandingFault::EmptyLink),
        Err(error) => Err(StandingFault::NotOpened(error)),
    }
}

// Refuses a file without bytes that a link leads to.
fn demand_by_name<S: SystemFolder>(
    folder: &mut S,
    file: &S::LockedFile,
    path: &str,
) -> Result<(), StandingFault>
    ensures named { S.is_modelled → OnOk result ((present (S.history folder.new)).names path.now ≡ Some (S.locked file.now)) }
    ensures history { S.is_modelled → S.history folder.new ≡ S.history folder.old }
{
    match is_at(folder, file, path) {
        Ok(true) => Ok(()),
        Ok(false) => Err(StandingFault::EmptyLink),
        Err(error) => Err(StandingFault::NotOpened(error)),
    }
}

// Whether nothing can be opened at a path, since it leads to nothing, or to what is no file.
fn leads_to_nothing<S: SystemFolder>(folder: &mut S, path: &str) -> Result<bool, StandingFault>
    ensures history { S.is_modelled → S.history folder.new ≡ S.history folder.old }
{
    match folder.follow(path) {
        Ok(None) => Ok(true),
        Ok(Some(found)) if found.kind != Kind::File => Err(StandingFault::NoFile),
        // What is wrong there the opening says.
        Ok(Some(_)) | Err(_) => Ok(false),
    }
}

/// What stands at a recording's path. It is locked before anything of it is read, and brought onto
/// the device, its bytes and its name, before anything of it may be shown: who made it may have been
/// cut off. What is to be written and leads to nothing, or has no bytes, is to be made (`make_draft`);
/// what is only to be read is then refused by the opening, or read as it is.
pub fn stand_at<S: SystemFolder>(
    folder: &mut S,
    path: &str,
    access: Access,
) -> Result<Standing<S::LockedFile>, StandingFault>
    // Each crash from then on leaves what may be shown; and if a recording may be made, nothing that
    // has bytes is there.
    ensures standing { S.is_modelled → IfOk result (λ standing. IsStanding S.locked standing access path.now (present (S.history folder.old)) (present (S.history folder.new))) }
    // No name is touched: at each moment a crash leaves there what it might have left before.
    ensures keeps { S.is_modelled → (name : List ℕ) → GoesOn (S.history folder.old) (S.history folder.new) (Keeps (present (S.history folder.old)) name) }
{
    if leads_to_nothing(folder, path)? && access == Access::Write {
        demand_nothing(folder, path)?;
        return Ok(Standing::Nothing);
    }
    let file = open_locked(folder, path, access)?;
    let found = folder.identify(&file).map_err(StandingFault::NotOpened)?;
    if access == Access::Write && found.kind == Kind::File && found.length == 0 {
        demand_by_name(folder, &file, path)?;
        return Ok(Standing::Empty(file));
    }
    let settled = settle_for(folder, &file, path, access)?;
    Ok(Standing::Recording {
        file,
        found,
        settled,
    })
}
