//! A file whose name and bytes are brought onto the device.

ghost use Rattle.std.specs.Prelude.{◌≡◌, ℕ, List, Some, IfOk, OnOk, true};
ghost use Rattle.recording_name.specs.Folder.{IsFileSynced, IsFolderSynced};
ghost use Rattle.recording_name.specs.FolderHistory.{present, GoesOn};
ghost use Rattle.recording_name.specs.Kept.{Keeps, HoldsWhole, IsSettled};

use crate::system_folder::SystemFolder;
use std::io;

/// Whether it is the name itself that names a file which it leads to.
#[derive(Clone, Copy, Debug, PartialEq, Eq)]
pub enum Settled {
    /// The name names the file, through every crash.
    ByName,
    /// It doesn't: it is a link, of whose target's name nothing is said; or it names another file by
    /// now.
    Elsewhere,
}

// Whether an open file is the one that a name names, and not one that a link there leads to.
pub(crate) fn is_at<S: SystemFolder>(
    folder: &mut S,
    file: &S::LockedFile,
    name: &str,
) -> io::Result<bool>
    ensures named { S.is_modelled → IfOk result (λ is_at. is_at ≡ true → (present (S.history folder.old)).names name.now ≡ Some (S.locked file.now)) }
    ensures history { S.is_modelled → S.history folder.new ≡ S.history folder.old }
{
    let opened = folder.identify(file)?;
    match folder.look_up(name)? {
        Some(found) => Ok(found.identity == opened.identity),
        None => Ok(false),
    }
}

// Brings a file's bytes onto the device, and then the folder's names.
pub(crate) fn sync_both<S: SystemFolder>(folder: &mut S, file: &S::LockedFile) -> io::Result<()>
    ensures keeps { S.is_modelled → (name : List ℕ) → GoesOn (S.history folder.old) (S.history folder.new) (Keeps (present (S.history folder.old)) name) }
    ensures settled { S.is_modelled → OnOk result ((name : List ℕ) → (present (S.history folder.old)).names name ≡ Some (S.locked file.now)
        → IsSettled name (S.locked file.now) (present (S.history folder.new))) }
    ensures whole { S.is_modelled → OnOk result
        (HoldsWhole (S.locked file.now) (present (S.history folder.old)) (present (S.history folder.new))) }
    ensures names { S.is_modelled → (name : List ℕ) → (present (S.history folder.new)).names name ≡ (present (S.history folder.old)).names name }
{
    folder.sync_file(file)?;
    folder.sync_folder()
}

/// Brings a recording that was found onto the device, its bytes and its name: whoever made it may
/// have been cut off before. Nothing of it may be shown before that. The file is open, and locked.
pub fn settle<S: SystemFolder>(
    folder: &mut S,
    file: &S::LockedFile,
    path: &str,
) -> io::Result<Settled>
    // Each crash from then on leaves the file at its name, and in it what reads gave.
    ensures settled { S.is_modelled → IfOk result (λ settled. settled ≡ Settled.ByName → IsSettled path.now (S.locked file.now) (present (S.history folder.new))) }
    ensures whole { S.is_modelled → OnOk result
        (HoldsWhole (S.locked file.now) (present (S.history folder.old)) (present (S.history folder.new))) }
    // No name is touched: at each moment a crash leaves there what it might have left before.
    ensures keeps { S.is_modelled → (name : List ℕ) → GoesOn (S.history folder.old) (S.history folder.new) (Keeps (present (S.history folder.old)) name) }
{
    let is_by_name = is_at(folder, file, path)?;
    sync_both(folder, file)?;
    Ok(if is_by_name {
        Settled::ByName
    } else {
        Settled::Elsewhere
    })
}
