//! A draft that gets its recording's name.

ghost use Rattle.std.specs.Prelude.{◌≡◌, ◌≢◌, ℕ, List, Some, None, IfErr, OnOk, OnErr};
ghost use Rattle.recording_name.specs.FolderHistory.{present, GoesOn};
ghost use Rattle.recording_name.specs.Kept.{Keeps, KeepsOrIsWhole, HoldsWhole, IsSettled};
ghost use Rattle.recording_name.specs.Refused.{IsLeftBy};

use crate::settling::sync_both;
use crate::system_folder::SystemFolder;
use std::io;
use thiserror::Error;

/// Why a recording hasn't got its name, or may lose it.
#[derive(Debug, Drop, Error)]
pub enum PublishFault {
    /// It hasn't got it, and its draft is removed.
    #[error("{0}")]
    NotNamed(io::Error),
    /// The same, but the draft couldn't be removed.
    #[error("{0}")]
    DraftLeft(io::Error),
    /// It has its name, but a crash may take that back.
    #[error("{0}")]
    NotSettled(io::Error),
}

// Removes a draft that doesn't get its name, for this reason.
fn give_up<S: SystemFolder>(folder: &mut S, draft: &str, error: io::Error) -> PublishFault
    ensures elsewhere { S.is_modelled → (name : List ℕ) → name ≢ draft.now
        → GoesOn (S.history folder.old) (S.history folder.new) (Keeps (present (S.history folder.old)) name) }
    ensures left { S.is_modelled → (path : List ℕ) (file : ℕ) → IsLeftBy result draft.now path file (present (S.history folder.new)) }
{
    match folder.remove(draft) {
        Ok(()) => PublishFault::NotNamed(error),
        Err(_) => PublishFault::DraftLeft(error),
    }
}

/// Gives a draft, whose bytes are a whole recording, its recording's name, through every later
/// crash: its bytes are brought onto the device, it is renamed, and bytes and names are brought onto
/// the device then. If it can't be renamed, the draft is removed.
pub fn publish<S: SystemFolder>(
    folder: &mut S,
    file: &S::LockedFile,
    draft: &str,
    path: &str,
) -> Result<(), PublishFault>
    requires differ { draft.now ≢ path.now }
    requires drafted { S.is_modelled → (present (S.history folder.old)).names draft.now ≡ Some (S.locked file.now) }

    // Each crash from then on leaves the file at its name, and in it what reads gave.
    ensures settled { S.is_modelled → OnOk result (IsSettled path.now (S.locked file.now) (present (S.history folder.new))) }
    ensures whole { S.is_modelled → OnOk result
        (HoldsWhole (S.locked file.now) (present (S.history folder.old)) (present (S.history folder.new))) }

    // A crash at any moment of it leaves at that name what it might have left before, or the whole
    // recording.
    ensures any_moment { S.is_modelled → GoesOn (S.history folder.old) (S.history folder.new)
        (KeepsOrIsWhole (present (S.history folder.old)) path.now (S.locked file.now) ((present (S.history folder.old)).files (S.locked file.now)).now) }

    // No other name is touched.
    ensures elsewhere { S.is_modelled → (name : List ℕ) → name ≢ draft.now → name ≢ path.now
        → GoesOn (S.history folder.old) (S.history folder.new) (Keeps (present (S.history folder.old)) name) }

    // What a refusal leaves.
    ensures refused { S.is_modelled → IfErr result (λ fault. IsLeftBy fault draft.now path.now (S.locked file.now) (present (S.history folder.new))) }
{
    if let Err(error) = folder.sync_file(file) {
        return Err(give_up(folder, draft, error));
    }
    if let Err(error) = folder.rename(draft, path) {
        return Err(give_up(folder, draft, error));
    }
    match sync_both(folder, file) {
        Ok(()) => Ok(()),
        Err(error) => Err(PublishFault::NotSettled(error)),
    }
}
