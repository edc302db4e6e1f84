//! The file in which a recording is made, under a name beside its own.

ghost use Rattle.std.specs.Prelude.{◌≡◌, ◌≢◌, ℕ, List, Some, IfOk, OnOk, true};
ghost use Rattle.recording_name.specs.FolderHistory.{present, GoesOn};
ghost use Rattle.recording_name.specs.Kept.{Keeps, IsFree, IsNew, MayAllGo, ReplacesOnly};
ghost use Rattle.recording_name.specs.Told.{IsOpened};

use crate::settling::is_at;
use crate::system_folder::{Access, Found, Kind, SystemFolder};
use std::io;
use thiserror::Error;

/// Says what a making that was cut off leaves, which may be replaced.
pub trait Leftover {
    /// The bytes of what may be replaced.
    ghost may_go: { List ℕ → Type 0 };

    /// How many bytes it has at most.
    fn longest(&self) -> u64;

    /// Whether a file of these bytes may be replaced. An error: there is no memory to say so.
    fn is_left(&self, bytes: Vec<u8>) -> io::Result<bool>
        ensures { IfOk result (λ is_left. is_left ≡ true → may_go bytes.items) };
}

/// Why there is no draft.
#[derive(Debug, Drop, Error)]
pub enum DraftFault {
    /// Something else lies at the draft's name, and stays as it is.
    #[error("something else lies at its path")]
    InTheWay,
    /// A recording came to the recording's name meanwhile, or the draft is another recorder's.
    #[error("another recorder has it")]
    Taken,
    /// The system's word.
    #[error("{0}")]
    System(#[from] io::Error),
}

// What lies at a draft's name, open and locked: a file of not too many bytes. `None` if nothing lies
// there. A link isn't followed, and a pipe or a device not opened.
fn open_left<S: SystemFolder>(
    folder: &mut S,
    draft: &str,
    longest: u64,
) -> Result<Option<S::LockedFile>, DraftFault>
    ensures named { S.is_modelled → IfOk result (λ left. IsOpened S.locked left ((present (S.history folder.old)).names draft.now)) }
    ensures history { S.is_modelled → S.history folder.new ≡ S.history folder.old }
{
    match folder.look_up(draft)? {
        None => return Ok(None),
        Some(found) if found.kind != Kind::File => return Err(DraftFault::InTheWay),
        Some(_) => {}
    }
    let file = folder.open(draft, Access::Write)?;
    let Ok(file) = folder.lock(file, Access::Write) else {
        return Err(DraftFault::Taken);
    };
    // Who had it before may have renamed or removed it by now.
    if !is_at(folder, &file, draft)? {
        return Err(DraftFault::Taken);
    }
    if folder.identify(&file)?.length > longest {
        return Err(DraftFault::InTheWay);
    }
    Ok(Some(file))
}

// Removes what lies at a draft's name, if it may go. What another recorder is at stays.
fn remove_left<S: SystemFolder, L: Leftover>(
    folder: &mut S,
    draft: &str,
    leftover: &L,
) -> Result<(), DraftFault>
    ensures replaced { S.is_modelled → ReplacesOnly L.may_go draft.now (present (S.history folder.old)) (present (S.history folder.new)) }
    ensures removed { S.is_modelled → OnOk result (MayAllGo L.may_go draft.now (present (S.history folder.old))) }
    ensures elsewhere { S.is_modelled → (name : List ℕ) → name ≢ draft.now
        → GoesOn (S.history folder.old) (S.history folder.new) (Keeps (present (S.history folder.old)) name) }
{
    let Some(file) = open_left(folder, draft, leftover.longest())? else {
        return Ok(());
    };
    let bytes = folder.read(&file)?;
    if !leftover.is_left(bytes)? {
        return Err(DraftFault::InTheWay);
    }
    // The lock is held until the file has gone.
    Ok(folder.remove(draft)?)
}

// A new file at a draft's name, in place of what may go.
fn make_at<S: SystemFolder, L: Leftover>(
    folder: &mut S,
    draft: &str,
    leftover: &L,
) -> Result<S::File, DraftFault>
    ensures made { S.is_modelled → IfOk result (λ file. IsNew draft.now (S.file file) (present (S.history folder.new))) }
    ensures replaced { S.is_modelled → ReplacesOnly L.may_go draft.now (present (S.history folder.old)) (present (S.history folder.new)) }
    ensures removed { S.is_modelled → OnOk result (MayAllGo L.may_go draft.now (present (S.history folder.old))) }
    ensures elsewhere { S.is_modelled → (name : List ℕ) → name ≢ draft.now
        → GoesOn (S.history folder.old) (S.history folder.new) (Keeps (present (S.history folder.old)) name) }
{
    remove_left(folder, draft, leftover)?;
    Ok(folder.make(draft)?)
}

// Locks a new draft.
fn claim<S: SystemFolder>(
    folder: &mut S,
    file: S::File,
    draft: &str,
) -> Result<S::LockedFile, DraftFault>
    ensures claimed { S.is_modelled → IfOk result (λ claimed. S.locked claimed ≡ S.file file) }
    ensures history { S.is_modelled → S.history folder.new ≡ S.history folder.old }
{
    // Another recorder may have taken it for one that was cut off, before it was locked.
    let Ok(file) = folder.lock(file, Access::Write) else {
        return Err(DraftFault::Taken);
    };
    if !is_at(folder, &file, draft)? {
        return Err(DraftFault::Taken);
    }
    Ok(file)
}

// Whether nothing is at a recording's own name, or a file without bytes.
fn is_free<S: SystemFolder>(folder: &mut S, path: &str) -> io::Result<bool>
    ensures free { S.is_modelled → IfOk result (λ is_free. is_free ≡ true → IsFree path.now (present (S.history folder.new))) }
    ensures history { S.is_modelled → S.history folder.new ≡ S.history folder.old }
{
    match folder.look_up(path)? {
        None
        | Some(
            Found {
                kind: Kind::File,
                length: 0,
                identity: _,
            },
        ) => Ok(true),
        Some(_) => Ok(false),
    }
}

/// A new file under a draft's name, locked, without bytes and for its owner alone. What a making that
/// was cut off left there is removed before, and nothing else. `Taken`, if something with bytes is
/// at the recording's own name by now.
pub fn make_draft<S: SystemFolder, L: Leftover>(
    folder: &mut S,
    draft: &str,
    path: &str,
    leftover: &L,
) -> Result<S::LockedFile, DraftFault>
    ensures made { S.is_modelled → IfOk result (λ file. IsNew draft.now (S.locked file) (present (S.history folder.new))) }
    ensures differ { OnOk result (draft.now ≢ path.now) }

    // Nothing that has bytes is at the recording's own name.
    ensures free { S.is_modelled → OnOk result (IsFree path.now (present (S.history folder.new))) }

    // What lay at the draft's name is replaced only if it may go.
    ensures replaced { S.is_modelled → ReplacesOnly L.may_go draft.now (present (S.history folder.old)) (present (S.history folder.new)) }

    // No other name is touched, the recording's own one neither.
    ensures elsewhere { S.is_modelled → (name : List ℕ) → name ≢ draft.now
        → GoesOn (S.history folder.old) (S.history folder.new) (Keeps (present (S.history folder.old)) name) }
{
    if draft == path {
        return Err(DraftFault::InTheWay);
    }
    let made = make_at(folder, draft, leftover)?;
    let file = claim(folder, made, draft)?;
    if is_free(folder, path)? {
        return Ok(file);
    }
    // Who came here after another recorder finds its recording at the path.
    folder.remove(draft)?;
    Err(DraftFault::Taken)
}
