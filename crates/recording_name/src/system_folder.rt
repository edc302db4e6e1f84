//! The calls of a folder that a recording's name is made by, by POSIX's rules.

ghost use Rattle.std.specs.Prelude.{◌≡◌, ◌⊎◌, ℕ, None, Some, IfOk, OnOk};

use std::io;

/// Which file of the system one is, whatever names it.
#[derive(Clone, Copy, Debug, PartialEq, Eq)]
pub struct Identity {
    pub device: u64,
    pub inode: u64,
}

/// What kind of thing a name names.
#[derive(Clone, Copy, Debug, PartialEq, Eq)]
pub enum Kind {
    /// A regular file.
    File,
    /// A symbolic link.
    Link,
    /// A folder.
    Folder,
    /// A pipe, a socket or a device.
    Other,
}

/// What a file is opened for, and locked for.
#[derive(Clone, Copy, Debug, PartialEq, Eq)]
pub enum Access {
    /// It is read, beside others who read it.
    Read,
    /// It is read and written, by nobody else.
    Write,
}

/// What the system says of a file: which one it is, of which kind, and how many bytes it has.
#[derive(Clone, Copy, Debug, PartialEq, Eq)]
pub struct Found {
    pub identity: Identity,
    pub kind: Kind,
    pub length: u64,
}

/// A folder of a system, by the calls that a recording's name is made by, in the words of
/// POSIX.1-2017. Names are of this folder; nobody else names, renames or removes what they name.
///
/// Contracts see each moment of the folder so far: which file each name names, what it has named
/// since the folder was last synced, and the bytes of each file as those of a disk. Each clause has as
/// its premise that the system keeps the rules for folders of this type (`is_modelled`).
pub trait SystemFolder {
    ghost use Rattle.recording_name.specs.Folder.{Folder, Agrees, IsNamed, IsMade, IsFileSynced, IsFolderSynced, IsRenamed, IsWithinRename};
    ghost use Rattle.recording_name.specs.FolderHistory.{History, present, GoesOn};
    ghost use Rattle.recording_name.specs.Told.{IsTold, IsThat};
    ghost use Rattle.recording_name.specs.declared.system_folder.Identity.{Identity};

    /// An open file.
    type File: Drop;

    /// An open file that is locked, as long as this is kept. What is read of a file or brought onto
    /// the device is asked of this alone: so nothing is read before the lock is taken.
    type LockedFile: Drop;

    /// Whether the system keeps the rules for folders of this type.
    ghost is_modelled: { Type 0 };

    /// Each moment so far.
    ghost history: { Self → History };

    /// The number by which contracts know the file of an identity.
    ghost number: { Identity → ℕ };

    /// The number of an open file.
    ghost file: { Self.File → ℕ };

    /// The same of one that is locked.
    ghost locked: { Self.LockedFile → ℕ };

    /// `lstat`: what this name names, and how many bytes a regular file there has; a link isn't
    /// followed. `None` if it names nothing.
    fn look_up(&mut self, name: &str) -> io::Result<Option<Found>>
        ensures told { is_modelled → IfOk result (λ found. IsTold number found name.now (present (history self.old))) }
        ensures history { is_modelled → history self.new ≡ history self.old };

    /// `stat`: what this name leads to, through links too. `None` if it leads to nothing.
    fn follow(&mut self, name: &str) -> io::Result<Option<Found>>
        ensures history { is_modelled → history self.new ≡ history self.old };

    /// `fstat`: which file an open one is, and how many bytes it has.
    fn identify(&mut self, opened: &Self::LockedFile) -> io::Result<Found>
        ensures told { is_modelled → IfOk result (λ found. IsThat number found (locked opened.now) (present (history self.old))) }
        ensures history { is_modelled → history self.new ≡ history self.old };

    /// `open` with `O_CREAT | O_EXCL` and mode 0600: a new file under this name, which names nothing
    /// before; it is open for reading and writing.
    fn make(&mut self, name: &str) -> io::Result<Self::File>
        ensures made { is_modelled → IfOk result (λ made. IsMade name.now (file made) (present (history self.old)) (present (history self.new))) }
        ensures goes_on { is_modelled → GoesOn (history self.old) (history self.new)
            (λ f. (f ≡ present (history self.old)) ⊎ ((i : ℕ) × IsMade name.now i (present (history self.old)) f)) };

    /// `open` with `O_RDONLY` or `O_RDWR`: the file that this name leads to, through links too.
    fn open(&mut self, name: &str, access: Access) -> io::Result<Self::File>
        ensures history { is_modelled → history self.new ≡ history self.old };

    /// `flock` with `LOCK_NB` and `LOCK_SH`, or `LOCK_EX` if it is to be written: fails
    /// (`WouldBlock`) if another process has it locked.
    fn lock(&mut self, opened: Self::File, access: Access) -> io::Result<Self::LockedFile>
        ensures locked { is_modelled → IfOk result (λ it. locked it ≡ file opened) }
        ensures history { is_modelled → history self.new ≡ history self.old };

    /// `read`, up to the end: the bytes of a file.
    fn read(&mut self, opened: &Self::LockedFile) -> io::Result<Vec<u8>>
        ensures read { is_modelled → IfOk result (λ bytes. bytes.items ≡ ((present (history self.old)).files (locked opened.now)).now) }
        ensures history { is_modelled → history self.new ≡ history self.old };

    /// `fsync` of a file: brings its bytes through a later crash.
    fn sync_file(&mut self, opened: &Self::LockedFile) -> io::Result<()>
        ensures synced { is_modelled → OnOk result (IsFileSynced (locked opened.now) (present (history self.old)) (present (history self.new))) }
        ensures goes_on { is_modelled → GoesOn (history self.old) (history self.new)
            (λ f. (f ≡ present (history self.old)) ⊎ IsFileSynced (locked opened.now) (present (history self.old)) f) };

    /// `fsync` of the folder: brings its names through a later crash.
    fn sync_folder(&mut self) -> io::Result<()>
        ensures synced { is_modelled → OnOk result (IsFolderSynced (present (history self.old)) (present (history self.new))) }
        ensures goes_on { is_modelled → GoesOn (history self.old) (history self.new)
            (λ f. (f ≡ present (history self.old)) ⊎ IsFolderSynced (present (history self.old)) f) };

    /// `rename`: what `from` names, `to` names from now on, in place of what it named. It is one
    /// step for who looks `to` up. After a failure it may have been done (EIO).
    fn rename(&mut self, from: &str, to: &str) -> io::Result<()>
        ensures renamed { is_modelled → OnOk result (IsRenamed from.now to.now (present (history self.old)) (present (history self.new))) }
        ensures goes_on { is_modelled → GoesOn (history self.old) (history self.new)
            (IsWithinRename from.now to.now (present (history self.old))) };

    /// `unlink`: the name names nothing from now on.
    fn remove(&mut self, name: &str) -> io::Result<()>
        ensures removed { is_modelled → OnOk result (IsNamed name.now None (present (history self.old)) (present (history self.new))) }
        ensures goes_on { is_modelled → GoesOn (history self.old) (history self.new)
            (λ f. (f ≡ present (history self.old)) ⊎ IsNamed name.now None (present (history self.old)) f) };

    /// What look-ups and reads give is what a crash now may leave.
    ghost agrees: { (folder : Self) → is_modelled → Agrees (present (history folder)) };
}
