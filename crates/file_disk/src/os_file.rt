//! A file of the operating system: the thin calls of it that are trusted.

ghost use Rattle.std.specs.Prelude.{◌≡◌, ◌≤◌, ◌<◌, ◌^◌, ◌+◌, length, IfOk};

use crate::medium::{fits_size_limit, has_nothing_to_sync};
use crate::system_file::{CallFault, SystemFile};
use std::fs::File;
use std::io;
use std::os::unix::fs::FileExt;
use std::rt::Files;

/// An open file of the operating system. Each call is one of the system's, but for a write beyond the
/// process's limit of a file's size, which fails and doesn't reach it.
///
/// No proof can know what the system does: nothing is claimed here. What is trusted of each call is
/// written in docs/RECORDING.md.
#[derive(Drop)]
pub struct OsFile {
    file: File,
    // Whether a sync has something to do: not on a read-only medium.
    has_sync: bool,
}

impl OsFile {
    /// This file, as it is.
    pub fn new(file: File) -> OsFile {
        OsFile {
            file,
            has_sync: true,
        }
    }

    /// The same of a file that is open for reading alone. On a read-only medium, whose file system
    /// knows no sync, nothing can be written that a crash could take back: there a sync has nothing
    /// to do.
    pub fn to_read<R: Files<File = File> + AllocGlobal>(rt: &R, file: File) -> OsFile {
        let has_sync = !has_nothing_to_sync(rt, &file);
        OsFile { file, has_sync }
    }
}

impl SystemFile for OsFile {
    ghost use Rattle.file_disk.specs.Untold.{untold};

    ghost is_modelled = { ⊥ };

    ghost history = { λ _. untold };

    fn length(&mut self) -> io::Result<u64> {
        Ok(self.file.metadata()?.len())
    }

    fn read_some(&mut self, offset: u64, buffer: &mut [u8]) -> Result<usize, CallFault> {
        Ok(self.file.read_at(buffer, offset)?)
    }

    fn write_some(&mut self, offset: u64, bytes: &[u8]) -> Result<usize, CallFault> {
        fits_size_limit(offset + bytes.len() as u64)?;
        Ok(self.file.write_at(bytes, offset)?)
    }

    fn sync(&mut self) -> Result<(), CallFault> {
        if self.has_sync {
            self.file.sync_data()?;
        }
        Ok(())
    }

    ghost agrees = { λ _ never. absurd never };
}
