//! The folder of a recording, of the operating system: the thin calls of it that are trusted.

use crate::folder::{create_exclusively, sync_folder};
use recording_name::{Access, Found, Identity, Kind, SystemFolder};
use std::fs::{File, Metadata, OpenOptions};
use std::io::{Read, Seek, SeekFrom};
use std::os::unix::fs::MetadataExt;
use std::rt::Files;
use std::{fs, io};

/// A file that is open and locked, until this is dropped and every other handle of it.
#[derive(Drop)]
pub struct LockedFile {
    file: File,
}

impl LockedFile {
    /// A second handle of the file: of the same offset, and locked with it.
    pub fn share(&self) -> io::Result<File> {
        self.file.try_clone()
    }
}

/// The folder that holds a recording's path. Each call is one of the system's; names are paths, all of
/// them in this folder.
///
/// No proof can know what the system does: nothing is claimed here. What is trusted of each call is
/// written in docs/RECORDING.md.
#[derive(Drop)]
pub struct OsFolder<'a, R> {
    rt: &'a R,
    path: &'a str,
}

impl<'a, R> OsFolder<'a, R> {
    /// The folder of this path.
    pub fn of(rt: &'a R, path: &'a str) -> OsFolder<'a, R> {
        OsFolder { rt, path }
    }
}

// What a look-up gave; `None` if nothing is there.
fn looked_up(outcome: io::Result<Metadata>) -> io::Result<Option<Found>> {
    match outcome {
        Ok(metadata) => Ok(Some(found_of(&metadata))),
        Err(error) if error.kind() == io::ErrorKind::NotFound => Ok(None),
        Err(error) => Err(error),
    }
}

// What the system says of a file.
fn found_of(metadata: &Metadata) -> Found {
    let kind = if metadata.is_file() {
        Kind::File
    } else if metadata.is_symlink() {
        Kind::Link
    } else if metadata.is_dir() {
        Kind::Folder
    } else {
        Kind::Other
    };
    Found {
        identity: Identity {
            device: metadata.dev(),
            inode: metadata.ino(),
        },
        kind,
        length: metadata.len(),
    }
}

impl<'a, R: AllocGlobal + Files<File = File>> SystemFolder for OsFolder<'a, R> {
    ghost use Rattle.file_disk.specs.UntoldFolder.{untold};

    type File = File;

    type LockedFile = LockedFile;

    ghost is_modelled = { ⊥ };

    ghost history = { λ _. untold };

    ghost number = { λ _. 0 };

    ghost file = { λ _. 0 };

    ghost locked = { λ _. 0 };

    fn look_up(&mut self, name: &str) -> io::Result<Option<Found>> {
        looked_up(fs::symlink_metadata(self.rt, name))
    }

    fn follow(&mut self, name: &str) -> io::Result<Option<Found>> {
        looked_up(fs::metadata(self.rt, name))
    }

    fn identify(&mut self, opened: &LockedFile) -> io::Result<Found> {
        Ok(found_of(&opened.file.metadata()?))
    }

    fn make(&mut self, name: &str) -> io::Result<File> {
        create_exclusively(self.rt, name)
    }

    fn open(&mut self, name: &str, access: Access) -> io::Result<File> {
        OpenOptions::new()
            .read(true)
            .write(access == Access::Write)
            .open(self.rt, name)
    }

    fn lock(&mut self, opened: File, access: Access) -> io::Result<LockedFile> {
        let tried = match access {
            Access::Read => opened.try_lock_shared(),
            Access::Write => opened.try_lock(),
        };
        match tried {
            Ok(()) => Ok(LockedFile { file: opened }),
            Err(error) => Err(error.into()),
        }
    }

    fn read(&mut self, opened: &LockedFile) -> io::Result<Vec<u8>> {
        let mut file = opened.file.try_clone()?;
        file.seek(SeekFrom::Start(0))?;
        let mut bytes = Vec::new(self.rt.alloc());
        file.read_to_end(&mut bytes)?;
        Ok(bytes)
    }

    fn sync_file(&mut self, opened: &LockedFile) -> io::Result<()> {
        opened.file.sync_all()
    }

    fn sync_folder(&mut self) -> io::Result<()> {
        sync_folder(self.rt, self.path)
    }

    fn rename(&mut self, from: &str, to: &str) -> io::Result<()> {
        fs::rename(self.rt, from, to)
    }

    fn remove(&mut self, name: &str) -> io::Result<()> {
        fs::remove_file(self.rt, name)
    }

    ghost agrees = { λ _ never. absurd never };
}
