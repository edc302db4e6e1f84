//! A recording that is kept in a new file.

use crate::file_fault::{FileFault, name_kept};
use disk::Disk;
use file_disk::{FileDisk, SystemError, create_exclusively, sync_folder};
use std::fs::File;
use std::rt::Files;

/// A new file, open for reading and writing, for its owner alone. Refused if the path is taken, or
/// can't be.
pub fn create_new<'a, R: Files<File = File>>(
    files: &R,
    path: &'a str,
) -> Result<FileDisk, FileFault<'a>> {
    match create_exclusively(files, path) {
        Ok(file) => Ok(FileDisk::new(file)),
        Err(error) => Err(FileFault::Make(path, SystemError::of(&error))),
    }
}

/// Writes the bytes of a recording into its new file, and brings them and the file's name onto the
/// device. Refused if that fails.
pub fn keep<'a, R: Files<File = File>>(
    files: &R,
    path: &'a str,
    disk: &mut FileDisk,
    bytes: &[u8],
) -> Result<(), FileFault<'a>> {
    if disk.write_at(0, bytes).is_err() || disk.sync().is_err() {
        return Err(FileFault::Device(path));
    }
    name_kept(sync_folder(files, path), path)
}
