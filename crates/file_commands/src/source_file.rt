//! The file that a command reads.

use crate::file_fault::{FileFault, opened};
use std::fs;
use std::fs::{File, Metadata};
use std::rt::Files;

/// Refuses what is no file: a folder has no bytes, and a pipe or a device may be waited for in vain.
pub fn demand_file<'a>(found: &Metadata, path: &'a str) -> Result<(), FileFault<'a>> {
    if found.is_dir() {
        return Err(FileFault::Folder(path));
    }
    if !found.is_file() {
        return Err(FileFault::NoFile(path));
    }
    Ok(())
}

/// The file at a path, opened for reading alone. What is no file isn't opened.
pub fn open_source<'a, R: Files<File = File>>(
    files: &R,
    path: &'a str,
) -> Result<File, FileFault<'a>> {
    let found = opened(fs::metadata(files, path), path)?;
    demand_file(&found, path)?;
    opened(File::open(files, path), path)
}
