//! The name of a file, on the device.

use std::fs::{File, OpenOptions};
use std::io;
use std::os::unix::fs::OpenOptionsExt;
use std::path::Path;
use std::rt::Files;

/// A new file, open for reading and writing, for its owner alone from the start. Nothing may be at
/// its path, and a link there isn't followed.
pub fn create_exclusively<R: Files<File = File>>(files: &R, path: &str) -> io::Result<File> {
    OpenOptions::new()
        .read(true)
        .write(true)
        .create_new(true)
        .mode(0o600)
        .open(files, path)
}

/// Brings the name of a new file onto the device: syncs the folder that holds it. A file's own sync
/// is of its bytes, so that a crash may still lose the name until this is done, once.
pub fn sync_folder<R: Files<File = File>>(files: &R, path: &str) -> io::Result<()> {
    let folder = match Path::new(path).parent() {
        Some(folder) if !folder.as_str().is_empty() => folder.as_str(),
        _ => ".",
    };
    File::open(files, folder)?.sync_all()
}
