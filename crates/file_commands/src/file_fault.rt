//! Why a command doesn't have a file.

use file_disk::SystemError;
use spelling::Escaped;
use std::io;
use thiserror::Error;

/// Why a command doesn't have the file at a path. Its text is of the form of a failure of the
/// system: `open "r": ..`.
#[derive(Clone, Copy, Debug, PartialEq, Eq, Error)]
pub enum FileFault<'a> {
    /// The system can't open it.
    #[error("open \"{path}\": {1}", path = quoted(.0))]
    Open(&'a str, SystemError),
    /// The system can't make it, or it is there and must not be.
    #[error("make \"{path}\": {1}", path = quoted(.0))]
    Make(&'a str, SystemError),
    /// The system can't write it.
    #[error("write \"{path}\": {1}", path = quoted(.0))]
    Write(&'a str, SystemError),
    /// The device takes no more of it.
    #[error("\"{path}\": the device failed, or is full", path = quoted(.0))]
    Device(&'a str),
    /// The system can't bring its name onto the device.
    #[error("sync the folder of \"{path}\": {1}", path = quoted(.0))]
    SyncFolder(&'a str, SystemError),
    /// It is a folder.
    #[error("\"{path}\" is a folder", path = quoted(.0))]
    Folder(&'a str),
    /// It is a device or a pipe, which isn't opened.
    #[error("\"{path}\" is no file", path = quoted(.0))]
    NoFile(&'a str),
    /// It is to be written, and is the recording that is read.
    #[error("\"{path}\" is the recording that is read", path = quoted(.0))]
    Itself(&'a str),
    /// It is to be written, and holds a recording.
    #[error("\"{path}\" holds a recording", path = quoted(.0))]
    HoldsRecording(&'a str),
}

// A path as it is told.
fn quoted(path: &str) -> Escaped<'_> {
    Escaped(path.as_bytes())
}

/// What the system gave, or that it doesn't open the file at this path.
pub fn opened<T>(outcome: io::Result<T>, path: &str) -> Result<T, FileFault<'_>> {
    match outcome {
        Ok(it) => Ok(it),
        Err(error) => Err(FileFault::Open(path, SystemError::of(&error))),
    }
}

/// The same of a file that is written.
pub fn written<T>(outcome: io::Result<T>, path: &str) -> Result<T, FileFault<'_>> {
    match outcome {
        Ok(it) => Ok(it),
        Err(error) => Err(FileFault::Write(path, SystemError::of(&error))),
    }
}

/// The same of the name of a new file, which is to be on the device.
pub fn name_kept<T>(outcome: io::Result<T>, path: &str) -> Result<T, FileFault<'_>> {
    match outcome {
        Ok(it) => Ok(it),
        Err(error) => Err(FileFault::SyncFolder(path, SystemError::of(&error))),
    }
}
