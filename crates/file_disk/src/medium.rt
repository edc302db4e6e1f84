//! What the file system of a file, and the limits of the process, allow.

use libc::getrlimit;
use libc::types::rlimit;
use std::fs::{File, OpenOptions};
use std::io;
use std::os::fd::AsRawFd;
use std::rt::Files;

/// What Linux answers to a sync that the file system has no operation for: EINVAL.
const NO_OPERATION: i32 = 22;

/// What it answers to opening a file for writing on a file system that is mounted read-only: EROFS.
const READ_ONLY: i32 = 30;

/// What it answers to a write beyond the limit of a file's size: EFBIG.
const TOO_BIG: i32 = 27;

/// Which limit that is: RLIMIT_FSIZE of Linux.
const FILE_SIZE: i32 = 1;

// Whether the file system of an open file is mounted read-only, as far as the system tells.
fn is_mounted_read_only<R: Files<File = File> + AllocGlobal>(rt: &R, file: &File) -> bool {
    let descriptor = file.as_raw_fd();
    let Ok(path) = format!(in rt.alloc(); "/proc/self/fd/{descriptor}") else {
        return false;
    };
    match OpenOptions::new().write(true).open(rt, path.as_str()) {
        Ok(_) => false,
        Err(error) => error.raw_os_error() == Some(READ_ONLY),
    }
}

/// Whether a sync of this file, which is open for reading alone, has nothing to do: its file system
/// is mounted read-only and has no such operation, as squashfs and those of CDs. One that turned
/// read-only after an error of its device has the operation, and answers by another error.
pub fn has_nothing_to_sync<R: Files<File = File> + AllocGlobal>(rt: &R, file: &File) -> bool {
    match file.sync_data() {
        Ok(()) => false,
        Err(error) => {
            error.raw_os_error() == Some(NO_OPERATION) && is_mounted_read_only(rt, file)
        }
    }
}

/// Whether a write that ends at this offset is within the process's limit of a file's size
/// (`ulimit -f`): the system would end the process by a signal. An error is the system's for such a
/// write.
pub fn fits_size_limit(end: u64) -> io::Result<()> {
    let mut limit = rlimit {
        rlim_cur: 0,
        rlim_max: 0,
    };
    if getrlimit(FILE_SIZE, &mut limit) == 0 && end > limit.rlim_cur {
        return Err(io::Error::from_raw_os_error(TOO_BIG));
    }
    Ok(())
}
