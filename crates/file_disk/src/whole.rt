//! Whole reads, writes and syncs, of calls that do a part, or are cut off by a signal.

ghost use Rattle.std.specs.Prelude.{◌≡◌, ◌⊎◌, ◌+◌, ◌<◌, ◌≤◌, ◌^◌, length, take, drop, OnOk, OnErr};
ghost use Rattle.disk.specs.Contents.{IsWritten, IsWithinWrite, IsSynced};
ghost use Rattle.disk.specs.History.{present, GoesOn};

use crate::system_file::{CallFault, SystemFile};
use std::io;

/// Fills the buffer with the bytes from this offset on. `UnexpectedEof` if the file ends before.
pub fn read_whole<F: SystemFile>(file: &mut F, offset: u64, buffer: &mut [u8]) -> io::Result<()>
    requires fits { offset + length buffer.old < 2 ^ 64 }
    ensures read { F.is_modelled → OnOk result (buffer.new ≡ take (length buffer.old) (drop offset (present (F.history file.old)).now)) }
    ensures history { F.is_modelled → F.history file.new ≡ F.history file.old }
{
    let mut done = 0;
    for _ in 0..u64::MAX {
        if done >= buffer.len() {
            return Ok(());
        }
        match file.read_some(offset + done as u64, &mut buffer[done..]) {
            Ok(0) => return Err(io::ErrorKind::UnexpectedEof.into()),
            Ok(count) => done += count,
            Err(CallFault::Interrupted) => {}
            Err(CallFault::Failed(error)) => return Err(error),
        }
    }
    Err(io::ErrorKind::Interrupted.into())
}

/// Writes all these bytes at this offset. `WriteZero` if the system takes none.
pub fn write_whole<F: SystemFile>(file: &mut F, offset: u64, bytes: &[u8]) -> io::Result<()>
    requires fits { offset + length bytes.now < 2 ^ 64 }
    requires within { F.is_modelled → offset ≤ length (present (F.history file.old)).now }
    ensures written { F.is_modelled → OnOk result (IsWritten offset bytes.now (present (F.history file.old)) (present (F.history file.new))) }
    ensures goes_on { F.is_modelled → GoesOn (F.history file.old) (F.history file.new) (IsWithinWrite offset (length bytes.now) (present (F.history file.old))) }
{
    let mut done = 0;
    for _ in 0..u64::MAX {
        if done >= bytes.len() {
            return Ok(());
        }
        match file.write_some(offset + done as u64, &bytes[done..]) {
            Ok(0) => return Err(io::ErrorKind::WriteZero.into()),
            Ok(count) => done += count,
            Err(CallFault::Interrupted) => {}
            Err(CallFault::Failed(error)) => return Err(error),
        }
    }
    Err(io::ErrorKind::Interrupted.into())
}

/// Brings all that was written through a later crash.
pub fn sync_whole<F: SystemFile>(file: &mut F) -> io::Result<()>
    ensures synced { F.is_modelled → OnOk result (IsSynced (present (F.history file.old)) (present (F.history file.new))) }
    ensures failed { F.is_modelled → OnErr result (present (F.history file.new) ≡ present (F.history file.old)) }
    ensures goes_on { F.is_modelled → GoesOn (F.history file.old) (F.history file.new)
        (λ c. (c ≡ present (F.history file.old)) ⊎ IsSynced (present (F.history file.old)) c) }
{
    for _ in 0..u64::MAX {
        match file.sync() {
            Ok(()) => return Ok(()),
            Err(CallFault::Interrupted) => {}
            Err(CallFault::Failed(error)) => return Err(error),
        }
    }
    Err(io::ErrorKind::Interrupted.into())
}
