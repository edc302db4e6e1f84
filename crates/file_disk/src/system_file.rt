//! The calls of a file that a disk is made of, by POSIX's rules.

ghost use Rattle.std.specs.Prelude.{◌≡◌, ◌⊎◌, ◌+◌, ◌<◌, ◌≤◌, ◌^◌, ℕ, length, take, drop, IfOk, IfErr, OnOk, OnErr};

use std::io;
use thiserror::Error;

/// Why a call of a file did nothing, or not all.
#[derive(Debug, Drop, Error)]
pub enum CallFault {
    /// A signal came before anything was done: EINTR.
    #[error("a signal came")]
    Interrupted,
    /// The system says that it failed, as by EIO or ENOSPC.
    #[error("{0}")]
    Failed(io::Error),
}

impl From<io::Error> for CallFault {
    fn from(error: io::Error) -> CallFault {
        if error.kind() == io::ErrorKind::Interrupted {
            CallFault::Interrupted
        } else {
            CallFault::Failed(error)
        }
    }
}

/// A file of a system, by the four calls that a disk is made of, in the words of POSIX.1-2017 for
/// `fstat`, `pread`, `pwrite` and `fdatasync`. Each does what it can at once: fewer bytes than it
/// was asked for, or nothing if a signal came.
///
/// Contracts see each moment of the file so far, as those of a disk. Each clause has as its premise
/// that the system keeps the rules for files of this type (`is_modelled`).
pub trait SystemFile {
    ghost use Rattle.disk.specs.Contents.{IsWritten, IsWithinWrite, IsSynced, Agrees};
    ghost use Rattle.disk.specs.History.{History, present, GoesOn};

    /// Whether the system keeps the rules for files of this type.
    ghost is_modelled: { Type 0 };

    /// Each moment so far.
    ghost history: { Self → History };

    /// `fstat`: how many bytes the file has.
    fn length(&mut self) -> io::Result<u64>
        ensures length { is_modelled → IfOk result (λ n. n ≡ length (present (history self.old)).now) }
        ensures history { is_modelled → history self.new ≡ history self.old };

    /// `pread`: bytes from this offset on, into the front of the buffer: how many.
    fn read_some(&mut self, offset: u64, buffer: &mut [u8]) -> Result<usize, CallFault>
        requires fits { offset + length buffer.old < 2 ^ 64 }
        ensures size { length buffer.new ≡ length buffer.old }
        ensures few { IfOk result (λ n. n ≤ length buffer.old) }
        ensures read { is_modelled → IfOk result (λ n.
            take n buffer.new ≡ take n (drop offset (present (history self.old)).now)) }
        ensures history { is_modelled → history self.new ≡ history self.old };

    /// `pwrite`: bytes of the front of these, at this offset: how many. Until a sync, a crash may
    /// leave any bytes in the range of all that it was asked to write, and so may a failure; a signal
    /// came before it wrote any.
    fn write_some(&mut self, offset: u64, bytes: &[u8]) -> Result<usize, CallFault>
        requires fits { offset + length bytes.now < 2 ^ 64 }
        requires within { is_modelled → offset ≤ length (present (history self.old)).now }
        ensures few { IfOk result (λ n. n ≤ length bytes.now) }
        ensures written { is_modelled → IfOk result (λ n.
            IsWritten offset (take n bytes.now) (present (history self.old)) (present (history self.new))) }
        ensures interrupted { is_modelled → IfErr result (λ f. f ≡ CallFault.Interrupted → history self.new ≡ history self.old) }
        ensures goes_on { is_modelled → GoesOn (history self.old) (history self.new) (IsWithinWrite offset (length bytes.now) (present (history self.old))) };

    /// `fdatasync`: brings all that was written, and the length, through a later crash. A failure
    /// leaves what was touched as it was, and so does a signal.
    fn sync(&mut self) -> Result<(), CallFault>
        ensures synced { is_modelled → OnOk result (IsSynced (present (history self.old)) (present (history self.new))) }
        ensures failed { is_modelled → OnErr result (present (history self.new) ≡ present (history self.old)) }
        ensures interrupted { is_modelled → IfErr result (λ f. f ≡ CallFault.Interrupted → history self.new ≡ history self.old) }
        ensures goes_on { is_modelled → GoesOn (history self.old) (history self.new)
            (λ c. (c ≡ present (history self.old)) ⊎ IsSynced (present (history self.old)) c) };

    /// What reads give is one of the files that a crash now may leave.
    ghost agrees: { (file : Self) → is_modelled → Agrees (present (history file)) };
}
