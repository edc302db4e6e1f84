//! The trait, with the rules of a disk that may crash.

ghost use Rattle.std.specs.Prelude.{◌≡◌, ◌⊎◌, ◌+◌, ◌-◌, ◌<◌, ◌≤◌, ◌^◌, List, ℕ, length, take, drop, IfOk, OnOk, OnErr};
ghost use Rattle.disk.specs.Contents.{CountsFailure};

use thiserror::Error;

/// The device failed in this call. What the call leaves is said at each one; the disk may be used
/// again.
#[derive(Clone, Copy, Debug, PartialEq, Eq, Error)]
#[error("the device failed")]
pub struct DiskFault;

/// A disk with one file, whose bytes may be read, overwritten and added to. There is no cut.
///
/// Its rules are those of a disk that may crash at any moment, in the middle of a call too.
/// Contracts see three things at each moment: `now`, what reads give; `held`, what stood at the
/// last successful sync; `touched`, the offsets written since. A crash leaves a file of a length
/// between, with held's byte at each untouched offset. Each clause has as its premise that the type
/// is such a disk (`is_modelled`): of a real file nothing is said.
pub trait Disk {
    ghost use Rattle.disk.specs.Contents.{IsWritten, IsWithinWrite, IsSynced, CountsFailure, Agrees};
    ghost use Rattle.disk.specs.History.{History, present, GoesOn};

    /// Whether disks of this type keep the rules.
    ghost is_modelled: { Type 0 };

    /// Each moment so far.
    ghost history: { Self → History };

    /// How many calls have failed, up to 2^64 - 1.
    ghost failures: { Self → ℕ };

    /// What a call that failed leaves, from the disk before it and after it. The rules allow much of
    /// it; a type may say more.
    ghost after_fault: { Self → Self → Type 0 };

    /// The number of bytes that reads give.
    fn len(&mut self) -> Result<u64, DiskFault>
        ensures length { is_modelled → IfOk result (λ n. n ≡ length (present (history self.old)).now) }
        ensures history { is_modelled → history self.new ≡ history self.old }
        ensures fault { OnErr result (after_fault self.old self.new) }
        ensures counts { is_modelled → CountsFailure (failures self.old) (failures self.new) result };

    /// Fills the buffer with the bytes from this offset on.
    fn read_at(&mut self, offset: u64, buffer: &mut [u8]) -> Result<(), DiskFault>
        requires fits { offset + length buffer.old < 2 ^ 64 }
        requires within { is_modelled → offset + length buffer.old ≤ length (present (history self.old)).now }
        ensures read { is_modelled → OnOk result (buffer.new ≡ take (length buffer.old) (drop offset (present (history self.old)).now)) }
        ensures history { is_modelled → history self.new ≡ history self.old }
        ensures fault { OnErr result (after_fault self.old self.new) }
        ensures counts { is_modelled → CountsFailure (failures self.old) (failures self.new) result };

    /// Writes over what is there, and past the end. Until a sync, a crash may leave any bytes in
    /// the range; after a fault the range may have any bytes, and the length is between the old one
    /// and that of a whole write.
    fn write_at(&mut self, offset: u64, bytes: &[u8]) -> Result<(), DiskFault>
        requires fits { offset + length bytes.now < 2 ^ 64 }
        requires within { is_modelled → offset ≤ length (present (history self.old)).now }
        ensures written { is_modelled → OnOk result (IsWritten offset bytes.now (present (history self.old)) (present (history self.new))) }
        ensures goes_on { is_modelled → GoesOn (history self.old) (history self.new) (IsWithinWrite offset (length bytes.now) (present (history self.old))) }
        ensures fault { OnErr result (after_fault self.old self.new) }
        ensures counts { is_modelled → CountsFailure (failures self.old) (failures self.new) result };

    /// Brings all that was written through a later crash. A fault leaves what was touched as it
    /// was.
    fn sync(&mut self) -> Result<(), DiskFault>
        ensures synced { is_modelled → OnOk result (IsSynced (present (history self.old)) (present (history self.new))) }
        ensures failed { is_modelled → OnErr result (present (history self.new) ≡ present (history self.old)) }
        ensures goes_on { is_modelled → GoesOn (history self.old) (history self.new)
            (λ c. (c ≡ present (history self.old)) ⊎ IsSynced (present (history self.old)) c) }
        ensures fault { OnErr result (after_fault self.old self.new) }
        ensures counts { is_modelled → CountsFailure (failures self.old) (failures self.new) result };

    /// What reads give is one of the files that a crash now may leave.
    ghost agrees: { (disk : Self) → is_modelled → Agrees (present (history disk)) };
}

// Counts a failed call, and is its answer.
pub(crate) fn one_more_failed(failures: &mut u64) -> DiskFault
    ensures rises { failures.old < 2 ^ 64 - 1 → failures.new ≡ failures.old + 1 }
    ensures stays { 2 ^ 64 - 1 ≤ failures.old → failures.new ≡ failures.old }
{
    *failures = failures.saturating_add(1);
    DiskFault
}

// Counts a call if it failed, and passes its answer on.
pub(crate) fn counted<T>(failures: &mut u64, outcome: Result<T, DiskFault>) -> Result<T, DiskFault>
    ensures outcome { result ≡ outcome }
    ensures counts { CountsFailure failures.old failures.new result }
{
    if outcome.is_err() {
        one_more_failed(failures);
    }
    outcome
}
