//! A disk that stops.

ghost use Rattle.std.specs.Prelude.{◌≡◌, ◌⊎◌, ◌+◌, ◌<◌, ◌≤◌, ◌^◌, false, [], length, take, drop, IfOk, OnOk, OnErr};
ghost use Rattle.disk.specs.Contents.{MayLeave, IsSynced, IsWritten, IsWithinWrite, CountsFailure};
ghost use Rattle.disk.specs.Crash.{IsLeftAfter};
ghost use Rattle.disk.specs.History.{present, GoesOn};
ghost use Rattle.disk.specs.Memory.{history_of};

use crate::device::{Disk, DiskFault, counted, one_more_failed};
use crate::failing::FailingDisk;
use crate::memory::{Fill, MemoryDisk};
use crate::switch::Switch;
use std::marker::Model;

/// A disk in memory that stops: as many calls pass as its `Switch` says, and then each call fails.
/// What a crash then leaves of it is `left`.
///
/// The first write that the stop meets was under way as the device stopped: it fails, and is one of
/// the disk's moments all the same, so that what is left may have it. If there is no memory for it,
/// the device stopped before it.
#[derive(Drop)]
pub struct FusedDisk {
    disk: FailingDisk<MemoryDisk>,
    switch: Switch,
    failures: u64,
    /// Whether the newest event is a write that was stopped.
    ends_in_stopped_write: bool,
}

impl Model for FusedDisk {
    ghost use Rattle.disk.specs.Memory.{Kept};
    ghost use Rattle.disk.specs.Wrapped.{Wrapped, Fused};

    ghost Value = { Fused (Wrapped Kept) };

    ghost view = { λ d. record {
      disk = d.disk;
      failures = d.failures;
      ends_in_stopped_write = d.ends_in_stopped_write;
    } };
}

impl FusedDisk {
    /// This disk, armed by this switch, which may be the same as that of the disk inside.
    pub fn new(disk: FailingDisk<MemoryDisk>, switch: Switch) -> FusedDisk
        ensures { result ≡ record { disk = disk; failures = 0; ends_in_stopped_write = false } }
    {
        FusedDisk {
            disk,
            switch,
            failures: 0,
            ends_in_stopped_write: false,
        }
    }

    /// What a crash now leaves, as a sound disk with an empty record. It takes no memory.
    ///
    /// A stopped write that a later arming has forgotten is taken back, if nothing was written or
    /// synced since: what is left is then filled as the disk was before it.
    pub fn left(self, fill: Fill) -> MemoryDisk
        ensures allowed { MayLeave (present (history_of self.disk.disk)) result.bytes }
        ensures filled { IsLeftAfter fill (history_of self.disk.disk) self.ends_in_stopped_write result.bytes }
        ensures sound { result ≡ record { bytes = result.bytes; events = []; failures = 0 } }
    {
        let FusedDisk {
            disk,
            switch,
            failures: _,
            ends_in_stopped_write,
        } = self;
        let disk = disk.into_inner();
        if ends_in_stopped_write && !switch.has_stopped_write() {
            return disk.without_newest_write().left(fill);
        }
        disk.left(fill)
    }
}

impl Disk for FusedDisk {
    ghost use Rattle.disk.specs.MemoryLaws.{Agrees-moments_of};
    ghost use Rattle.disk.specs.Memory.{history_of};
    ghost use Rattle.disk.specs.Stopped.{IsAfterFault, IsAsBeforeStop, EndsInStoppedWrite, LeavesAll};

    ghost is_modelled = { Unit {0} };

    ghost history = { λ d. history_of d.disk.disk };

    ghost failures = { λ d. d.failures };

    // A call that fails does nothing, but that the write which the stop met may be noted whole.
    ghost after_fault = { IsAfterFault };

    fn len(&mut self) -> Result<u64, DiskFault>
        ensures length { IfOk result (λ n. n ≡ length (present (history_of self.old.disk.disk)).now) }
        ensures history { LeavesAll self.old self.new }
        ensures fault { OnErr result (IsAfterFault self.old self.new) }
        ensures counts { CountsFailure self.old.failures self.new.failures result }
    {
        if self.switch.stops_call() {
            return Err(one_more_failed(&mut self.failures));
        }
        let outcome = self.disk.len();
        counted(&mut self.failures, outcome)
    }

    fn read_at(&mut self, offset: u64, buffer: &mut [u8]) -> Result<(), DiskFault>
        requires fits { offset + length buffer.old < 2 ^ 64 }
        requires within { offset + length buffer.old ≤ length (present (history_of self.old.disk.disk)).now }
        ensures read { OnOk result
            (buffer.new ≡ take (length buffer.old) (drop offset (present (history_of self.old.disk.disk)).now)) }
        ensures history { LeavesAll self.old self.new }
        ensures fault { OnErr result (IsAfterFault self.old self.new) }
        ensures counts { CountsFailure self.old.failures self.new.failures result }
    {
        if self.switch.stops_call() {
            return Err(one_more_failed(&mut self.failures));
        }
        let outcome = self.disk.read_at(offset, buffer);
        counted(&mut self.failures, outcome)
    }

    fn write_at(&mut self, offset: u64, bytes: &[u8]) -> Result<(), DiskFault>
        requires fits { offset + length bytes.now < 2 ^ 64 }
        requires within { offset ≤ length (present (history_of self.old.disk.disk)).now }
        ensures written { let before = history_of self.old.disk.disk in
            OnOk result (IsWritten offset bytes.now (present before) (present (history_of self.new.disk.disk))) }
        ensures goes_on { let before = history_of self.old.disk.disk in
            GoesOn before (history_of self.new.disk.disk) (IsWithinWrite offset (length bytes.now) (present before)) }
        ensures fault { OnErr result (IsAfterFault self.old self.new) }
        ensures stopped { OnErr result (IsAsBeforeStop self.old self.new ⊎ EndsInStoppedWrite offset bytes.now self.old self.new) }
        ensures counts { CountsFailure self.old.failures self.new.failures result }
        ensures passed { OnOk result (self.new.ends_in_stopped_write ≡ false) }
    {
        if self.switch.stops_call() {
            let fault = one_more_failed(&mut self.failures);
            if !self.switch.stops_first_write() {
                return Err(fault);
            }
            let failing = &mut self.disk;
            return match failing.disk.write_at(offset, bytes) {
                Ok(()) => {
                    self.ends_in_stopped_write = true;
                    Err(fault)
                }
                Err(_) => Err(fault),
            };
        }
        let outcome = self.disk.write_at(offset, bytes);
        self.ends_in_stopped_write &= outcome.is_err();
        counted(&mut self.failures, outcome)
    }

    fn sync(&mut self) -> Result<(), DiskFault>
        ensures synced { let before = history_of self.old.disk.disk in
            OnOk result (IsSynced (present before) (present (history_of self.new.disk.disk))) }
        ensures failed { OnErr result (present (history_of self.new.disk.disk) ≡ present (history_of self.old.disk.disk)) }
        ensures goes_on { let before = history_of self.old.disk.disk in
            GoesOn before (history_of self.new.disk.disk) (λ c. (c ≡ present before) ⊎ IsSynced (present before) c) }
        ensures fault { OnErr result (IsAfterFault self.old self.new) }
        ensures stopped { OnErr result (IsAsBeforeStop self.old self.new) }
        ensures counts { CountsFailure self.old.failures self.new.failures result }
        ensures passed { OnOk result (self.new.ends_in_stopped_write ≡ false) }
    {
        if self.switch.stops_call() {
            return Err(one_more_failed(&mut self.failures));
        }
        let outcome = self.disk.sync();
        self.ends_in_stopped_write &= outcome.is_err();
        counted(&mut self.failures, outcome)
    }

    ghost agrees = { λ d _. Agrees-moments_of d.disk.disk.bytes d.disk.disk.events };
}
