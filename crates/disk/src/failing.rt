//! A disk with one call that fails.

ghost use Rattle.std.specs.Prelude.{◌≡◌, ◌⊎◌};

use crate::device::{Disk, DiskFault, counted, one_more_failed};
use crate::switch::Switch;
use std::marker::Model;

/// A disk on which one call fails, the one after as many more as its `Switch` says, and does
/// nothing. It goes on after that.
#[derive(Drop)]
pub struct FailingDisk<D: Disk> {
    switch: Switch,
    failures: u64,
    pub(crate) disk: D,
}

impl<D: Disk> Model for FailingDisk<D> {
    ghost use Rattle.disk.specs.Wrapped.{Wrapped};

    ghost Value = { Wrapped D };

    ghost view = { λ d. record { disk = d.disk; failures = d.failures } };
}

impl<D: Disk> FailingDisk<D> {
    /// This disk, armed by this switch.
    pub fn new(disk: D, switch: Switch) -> FailingDisk<D>
        ensures { result ≡ record { disk = disk; failures = 0 } }
    {
        FailingDisk {
            switch,
            failures: 0,
            disk,
        }
    }

    /// The disk inside.
    pub fn into_inner(self) -> D
        ensures { result ≡ self.disk }
    {
        let FailingDisk {
            switch: _,
            failures: _,
            disk,
        } = self;
        disk
    }
}

impl<D: Disk> Disk for FailingDisk<D> {
    ghost is_modelled = { D.is_modelled };

    ghost history = { λ d. D.history d.disk };

    ghost failures = { λ d. d.failures };

    // A call that this disk fails does nothing; else it is the disk inside that failed.
    ghost after_fault = { λ old new. (new.disk ≡ old.disk) ⊎ D.after_fault old.disk new.disk };

    fn len(&mut self) -> Result<u64, DiskFault> {
        if self.switch.fails_call() {
            return Err(one_more_failed(&mut self.failures));
        }
        let outcome = self.disk.len();
        counted(&mut self.failures, outcome)
    }

    fn read_at(&mut self, offset: u64, buffer: &mut [u8]) -> Result<(), DiskFault> {
        if self.switch.fails_call() {
            return Err(one_more_failed(&mut self.failures));
        }
        let outcome = self.disk.read_at(offset, buffer);
        counted(&mut self.failures, outcome)
    }

    fn write_at(&mut self, offset: u64, bytes: &[u8]) -> Result<(), DiskFault> {
        if self.switch.fails_call() {
            return Err(one_more_failed(&mut self.failures));
        }
        let outcome = self.disk.write_at(offset, bytes);
        counted(&mut self.failures, outcome)
    }

    fn sync(&mut self) -> Result<(), DiskFault> {
        if self.switch.fails_call() {
            return Err(one_more_failed(&mut self.failures));
        }
        let outcome = self.disk.sync();
        counted(&mut self.failures, outcome)
    }

    ghost agrees = { λ d m. D.agrees d.disk m };
}
