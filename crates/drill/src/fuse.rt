//! How the disk of a drill is made to fail, or to stop.

use disk::{FailingDisk, FusedDisk, MemoryDisk, Switch};
use drill_script::Fill;
use std::alloc::{AllocError, Global};

/// The switch of a drill's disks, and what the last stop leaves of one.
#[derive(Drop)]
pub struct Fuse {
    switch: Switch,
    left: Option<disk::Fill>,
}

impl Fuse {
    /// One that makes no disk fail.
    pub fn new(alloc: Global) -> Result<Fuse, AllocError> {
        Ok(Fuse {
            switch: Switch::new(alloc)?,
            left: None,
        })
    }

    /// This disk, which works until the fuse is armed.
    pub fn on(&self, disk: MemoryDisk) -> Result<FusedDisk, AllocError> {
        let failing = FailingDisk::new(disk, self.switch.clone()?);
        Ok(FusedDisk::new(failing, self.switch.clone()?))
    }

    /// After so many more calls, one fails.
    pub fn fail_after(&self, calls: u64) {
        self.switch.fail_after(calls);
    }

    /// After so many more calls, each fails.
    pub fn stop_after(&mut self, calls: u64, fill: Fill) {
        self.switch.stop_after(calls);
        self.left = Some(match fill {
            Fill::Held => disk::Fill::Held,
            Fill::Now => disk::Fill::Now,
            Fill::Byte(byte) => disk::Fill::Byte(byte),
        });
    }

    /// Ends both. Answers what the stop leaves, if there was one.
    pub fn disarm(&mut self) -> Option<disk::Fill> {
        self.switch.disarm();
        self.left.take()
    }
}
