//! A file in memory whose calls do what a script says, for tests.

ghost use Rattle.std.specs.Prelude.{◌≡◌, ◌≤◌, ◌<◌, IfOk};
ghost use Rattle.disk.specs.Memory.{history_of};

use crate::system_file::{CallFault, SystemFile};
use disk::{Disk, MemoryDisk};
use std::io;
use std::marker::Model;

/// What a scripted call does.
#[derive(Clone, Copy, Debug, PartialEq, Eq)]
pub enum Turn {
    /// All that it is asked for.
    Whole,
    /// A byte or more, and at most so many.
    Short(usize),
    /// Nothing: a signal comes.
    Interrupted,
    /// Nothing: it fails with this number of the system's.
    Fails(i32),
}

/// A file in memory, with a history. The reads, writes and syncs do what a script says, one turn each,
/// and all that they are asked for once it is over. Contracts see the disk in memory.
#[derive(Drop)]
pub struct ScriptedFile {
    disk: MemoryDisk,
    // The next turn is the last one.
    script: Vec<Turn>,
}

impl Model for ScriptedFile {
    ghost use Rattle.disk.specs.Memory.{Kept};

    ghost Value = { Kept };

    ghost view = { λ f. f.disk };
}

impl ScriptedFile {
    /// The file of this disk, whose calls take these turns.
    pub fn new(disk: MemoryDisk, turns: Vec<Turn>) -> ScriptedFile
        ensures { result ≡ disk }
    {
        let mut script = turns;
        script.reverse();
        ScriptedFile { disk, script }
    }

    /// The disk in memory.
    pub fn into_disk(self) -> MemoryDisk
        ensures { result ≡ self }
    {
        let ScriptedFile { disk, script: _ } = self;
        disk
    }

    // How much of so many bytes the next call does.
    fn take_turn(&mut self, all: usize) -> Result<usize, CallFault>
        ensures few { IfOk result (λ n. n ≤ all) }
        ensures some { IfOk result (λ n. 0 < all → 0 < n) }
        ensures same { self.new ≡ self.old }
    {
        match self.script.pop() {
            None | Some(Turn::Whole) => Ok(all),
            Some(Turn::Short(most)) => Ok(most.max(1).min(all)),
            Some(Turn::Interrupted) => Err(CallFault::Interrupted),
            Some(Turn::Fails(number)) => {
                Err(CallFault::Failed(io::Error::from_raw_os_error(number)))
            }
        }
    }
}

// A failure of the disk in memory, for want of memory.
fn out_of_memory() -> CallFault {
    CallFault::Failed(io::ErrorKind::OutOfMemory.into())
}

impl SystemFile for ScriptedFile {
    ghost use Rattle.disk.specs.MemoryLaws.{Agrees-moments_of};

    ghost is_modelled = { Unit {0} };

    ghost history = { history_of };

    fn length(&mut self) -> io::Result<u64> {
        match self.disk.len() {
            Ok(length) => Ok(length),
            Err(_) => Err(io::ErrorKind::OutOfMemory.into()),
        }
    }

    fn read_some(&mut self, offset: u64, buffer: &mut [u8]) -> Result<usize, CallFault> {
        let all = buffer.len();
        let most = self.take_turn(all)?;
        let length = self.disk.bytes().len() as u64;
        let left = length.saturating_sub(offset) as usize;
        let count = most.min(left);
        if count == 0 {
            return Ok(0);
        }
        match self.disk.read_at(offset, &mut buffer[..count]) {
            Ok(()) => Ok(count),
            Err(_) => Err(out_of_memory()),
        }
    }

    fn write_some(&mut self, offset: u64, bytes: &[u8]) -> Result<usize, CallFault> {
        let count = self.take_turn(bytes.len())?;
        match self.disk.write_at(offset, &bytes[..count]) {
            Ok(()) => Ok(count),
            Err(_) => Err(out_of_memory()),
        }
    }

    fn sync(&mut self) -> Result<(), CallFault> {
        let _turn = self.take_turn(0)?;
        match self.disk.sync() {
            Ok(()) => Ok(()),
            Err(_) => Err(out_of_memory()),
        }
    }

    ghost agrees = { λ file _. Agrees-moments_of file.bytes file.events };
}
