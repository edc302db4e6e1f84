//! Why no screen is answered, with the numbers that programs print; and why what is made of a
//! recording isn't all written.

ghost use Rattle.std.specs.Prelude.{◌≡◌};
ghost use Rattle.terms.specs.Fault.{IsNumber};
ghost use Rattle.replay.specs.Faults.{replay_faults, fault_of_read};
ghost use Rattle.replay.specs.declared.fault.ReplayFault.TheVariants.{NoMemory as ReplayNoMemory};
ghost use Rattle.replay.specs.declared.fault.OutputFault.TheVariants.{Read as OutputRead, Write as OutputWrite};

use gated_journal::ReadFault;
use std::alloc::AllocError;
use std::io;
use thiserror::Error;

/// Why no screen is answered.
#[derive(Clone, Copy, Debug, PartialEq, Eq, Error)]
pub enum ReplayFault {
    /// Fewer messages, or fewer blocks, are committed.
    #[error("not committed")]
    NotCommitted = 1,
    /// The device failed in this call.
    #[error("the device failed")]
    Device,
    /// Out of memory.
    #[error("out of memory")]
    NoMemory,
}

impl From<ReadFault> for ReplayFault {
    ghost from_gives = { λ read fault. fault ≡ fault_of_read read };

    fn from(fault: ReadFault) -> ReplayFault {
        match fault {
            ReadFault::NoMemory => ReplayFault::NoMemory,
            ReadFault::Device => ReplayFault::Device,
        }
    }
}

impl From<AllocError> for ReplayFault {
    ghost from_gives = { λ _ fault. fault ≡ ReplayNoMemory };

    fn from(_: AllocError) -> ReplayFault {
        ReplayFault::NoMemory
    }
}

impl ReplayFault {
    /// The number that programs print.
    pub fn number(self) -> u64
        ensures { IsNumber replay_faults self result }
    {
        self as u64
    }
}

/// Why what is made of a recording isn't all written.
#[derive(Debug, Drop, Error)]
pub enum OutputFault {
    /// The recording isn't read.
    #[error("the recording isn't read: {0}")]
    Read(#[source] ReplayFault),
    /// What is made of it can't be written, or memory for it runs out.
    #[error("what is made of the recording can't be written: {0}")]
    Write(#[source] io::Error),
}

impl From<ReplayFault> for OutputFault {
    ghost from_gives = { λ read fault. fault ≡ OutputRead read };

    fn from(fault: ReplayFault) -> OutputFault {
        OutputFault::Read(fault)
    }
}

impl From<ReadFault> for OutputFault {
    ghost from_gives = { λ read fault. fault ≡ OutputRead (fault_of_read read) };

    fn from(fault: ReadFault) -> OutputFault {
        OutputFault::Read(fault.into())
    }
}

impl From<io::Error> for OutputFault {
    ghost from_gives = { λ error fault. fault ≡ OutputWrite error };

    fn from(error: io::Error) -> OutputFault {
        OutputFault::Write(error)
    }
}
