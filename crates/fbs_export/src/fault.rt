//! Why nothing is exported, or nothing read, with the numbers that programs print.

ghost use Rattle.std.specs.Prelude.{◌≡◌};
ghost use Rattle.fbs_export.specs.Faults.{export_faults, fault_of, fbs_number, stop_of_read};
ghost use Rattle.fbs_export.specs.declared.fault.FbsFault.TheVariants.{NoMemory as FbsNoMemory};
ghost use Rattle.fbs_export.specs.declared.fault.Stop.TheVariants.{NoMemory as StopNoMemory};

use gated_journal::ReadFault;
use std::alloc::AllocError;
use terms::WireFault;
use thiserror::Error;

/// Why a file is refused: the fault that stands first in it, or what kept it from being read.
#[derive(Clone, Copy, Debug, PartialEq, Eq, Error)]
pub enum FbsFault {
    /// It doesn't begin as an FBS file of version 001.
    #[error("no FBS file")]
    NotFbs,
    /// It ends inside a block, or before the opening of its stream is whole.
    #[error("the file is truncated")]
    Truncated,
    /// The stream's version is not 003.003.
    #[error("another version of the protocol")]
    Version,
    /// The stream's security type is not 1, None.
    #[error("another security type")]
    Security,
    /// The stream's pixel format is not the host format.
    #[error("another pixel format")]
    Format,
    /// The screen's size is outside the limits of format 2.
    #[error("a size outside the limits")]
    Size,
    /// A message is refused, by the limits of format 2.
    #[error("{0}")]
    Message(WireFault),
    /// Out of memory.
    #[error("out of memory")]
    NoMemory,
    /// The reader failed.
    #[error("the file can't be read")]
    Read,
}

impl FbsFault {
    /// The number that programs print.
    pub fn number(self) -> u64
        ensures { result ≡ fbs_number self }
    {
        match self {
            FbsFault::NotFbs => 1,
            FbsFault::Truncated => 2,
            FbsFault::Version => 3,
            FbsFault::Security => 4,
            FbsFault::Format => 5,
            FbsFault::Size => 6,
            FbsFault::Message(_) => 7,
            FbsFault::NoMemory => 8,
            FbsFault::Read => 9,
        }
    }
}

impl From<AllocError> for FbsFault {
    ghost from_gives = { λ _ fault. fault ≡ FbsNoMemory };

    fn from(_: AllocError) -> FbsFault {
        FbsFault::NoMemory
    }
}

/// Why a recording is not exported, or not all of it.
#[derive(Clone, Copy, Debug, PartialEq, Eq, Error)]
pub enum ExportFault {
    /// The recording has fewer blocks.
    #[error("no such block")]
    NoBlock = 1,
    /// The end lies before the block's start, or after the last message.
    #[error("no such end")]
    BadEnd,
    /// The device failed.
    #[error("the device failed")]
    Device,
    /// Out of memory.
    #[error("out of memory")]
    NoMemory,
    /// The writer failed, or took nothing.
    #[error("the file can't be written")]
    Write,
}

impl ExportFault {
    ghost use Rattle.terms.specs.Fault.{IsNumber};

    /// The number that programs print.
    pub fn number(self) -> u64
        ensures { IsNumber export_faults self result }
    {
        self as u64
    }
}

/// What ends an export that has begun.
#[derive(Clone, Copy)]
pub enum Stop {
    Device,
    NoMemory,
    Write,
}

impl From<Stop> for ExportFault {
    ghost from_gives = { λ stop fault. fault ≡ fault_of stop };

    fn from(stop: Stop) -> ExportFault {
        match stop {
            Stop::Device => ExportFault::Device,
            Stop::NoMemory => ExportFault::NoMemory,
            Stop::Write => ExportFault::Write,
        }
    }
}

impl From<ReadFault> for Stop {
    ghost from_gives = { λ read stop. stop ≡ stop_of_read read };

    fn from(fault: ReadFault) -> Stop {
        match fault {
            ReadFault::Device => Stop::Device,
            ReadFault::NoMemory => Stop::NoMemory,
        }
    }
}

impl From<AllocError> for Stop {
    ghost from_gives = { λ _ stop. stop ≡ StopNoMemory };

    fn from(_: AllocError) -> Stop {
        Stop::NoMemory
    }
}
