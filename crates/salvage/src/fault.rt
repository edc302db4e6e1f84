//! Why nothing is salvaged, with the numbers that programs print.

ghost use Rattle.std.specs.Prelude.{◌≡◌};
ghost use Rattle.terms.specs.Fault.{IsNumber};
ghost use Rattle.salvage.specs.Faults.{salvage_faults, fault_of_read, fault_of_draft};

use gated_journal::{CreateFault, ReadFault};
use thiserror::Error;

/// Why nothing is salvaged.
#[derive(Clone, Copy, Debug, PartialEq, Eq, Error)]
pub enum SalvageFault {
    /// The target has bytes; nothing is written.
    #[error("the target is not empty")]
    NotEmpty = 1,
    /// The source's device failed in this call, or no longer gives back what it gave.
    #[error("the source's device failed")]
    Source,
    /// The target's device failed in this call.
    #[error("the target's device failed")]
    Target,
    /// Out of memory.
    #[error("out of memory")]
    NoMemory,
    /// The blocks that are right end beyond 2^40 bytes, as no recording does.
    #[error("the recording would be too long")]
    Full,
}

impl SalvageFault {
    /// The number that programs print.
    pub fn number(self) -> u64
        ensures { IsNumber salvage_faults self result }
    {
        self as u64
    }
}

/// Why a block of the source isn't read.
pub fn of_read(fault: ReadFault) -> SalvageFault
    ensures { result ≡ fault_of_read fault }
{
    match fault {
        ReadFault::NoMemory => SalvageFault::NoMemory,
        ReadFault::Device => SalvageFault::Source,
    }
}

/// Why the target isn't written.
pub fn of_draft(fault: CreateFault) -> SalvageFault
    ensures { result ≡ fault_of_draft fault }
{
    match fault {
        CreateFault::NotEmpty => SalvageFault::NotEmpty,
        CreateFault::Device => SalvageFault::Target,
        CreateFault::NoMemory => SalvageFault::NoMemory,
    }
}
