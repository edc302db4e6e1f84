//! Why a recording isn't migrated, with the numbers that programs print.

ghost use Rattle.std.specs.Prelude.{◌≡◌};
ghost use Rattle.terms.specs.Fault.{IsNumber};
ghost use Rattle.migration.specs.Faults.{migrate_faults, fault_of_read, fault_of_draft, fault_of_judging};

use gated_journal::{CreateFault, OpenFault, ReadFault};
use key_index::IndexFault;
use thiserror::Error;

/// Why a recording isn't migrated.
#[derive(Clone, Copy, Debug, PartialEq, Eq, Error)]
pub enum MigrateFault {
    /// The target has bytes; nothing is written.
    #[error("the target is not empty")]
    NotEmpty = 1,
    /// The source's device failed in this call.
    #[error("the source's device failed")]
    Source,
    /// The target's device failed in this call.
    #[error("the target's device failed")]
    Target,
    /// Out of memory.
    #[error("out of memory")]
    NoMemory,
    /// The source is of format 2 already; nothing is written.
    #[error("the recording is of format 2")]
    AlreadyTwo,
    /// The target would be longer than a recording may be; nothing is written.
    #[error("the migrated recording would be too long")]
    Full,
}

impl MigrateFault {
    /// The number that programs print.
    pub fn number(self) -> u64
        ensures { IsNumber migrate_faults self result }
    {
        self as u64
    }
}

/// Why a block of the source isn't read.
pub fn of_read(fault: ReadFault) -> MigrateFault
    ensures { result ≡ fault_of_read fault }
{
    match fault {
        ReadFault::NoMemory => MigrateFault::NoMemory,
        ReadFault::Device => MigrateFault::Source,
    }
}

/// Why the target isn't written.
pub fn of_draft(fault: CreateFault) -> MigrateFault
    ensures { result ≡ fault_of_draft fault }
{
    match fault {
        CreateFault::NotEmpty => MigrateFault::NotEmpty,
        CreateFault::Device => MigrateFault::Target,
        CreateFault::NoMemory => MigrateFault::NoMemory,
    }
}

/// Why the target, once it is whole, isn't read again: what is no recording of messages then, was
/// none that the source's device gave.
pub fn of_judging(fault: IndexFault) -> MigrateFault
    ensures { result ≡ fault_of_judging fault }
{
    match fault {
        IndexFault::NoMemory | IndexFault::Journal(OpenFault::NoMemory) => MigrateFault::NoMemory,
        IndexFault::Journal(OpenFault::Device) => MigrateFault::Target,
        _ => MigrateFault::Source,
    }
}
