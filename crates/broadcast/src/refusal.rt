//! Why a step of a seat is refused, and the numbers that programs print of each step's refusals.

ghost use Rattle.std.specs.Prelude.{◌≡◌};
ghost use Rattle.broadcast.specs.Refusals.{IsStepNumber, next_refusal};

use flusher_core::{FlushRefusal, HostRefusal, TakeRefusal};
use gated_journal::ReadFault;
use thiserror::Error;

/// Why nobody is seated. The first that holds is answered: no seat, not committed.
#[derive(Clone, Copy, Debug, PartialEq, Eq, Error)]
pub enum JoinRefusal {
    /// All seats are taken.
    #[error("no seat is free")]
    NoSeat = 1,
    /// Fewer messages are committed.
    #[error("not committed")]
    NotCommitted,
}

/// Why a seat gets no slice. The first that holds is answered: not seated, no memory, device.
#[derive(Clone, Copy, Debug, PartialEq, Eq, Error)]
pub enum NextRefusal {
    /// Out of memory.
    #[error("out of memory")]
    NoMemory = 1,
    /// The device failed in this step.
    #[error("the device failed")]
    Device,
    /// The seat isn't what the desk keeps.
    #[error("not seated")]
    NotSeated,
}

/// Why a seat isn't moved. The first that holds is answered: not seated, not committed.
#[derive(Clone, Copy, Debug, PartialEq, Eq, Error)]
pub enum SeekRefusal {
    /// Fewer messages are committed.
    #[error("not committed")]
    NotCommitted = 1,
    /// The seat isn't what the desk keeps.
    #[error("not seated")]
    NotSeated,
}

/// Why a seat isn't given back.
#[derive(Clone, Copy, Debug, PartialEq, Eq, Error)]
pub enum LeaveRefusal {
    /// The seat isn't what the desk keeps.
    #[error("not seated")]
    NotSeated = 1,
}

/// Why a step of a desk is refused.
#[derive(Clone, Copy, Debug, PartialEq, Eq, Error)]
pub enum StepRefusal {
    #[error("{0}")]
    Host(HostRefusal),
    #[error("{0}")]
    Take(TakeRefusal),
    /// Of `body` or `gate`.
    #[error("{0}")]
    Flush(FlushRefusal),
    #[error("{0}")]
    Join(JoinRefusal),
    #[error("{0}")]
    Next(NextRefusal),
    #[error("{0}")]
    Seek(SeekRefusal),
    #[error("{0}")]
    Leave(LeaveRefusal),
}

impl StepRefusal {
    /// The number that programs print: 1 for the first reason of the step, and so on.
    pub fn number(self) -> u64
        ensures { IsStepNumber self result }
    {
        match self {
            StepRefusal::Host(why) => why.number(),
            StepRefusal::Take(why) => why as u64,
            StepRefusal::Flush(why) => why as u64,
            StepRefusal::Join(why) => why as u64,
            StepRefusal::Next(why) => why as u64,
            StepRefusal::Seek(why) => why as u64,
            StepRefusal::Leave(why) => why as u64,
        }
    }
}

/// Why a seat gets no slice, by why the slice isn't made.
pub fn next_refusal(fault: ReadFault) -> NextRefusal
    ensures { result ≡ next_refusal fault }
{
    match fault {
        ReadFault::NoMemory => NextRefusal::NoMemory,
        ReadFault::Device => NextRefusal::Device,
    }
}
