//! Why a command is refused.

ghost use Rattle.std.specs.Prelude.{◌≡◌};
ghost use Rattle.refusals.specs.Areas.{IsNumberOf, area_of};

use crate::area::Area;
use crate::digest_fault::DigestFault;
use crate::name::{Detail, Name};
use fbs_export::{ExportFault, FbsFault};
use flusher_core::HostRefusal;
use flusher_core::replay::ReplayFault;
use gated_journal::{CreateFault, OpenFault, ReadFault};
use host_session::HostFault;
use key_index::IndexFault;
use migration::MigrateFault;
use salvage::SalvageFault;
use thiserror::Error;

/// Why a command is refused. Its text is for who reads a log; what the program prints is its name.
#[derive(Clone, Copy, Debug, PartialEq, Eq, Error)]
pub enum Refusal {
    /// A file can't be opened or made, or isn't one to write to; another recorder has it, or it isn't
    /// there any more in the end.
    #[error("a file can't be used")]
    File,
    /// More blocks than a crash leaves go on with the digests after the end of the recording, and
    /// would be written over.
    #[error("blocks after the end of the recording would be written over")]
    Hidden,
    /// A recording isn't opened.
    #[error("the recording isn't opened: {0}")]
    Recording(#[source] IndexFault),
    /// A recording isn't made.
    #[error("the recording isn't made: {0}")]
    Create(#[source] CreateFault),
    /// The device failed while messages were written, or were read for a viewer.
    #[error("the device failed")]
    Device,
    /// A screen isn't given.
    #[error("no screen is given: {0}")]
    Screen(#[source] ReplayFault),
    /// A block's digest isn't told.
    #[error("no digest is told: {0}")]
    Digest(#[source] DigestFault),
    /// A part of a recording isn't written as an FBS file.
    #[error("nothing is exported: {0}")]
    Export(#[source] ExportFault),
    /// A recording isn't written again in format 2.
    #[error("the recording isn't migrated: {0}")]
    Migrate(#[source] MigrateFault),
    /// What is right of a recording isn't written into a new one.
    #[error("nothing is salvaged: {0}")]
    Salvage(#[source] SalvageFault),
    /// An FBS file isn't read.
    #[error("the FBS file isn't read: {0}")]
    Fbs(#[source] FbsFault),
    /// The host sent a fault, or is of another size.
    #[error("the host is refused: {0}")]
    Host(#[source] HostFault),
    /// The recording takes no more messages, or memory ran out for one.
    #[error("a message isn't accepted: {0}")]
    Book(#[source] HostRefusal),
    /// A socket failed, or an address can't be listened at.
    #[error("a socket failed")]
    Net,
    /// A thread can't be made.
    #[error("no thread can be made")]
    Thread,
}

// A name without a detail.
fn plain(area: Area, number: u64) -> Name
    requires { IsNumberOf area number }
    ensures area { result.area ≡ area }
    ensures known { IsNumberOf result.area result.number }
{
    Name {
        area,
        number,
        detail: None,
    }
}

// The name of a fault of the file.
fn name_of_opening(fault: OpenFault) -> Name
    ensures area { result.area ≡ Area.Journal }
    ensures known { IsNumberOf result.area result.number }
{
    let detail = match fault {
        OpenFault::Damaged(block) | OpenFault::BadDigest(block) => Some(Detail::Block(block)),
        _ => None,
    };
    Name {
        area: Area::Journal,
        number: fault.number(),
        detail,
    }
}

// The name of a fault of what an opening reads.
fn name_of_index(fault: IndexFault) -> Name
    ensures area { result.area ≡ area_of (Refusal.Recording fault) }
    ensures known { IsNumberOf result.area result.number }
{
    let detail = match fault {
        IndexFault::Journal(fault) => return name_of_opening(fault),
        IndexFault::BadEntry(block)
        | IndexFault::BadMessage(block)
        | IndexFault::KeyDiffers(block)
        | IndexFault::TimesFall(block) => Some(Detail::Block(block)),
        IndexFault::NoMemory => None,
    };
    Name {
        area: Area::Index,
        number: fault.number(),
        detail,
    }
}

// The name of a fault of an FBS file.
fn name_of_fbs(fault: FbsFault) -> Name
    ensures area { result.area ≡ Area.Fbs }
    ensures known { IsNumberOf result.area result.number }
{
    let detail = match fault {
        FbsFault::Message(fault) => Some(Detail::Wire(fault.number())),
        _ => None,
    };
    Name {
        area: Area::Fbs,
        number: fault.number(),
        detail,
    }
}

impl Refusal {
    /// Its name. There is a text for each name ([`explanation`](crate::explanation)).
    pub fn name(self) -> Name
        ensures area { result.area ≡ area_of self }
        ensures known { IsNumberOf result.area result.number }
    {
        match self {
            Refusal::File => plain(Area::File, 1),
            Refusal::Hidden => plain(Area::File, 2),
            Refusal::Recording(fault) => name_of_index(fault),
            Refusal::Create(fault) => plain(Area::Journal, fault.number()),
            Refusal::Device => plain(Area::Journal, OpenFault::Device.number()),
            Refusal::Screen(fault) => plain(Area::Replay, fault.number()),
            Refusal::Digest(fault) => plain(Area::Digest, fault.number()),
            Refusal::Export(fault) => plain(Area::Export, fault.number()),
            Refusal::Migrate(fault) => plain(Area::Migrate, fault.number()),
            Refusal::Salvage(fault) => plain(Area::Salvage, fault.number()),
            Refusal::Fbs(fault) => name_of_fbs(fault),
            Refusal::Host(fault) => plain(Area::Host, fault.number()),
            Refusal::Book(refusal) => plain(Area::Book, refusal.number()),
            Refusal::Net => plain(Area::Net, 1),
            Refusal::Thread => plain(Area::Thread, 1),
        }
    }
}

impl From<ReadFault> for Refusal {
    fn from(fault: ReadFault) -> Refusal {
        Refusal::Recording(fault.into())
    }
}
