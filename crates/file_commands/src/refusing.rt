//! Why a command is refused, what the system said of it, and how that is told.

use crate::file_fault::FileFault;
use file_disk::SystemError;
use key_index::IndexFault;
use refusals::{Refusal, write_refusal};
use replay::OutputFault;
use spelling::Escaped;
use std::io::Write;
use std::{fmt, io};
use thiserror::Error;

/// Why a command is refused, with what the system said of a file or of an address.
#[derive(Clone, Copy, Debug, PartialEq, Eq, Error)]
pub enum Refused<'a> {
    /// A file can't be opened, or isn't one to write to.
    #[error("{0}")]
    File(FileFault<'a>),
    /// This address can't be listened at.
    #[error("listen at \"{address}\": {1}", address = Escaped(.0.as_bytes()))]
    Listen(&'a str, SystemError),
    /// For a reason that isn't the system's.
    #[error("{0}")]
    Other(Refusal),
}

impl Refused<'_> {
    /// The refusal without what the system said.
    pub fn refusal(self) -> Refusal {
        match self {
            Refused::File(_) => Refusal::File,
            Refused::Listen(..) => Refusal::Net,
            Refused::Other(refusal) => refusal,
        }
    }
}

impl From<Refusal> for Refused<'_> {
    fn from(refusal: Refusal) -> Self {
        Refused::Other(refusal)
    }
}

impl<'a> From<FileFault<'a>> for Refused<'a> {
    fn from(fault: FileFault<'a>) -> Refused<'a> {
        Refused::File(fault)
    }
}

/// What `salvage` leaves out of a recording.
#[derive(Clone, Copy, Debug, PartialEq, Eq)]
pub struct LeftOut {
    /// How many bytes its file has from the first fault on.
    pub bytes: u64,
    /// The time of the last message that is kept, in milliseconds of the recording.
    pub after: u32,
    /// What is wrong there, and of which block.
    pub fault: IndexFault,
}

impl fmt::Display for LeftOut {
    fn fmt<W: fmt::Write>(&self, f: &mut fmt::Formatter<W>) -> fmt::Result {
        let LeftOut {
            bytes,
            after,
            fault,
        } = self;
        let name = Refusal::Recording(*fault).name();
        write!(f, "left out {bytes} bytes after time {after}: {name}")
    }
}

/// Writes the line that says that a command is refused; if `is_verbose`, a line after it says what
/// the system said.
pub fn refuse<E: Write>(
    command: &str,
    refused: Refused<'_>,
    is_verbose: bool,
    err: &mut E,
) -> io::Result<()> {
    write_refusal(command, refused.refusal(), err)?;
    match refused {
        Refused::Other(_) => Ok(()),
        _ if is_verbose => writeln!(err, "recorderd: {refused}"),
        _ => Ok(()),
    }
}

/// How a command ends that isn't done.
#[derive(Debug, Drop, Error)]
pub enum Ended<'a> {
    /// It is refused.
    #[error("{0}")]
    Refused(Refused<'a>),
    /// A stream can't be written, or memory for the program's own work runs out.
    #[error("{0}")]
    Failed(#[source] io::Error),
}

impl<'a> From<Refused<'a>> for Ended<'a> {
    fn from(refused: Refused<'a>) -> Ended<'a> {
        Ended::Refused(refused)
    }
}

impl From<Refusal> for Ended<'_> {
    fn from(refusal: Refusal) -> Self {
        Ended::Refused(Refused::Other(refusal))
    }
}

impl<'a> From<FileFault<'a>> for Ended<'a> {
    fn from(fault: FileFault<'a>) -> Ended<'a> {
        Ended::Refused(Refused::File(fault))
    }
}

impl From<io::Error> for Ended<'_> {
    fn from(error: io::Error) -> Self {
        Ended::Failed(error)
    }
}

impl From<OutputFault> for Ended<'_> {
    fn from(fault: OutputFault) -> Self {
        match fault {
            OutputFault::Read(fault) => Ended::from(Refusal::Screen(fault)),
            OutputFault::Write(error) => Ended::Failed(error),
        }
    }
}

/// Whether a command is done; if it is refused, a line says why, and if `is_verbose` another one
/// what the system said. An error is as it ended.
pub fn answer<E: Write>(
    command: &str,
    outcome: Result<(), Ended<'_>>,
    is_verbose: bool,
    err: &mut E,
) -> io::Result<bool> {
    match outcome {
        Ok(()) => Ok(true),
        Err(Ended::Refused(refused)) => {
            refuse(command, refused, is_verbose, err)?;
            Ok(false)
        }
        Err(Ended::Failed(error)) => Err(error),
    }
}
