//! The name of a refusal, which is printed.

use crate::area::Area;
use crate::refusal::Refusal;
use std::io::Write;
use std::{fmt, io};

/// What a refusal's name has beside its number.
#[derive(Clone, Copy, Debug, PartialEq, Eq)]
pub enum Detail {
    /// The number of the block that the fault is of.
    Block(u64),
    /// The number of the fault of a host's message in an FBS file, one of `wire`.
    Wire(u64),
}

/// The name of a refusal. Its text is the area and the number, as `recorderd explain` takes them, and
/// then the detail: `journal 2 block 7`, `fbs 7 wire 5`.
#[derive(Clone, Copy, Debug, PartialEq, Eq)]
pub struct Name {
    /// The part of the recorder that refuses.
    pub area: Area,
    /// Which of the area's refusals it is, from 1 on.
    pub number: u64,
    /// Which block, or which fault of a message.
    pub detail: Option<Detail>,
}

impl fmt::Display for Name {
    fn fmt<W: fmt::Write>(&self, f: &mut fmt::Formatter<W>) -> fmt::Result {
        write!(f, "{} {}", self.area, self.number)?;
        match self.detail {
            None => Ok(()),
            Some(Detail::Block(block)) => write!(f, " block {block}"),
            Some(Detail::Wire(number)) => write!(f, " wire {number}"),
        }
    }
}

/// Writes the line that says that a command is refused.
pub fn write_refusal<E: Write>(command: &str, refusal: Refusal, err: &mut E) -> io::Result<()> {
    writeln!(err, "recorderd: {command} refused {}", refusal.name())
}
