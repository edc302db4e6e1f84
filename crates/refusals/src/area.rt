//! The parts of the recorder that refuse a command.

use std::fmt;

/// A part of the recorder that refuses a command, as the refusal's line names it.
#[derive(Clone, Copy, Debug, PartialEq, Eq)]
pub enum Area {
    /// A recording's file and its blocks: opened, made or written.
    Journal,
    /// The messages in a recording's blocks.
    Index,
    /// A screen of a recording.
    Replay,
    /// The digest of a recording's block.
    Digest,
    /// A recording of format 1, written again in format 2.
    Migrate,
    /// What is right of a damaged recording, written into a new one.
    Salvage,
    /// A part of a recording, written as an FBS file.
    Export,
    /// An FBS file that is read.
    Fbs,
    /// A message of a host, as `fbs 7` names its fault.
    Wire,
    /// The host that is recorded: its messages, and its handshake.
    Host,
    /// A message that the recording doesn't take.
    Book,
    /// A file of the system.
    File,
    /// An address or a connection.
    Net,
    /// A thread of the system.
    Thread,
}

impl Area {
    ghost use Rattle.std.specs.Prelude.{◌≡◌, Some, IfSome};
    ghost use Rattle.refusals.specs.Areas.{word_of};

    /// The word that names it in a refusal's line.
    pub fn word(self) -> &'static str
        ensures { result.now ≡ word_of self }
    {
        match self {
            Area::Journal => "journal",
            Area::Index => "index",
            Area::Replay => "replay",
            Area::Digest => "digest",
            Area::Migrate => "migrate",
            Area::Salvage => "salvage",
            Area::Export => "export",
            Area::Fbs => "fbs",
            Area::Wire => "wire",
            Area::Host => "host",
            Area::Book => "book",
            Area::File => "file",
            Area::Net => "net",
            Area::Thread => "thread",
        }
    }

    /// The area that this word names, if any.
    pub fn from_word(word: &str) -> Option<Area>
        ensures known { (area : Area) → word.now ≡ word_of area → result ≡ Some area }
        ensures named { IfSome result (λ area. word.now ≡ word_of area) }
    {
        match word {
            "journal" => Some(Area::Journal),
            "index" => Some(Area::Index),
            "replay" => Some(Area::Replay),
            "digest" => Some(Area::Digest),
            "migrate" => Some(Area::Migrate),
            "salvage" => Some(Area::Salvage),
            "export" => Some(Area::Export),
            "fbs" => Some(Area::Fbs),
            "wire" => Some(Area::Wire),
            "host" => Some(Area::Host),
            "book" => Some(Area::Book),
            "file" => Some(Area::File),
            "net" => Some(Area::Net),
            "thread" => Some(Area::Thread),
            _ => None,
        }
    }
}

impl fmt::Display for Area {
    fn fmt<W: fmt::Write>(&self, f: &mut fmt::Formatter<W>) -> fmt::Result {
        write!(f, "{}", self.word())
    }
}
