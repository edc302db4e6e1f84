//! Why words that can be read are no command line, and the text that says so.

use clap::ArgMatches;
use spelling::Escaped;
use std::fmt;

/// What a number has to be.
pub const NUMBER: &str = "a number";

/// What a moment has to be.
pub const MOMENT: &str = "a moment: 61210 (in milliseconds), 61.2s, 1:01.2 or 1:02:03";

/// What the names of a server have to be.
pub const NAMES: &str = "names as desk.example, without http:// or a port, a comma between two";

/// What a number of seconds has to be.
pub const SECONDS: &str = "a number of seconds";

/// Why words that can be read are no command line.
#[derive(Clone, Copy, Debug, PartialEq, Eq)]
pub enum Wrong {
    /// The word for what help calls so isn't what it has to be.
    Value(&'static str, &'static str),
    /// Words don't go together, or one is missing: what has to be.
    Words(&'static str),
}

/// The word that help calls so, which has to be given.
pub fn word<'a>(matches: &ArgMatches<'a>, name: &'static str) -> Result<&'a str, Wrong> {
    matches.get_str(name).ok_or(Wrong::Value(name, "given"))
}

/// How an argument is written: `--LONG <NAME>`, or `<NAME>`.
#[derive(Clone, Copy, Debug, PartialEq, Eq)]
pub struct Spelling {
    pub long: Option<&'static str>,
    pub name: &'static str,
}

impl fmt::Display for Spelling {
    fn fmt<W: fmt::Write>(&self, f: &mut fmt::Formatter<W>) -> fmt::Result {
        if let Some(long) = self.long {
            write!(f, "--{long} ")?;
        }
        write!(f, "<{}>", self.name)
    }
}

/// The text that says what is wrong with words of a command, as those of `clap` are.
#[derive(Clone, Copy)]
pub enum Complaint<'a> {
    Value {
        word: &'a str,
        spelling: Spelling,
        wanted: &'static str,
    },
    Words(&'static str),
}

impl fmt::Display for Complaint<'_> {
    fn fmt<W: fmt::Write>(&self, f: &mut fmt::Formatter<W>) -> fmt::Result {
        match self {
            Complaint::Value {
                word,
                spelling,
                wanted,
            } => {
                let word = Escaped(word.as_bytes());
                write!(
                    f,
                    "error: invalid value '{word}' for '{spelling}': it has to be {wanted}\n"
                )?;
            }
            Complaint::Words(wanted) => write!(f, "error: {wanted}\n")?,
        }
        write!(f, "\nFor more information, try '--help'.\n")
    }
}
