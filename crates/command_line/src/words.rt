//! What the words of the command line ask for.

use crate::files::on_files;
use crate::numbers::number;
use crate::servers::{browsing, plan};
use crate::table;
use crate::wrong::{Complaint, NUMBER, Wrong, word};
use browse::Browsing;
use browse::file_commands::FileCommand;
use clap::ArgMatches;
use clap::error::ErrorKind;
use serve_plan::Plan;
use std::alloc::Global;
use std::io;

/// What the words ask for.
#[derive(Drop)]
pub enum Chosen<'a> {
    Drill { keep: Option<&'a str> },
    OnFiles(FileCommand<'a>),
    /// A line for each recording.
    Info(Vec<&'a str>),
    Browse(Browsing<'a>),
    Serve(Plan<'a>),
    /// What a refusal means.
    Explain(&'static str),
    /// Text to be printed: help, or the version.
    Text(String),
    /// The words are no command line, for this reason.
    Bad(String),
}

// What a refusal means.
fn explained<'a>(matches: &ArgMatches<'a>) -> Result<Chosen<'a>, Wrong> {
    let area = word(matches, "AREA")?;
    let number = number(word(matches, "NUMBER")?).ok_or(Wrong::Value("NUMBER", NUMBER))?;
    match refusals::explain(area, number) {
        Some(text) => Ok(Chosen::Explain(text)),
        None => Err(Wrong::Words("no refusal has this area and number")),
    }
}

// The recordings of which a line is printed each.
fn paths<'a>(alloc: Global, matches: &ArgMatches<'a>) -> io::Result<Chosen<'a>> {
    let mut paths = Vec::new(alloc);
    for path in matches.get_strs("PATH").unwrap_or(&[]) {
        paths.push(*path)?;
    }
    Ok(Chosen::Info(paths))
}

// What the words of a command ask for, or which one isn't what it should be.
fn choose<'a>(name: &str, matches: &ArgMatches<'a>, is_verbose: bool) -> Result<Chosen<'a>, Wrong> {
    match name {
        "drill" => Ok(Chosen::Drill {
            keep: matches.get_str("FILE"),
        }),
        "browse" => browsing(matches, is_verbose).map(Chosen::Browse),
        "serve" => match plan(matches, is_verbose) {
            Ok(plan) => Ok(Chosen::Serve(plan)),
            Err(wrong) => Err(wrong),
        },
        "explain" => explained(matches),
        _ => on_files(name, matches).map(Chosen::OnFiles),
    }
}

// What is wrong with the words of a command.
fn complaint_of<'a>(name: &str, matches: &ArgMatches<'a>, wrong: Wrong) -> Complaint<'a> {
    match wrong {
        Wrong::Words(wanted) => Complaint::Words(wanted),
        Wrong::Value(of, wanted) => Complaint::Value {
            word: matches.get_str(of).unwrap_or(""),
            spelling: table::spelled(name, of),
            wanted,
        },
    }
}

// What the words that were found ask for.
fn asked_for<'a>(
    alloc: Global,
    matches: &ArgMatches<'a>,
    is_verbose: bool,
) -> io::Result<Chosen<'a>> {
    let Some((name, matches)) = matches.subcommand() else {
        return Ok(Chosen::Bad(String::new(alloc)));
    };
    if name == "info" {
        return paths(alloc, matches);
    }
    match choose(name, matches, is_verbose) {
        Ok(chosen) => Ok(chosen),
        Err(wrong) => {
            let complaint = complaint_of(name, matches, wrong);
            Ok(Chosen::Bad(format!(in alloc; "{complaint}")?))
        }
    }
}

/// What the words ask for, the first of which is the program's own name; with `is_verbose` a refusal
/// is told at length. An error is of memory.
pub fn read_words<'a>(
    alloc: Global,
    words: &'a [String],
    is_verbose: bool,
) -> io::Result<Chosen<'a>> {
    match table::reader(alloc)?.try_get_matches_from(words) {
        Ok(matches) => asked_for(alloc, &matches, is_verbose),
        Err(error) => match error.kind() {
            ErrorKind::DisplayHelp | ErrorKind::DisplayVersion => {
                Ok(Chosen::Text(format!(in alloc; "{error}")?))
            }
            ErrorKind::OutOfMemory => Err(io::ErrorKind::OutOfMemory.into()),
            _ => Ok(Chosen::Bad(format!(in alloc; "{error}")?)),
        },
    }
}
