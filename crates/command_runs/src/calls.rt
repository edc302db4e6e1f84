//! The calls of the program in transcripts.

use crate::files::bytes_of;
use std::alloc::Global;
use std::{io, str};

/// How a call ends, and what it prints: standard output, and standard error after it.
#[derive(Drop)]
pub struct Outcome {
    pub status: u8,
    pub printed: Vec<u8>,
}

impl Outcome {
    /// Whether another one is the same.
    pub fn is(&self, other: &Outcome) -> bool {
        self.status == other.status && self.printed.as_slice() == other.printed.as_slice()
    }

    /// It as text; what is printed as hexadecimal digits, if it is no text.
    pub fn told(&self, alloc: Global) -> io::Result<String> {
        let status = self.status;
        match str::from_utf8(&self.printed) {
            Ok(text) => Ok(format!(in alloc; "{status}\n{text}")?),
            Err(_) => {
                let digits = hex::encode(alloc, self.printed.as_slice())?;
                Ok(format!(in alloc; "{status}\n{digits}")?)
            }
        }
    }
}

/// A call, and what is to come of it.
#[derive(Drop)]
pub struct Call {
    /// Its words, with the program's own name.
    pub words: Vec<String>,
    pub input: String,
    pub outcome: Outcome,
}

/// The program's name, and these words after it.
pub fn words_of(alloc: Global, line: &str) -> io::Result<Vec<String>> {
    let mut words = Vec::new(alloc);
    words.push("recorderd".to_string(alloc)?)?;
    for word in line.split_whitespace() {
        words.push(word.to_string(alloc)?)?;
    }
    Ok(words)
}

// A call with these words, with what the lines say that is put in and printed.
fn read_call(alloc: Global, status: u8, words: &str, lines: &str) -> io::Result<Call> {
    let mut input = String::new(alloc);
    let mut printed = Vec::new(alloc);
    for line in lines.lines() {
        let (mark, text) = line.split_once(" ").unwrap_or((line, ""));
        match mark {
            "<" => {
                input.push_str(text)?;
                input.push_str("\n")?;
            }
            "|" => {
                printed.extend_from_slice(text.as_bytes())?;
                printed.push(b'\n')?;
            }
            ":" => printed.extend_from_slice(&bytes_of(alloc, text)?)?,
            _ => return Err(io::ErrorKind::InvalidData.into()),
        }
    }
    Ok(Call {
        words: words_of(alloc, words)?,
        input,
        outcome: Outcome { status, printed },
    })
}

/// The calls of a paragraph with this first line and these further ones.
pub fn read_calls(alloc: Global, head: &str, lines: &str) -> io::Result<Vec<Call>> {
    let mut calls = Vec::new(alloc);
    let (status, words) = head.split_once(" ").unwrap_or((head, ""));
    if head == "bad" {
        for line in lines.lines() {
            calls.push(read_call(alloc, 2, line, "| recorderd: bad command line")?)?;
        }
    } else if let Ok(status) = status.parse::<u8>() {
        calls.push(read_call(alloc, status, words, lines)?)?;
    } else {
        return Err(io::ErrorKind::InvalidData.into());
    }
    Ok(calls)
}
