//! Transcripts, played.

use crate::calls::{Outcome, read_calls};
use crate::files::{bytes_of, change, other_bytes};
use crate::streams::{Input, Output};
use command_line::{Terminals, command};
use file_disk::Progress;
use std::fs::File;
use std::net::{Net, TcpListener, TcpStream};
use std::rt::Files;
use std::sync::Wait;
use std::thread::Threads;
use std::time::Clock;
use std::{fs, io};

/// Calls the program with these words, on this input, and with room for so many bytes of output.
pub fn run<R>(rt: &R, words: &[String], input: Input<'_>, room: usize) -> io::Result<Outcome>
where
    R: AllocGlobal + Clock + Eprint + Files<File = File> + Sync + Threads + Wait,
    R: Net<Stream = TcpStream, Listener = TcpListener>,
{
    let mut out = Output::new(rt.alloc(), room);
    let mut err = Output::new(rt.alloc(), usize::MAX);
    let status = command(
        rt,
        words,
        Terminals {
            out: false,
            err: false,
        },
        Progress::silent(),
        input,
        &mut out,
        &mut err,
    );
    let mut printed = out.bytes;
    printed.extend_from_slice(&err.bytes)?;
    Ok(Outcome { status, printed })
}

// What came of the first call of a paragraph that ends or prints otherwise than it says.
fn other_outcome<R>(rt: &R, head: &str, lines: &str) -> io::Result<Option<String>>
where
    R: AllocGlobal + Clock + Eprint + Files<File = File> + Sync + Threads + Wait,
    R: Net<Stream = TcpStream, Listener = TcpListener>,
{
    let alloc = rt.alloc();
    for call in &read_calls(alloc, head, lines)? {
        let input = Input::Bytes(call.input.as_bytes());
        let outcome = run(rt, &call.words, input, usize::MAX)?;
        if !outcome.is(&call.outcome) {
            return Ok(Some(outcome.told(alloc)?));
        }
    }
    Ok(None)
}

// Removes files, if they are there.
fn remove<R: Files<File = File>>(rt: &R, names: &[&str]) {
    for name in names {
        let _ = fs::remove_file(rt, *name);
    }
}

/// Does what a paragraph says; answers what came instead, if it isn't so.
pub fn difference<R>(rt: &R, paragraph: &str) -> io::Result<Option<String>>
where
    R: AllocGlobal + Clock + Eprint + Files<File = File> + Sync + Threads + Wait,
    R: Net<Stream = TcpStream, Listener = TcpListener>,
{
    let alloc = rt.alloc();
    let (head, lines) = paragraph.split_once("\n").unwrap_or((paragraph, ""));
    let words: Vec<&str> = head.split_whitespace().collect(alloc)?;
    match words.as_slice() {
        ["file", name] => fs::write(rt, *name, bytes_of(alloc, lines)?.as_slice())?,
        ["change", from, name, offset, byte] => change(rt, from, name, offset, byte)?,
        ["link", from, name] => fs::hard_link(rt, *from, *name)?,
        ["remove", names @ ..] => remove(rt, names),
        ["here", name] => return other_bytes(rt, name, lines),
        _ => return other_outcome(rt, head, lines),
    }
    Ok(None)
}

/// Plays a transcript, and prints what is found.
pub fn play<R>(rt: &R, name: &str) -> io::Result<()>
where
    R: AllocGlobal + Clock + Eprint + Files<File = File> + Print + Sync + Threads + Wait,
    R: Net<Stream = TcpStream, Listener = TcpListener>,
{
    let text = fs::read_to_string(rt, name)?;
    let mut count = 0u64;
    for paragraph in text.split("\n\n") {
        if paragraph.starts_with("#") {
            continue;
        }
        match difference(rt, paragraph)? {
            None => count = count.wrapping_add(1),
            Some(instead) => println!(rt; "{name}: not so:\n{paragraph}\nbut:\n{instead}")?,
        }
    }
    println!(rt; "{name}: {count} paragraphs are so")
}
