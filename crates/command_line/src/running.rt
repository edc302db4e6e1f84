//! The command line, run.

ghost use Rattle.std.specs.Prelude.{◌≤◌};

use crate::advice::{advice_of, asks_for_more};
use crate::words::{Chosen, read_words};
use browse::file_commands::{FileCommand, FileFault, Refused, create_new, keep, refuse, run};
use file_disk::Progress;
use serve_plan::Plan;
use sockets::listen_at;
use spelling::Escaped;
use std::fs::File;
use std::io;
use std::io::{Read, Write};
use std::net::{Net, TcpListener, TcpStream};
use std::rt::Files;
use std::sync::Wait;
use std::thread::Threads;
use std::time::Clock;

/// Which outputs of the program a person is at, as terminals.
#[derive(Clone, Copy, Debug, PartialEq, Eq)]
pub struct Terminals {
    pub out: bool,
    pub err: bool,
}

/// It is done.
const DONE: u8 = 0;
/// It is refused; or memory for the program's own work is; or a stream can't be read or written.
const REFUSED: u8 = 1;
/// The words are no command line.
const BAD_WORDS: u8 = 2;

/// What a bad command line is told by, whatever is wrong with it.
const BAD: &str = "recorderd: bad command line";

/// Why pictures aren't written to a terminal: their bytes are what somebody painted, and some of them
/// are orders to it.
const PIXELS: &str =
    "error: pictures go to a file or another program, and not to a terminal: add, say, '> OUT'\n";

// Whether a command writes pictures to the program's output.
fn prints_pixels(command: &FileCommand<'_>) -> bool {
    match command {
        FileCommand::Frames(_) => true,
        FileCommand::Picture(scene) => scene.out.is_none(),
        _ => false,
    }
}

// Says why the file of a drill's recording isn't made or written.
fn refuse_drill<E: Write>(fault: FileFault<'_>, is_verbose: bool, err: &mut E) -> io::Result<bool> {
    refuse("drill", Refused::File(fault), is_verbose, err)?;
    Ok(false)
}

// Runs a drill whose recording is kept in a new file, which is made first.
fn drill_to_file<R: Files<File = File> + AllocGlobal, I: Read + Drop, O: Write, E: Write>(
    rt: &R,
    path: &str,
    is_verbose: bool,
    input: I,
    out: &mut O,
    err: &mut E,
) -> io::Result<bool> {
    let mut disk = match create_new(rt, path) {
        Ok(disk) => disk,
        Err(fault) => return refuse_drill(fault, is_verbose, err),
    };
    let ran = drill::run_and_read(rt.alloc(), input, out)?;
    match keep(rt, path, &mut disk, &ran.recording) {
        Ok(()) => Ok(ran.is_whole),
        Err(fault) => refuse_drill(fault, is_verbose, err),
    }
}

// Prints a line for each recording: whether all can be read. A person is told of which one can't, if
// there are several.
fn info<R: Files<File = File> + AllocGlobal, O: Write, E: Write>(
    rt: &R,
    paths: &[&str],
    is_verbose: bool,
    progress: Progress,
    out: &mut O,
    err: &mut E,
) -> io::Result<bool> {
    let mut is_whole = true;
    for path in paths {
        let is_done = run(rt, &FileCommand::Info(path), is_verbose, progress, out, err)?;
        if !is_done && is_verbose && paths.len() > 1 {
            let path = Escaped(path.as_bytes());
            writeln!(err, "recorderd: that is of \"{path}\"")?;
        }
        is_whole = is_whole && is_done;
    }
    Ok(is_whole)
}

fn print<O: Write>(out: &mut O, text: &str) -> io::Result<bool> {
    write!(out, "{text}")?;
    Ok(true)
}

// The status of a bad command line, which is told, and at length why.
fn bad_words<E: Write>(why: &str, is_verbose: bool, err: &mut E) -> u8
    ensures { result ≤ 2 }
{
    let told = if is_verbose {
        write!(err, "{BAD}\n{why}")
    } else {
        writeln!(err, "{BAD}")
    };
    match told {
        Ok(()) => BAD_WORDS,
        Err(_) => REFUSED,
    }
}

/// Tells of words that can't be read, since one is no text, and why if it `is_verbose`. Answers the
/// exit status: that of a bad command line, or 1 if it can't be told.
pub fn no_words<E: Write>(is_verbose: bool, err: &mut E) -> u8
    ensures { result ≤ 2 }
{
    bad_words("error: a word isn't text in UTF-8\n", is_verbose, err)
}

// Prints what a refusal means, on a line of its own.
fn print_line<O: Write>(out: &mut O, text: &str) -> io::Result<bool> {
    writeln!(out, "{text}")?;
    Ok(true)
}

// The status after a command that did its work or was refused, once all is written.
fn status_of<O: Write>(done: io::Result<bool>, out: &mut O) -> u8
    ensures { result ≤ 1 }
{
    let Ok(is_done) = done else {
        return REFUSED;
    };
    match out.flush() {
        Ok(()) if is_done => DONE,
        _ => REFUSED,
    }
}

// Serves; if it is refused, what may be wrong with its addresses is told to a person.
fn served<R, O: Write, E: Write>(
    rt: &R,
    plan: &Plan<'_>,
    is_verbose: bool,
    out: &mut O,
    err: &mut E,
) -> io::Result<bool>
where
    R: AllocGlobal + Clock + Eprint + Files<File = File> + Sync + Threads + Wait,
    R: Net<Stream = TcpStream, Listener = TcpListener>,
{
    let is_done = serve::serve(rt, plan, out, err)?;
    if !is_done
        && is_verbose
        && let Some(advice) = advice_of(plan)
    {
        writeln!(err, "recorderd: {advice}")?;
    }
    Ok(is_done)
}

/// Runs the program: the words of its command line (the first is its own name), at which of its
/// outputs a person is, what tells of long work, its input, and its two outputs; files and sockets
/// are those of the runtime. To a person at `err`, and with `--verbose`, more is told of a refusal
/// than its line; to one at `out` no pictures are written. Answers the exit status: 0 if it is done, 1 if it is refused, if memory for its
/// own work is, or if a stream can't be read or written, and 2 for a bad command line.
pub fn command<R, I: Read + Drop, O: Write, E: Write>(
    rt: &R,
    words: &[String],
    terminals: Terminals,
    progress: Progress,
    input: I,
    out: &mut O,
    err: &mut E,
) -> u8
where
    R: AllocGlobal + Clock + Eprint + Files<File = File> + Sync + Threads + Wait,
    R: Net<Stream = TcpStream, Listener = TcpListener>,
    ensures { result ≤ 2 }
{
    let alloc = rt.alloc();
    let is_verbose = terminals.err || asks_for_more(words);
    let Ok(chosen) = read_words(alloc, words, is_verbose) else {
        return REFUSED;
    };
    let done = match chosen {
        Chosen::Drill { keep: None } => drill::run(alloc, input, out),
        Chosen::Drill { keep: Some(path) } => {
            drill_to_file(rt, path, is_verbose, input, out, err)
        }
        Chosen::OnFiles(what) if terminals.out && prints_pixels(&what) => {
            return bad_words(PIXELS, is_verbose, err);
        }
        Chosen::OnFiles(what) => run(rt, &what, is_verbose, progress, out, err),
        Chosen::Info(paths) => info(rt, &paths, is_verbose, progress, out, err),
        Chosen::Browse(what) => {
            let address = what.listen;
            let listen = || listen_at(rt, alloc, address);
            browse::browse(rt, what, listen, progress, out, err)
        }
        Chosen::Serve(plan) => served(rt, &plan, is_verbose, out, err),
        Chosen::Text(text) => print(out, &text),
        Chosen::Explain(text) => print_line(out, text),
        Chosen::Bad(why) => return bad_words(&why, is_verbose, err),
    };
    status_of(done, out)
}
