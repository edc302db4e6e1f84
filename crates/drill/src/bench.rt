//! A drill: a script's lines, run over one disk in memory, which fails when the script says so.

use crate::answer::Answer;
use crate::fuse::Fuse;
use crate::steps;
use broadcast::Desk;
use disk::{Fill, FusedDisk, MemoryDisk};
use drill_script::{Line, LineFault, read_line};
use flusher_core::Book;
use gated_journal::{CreateFault, Header, Refused};
use key_index::IndexFault;
use std::alloc::{AllocError, Global};
use std::io::{BufRead, BufReader, Read, Write};
use std::{io, mem};
use terms::{Format, ScreenSize};

/// What a drill has: nothing before the first `new`, then a disk, and a desk on it unless `new` or
/// `open` was refused. The desk is boxed, since it is large.
#[derive(Drop)]
enum Bench {
    Empty,
    Disk(FusedDisk),
    Desk(Box<Desk<FusedDisk>>),
}

/// The state of a run between two lines.
#[derive(Drop)]
struct Drill {
    alloc: Global,
    fuse: Fuse,
    bench: Bench,
}

// A desk in a box, or, when memory runs out, its disk.
fn boxed(alloc: Global, desk: Desk<FusedDisk>) -> Result<Box<Desk<FusedDisk>>, FusedDisk> {
    match Box::new(alloc, desk) {
        Ok(desk) => Ok(desk),
        Err(failed) => Err(failed.value.into_book().close()),
    }
}

// A desk with a new recording. It and the next one promise nothing: a drill's answers rest on the
// desk's steps alone.
fn new_desk(
    alloc: Global,
    disk: FusedDisk,
    header: Header,
) -> Result<Box<Desk<FusedDisk>>, Refused<FusedDisk, CreateFault>> {
    match boxed(alloc, Desk::new(Book::create(alloc, disk, header)?)) {
        Ok(desk) => Ok(desk),
        Err(disk) => Err(Refused {
            disk,
            fault: CreateFault::NoMemory,
        }),
    }
}

// A desk with the recording that the disk holds.
fn opened_desk(
    alloc: Global,
    disk: FusedDisk,
) -> Result<Box<Desk<FusedDisk>>, Refused<FusedDisk, IndexFault>> {
    match boxed(alloc, Desk::new(Book::open(alloc, disk)?)) {
        Ok(desk) => Ok(desk),
        Err(disk) => Err(Refused {
            disk,
            fault: IndexFault::NoMemory,
        }),
    }
}

impl Drill {
    fn new(alloc: Global) -> Result<Drill, AllocError> {
        Ok(Drill {
            alloc,
            fuse: Fuse::new(alloc)?,
            bench: Bench::Empty,
        })
    }

    // A drill whose disk has these bytes, which `open` opens.
    fn over(alloc: Global, bytes: Vec<u8>) -> Result<Drill, AllocError> {
        let fuse = Fuse::new(alloc)?;
        let disk = fuse.on(MemoryDisk::from_bytes(alloc, bytes))?;
        Ok(Drill {
            alloc,
            fuse,
            bench: Bench::Disk(disk),
        })
    }

    // Ends the fuse and the book, and gives the bytes that the disk has then: what the last stop
    // leaves of it, if a line set one.
    fn into_recording(self) -> Result<Vec<u8>, AllocError> {
        let Drill {
            alloc,
            mut fuse,
            bench,
        } = self;
        let fill = fuse.disarm().unwrap_or(Fill::Now);
        let disk = match bench {
            Bench::Empty => return Ok(Vec::new(alloc)),
            Bench::Disk(disk) => disk,
            Bench::Desk(desk) => Box::into_inner(desk).into_book().close(),
        };
        disk.left(fill).bytes().to_vec(alloc)
    }

    // A second `new` begins again with an empty disk.
    fn start(
        &mut self,
        format: Format,
        size: ScreenSize,
        key_interval: u16,
        name: &[u8],
    ) -> Result<Answer, AllocError> {
        self.fuse.disarm();
        let disk = self.fuse.on(MemoryDisk::new(self.alloc))?;
        match Header::with_format(self.alloc, format, size, key_interval, name) {
            Ok(header) => Ok(self.create(disk, header)),
            Err(fault) => {
                self.bench = Bench::Disk(disk);
                Ok(Answer::Refused("new", fault.number()))
            }
        }
    }

    fn create(&mut self, disk: FusedDisk, header: Header) -> Answer {
        let (size, key_interval) = (header.size(), header.key_interval());
        match new_desk(self.alloc, disk, header) {
            Ok(desk) => {
                self.bench = Bench::Desk(desk);
                Answer::Recording { size, key_interval }
            }
            Err(refused) => {
                self.bench = Bench::Disk(refused.disk);
                Answer::CreateRefused(refused.fault.number())
            }
        }
    }

    // Ends the desk and its book, and opens what its disk holds: after a stop, what the stop
    // leaves.
    fn open(&mut self) -> Result<Answer, AllocError> {
        let left = self.fuse.disarm();
        let disk = match mem::replace(&mut self.bench, Bench::Empty) {
            Bench::Empty => return Ok(Answer::Bad),
            Bench::Disk(disk) => disk,
            Bench::Desk(desk) => Box::into_inner(desk).into_book().close(),
        };
        let disk = match left {
            None => disk,
            Some(fill) => self.fuse.on(disk.left(fill))?,
        };
        Ok(self.opened(disk))
    }

    fn opened(&mut self, disk: FusedDisk) -> Answer {
        match opened_desk(self.alloc, disk) {
            Ok(desk) => {
                let committed = desk.committed();
                self.bench = Bench::Desk(desk);
                Answer::Opened(committed)
            }
            Err(refused) => {
                self.bench = Bench::Disk(refused.disk);
                Answer::OpenRefused(refused.fault)
            }
        }
    }

    fn answer(&mut self, line: Line) -> Result<Answer, AllocError> {
        match line {
            Line::New {
                format,
                size,
                key_interval,
                name,
            } => self.start(format, size, key_interval, &name),
            Line::Open => self.open(),
            Line::OnDesk(line) => match &mut self.bench {
                Bench::Empty | Bench::Disk(_) => Ok(Answer::Bad),
                Bench::Desk(desk) => steps::answer(self.alloc, desk, &mut self.fuse, line),
            },
        }
    }
}

// Runs a line, and writes its answer: whether it wasn't a bad one. An empty line is passed over.
fn run_line<O: Write>(
    drill: &mut Drill,
    text: &[u8],
    number: u64,
    out: &mut O,
) -> io::Result<bool> {
    let text = text.strip_suffix(b"\n").unwrap_or(text);
    if text.is_empty() {
        return Ok(true);
    }
    let answer = match read_line(drill.alloc, text) {
        Ok(line) => drill.answer(line)?,
        Err(LineFault::Bad) => Answer::Bad,
        Err(LineFault::NoMemory) => return Err(AllocError.into()),
    };
    if matches!(answer, Answer::Bad) {
        writeln!(out, "line {number}: bad")?;
        return Ok(false);
    }
    writeln!(out, "{answer}")?;
    Ok(true)
}

// Runs the lines of a script: whether none was bad.
fn run_lines<I: Read + Drop, O: Write>(
    drill: &mut Drill,
    input: I,
    out: &mut O,
) -> io::Result<bool> {
    let mut input = BufReader::new(drill.alloc, input)?;
    let mut text = Vec::new(drill.alloc);
    for number in 1..u64::MAX {
        text.clear();
        if input.read_until(b'\n', &mut text)? == 0 {
            break;
        }
        if !run_line(drill, &text, number, out)? {
            return Ok(false);
        }
    }
    Ok(true)
}

/// Runs a script, and writes an answer for each line that isn't empty. A bad line ends the run: the
/// answer is whether there was none. An error is of the input, the output, or of memory.
pub fn run<I: Read + Drop, O: Write>(alloc: Global, input: I, out: &mut O) -> io::Result<bool> {
    let mut drill = Drill::new(alloc)?;
    run_lines(&mut drill, input, out)
}

/// How a script was run whose recording is kept.
#[derive(Drop)]
pub struct Ran {
    /// Whether no line was bad.
    pub is_whole: bool,
    /// The bytes that its disk has then, as the last stop leaves them if a line set one; none if
    /// there was no `new`.
    pub recording: Vec<u8>,
}

/// Runs a script as [`run`] does, and gives the recording that it leaves, also if a line was bad.
pub fn run_and_read<I: Read + Drop, O: Write>(
    alloc: Global,
    input: I,
    out: &mut O,
) -> io::Result<Ran> {
    run_and_keep(Drill::new(alloc)?, input, out)
}

/// Runs a script as [`run_and_read`] does, on a disk with these bytes, which its first `open` opens.
pub fn run_over<I: Read + Drop, O: Write>(
    alloc: Global,
    recording: Vec<u8>,
    input: I,
    out: &mut O,
) -> io::Result<Ran> {
    run_and_keep(Drill::over(alloc, recording)?, input, out)
}

fn run_and_keep<I: Read + Drop, O: Write>(drill: Drill, input: I, out: &mut O) -> io::Result<Ran> {
    let mut drill = drill;
    let is_whole = run_lines(&mut drill, input, out)?;
    let recording = drill.into_recording()?;
    Ok(Ran {
        is_whole,
        recording,
    })
}
