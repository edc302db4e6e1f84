//! How far a long command has come, for a person at a terminal.

use std::io;
use std::io::{IsTerminal, Read, Stderr, Write};

/// How many bytes a command goes over between two lines: a short one says nothing.
const STEP: u64 = 64 << 20;

/// Says how many MiB a command has gone over, on standard error, and only if that is a terminal; of
/// a file whose length is known also how many it has, and how many are left. What is said there
/// next replaces it, once it is taken back: the line ends with a carriage return alone.
#[derive(Clone, Copy)]
pub struct Progress {
    terminal: Option<Stderr>,
    passed: u64,
    told: u64,
    length: u64,
}

impl Progress {
    /// One at its begin.
    pub fn new(stderr: Stderr) -> Progress {
        Progress {
            terminal: stderr.is_terminal().then_some(stderr),
            ..Progress::silent()
        }
    }

    /// One that says nothing.
    pub fn silent() -> Progress {
        Progress {
            terminal: None,
            passed: 0,
            told: 0,
            length: 0,
        }
    }

    /// The same, of a file of so many bytes.
    pub fn through(self, length: u64) -> Progress {
        Progress { length, ..self }
    }

    // Says that it has come so far.
    fn tell(&mut self, offset: u64) {
        let Some(terminal) = &mut self.terminal else {
            return;
        };
        let mib = offset >> 20;
        let _told = if offset <= self.length {
            let all = self.length >> 20;
            let left = all - mib;
            write!(terminal, "\x1b[K{mib} of {all} MiB, {left} left\r")
        } else {
            write!(terminal, "\x1b[K{mib} MiB\r")
        };
    }

    /// Goes on by so many bytes, which end at this offset of the file. If they can't be told of,
    /// that ends nothing.
    pub fn reach(&mut self, bytes: usize, offset: u64) {
        self.passed = self.passed.saturating_add(bytes as u64);
        if self.passed.saturating_sub(self.told) >= STEP {
            self.told = self.passed;
            self.tell(offset);
        }
    }

    /// The same of bytes that follow on those before.
    pub fn pass(&mut self, bytes: usize) {
        let offset = self.passed.saturating_add(bytes as u64);
        self.reach(bytes, offset);
    }

    /// Takes back what was said.
    pub fn end(&mut self) {
        if let Some(terminal) = &mut self.terminal {
            let _taken = write!(terminal, "\x1b[K");
        }
    }
}

/// A reader or a writer of whose bytes that is said. A read that a signal cut off is tried again.
#[derive(Drop)]
pub struct Watched<T> {
    pub inner: T,
    pub progress: Progress,
}

impl<R: Read> Read for Watched<R> {
    fn read(&mut self, buffer: &mut [u8]) -> io::Result<usize> {
        for _ in 0..u64::MAX {
            match self.inner.read(buffer) {
                Err(error) if error.kind() == io::ErrorKind::Interrupted => {}
                outcome => {
                    let count = outcome?;
                    self.progress.pass(count);
                    return Ok(count);
                }
            }
        }
        Err(io::ErrorKind::Interrupted.into())
    }
}

impl<W: Write> Write for Watched<W> {
    fn write(&mut self, bytes: &[u8]) -> io::Result<usize> {
        let count = self.inner.write(bytes)?;
        self.progress.pass(count);
        Ok(count)
    }

    fn flush(&mut self) -> io::Result<()> {
        self.inner.flush()
    }
}
