//! The command `times`.

ghost use Rattle.std.specs.Prelude.{◌<◌};

use crate::command::Work;
use crate::recording::open_path;
use crate::refusing::Ended;
use crate::surveying::{Stretch, StretchSink, survey};
use file_disk::Progress;
use std::fs::File;
use std::io;
use std::io::{BufWriter, Write};
use std::rt::Files;

/// Which stretches of which recording are listed.
#[derive(Clone, Copy)]
pub struct Timing<'a> {
    /// The recording's file.
    pub recording: &'a str,
    /// How long a stretch is, in milliseconds.
    pub every: u32,
    ghost some: { 0 < every },
}

// The lines of stretches.
#[derive(Drop)]
struct Lines<'a, O: Write> {
    out: &'a mut O,
}

impl<O: Write> StretchSink for Lines<'_, O> {
    fn stretch(&mut self, stretch: Stretch) -> io::Result<()> {
        writeln!(
            self.out,
            "time {} message {} block {} updates {} bytes {}",
            stretch.time, stretch.message, stretch.block, stretch.updates, stretch.bytes
        )
    }
}

impl<R: Files<File = File> + AllocGlobal, O: Write> Work<'_, R, O> {
    /// Writes a line for each stretch of a recording's time in which a message came.
    pub fn times<'a>(&mut self, what: &Timing<'a>) -> Result<(), Ended<'a>> {
        let mut index = open_path(self.rt, what.recording, self.progress)?;
        let mut writer = BufWriter::new(self.rt.alloc(), &mut *self.out)?;
        survey(&mut index, what.every, &mut Lines { out: &mut writer })?;
        Ok(writer.flush()?)
    }
}
