//! The command `frames`.

ghost use Rattle.std.specs.Prelude.{◌<◌};

use crate::command::Work;
use crate::recording::open_path;
use crate::refusing::Ended;
use file_disk::{FileDisk, Progress, Watched};
use key_index::Indexed;
use pictures::{Film, video_end, write_frames};
use std::alloc::Global;
use std::fs::File;
use std::io::{BufWriter, Write};
use std::rt::Files;

/// Which frames of which recording are written.
#[derive(Clone, Copy)]
pub struct Filming<'a> {
    /// The recording's file.
    pub recording: &'a str,
    /// The first frame's moment, in milliseconds of the recording.
    pub from: u32,
    /// No frame is later; none for the first frame that shows the last message.
    pub to: Option<u32>,
    /// How many frames a second.
    pub rate: u8,
    ghost rated: { 0 < rate },
}

impl Filming<'_> {
    // The film of a recording whose last message came at this time.
    fn film(&self, last: u32) -> Film {
        let end = video_end(self.from, self.rate, last);
        Film {
            from: self.from,
            to: self.to.unwrap_or(end),
            rate: self.rate,
        }
    }
}

// Writes the frames of an opened recording, through a buffer.
fn write_film<O: Write>(
    alloc: Global,
    index: &mut Indexed<FileDisk>,
    film: &Film,
    out: &mut O,
    progress: Progress,
) -> Result<(), Ended<'static>> {
    let mut frames = BufWriter::new(
        alloc,
        Watched {
            inner: out,
            progress,
        },
    )?;
    write_frames(alloc, index, film, &mut frames)?;
    Ok(frames.flush()?)
}

impl<R: Files<File = File> + AllocGlobal, O: Write> Work<'_, R, O> {
    /// Writes the frames of a recording as PPM pictures, one after the other.
    pub fn frames<'a>(&mut self, what: &Filming<'a>) -> Result<(), Ended<'a>> {
        let mut index = open_path(self.rt, what.recording, self.progress)?;
        let film = what.film(index.last_time());
        write_film(self.rt.alloc(), &mut index, &film, self.out, self.progress)
    }
}
