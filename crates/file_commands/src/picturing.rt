//! The command `picture`.

use crate::command::Work;
use crate::file_fault::written;
use crate::out_file::open_out;
use crate::recording::open_recording;
use crate::refusing::Ended;
use crate::source_file::open_source;
use file_disk::{FileDisk, Progress, Watched};
use key_index::Indexed;
use painter::Screen;
use pictures::{PictureFormat, write_picture};
use refusals::Refusal;
use replay::{ReplayFault, count_at, screen_at};
use std::alloc::Global;
use std::fs::{File, Metadata};
use std::io::{BufWriter, Write};
use std::rt::Files;

/// A moment of a recording.
#[derive(Clone, Copy, Debug, PartialEq, Eq)]
pub enum Moment {
    /// After so many messages.
    Count(u64),
    /// So many milliseconds after the recording's start.
    Time(u32),
}

/// Which screen of which recording is shown, and in which file.
#[derive(Clone, Copy)]
pub struct Scene<'a> {
    /// The recording's file.
    pub recording: &'a str,
    /// When the screen is shown.
    pub moment: Moment,
    /// The format of the picture.
    pub format: PictureFormat,
    /// The file that is written; none for the program's output.
    pub out: Option<&'a str>,
}

// How many messages stand before a moment.
fn count_of(index: &mut Indexed<FileDisk>, moment: Moment) -> Result<u64, ReplayFault> {
    match moment {
        Moment::Count(count) => Ok(count),
        Moment::Time(time) => Ok(count_at(index, time)?),
    }
}

/// The screen at a moment of a recording.
pub fn screen_of(
    alloc: Global,
    index: &mut Indexed<FileDisk>,
    moment: Moment,
) -> Result<Screen, Refusal> {
    match count_of(index, moment).and_then(|count| screen_at(alloc, index, count)) {
        Ok(screen) => Ok(screen),
        Err(fault) => Err(Refusal::Screen(fault)),
    }
}

// Writes a picture into a file, created or emptied. What can't be written is refused as a file.
fn write_file<'a, R: Files<File = File> + AllocGlobal>(
    rt: &R,
    path: &'a str,
    recording: &Metadata,
    screen: &Screen,
    what: Scene<'_>,
    progress: Progress,
) -> Result<(), Ended<'a>> {
    let alloc = rt.alloc();
    let inner = open_out(rt, path, recording)?;
    let mut writer = BufWriter::new(alloc, Watched { inner, progress })?;
    let painted = write_picture(alloc, screen, what.format, &mut writer);
    Ok(written(painted.and_then(|()| writer.flush()), path)?)
}

// The screen that is asked for, and which file it was read from.
fn screen_in<'a, R: Files<File = File> + AllocGlobal>(
    rt: &R,
    what: &Scene<'a>,
    progress: Progress,
) -> Result<(Screen, Metadata), Ended<'a>> {
    let alloc = rt.alloc();
    let file = open_source(rt, what.recording)?;
    let metadata = file.metadata()?;
    let mut index = open_recording(rt, file, progress)?;
    let screen = screen_of(alloc, &mut index, what.moment)?;
    Ok((screen, metadata))
}

impl<R: Files<File = File> + AllocGlobal, O: Write> Work<'_, R, O> {
    /// Writes the screen at a moment of a recording as a picture.
    pub fn picture<'a>(&mut self, what: &Scene<'a>) -> Result<(), Ended<'a>> {
        let (rt, progress) = (self.rt, self.progress);
        let (screen, recording) = screen_in(rt, what, progress)?;
        match what.out {
            Some(path) => write_file(rt, path, &recording, &screen, *what, progress),
            None => Ok(write_picture(rt.alloc(), &screen, what.format, self.out)?),
        }
    }
}
