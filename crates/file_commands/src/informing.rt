//! The command `info`.

use crate::command::Work;
use crate::recording::open_recording;
use crate::refusing::Ended;
use crate::source_file::open_source;
use spelling::Escaped;
use std::fs::{File, TryLockError};
use std::io::Write;
use std::rt::Files;
use terms::{Format, ScreenSize};

// Whether a recorder has a file locked, to write it. The lock that tells is given back at once.
fn is_being_written(file: &File) -> bool {
    match file.try_lock_shared() {
        Ok(()) => {
            let _unlocked = file.unlock();
            false
        }
        Err(TryLockError::WouldBlock) => true,
        Err(TryLockError::Error(_)) => false,
    }
}

fn number_of(format: Format) -> u8 {
    match format {
        Format::One => 1,
        Format::Two => 2,
    }
}

impl<R: Files<File = File> + AllocGlobal, O: Write> Work<'_, R, O> {
    /// Writes a line for the recording at a path: its format, its size, how many messages count, the
    /// time of the last one, how many bytes its file has, whether it is being written, the host's
    /// name, and the path.
    pub fn info<'a>(&mut self, path: &'a str) -> Result<(), Ended<'a>> {
        let file = open_source(self.rt, path)?;
        let is_written = is_being_written(&file);
        let bytes = file.metadata()?.len();
        let index = open_recording(self.rt, file, self.progress)?;
        let header = index.header();
        let format = number_of(header.format());
        let ScreenSize { width, height } = header.size();
        let (messages, length) = (index.committed(), index.last_time());
        let written = if is_written { "yes" } else { "no" };
        let (name, path) = (Escaped(header.name()), Escaped(path.as_bytes()));
        writeln!(
            self.out,
            "recording {width} {height} format {format} messages {messages} length {length} bytes {bytes} written {written} name \"{name}\" path \"{path}\""
        )?;
        Ok(())
    }
}
