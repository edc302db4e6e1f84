//! The commands `check` and `fbs-check`.

use crate::after_end::after_end;
use crate::command::Work;
use crate::recording::open_recording;
use crate::refusing::Ended;
use crate::source_file::open_source;
use fbs_export::Counted;
use file_disk::{Progress, Watched};
use refusals::Refusal;
use std::fs::File;
use std::io::{BufReader, Write};
use std::rt::Files;
use terms::ScreenSize;

impl<R: Files<File = File> + AllocGlobal, O: Write> Work<'_, R, O> {
    /// Opens the recording at a path, and writes its size, and how many messages and blocks count;
    /// notes what follows its end.
    pub fn check<'a>(&mut self, path: &'a str) -> Result<(), Ended<'a>> {
        let file = open_source(self.rt, path)?;
        let again = file.try_clone()?;
        let index = open_recording(self.rt, file, self.progress)?;
        let ScreenSize { width, height } = index.header().size();
        let messages = index.committed();
        let blocks = index.blocks();
        writeln!(
            self.out,
            "recording {width} {height} messages {messages} blocks {blocks}"
        )?;
        self.after_end = after_end(self.rt, again, &index)?;
        Ok(())
    }
}

// What the FBS file at a path says.
fn counted<'a, R: Files<File = File> + AllocGlobal>(
    rt: &R,
    path: &'a str,
    progress: Progress,
) -> Result<Counted, Ended<'a>> {
    let alloc = rt.alloc();
    let inner = open_source(rt, path)?;
    let progress = progress.through(inner.metadata()?.len());
    let mut reader = BufReader::new(alloc, Watched { inner, progress })?;
    Ok(fbs_export::count(alloc, &mut reader).map_err(Refusal::Fbs)?)
}

impl<R: Files<File = File> + AllocGlobal, O: Write> Work<'_, R, O> {
    /// Reads the FBS file at a path, and writes its size, how many messages it has, and how many bytes of
    /// an unfinished last one.
    pub fn fbs_check<'a>(&mut self, path: &'a str) -> Result<(), Ended<'a>> {
        let Counted {
            size: ScreenSize { width, height },
            messages,
            rest,
        } = counted(self.rt, path, self.progress)?;
        self.progress.end();
        Ok(writeln!(
            self.out,
            "fbs {width} {height} messages {messages} rest {rest}"
        )?)
    }
}
