//! The commands `export` and `page`.

use crate::command::Work;
use crate::out_file::open_out;
use crate::recording::open_recording;
use crate::refusing::Ended;
use crate::source_file::open_source;
use fbs_export::{ExportFault, first_exported};
use file_disk::{FileDisk, Progress, Watched};
use key_index::Indexed;
use recording_page::export_page;
use refusals::Refusal;
use std::alloc::Global;
use std::fs::File;
use std::io::{BufWriter, Write};
use std::rt::Files;

/// What is exported of which recording, and to which file.
#[derive(Clone, Copy)]
pub struct Extract<'a> {
    /// The recording's file.
    pub recording: &'a str,
    /// The block with whose first message the export begins; the number of blocks is its end.
    pub from_block: u64,
    /// The number of the first message that isn't exported; `None`: all are.
    pub to: Option<u64>,
    /// The file that is written.
    pub out: &'a str,
}

/// As what it is exported.
#[derive(Clone, Copy, Debug, PartialEq, Eq)]
enum Form {
    /// An FBS file.
    Fbs,
    /// A page that plays it.
    Page,
}

// Writes a part of an opened recording as an FBS file: how many messages it has.
fn export_fbs(
    alloc: Global,
    index: &mut Indexed<FileDisk>,
    block: u64,
    to: u64,
    out: BufWriter<Watched<File>>,
) -> Result<u64, ExportFault> {
    let mut writer = out;
    let count = fbs_export::export(alloc, index, block, to, &mut writer)?;
    writer.flush().map_err(|_| ExportFault::Write)?;
    Ok(count)
}

// Writes a part of an opened recording as a page: how many messages it has.
fn export_as_page(
    alloc: Global,
    index: &mut Indexed<FileDisk>,
    block: u64,
    to: u64,
    out: BufWriter<Watched<File>>,
) -> Result<u64, ExportFault> {
    let page = export_page(alloc, index, block, to, out)?;
    Ok(page.messages)
}

// Writes a part of a recording in this form: how many messages it has.
fn exported<'a, R: Files<File = File> + AllocGlobal>(
    rt: &R,
    what: &Extract<'a>,
    form: Form,
    progress: Progress,
) -> Result<u64, Ended<'a>> {
    let alloc = rt.alloc();
    let file = open_source(rt, what.recording)?;
    let metadata = file.metadata()?;
    let mut index = open_recording(rt, file, progress)?;
    let to = what.to.unwrap_or(index.committed());
    first_exported(&index, what.from_block, to).map_err(Refusal::Export)?;
    let inner = open_out(rt, what.out, &metadata)?;
    let out = BufWriter::new(alloc, Watched { inner, progress })?;
    let exported = match form {
        Form::Fbs => export_fbs(alloc, &mut index, what.from_block, to, out),
        Form::Page => export_as_page(alloc, &mut index, what.from_block, to, out),
    };
    Ok(exported.map_err(Refusal::Export)?)
}

impl<R: Files<File = File> + AllocGlobal, O: Write> Work<'_, R, O> {
    /// Writes a part of a recording as an FBS file, and tells how many messages it has.
    pub fn export<'a>(&mut self, what: &Extract<'a>) -> Result<(), Ended<'a>> {
        self.write(what, Form::Fbs)
    }

    /// Writes a part of a recording as a page that plays it, and tells how many messages it has.
    pub fn page<'a>(&mut self, what: &Extract<'a>) -> Result<(), Ended<'a>> {
        self.write(what, Form::Page)
    }

    // Writes a part of a recording in this form, and tells how many messages it has.
    fn write<'a>(&mut self, what: &Extract<'a>, form: Form) -> Result<(), Ended<'a>> {
        let count = exported(self.rt, what, form, self.progress)?;
        self.progress.end();
        Ok(writeln!(self.out, "exported {count}")?)
    }
}
