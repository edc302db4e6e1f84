//! A recording's part, as a page.

ghost use Rattle.std.specs.Prelude.{◌≡◌, ◌↔◌, ◌+◌, ◌<◌, IfOk, IsErrOf, Err, length};
ghost use Rattle.std.specs.Io.KnownBytes.{Appends};
ghost use Rattle.disk.specs.Failures.{HasCause};
ghost use Rattle.fbs_export.specs.Export.{export_text};
ghost use Rattle.fbs_export.specs.Written.{IsBadEnd};
ghost use Rattle.key_index.specs.Indexed.{OnlyReads, start_in};
ghost use Rattle.keyed_entries.specs.Entry.{messages_in};
ghost use Rattle.recording_page.specs.Text.{page_text};

use crate::page::{END, FRONT, MIDDLE};
use crate::writing::Page;
use base64::engine::general_purpose::STANDARD;
use disk::Disk;
use fbs_export::{ExportFault, export, first_exported};
use key_index::Indexed;
use screen_script::PAINTER;
use std::alloc::Global;
use std::io;
use std::io::Write;

/// A page that was written.
#[derive(Drop)]
pub struct WrittenPage<W> {
    /// How many messages it has.
    pub messages: u64,
    /// The writer that has it.
    pub out: W,
}

// A writer's failure.
fn unwritten(_error: io::Error) -> ExportFault
    ensures { result ≡ ExportFault.Write }
{
    ExportFault::Write
}

/// Writes the messages from the start of a block on, below number `to`, as a page that plays them,
/// and flushes the writer. The page has the file that [`export`] writes, in base64. Refused before
/// anything is written as by [`first_exported`], and otherwise as by [`export`]; what was written
/// then is no page.
pub fn export_page<D: Disk, W: Write + Drop>(
    alloc: Global,
    index: &mut Indexed<D>,
    block: u64,
    to: u64,
    out: W,
) -> Result<WrittenPage<W>, ExportFault>
    ensures all { D.is_modelled → IfOk result (λ page. Appends (W.contents out) (W.contents page.out)
        (page_text (export_text index.old.head (messages_in index.old.blocks) (start_in index.old.numbers block) to))) }
    ensures count { IfOk result (λ page. start_in index.old.numbers block + page.messages ≡ to) }
    ensures no_block { (result ≡ Err ExportFault.NoBlock) ↔ (length index.old.numbers.starts < block) }
    ensures bad_end { (result ≡ Err ExportFault.BadEnd) ↔ IsBadEnd index.old.numbers block to }
    ensures only { OnlyReads D.is_modelled D.history index.old index.new }
    ensures cause { D.is_modelled → HasCause (D.failures index.old.disk) (D.failures index.new.disk) (IsErrOf result ExportFault.Device) }
{
    first_exported(index, block, to)?;
    let base64 = STANDARD;
    let mut page = Page::begin(out, &base64, FRONT.as_bytes()).map_err(unwritten)?;
    let messages = export(alloc, index, block, to, &mut page)?;
    let mut out = page
        .end(MIDDLE.as_bytes(), PAINTER.as_bytes(), END.as_bytes())
        .map_err(unwritten)?;
    out.flush().map_err(unwritten)?;
    Ok(WrittenPage { messages, out })
}
