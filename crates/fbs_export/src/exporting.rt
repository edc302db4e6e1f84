//! Writing a part of a recording as a file.

ghost use Rattle.std.specs.Prelude.{Some, ◌≡◌, ◌≢◌, ◌↔◌, ◌⊎◌, ◌+◌, ◌-◌, ◌<◌, ◌≤◌, ◌^◌, ◌++◌, ℕ, List, Ok, Err, IfOk, OnOk, IfErr, IsErrOf, length};
ghost use Rattle.disk.specs.Failures.{HasCause};
ghost use Rattle.fbs_export.specs.Export.{export_text, front_text, messages_from, opening_text, screen_text, row_text};
ghost use Rattle.fbs_export.specs.Written.{IsBadEnd, WroteFront};
ghost use Rattle.replay.specs.Indexed.{OnlyReads, start_in};
ghost use Rattle.keyed_entries.specs.Entry.{messages_in};
ghost use Rattle.painter.specs.Framebuffer.{color_at};
ghost use Rattle.replay.specs.Screens.{IsScreenAt};
ghost use Rattle.std.specs.Io.KnownBytes.{Appends, Keeps};
ghost use Rattle.std.specs.List.{slice_get};

use crate::fault::{ExportFault, Stop};
use crate::judge::{NONE, VERSION};
use crate::writing::{write_block, write_bytes};
use client_wire::write_update_head;
use disk::Disk;
use painter::Screen;
use pixel_format::PixelFormat;
use rect_data::Encoding;
use replay::key_index::{Indexed, Stamped};
use replay::{ReplayFault, from_block};
use std::alloc::Global;
use std::io::Write;
use terms::{Area, NoMemory, four_bytes, two_bytes};

/// The first bytes of a file.
const START: [u8; 12] = *b"FBS 001.000\n";

// Appends the opening of the stream: the version, the security type None, and ServerInit in the
// host format (RFC 6143, section 7.3.2).
fn append_opening<D: Disk>(index: &Indexed<D>, out: &mut Vec<u8>) -> Result<(), NoMemory>
    ensures { OnOk result (out.new.items ≡ out.old.items ++ opening_text index.now.head) }
{
    let size = index.header().size();
    let name = index.header().name();
    out.extend_from_slice(&VERSION)?;
    out.extend_from_slice(&four_bytes(NONE))?;
    out.extend_from_slice(&two_bytes(size.width))?;
    out.extend_from_slice(&two_bytes(size.height))?;
    out.extend_from_slice(&PixelFormat::host().write())?;
    out.extend_from_slice(&four_bytes(name.len() as u32))?;
    out.extend_from_slice(name)?;
    Ok(())
}

// Appends the pixels of a row in the host format, each with a fourth byte of 0.
fn append_row(screen: &Screen, y: u16, out: &mut Vec<u8>) -> Result<(), NoMemory>
    requires { y < screen.now.height }
    ensures { OnOk result (out.new.items
        ≡ out.old.items ++ row_text (color_at screen.now) y 0 screen.now.width) }
{
    for x in 0..screen.size().width {
        let color = screen.color(x, y);
        out.extend_from_slice(&[color.b as u8, color.g as u8, color.r as u8, 0])?;
    }
    Ok(())
}

// Appends a Raw update of the whole screen (RFC 6143, sections 7.6.1 and 7.7.1).
fn append_screen(screen: &Screen, out: &mut Vec<u8>) -> Result<(), NoMemory>
    ensures { OnOk result (out.new.items
        ≡ out.old.items ++ screen_text screen.now.width screen.now.height (color_at screen.now)) }
{
    let size = screen.size();
    write_update_head(Area::whole(size), Encoding::Raw.number(), out)?;
    for y in 0..size.height {
        append_row(screen, y, out)?;
    }
    Ok(())
}

// Writes what stands in front of the messages: the file's start, the opening, and the screen.
fn write_front<D: Disk, W: Write>(
    alloc: Global,
    index: &Indexed<D>,
    screen: &Screen,
    out: &mut W,
) -> Result<(), Stop>
    requires width { screen.now.width ≡ index.now.head.width }
    requires height { screen.now.height ≡ index.now.head.height }
    ensures all { OnOk result (Appends (W.contents out.old) (W.contents out.new)
        (front_text index.now.head (color_at screen.now))) }
    ensures front { WroteFront (W.contents out.old) (W.contents out.new)
        (front_text index.now.head (color_at screen.now)) }
    ensures device { result ≢ Err Stop.Device }
{
    let _ = index.header().size();
    let mut content = Vec::new(alloc);
    append_opening(index, &mut content)?;
    write_bytes(&START, out)?;
    write_block(0, &content, out)?;
    content.clear();
    append_screen(screen, &mut content)?;
    write_block(0, &content, out)?;
    Ok(())
}

// Why a replay gave no screen that is there.
fn stop_of(fault: ReplayFault) -> Stop
    requires { fault ≢ ReplayFault.NotCommitted }
    ensures device { (result ≡ Stop.Device) ↔ (fault ≡ ReplayFault.Device) }
{
    match fault {
        ReplayFault::NotCommitted => unreachable!(),
        ReplayFault::Device => Stop::Device,
        ReplayFault::NoMemory => Stop::NoMemory,
    }
}

// The message of a number, of which the recording has one.
fn message_at<D: Disk>(index: &mut Indexed<D>, number: u64) -> Result<Stamped, Stop>
    requires { number < index.old.numbers.committed }
    ensures message { D.is_modelled → IfOk result (λ s. slice_get (messages_in index.old.blocks) number ≡ Some s) }
    ensures short { IfOk result (λ s. length s.message.bytes < 2 ^ 32) }
    ensures only { OnlyReads D.is_modelled D.history index.old index.new }
    ensures cause { D.is_modelled → HasCause (D.failures index.old.disk) (D.failures index.new.disk) (IsErrOf result Stop.Device) }
{
    let mut messages = index.read_from(number, 1)?;
    let Some(stamped) = messages.pop() else {
        unreachable!()
    };
    stamped.message.known();
    Ok(stamped)
}

// Writes the messages from number `from` on, below number `to`.
fn write_messages<D: Disk, W: Write>(
    index: &mut Indexed<D>,
    from: u64,
    to: u64,
    out: &mut W,
) -> Result<(), Stop>
    requires end { to ≤ index.old.numbers.committed }
    requires start { from ≤ to }
    ensures all { D.is_modelled → OnOk result (Appends (W.contents out.old) (W.contents out.new)
        (messages_from (messages_in index.old.blocks) from to)) }
    ensures front { D.is_modelled → WroteFront (W.contents out.old) (W.contents out.new)
        (messages_from (messages_in index.old.blocks) from to) }
    ensures only { OnlyReads D.is_modelled D.history index.old index.new }
    ensures cause { D.is_modelled → HasCause (D.failures index.old.disk) (D.failures index.new.disk) (IsErrOf result Stop.Device) }
{
    let mut first = None;
    for number in from..to {
        let stamped = message_at(index, number)?;
        let base = first.unwrap_or(stamped.time);
        first = Some(base);
        let time = stamped.time.saturating_sub(base);
        write_block(time, stamped.message.bytes(), out)?;
    }
    Ok(())
}

// Writes the file of the messages from the start of a block on, below number `to`.
fn write_file<D: Disk, W: Write>(
    alloc: Global,
    index: &mut Indexed<D>,
    block: u64,
    to: u64,
    out: &mut W,
) -> Result<(), Stop>
    requires block { block ≤ length index.old.numbers.starts }
    requires start { start_in index.old.numbers block ≤ to }
    requires end { to ≤ index.old.numbers.committed }
    ensures all { D.is_modelled → OnOk result (Appends (W.contents out.old) (W.contents out.new)
        (export_text index.old.head (messages_in index.old.blocks) (start_in index.old.numbers block) to)) }
    ensures front { D.is_modelled → WroteFront (W.contents out.old) (W.contents out.new)
        (export_text index.old.head (messages_in index.old.blocks) (start_in index.old.numbers block) to) }
    ensures only { OnlyReads D.is_modelled D.history index.old index.new }
    ensures cause { D.is_modelled → HasCause (D.failures index.old.disk) (D.failures index.new.disk) (IsErrOf result Stop.Device) }
{
    let replay = match from_block(alloc, index, block) {
        Ok(replay) => replay,
        Err(fault) => return Err(stop_of(fault)),
    };
    write_front(alloc, index, replay.screen(), out)?;
    write_messages(index, replay.position(), to, out)?;
    Ok(())
}

/// The number of the first message of an export from the start of a block on, below number `to`.
/// The block that is the number of blocks begins at the end. `NoBlock` is answered exactly if there
/// are fewer blocks; else `BadEnd` exactly if `to` lies before that start, or beyond the number of
/// messages that count.
pub fn first_exported<D: Disk>(index: &Indexed<D>, block: u64, to: u64) -> Result<u64, ExportFault>
    ensures first { IfOk result (λ first. (block ≤ length index.now.numbers.starts) × (first ≡ start_in index.now.numbers block) × (first ≤ to) × (to ≤ index.now.numbers.committed)) }
    ensures no_block { (result ≡ Err ExportFault.NoBlock) ↔ (length index.now.numbers.starts < block) }
    ensures bad_end { (result ≡ Err ExportFault.BadEnd) ↔ IsBadEnd index.now.numbers block to }
    ensures either { IfErr result (λ f. (f ≡ ExportFault.NoBlock) ⊎ (f ≡ ExportFault.BadEnd)) }
{
    if block > index.blocks() {
        return Err(ExportFault::NoBlock);
    }
    let first = index.start(block);
    if to < first {
        return Err(ExportFault::BadEnd);
    }
    if to > index.committed() {
        return Err(ExportFault::BadEnd);
    }
    Ok(first)
}

/// Writes the messages from the start of a block on, below number `to`, as an FBS file, with the
/// opening and the screen that they are painted over; gives their number. The recording may be of
/// either format, of which the file says nothing. Refused before anything is written as by
/// [`first_exported`]. If the device or the writer fails, or memory runs out, a beginning of the
/// file was written; a write that takes nothing is a writer's fault. The recording is only read, a
/// message at a time.
pub fn export<D: Disk, W: Write>(
    alloc: Global,
    index: &mut Indexed<D>,
    block: u64,
    to: u64,
    out: &mut W,
) -> Result<u64, ExportFault>
    ensures all { D.is_modelled → OnOk result (Appends (W.contents out.old) (W.contents out.new)
        (export_text index.old.head (messages_in index.old.blocks) (start_in index.old.numbers block) to)) }
    ensures front { D.is_modelled → WroteFront (W.contents out.old) (W.contents out.new)
        (export_text index.old.head (messages_in index.old.blocks) (start_in index.old.numbers block) to) }
    ensures count { IfOk result (λ n. start_in index.old.numbers block + n ≡ to) }
    ensures no_block { (result ≡ Err ExportFault.NoBlock) ↔ (length index.old.numbers.starts < block) }
    ensures bad_end { (result ≡ Err ExportFault.BadEnd) ↔ IsBadEnd index.old.numbers block to }
    ensures nothing { (result ≡ Err ExportFault.NoBlock) ⊎ (result ≡ Err ExportFault.BadEnd)
        → Keeps (W.contents out.old) (W.contents out.new) }
    ensures only { OnlyReads D.is_modelled D.history index.old index.new }
    ensures cause { D.is_modelled → HasCause (D.failures index.old.disk) (D.failures index.new.disk) (IsErrOf result ExportFault.Device) }
{
    let first = first_exported(index, block, to)?;
    write_file(alloc, index, block, to, out)?;
    Ok(to - first)
}
