//! Updates of a picture, as a viewer is sent them.

ghost use Rattle.std.specs.Prelude.{◌≡◌, ◌<◌, ◌^◌, All, OnOk, OnErr, length};
ghost use Rattle.terms.specs.Appending.{Appends};
ghost use Rattle.terms.specs.Area.{LiesWithin};
ghost use Rattle.rect_codec.specs.Parts.{IsRectangleFor, IsPart, AreParts};
ghost use Rattle.painter.specs.Sent.{sent_colors};
ghost use Rattle.painter.specs.SentUpdate.{part_of, parts_of, CanBeSent};

use crate::numbering::number_area;
use crate::reading::Rows;
use crate::sending::append_area;
use pixel_format::PixelFormat;
use rect_codec::{append_copy, append_head, append_numbers};
use rect_data::Encoding;
use std::alloc::Global;
use terms::{Area, NoMemory, two_bytes, whole_or_none};

/// What one rectangle of an update of a screen says (RFC 6143, section 7.7).
#[derive(Clone, Copy)]
pub enum ScreenPart {
    /// The pixels of the area become those of an area as large, whose left top corner is at this
    /// column and row, as the rectangles before it have left them (section 7.7.2).
    Copy {
        area: Area,
        source_x: u16,
        source_y: u16,
    },
    /// The pixels of the area get the screen's colours. The rectangle is written in this encoding
    /// if that makes it shorter than Raw, and else in Raw.
    Region {
        area: Area,
        encoding: Encoding,
    },
}

// Appends a rectangle of the pixels of an area: in this encoding if it is shorter so than in Raw,
// and else in Raw.
fn append_region<R: Rows>(
    alloc: Global,
    format: &PixelFormat,
    rows: &R,
    area: Area,
    encoding: Encoding,
    out: &mut Vec<u8>,
) -> Result<(), NoMemory>
    requires within { LiesWithin (R.shown rows.now).width (R.shown rows.now).height area }
    ensures ok { OnOk result (Appends (IsRectangleFor format.now area (sent_colors format.now (R.shown rows.now) area) encoding) out.old.items out.new.items) }
    ensures err { OnErr result (out.new.items ≡ out.old.items) }
{
    rows.known_rows();
    if let Encoding::Rre | Encoding::Hextile = encoding {
        let numbers = number_area(alloc, format, rows, area)?;
        if append_numbers(alloc, format, area, &numbers, encoding, out)? {
            return Ok(());
        }
    }
    let start = out.len();
    append_head(area, Encoding::Raw, out)?;
    let appended = append_area(format, rows, area, out);
    whole_or_none(appended, start, out)
}

// Appends the rectangle of a part.
fn append_part<R: Rows>(
    alloc: Global,
    format: &PixelFormat,
    rows: &R,
    part: ScreenPart,
    out: &mut Vec<u8>,
) -> Result<(), NoMemory>
    requires { CanBeSent (R.shown rows.now) part }
    ensures ok { OnOk result (Appends (IsPart format.now (part_of format.now (R.shown rows.now) part)) out.old.items out.new.items) }
    ensures err { OnErr result (out.new.items ≡ out.old.items) }
{
    match part {
        ScreenPart::Copy {
            area,
            source_x,
            source_y,
        } => append_copy(area, source_x, source_y, out),
        ScreenPart::Region { area, encoding } => {
            append_region(alloc, format, rows, area, encoding, out)
        }
    }
}

/// Appends a FramebufferUpdate (RFC 6143, section 7.6.1) with a rectangle for each of these parts,
/// in their order, as `rect_codec::write_parts` writes one of the picture's colours as the format
/// has them; Raw straight from its pixels. Running out of memory leaves `out` as it was.
pub(crate) fn append_parts<R: Rows>(
    alloc: Global,
    format: &PixelFormat,
    rows: &R,
    parts: &[ScreenPart],
    out: &mut Vec<u8>,
) -> Result<(), NoMemory>
    requires count { length parts.now < 2 ^ 16 }
    requires each { All (CanBeSent (R.shown rows.now)) parts.now }
    ensures ok { OnOk result (Appends (AreParts format.now (parts_of format.now (R.shown rows.now) parts.now)) out.old.items out.new.items) }
    ensures err { OnErr result (out.new.items ≡ out.old.items) }
{
    let start = out.len();
    let [count, count_low] = two_bytes(parts.len() as u16);
    out.extend_from_slice(&[0, 0, count, count_low])?;
    for part in parts {
        if let Err(fault) = append_part(alloc, format, rows, *part, out) {
            out.truncate(start);
            return Err(fault);
        }
    }
    Ok(())
}
