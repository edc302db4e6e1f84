//! Updates of several rectangles.

ghost use Rattle.std.specs.Prelude.{◌≡◌, ◌<◌, ◌^◌, ◌++◌, All, OnOk, OnErr, length};
ghost use Rattle.client_wire.specs.Written.{rectangle_head};
ghost use Rattle.rect_data.specs.Data.{number_of};
ghost use Rattle.terms.specs.Appending.{Appends, AreEach, Grows};
ghost use Rattle.rect_codec.specs.Parts.{CanBeWritten, IsPart, AreParts, source_bytes};

use crate::numbers::{append_numbers, append_raw};
use crate::update::append_head;
use pixel_format::{Color, PixelFormat};
use rect_data::Encoding;
use std::alloc::Global;
use terms::{Area, NoMemory, two_bytes, whole_or_none};

/// What one rectangle of an update says (RFC 6143, section 7.7).
#[derive(Clone, Copy)]
pub enum Part<'a> {
    /// The pixels of the area become those of an area as large, whose left top corner is at this
    /// column and row, as the rectangles before it have left them (section 7.7.2).
    Copy {
        area: Area,
        sx: u16,
        sy: u16,
    },
    /// The pixels of the area get these colours, by rows from the top and each from the left. The
    /// rectangle is written in this encoding if that makes it shorter than Raw, and else in Raw.
    Colors {
        area: Area,
        colors: &'a [Color],
        encoding: Encoding,
    },
}

/// Appends a rectangle that copies to its area one as large, whose left top corner is at this
/// column and row (RFC 6143, section 7.7.2). Running out of memory leaves `out` as it was.
pub fn append_copy(area: Area, x: u16, y: u16, out: &mut Vec<u8>) -> Result<(), NoMemory>
    ensures ok { OnOk result (out.new.items ≡ out.old.items ++ rectangle_head area (number_of Encoding.CopyRect) ++ source_bytes x y) }
    ensures err { OnErr result (out.new.items ≡ out.old.items) }
{
    let start = out.len();
    append_head(area, Encoding::CopyRect, out)?;
    let [x, x_low] = two_bytes(x);
    let [y, y_low] = two_bytes(y);
    let appended = out.extend_from_slice(&[x, x_low, y, y_low]);
    whole_or_none(appended, start, out)
}

// Appends the rectangle of a part.
fn append_part(
    alloc: Global,
    format: &PixelFormat,
    part: &Part,
    out: &mut Vec<u8>,
) -> Result<(), NoMemory>
    requires { CanBeWritten format.now part.now }
    ensures ok { OnOk result (Appends (IsPart format.now part.now) out.old.items out.new.items) }
    ensures err { OnErr result (out.new.items ≡ out.old.items) }
{
    match *part {
        Part::Copy { area, sx, sy } => append_copy(area, sx, sy, out),
        Part::Colors {
            area,
            colors,
            encoding,
        } => {
            let numbers = format.numbers_of(alloc, colors)?;
            if append_numbers(alloc, format, area, &numbers, encoding, out)? {
                return Ok(());
            }
            append_raw(format, area, &numbers, out)
        }
    }
}

// Appends the rectangles of parts. Running out of memory may leave some of them.
fn append_parts(
    alloc: Global,
    format: &PixelFormat,
    parts: &[Part],
    out: &mut Vec<u8>,
) -> Result<(), NoMemory>
    requires { All (CanBeWritten format.now) parts.now }
    ensures ok { OnOk result (Appends (AreEach (IsPart format.now) parts.now) out.old.items out.new.items) }
    ensures grows { Grows out.old.items out.new.items }
{
    for part in parts {
        append_part(alloc, format, part, out)?;
    }
    Ok(())
}

/// Appends a FramebufferUpdate (RFC 6143, section 7.6.1) with a rectangle for each of these parts,
/// in their order; none gives an update of no rectangles. The colours keep to the format's maxima.
/// A rectangle of colours never has more bytes than 12 and a pixel value for each pixel. Running
/// out of memory leaves `out` as it was.
pub fn write_parts(
    alloc: Global,
    format: &PixelFormat,
    parts: &[Part],
    out: &mut Vec<u8>,
) -> Result<(), NoMemory>
    requires count { length parts.now < 2 ^ 16 }
    requires each { All (CanBeWritten format.now) parts.now }
    ensures ok { OnOk result (Appends (AreParts format.now parts.now) out.old.items out.new.items) }
    ensures err { OnErr result (out.new.items ≡ out.old.items) }
{
    let start = out.len();
    let [count, count_low] = two_bytes(parts.len() as u16);
    out.extend_from_slice(&[0, 0, count, count_low])?;
    let appended = append_parts(alloc, format, parts, out);
    whole_or_none(appended, start, out)
}
