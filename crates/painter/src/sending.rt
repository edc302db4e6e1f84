//! Appending the pixels of areas.

ghost use Rattle.std.specs.Prelude.{◌≡◌, ◌+◌, ◌*◌, ◌<◌, ◌≤◌, ℕ, OnOk, OnErr, length};
ghost use Rattle.pixel_format.specs.Canvas.{nth};
ghost use Rattle.pixel_format.specs.Format.{host_format, pixel_bytes};
ghost use Rattle.pixel_format.specs.Number.{number_color, IsNumber};
ghost use Rattle.pixel_format.specs.Pixel.{AreSmall, IsWithin};
ghost use Rattle.terms.specs.Appending.{Appends, Grows};
ghost use Rattle.rect_codec.specs.Picture.{pixel_at as wire_pixel};
ghost use Rattle.rect_codec.specs.Written.{IsPixelOf, ArePixels};
ghost use Rattle.terms.specs.Area.{LiesWithin};
ghost use Rattle.painter.specs.Sent.{seen_colors, sent_colors};

use crate::pixel::Pixel;
use crate::reading::Rows;
use crate::row::color_of_pixel;
use pixel_format::{Color, PixelFormat};
use terms::{Area, NoMemory, whole_or_none};

// How many pixels are appended at once.
const AT_ONCE: usize = 256;

// Writes a row of pixels in the host's format: they are copied.
fn put_host(row: &[Pixel], bytes: &mut [u8])
    requires { length bytes.old ≡ length row.now * 4 }
    ensures { (k : ℕ) → k < length row.now → IsPixelOf host_format (nth (seen_colors host_format row.now) k) (wire_pixel host_format bytes.new k) }
{
    let host = PixelFormat::host();
    for (k, slot) in row.iter().enumerate() {
        let start = k * 4;
        host.write_number(slot.number, &mut bytes[start..start + 4]);
    }
}

// The number of a pixel's colour, for pixels of so many bytes, which the compiler knows: in 16 bits
// if they hold it.
#[inline(always)]
fn small_number(format: &PixelFormat, size: usize, color: Color) -> u32
    requires size { size ≡ pixel_bytes format.now }
    requires within { IsWithin format.now color }
    ensures color { number_color format.now result ≡ color }
    ensures number { IsNumber format.now result }
{
    if size > 2 {
        return format.number_of(color);
    }
    u32::from(format.short_number_of(color))
}

// The same in a format that has no channel of more than 255, of so many bytes a pixel.
#[inline(always)]
fn put_small(format: &PixelFormat, size: usize, row: &[Pixel], bytes: &mut [u8])
    requires small { AreSmall format.now }
    requires size { size ≡ pixel_bytes format.now }
    requires room { length bytes.old ≡ length row.now * size }
    ensures { (k : ℕ) → k < length row.now → IsPixelOf format.now (nth (seen_colors format.now row.now) k) (wire_pixel format.now bytes.new k) }
{
    for (k, slot) in row.iter().enumerate() {
        let start = k * size;
        let number = small_number(format, size, format.convert_small(color_of_pixel(*slot)));
        format.write_number(number, &mut bytes[start..start + size]);
    }
}

// The same in any format.
fn put_any(format: &PixelFormat, size: usize, row: &[Pixel], bytes: &mut [u8])
    requires size { size ≡ pixel_bytes format.now }
    requires room { length bytes.old ≡ length row.now * size }
    ensures { (k : ℕ) → k < length row.now → IsPixelOf format.now (nth (seen_colors format.now row.now) k) (wire_pixel format.now bytes.new k) }
{
    for (k, slot) in row.iter().enumerate() {
        let start = k * size;
        let color = format.convert(color_of_pixel(*slot));
        format.put(color, &mut bytes[start..start + size]);
    }
}

// Writes a row of pixels: by a loop for each size, in which the compiler knows it.
fn put_row(format: &PixelFormat, row: &[Pixel], bytes: &mut [u8])
    requires { length bytes.old ≡ length row.now * pixel_bytes format.now }
    ensures { (k : ℕ) → k < length row.now → IsPixelOf format.now (nth (seen_colors format.now row.now) k) (wire_pixel format.now bytes.new k) }
{
    if format.is_host() {
        put_host(row, bytes);
        return;
    }
    if !format.has_small_maxima() {
        put_any(format, format.bytes(), row, bytes);
        return;
    }
    match format.bytes() {
        1 => put_small(format, 1, row, bytes),
        2 => put_small(format, 2, row, bytes),
        _ => put_small(format, 4, row, bytes),
    }
}

// Appends so few pixels that the block has room for them. There they are put together first: so
// what they are appended to need not be cleared, and the compiler knows that it is no part of the
// screen.
fn append_some(
    format: &PixelFormat,
    row: &[Pixel],
    block: &mut [u8; 4 * AT_ONCE],
    out: &mut Vec<u8>,
) -> Result<(), NoMemory>
    requires { length row.now ≤ 256 }
    ensures ok { OnOk result (Appends (ArePixels format.now (seen_colors format.now row.now)) out.old.items out.new.items) }
    ensures grows { Grows out.old.items out.new.items }
{
    let size = row.len() * format.bytes();
    put_row(format, row, &mut block[..size]);
    out.extend_from_slice(&block[..size])
}

// Appends a row of pixels.
fn append_row(
    format: &PixelFormat,
    row: &[Pixel],
    block: &mut [u8; 4 * AT_ONCE],
    out: &mut Vec<u8>,
) -> Result<(), NoMemory>
    ensures ok { OnOk result (Appends (ArePixels format.now (seen_colors format.now row.now)) out.old.items out.new.items) }
    ensures grows { Grows out.old.items out.new.items }
{
    let mut rest = row;
    while !rest.is_empty() {
        let (some, following) = rest.split_at(rest.len().min(AT_ONCE));
        append_some(format, some, block, out)?;
        rest = following;
    }
    Ok(())
}

// Appends the pixels of an area, row by row. Running out of memory may leave a part of them.
fn append_rows<R: Rows>(
    format: &PixelFormat,
    rows: &R,
    area: Area,
    out: &mut Vec<u8>,
) -> Result<(), NoMemory>
    requires { LiesWithin (R.shown rows.now).width (R.shown rows.now).height area }
    ensures ok { OnOk result (Appends (ArePixels format.now (sent_colors format.now (R.shown rows.now) area)) out.old.items out.new.items) }
    ensures grows { Grows out.old.items out.new.items }
{
    out.reserve(usize::from(area.h) * usize::from(area.w) * format.bytes())?;
    let mut block = [0; 4 * AT_ONCE];
    for row in 0..usize::from(area.h) {
        append_row(format, rows.row(area, row), &mut block, out)?;
    }
    Ok(())
}

/// Appends the pixels of an area, by rows from the top and each from the left, as the format has
/// their colours. Running out of memory leaves `out` as it was.
pub(crate) fn append_area<R: Rows>(
    format: &PixelFormat,
    rows: &R,
    area: Area,
    out: &mut Vec<u8>,
) -> Result<(), NoMemory>
    requires { LiesWithin (R.shown rows.now).width (R.shown rows.now).height area }
    ensures ok { OnOk result (Appends (ArePixels format.now (sent_colors format.now (R.shown rows.now) area)) out.old.items out.new.items) }
    ensures err { OnErr result (out.new.items ≡ out.old.items) }
{
    let start = out.len();
    let appended = append_rows(format, rows, area, out);
    whole_or_none(appended, start, out)
}
