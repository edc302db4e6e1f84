//! The pixels of areas as numbers of a viewer's format.

ghost use Rattle.std.specs.Prelude.{◌≡◌, ◌*◌, ◌<◌, ◌≤◌, ℕ, IfOk, OnOk, length, slice_index};
ghost use Rattle.pixel_format.specs.Canvas.{nth};
ghost use Rattle.pixel_format.specs.Format.{host_format};
ghost use Rattle.pixel_format.specs.Pixel.{AreSmall};
ghost use Rattle.terms.specs.Appending.{Appends};
ghost use Rattle.terms.specs.Area.{LiesWithin};
ghost use Rattle.painter.specs.Sent.{seen_colors, sent_colors};
ghost use Rattle.painter.specs.Numbered.{AreNumbersOf, HasNumber};

use crate::pixel::Pixel;
use crate::reading::Rows;
use crate::row::color_of_pixel;
use pixel_format::PixelFormat;
use std::alloc::Global;
use terms::{Area, NoMemory};

// How many numbers are appended at once.
const AT_ONCE: usize = 256;

// The numbers of a row of pixels in the host's format: they are copied.
fn number_host(row: &[Pixel], numbers: &mut [u32])
    requires { length numbers.old ≡ length row.now }
    ensures { (k : ℕ) → k < length row.now → HasNumber host_format (nth (seen_colors host_format row.now) k) (slice_index numbers.new k) }
{
    for (k, slot) in row.iter().enumerate() {
        numbers[k] = slot.number;
    }
}

// The same in a format that has no channel of more than 255.
fn number_small(format: &PixelFormat, row: &[Pixel], numbers: &mut [u32])
    requires small { AreSmall format.now }
    requires room { length numbers.old ≡ length row.now }
    ensures { (k : ℕ) → k < length row.now → HasNumber format.now (nth (seen_colors format.now row.now) k) (slice_index numbers.new k) }
{
    for (k, slot) in row.iter().enumerate() {
        numbers[k] = format.number_of(format.convert_small(color_of_pixel(*slot)));
    }
}

// The same in any format.
fn number_any(format: &PixelFormat, row: &[Pixel], numbers: &mut [u32])
    requires { length numbers.old ≡ length row.now }
    ensures { (k : ℕ) → k < length row.now → HasNumber format.now (nth (seen_colors format.now row.now) k) (slice_index numbers.new k) }
{
    for (k, slot) in row.iter().enumerate() {
        numbers[k] = format.number_of(format.convert(color_of_pixel(*slot)));
    }
}

// The numbers of a row of pixels.
fn number_row(format: &PixelFormat, row: &[Pixel], numbers: &mut [u32])
    requires { length numbers.old ≡ length row.now }
    ensures { (k : ℕ) → k < length row.now → HasNumber format.now (nth (seen_colors format.now row.now) k) (slice_index numbers.new k) }
{
    if format.is_host() {
        number_host(row, numbers);
    } else if format.has_small_maxima() {
        number_small(format, row, numbers);
    } else {
        number_any(format, row, numbers);
    }
}

// Appends the numbers of so few pixels that the block has room for them. There they are put
// together first: so what they are appended to need not be cleared.
fn append_some(
    format: &PixelFormat,
    row: &[Pixel],
    block: &mut [u32; AT_ONCE],
    out: &mut Vec<u32>,
) -> Result<(), NoMemory>
    requires { length row.now ≤ 256 }
    ensures { OnOk result (Appends (AreNumbersOf format.now (seen_colors format.now row.now)) out.old.items out.new.items) }
{
    let count = row.len();
    number_row(format, row, &mut block[..count]);
    out.extend_from_slice(&block[..count])
}

// Appends the numbers of a row of pixels.
fn append_row(
    format: &PixelFormat,
    row: &[Pixel],
    block: &mut [u32; AT_ONCE],
    out: &mut Vec<u32>,
) -> Result<(), NoMemory>
    ensures { OnOk result (Appends (AreNumbersOf format.now (seen_colors format.now row.now)) out.old.items out.new.items) }
{
    let mut rest = row;
    while !rest.is_empty() {
        let (some, following) = rest.split_at(rest.len().min(AT_ONCE));
        append_some(format, some, block, out)?;
        rest = following;
    }
    Ok(())
}

/// The numbers of the pixels of an area, by rows, as a format has them.
pub(crate) fn number_area<R: Rows>(
    alloc: Global,
    format: &PixelFormat,
    rows: &R,
    area: Area,
) -> Result<Vec<u32>, NoMemory>
    requires { LiesWithin (R.shown rows.now).width (R.shown rows.now).height area }
    ensures { IfOk result (λ numbers. AreNumbersOf format.now (sent_colors format.now (R.shown rows.now) area) numbers.items) }
{
    let mut numbers = Vec::with_capacity(alloc, usize::from(area.h) * usize::from(area.w))?;
    let mut block = [0; AT_ONCE];
    for row in 0..usize::from(area.h) {
        append_row(format, rows.row(area, row), &mut block, &mut numbers)?;
    }
    Ok(numbers)
}
