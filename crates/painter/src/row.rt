//! Pixels, one by one and in rows.

ghost use Rattle.std.specs.Prelude.{◌≡◌, ◌<◌, ◌≤◌, ◌+◌, ◌*◌, ℕ, length, take, drop};
ghost use Rattle.pixel_format.specs.Pixel.{host_color, IsScreenColor};
ghost use Rattle.painter.specs.Areas.{LiesIn};
ghost use Rattle.painter.specs.Pixels.{color_of, pixel_color_at, pixel_at};

use crate::pixel::Pixel;
use byteorder::{ByteOrder, LittleEndian};
use pixel_format::Color;
use terms::Area;

// How many pixels of a long row are filled at once.
const AT_ONCE: usize = 32;

/// How many pixels a row of a whole Hextile tile has.
pub(crate) const TILE: usize = 16;

/// The pixels of a row of an area, counted from its top, among pixels that are kept by rows.
#[inline(always)]
pub(crate) fn area_row(pixels: &[Pixel], width: u16, area: Area, row: usize) -> &[Pixel]
    requires area { LiesIn width (length pixels.now) area }
    requires row { row < area.h }
    ensures { result.now ≡ take area.w (drop ((area.y + row) * width + area.x) pixels.now) }
{
    let start = (usize::from(area.y) + row) * usize::from(width) + usize::from(area.x);
    &pixels[start..start + usize::from(area.w)]
}

/// The colour of a pixel.
pub(crate) fn color_of_pixel(pixel: Pixel) -> Color
    ensures value { result ≡ color_of pixel }
    ensures screen { IsScreenColor result }
{
    Color {
        r: (pixel.number >> 16 & 0xff) as u16,
        g: (pixel.number >> 8 & 0xff) as u16,
        b: (pixel.number & 0xff) as u16,
    }
}

/// The pixel of a colour of a screen.
pub(crate) fn pixel_of_color(color: Color) -> Pixel
    requires { IsScreenColor color }
    ensures { color_of result ≡ color }
{
    let (r, g, b) = (u32::from(color.r), u32::from(color.g), u32::from(color.b));
    Pixel {
        number: r * 0x1_0000 + g * 0x100 + b,
    }
}

// The pixel that four bytes of the host's format are.
fn host_pixel_of(bytes: [u8; 4]) -> Pixel
    requires { length bytes ≡ 4 }
    ensures { color_of result ≡ host_color bytes }
{
    Pixel {
        number: LittleEndian::read_u32(&bytes) & 0xff_ffff,
    }
}

/// Writes a row of pixels from as many pixels of the host's format.
pub(crate) fn paint_row(row: &mut [Pixel], bytes: &[u8])
    requires { length bytes.now ≡ 4 * length row.old }
    ensures { (k : ℕ) → k < length row.old → pixel_color_at row.new k ≡ host_color (pixel_at bytes.now k) }
{
    let (pixels, _) = bytes.as_chunks::<4>();
    for (k, slot) in row.iter_mut().enumerate() {
        *slot = host_pixel_of(pixels[k]);
    }
}

// Gives pixels one colour, one by one.
fn fill_slots(row: &mut [Pixel], pixel: Pixel)
    ensures { (k : ℕ) → k < length row.old → pixel_color_at row.new k ≡ color_of pixel }
{
    for slot in row.iter_mut() {
        *slot = pixel;
    }
}

// Gives a long row one colour, so many pixels at once that the compiler writes them by vectors.
fn fill_long_row(row: &mut [Pixel], pixel: Pixel)
    ensures { (k : ℕ) → k < length row.old → pixel_color_at row.new k ≡ color_of pixel }
{
    for k in 0..row.len() / AT_ONCE {
        let start = k * AT_ONCE;
        row[start..start + AT_ONCE].copy_from_slice(&[pixel; AT_ONCE]);
    }
    let filled = row.len() / AT_ONCE * AT_ONCE;
    fill_slots(&mut row[filled..], pixel);
}

/// Gives a row of pixels one colour, one by one or, if it is worth that, many at once.
#[inline(always)]
pub(crate) fn fill_row(row: &mut [Pixel], pixel: Pixel, at_once: bool)
    ensures { (k : ℕ) → k < length row.old → pixel_color_at row.new k ≡ color_of pixel }
{
    if !at_once {
        fill_slots(row, pixel);
    } else if let Some(tile) = row.as_mut_array::<TILE>() {
        *tile = [pixel; TILE];
    } else {
        fill_long_row(row, pixel);
    }
}
