//! Painting areas of pixels that are kept by rows.

ghost use Rattle.std.specs.Prelude.{◌≡◌, ◌+◌, ◌*◌, ◌<◌, ◌≤◌, length};
ghost use Rattle.std.specs.List.{CopiedTo, SameBelow, SameFrom};
ghost use Rattle.painter.specs.Areas.{LiesIn, IsPainted};
ghost use Rattle.painter.specs.Pixels.{color_in, color_of};
ghost use Rattle.pixel_format.specs.Format.{host_format};
ghost use Rattle.rect_codec.specs.Picture.{raw_picture, copied_picture};

use crate::pixel::Pixel;
use crate::row::{TILE, fill_row, paint_row};
use terms::Area;

/// Paints a Raw rectangle (RFC 6143, section 7.7.1), row by row.
pub(crate) fn paint_raw(pixels: &mut [Pixel], width: u16, area: Area, bytes: &[u8])
    requires area { LiesIn width (length pixels.old) area }
    requires size { length bytes.now ≡ 4 * (area.w * area.h) }
    ensures { IsPainted width area (raw_picture host_format area bytes.now) pixels.old pixels.new }
{
    let (width, w) = (usize::from(width), usize::from(area.w));
    let (left, top) = (usize::from(area.x), usize::from(area.y));
    for row in 0..usize::from(area.h) {
        let start = (top + row) * width + left;
        let from = 4 * (row * w);
        paint_row(&mut pixels[start..start + w], &bytes[from..from + 4 * w]);
    }
}

// Gives the pixels of an area one colour, row by row.
#[inline(always)]
fn fill_rows(pixels: &mut [Pixel], width: u16, area: Area, pixel: Pixel, at_once: bool)
    requires { LiesIn width (length pixels.old) area }
    ensures { IsPainted width area (λ x y. color_of pixel) pixels.old pixels.new }
{
    let (width, w) = (usize::from(width), usize::from(area.w));
    let (left, top) = (usize::from(area.x), usize::from(area.y));
    for row in 0..usize::from(area.h) {
        let start = (top + row) * width + left;
        fill_row(&mut pixels[start..start + w], pixel, at_once);
    }
}

// The same for wide areas: a function of its own, so that the one for small areas stays small.
#[inline(never)]
fn fill_wide_area(pixels: &mut [Pixel], width: u16, area: Area, pixel: Pixel)
    requires { LiesIn width (length pixels.old) area }
    ensures { IsPainted width area (λ x y. color_of pixel) pixels.old pixels.new }
{
    fill_rows(pixels, width, area, pixel, true);
}

/// Gives the pixels of an area one colour.
#[inline(always)]
pub(crate) fn fill_area(pixels: &mut [Pixel], width: u16, area: Area, pixel: Pixel)
    requires { LiesIn width (length pixels.old) area }
    ensures { IsPainted width area (λ x y. color_of pixel) pixels.old pixels.new }
{
    if usize::from(area.w) < TILE {
        fill_rows(pixels, width, area, pixel, false);
    } else {
        fill_wide_area(pixels, width, area, pixel);
    }
}

// Copies so many pixels to others, which they may overlap. If they don't, the copy is one of
// memory.
fn copy_row(pixels: &mut [Pixel], from: usize, to: usize, count: usize)
    requires source { from + count ≤ length pixels.old }
    requires destination { to + count ≤ length pixels.old }
    ensures length { length pixels.new ≡ length pixels.old }
    ensures copied { CopiedTo pixels.old pixels.new from to count }
    ensures below { SameBelow pixels.old pixels.new to }
    ensures following { SameFrom pixels.old pixels.new (to + count) }
{
    if from + count <= to {
        let (front, back) = pixels.split_at_mut(to);
        back[..count].copy_from_slice(&front[from..from + count]);
    } else if to + count <= from {
        let (front, back) = pixels.split_at_mut(from);
        front[to..to + count].copy_from_slice(&back[..count]);
    } else {
        pixels.copy_within(from..from + count, to);
    }
}

// Copies an area to one that stands no lower, from the top row to the bottom.
fn copy_up(pixels: &mut [Pixel], width: u16, source: Area, area: Area)
    requires area { LiesIn width (length pixels.old) area }
    requires source { LiesIn width (length pixels.old) (record source { w = area.w; h = area.h }) }
    requires above { area.y ≤ source.y }
    ensures { IsPainted width area (copied_picture source area (color_in pixels.old width)) pixels.old pixels.new }
{
    let (width, w) = (usize::from(width), usize::from(area.w));
    let (left, top) = (usize::from(area.x), usize::from(area.y));
    let (from_left, from_top) = (usize::from(source.x), usize::from(source.y));
    for row in 0..usize::from(area.h) {
        let start = (from_top + row) * width + from_left;
        copy_row(pixels, start, (top + row) * width + left, w);
    }
}

// Copies an area to one that stands lower, from the bottom row to the top.
fn copy_down(pixels: &mut [Pixel], width: u16, source: Area, area: Area)
    requires area { LiesIn width (length pixels.old) area }
    requires source { LiesIn width (length pixels.old) (record source { w = area.w; h = area.h }) }
    requires below { source.y < area.y }
    ensures { IsPainted width area (copied_picture source area (color_in pixels.old width)) pixels.old pixels.new }
{
    let (width, w) = (usize::from(width), usize::from(area.w));
    let (left, top) = (usize::from(area.x), usize::from(area.y));
    let (from_left, from_top) = (usize::from(source.x), usize::from(source.y));
    let mut row = usize::from(area.h);
    while row > 0 {
        row -= 1;
        let start = (from_top + row) * width + from_left;
        copy_row(pixels, start, (top + row) * width + left, w);
    }
}

/// Copies an area of the same size to this one, as if it were read as a whole before anything is
/// written (RFC 6143, section 7.7.2).
pub(crate) fn copy_area(pixels: &mut [Pixel], width: u16, source: Area, area: Area)
    requires area { LiesIn width (length pixels.old) area }
    requires source { LiesIn width (length pixels.old) (record source { w = area.w; h = area.h }) }
    ensures { IsPainted width area (copied_picture source area (color_in pixels.old width)) pixels.old pixels.new }
{
    if area.y <= source.y {
        copy_up(pixels, width, source, area);
    } else {
        copy_down(pixels, width, source, area);
    }
}
