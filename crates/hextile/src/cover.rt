//! Which parts of a tile an encoder lists.

ghost use Rattle.std.specs.Prelude.{◌≡◌, ◌↔◌, ℕ, ◌+◌, ◌*◌, ◌/◌, ◌%◌, ◌<◌, ◌≤◌, ◌&&◌, length, All, IsTrue, [], nat_lt, nat_le, reverse, true, if◌then◌else◌, slice_index};
ghost use Rattle.pixel_format.specs.Number.{number_color, IsNumber, colors_of};
ghost use Rattle.pixel_format.specs.Canvas.{covers};
ghost use Rattle.pixel_format.specs.declared.Color.{Color};
ghost use Rattle.hextile.specs.Encoded.{IsPart, IsUniform, IsCover, ShownUpto};
ghost use Rattle.hextile.specs.Numbered.{AreTileNumbers};

use crate::position::TileArea;
use arrayvec::ArrayVec;
use pixel_format::{Color, PixelFormat, end_of_number, most_voted, same};

/// The most subrectangles that a tile may have.
pub(crate) const MOST_PARTS: usize = 255;

const BLACK: Color = Color { r: 0, g: 0, b: 0 };

/// A part of a tile that has one colour.
#[derive(Clone, Copy)]
pub(crate) struct Part {
    pub x: u8,
    pub y: u8,
    pub w: u8,
    pub h: u8,
    pub color: Color,
}

/// The parts of a tile. One list serves all tiles, since to make one clears its memory.
pub(crate) type Parts = ArrayVec<Part, MOST_PARTS>;

impl Default for Part {
    fn default() -> Part {
        Part {
            x: 0,
            y: 0,
            w: 0,
            h: 0,
            color: BLACK,
        }
    }
}

/// The pixels of a tile as numbers, by rows, from those of a rectangle whose rows have w pixels.
pub(crate) fn tile_numbers(numbers: &[u32], w: u16, area: TileArea) -> [u32; 256]
    requires across { 0 < area.w }
    requires columns { area.x + area.w ≤ w }
    requires rows { (area.y + area.h) * w ≤ length numbers.now }
    requires wide { area.w ≤ 16 }
    requires high { area.h ≤ 16 }
    ensures size { length result ≡ 256 }
    ensures numbers { AreTileNumbers numbers.now w area.x area.y area.w result (area.w * area.h) }
{
    let mut tile = [0; 256];
    let width = area.w as usize;
    for row in 0..area.h as usize {
        let from = (area.y as usize + row) * w as usize + area.x as usize;
        for column in 0..width {
            tile[row * width + column] = numbers[from + column];
        }
    }
    tile
}

/// Which colour is a tile's background.
#[derive(Clone, Copy)]
pub(crate) struct Background {
    /// The index of a colour that most of the pixels have, if one colour has more than half of
    /// them.
    pub index: usize,
    /// All of the pixels have it.
    pub is_only: bool,
}

/// Chooses a tile's background.
pub(crate) fn choose_background(numbers: &[u32]) -> Background
    requires { 0 < length numbers.now }
    ensures index { result.index < length numbers.now }
    ensures only { result.is_only ≡ true → (k : ℕ) → k < length numbers.now → slice_index numbers.now k ≡ slice_index numbers.now result.index }
{
    let run = end_of_number(numbers, 0, numbers[0]);
    Background {
        index: most_voted(numbers, run),
        is_only: run == numbers.len(),
    }
}

// How many pixels from an index on, at most so many, have the number.
fn run_length(numbers: &[u32], start: usize, most: u8, number: u32) -> u8
    requires { start + most ≤ length numbers.now }
    ensures most { result ≤ most }
    ensures some { 0 < most → slice_index numbers.now start ≡ number → 0 < result }
    ensures one_number { (k : ℕ) → k < result → slice_index numbers.now (start + k) ≡ number }
{
    for k in 0..most {
        if numbers[start + k as usize] != number {
            return k;
        }
    }
    most
}

// The part of one colour whose upper left corner is a pixel of a tile of w by h: as wide as its row
// lets it be, and then as high as it can be.
fn grow(format: &PixelFormat, w: u8, h: u8, numbers: &[u32], column: u8, row: u8) -> Part
    requires column { column < w }
    requires row { row < h }
    requires size { length numbers.now ≡ w * h }
    ensures x { result.x ≡ column }
    ensures y { result.y ≡ row }
    ensures columns { result.x + result.w ≤ w }
    ensures rows { result.y + result.h ≤ h }
    ensures across { 0 < result.w }
    ensures down { 0 < result.h }
    ensures color { result.color ≡ number_color format.now (slice_index numbers.now (row * w + column)) }
    ensures uniform { IsUniform (colors_of format.now numbers.now) w result }
{
    let start = row as usize * w as usize + column as usize;
    let number = numbers[start];
    let width = run_length(numbers, start, w - column, number);
    let mut end = row + 1;
    while end < h
        && run_length(
            numbers,
            end as usize * w as usize + column as usize,
            width,
            number,
        ) == width
    {
        end += 1;
    }
    Part {
        x: column,
        y: row,
        w: width,
        h: end - row,
        color: format.color_of(number),
    }
}

// Gives so many pixels, from an index on, a number.
fn show_run(shown: &mut [u32], start: usize, count: u8, number: u32)
    requires { start + count ≤ length shown.old }
    ensures { (k : ℕ) → k < length shown.old
        → slice_index shown.new k ≡ (if nat_le start k && nat_lt k (start + count) then number else slice_index shown.old k) }
{
    for k in start..start + count as usize {
        shown[k] = number;
    }
}

// Gives the pixels of a part a number, in a tile of width w, row by row.
fn show(shown: &mut [u32], w: u8, part: Part, number: u32)
    requires width { 0 < w }
    requires across { 0 < part.w }
    requires down { 0 < part.h }
    requires columns { part.x + part.w ≤ w }
    requires rows { (part.y + part.h) * w ≤ length shown.old }
    ensures { (k : ℕ) → k < length shown.old
        → slice_index shown.new k ≡ (if covers part.x part.y part.w part.h (k % w) (k / w) then number else slice_index shown.old k) }
{
    for row in 0..part.h {
        let start = (part.y as usize + row as usize) * w as usize + part.x as usize;
        show_run(shown, start, part.w, number);
    }
}

// How many parts of several colours may be no longer than a tile of so many pixels: each takes a pixel
// and two bytes.
fn most_colored(format: &PixelFormat, pixel_count: usize) -> usize
    requires { pixel_count ≤ 256 }
    ensures { result ≤ pixel_count }
{
    pixel_count * format.bytes() / (format.bytes() + 2)
}

// Whether one part more may do for a tile of so many pixels.
fn has_room(format: &PixelFormat, pixel_count: usize, parts: &Parts) -> bool
    requires { pixel_count ≤ 256 }
    ensures { IsTrue result → length parts.now.items < 255 }
{
    if parts.is_full() {
        return false;
    }
    let few = most_colored(format, pixel_count);
    match parts.as_slice() {
        [first, .., last] if parts.len() >= few => same(first.color, last.color),
        _ => true,
    }
}

// Sees to it that a pixel is shown, by a part more if it isn't. Answers whether there was room for
// it.
fn show_pixel(
    format: &PixelFormat,
    w: u8,
    h: u8,
    numbers: &[u32],
    k: usize,
    parts: &mut Parts,
    shown: &mut [u32],
) -> bool
    requires across { 0 < w }
    requires numbers { length numbers.now ≡ w * h }
    requires most { length numbers.now ≤ 256 }
    requires shown { length numbers.now ≤ length shown.old }
    requires index { k < length numbers.now }
    ensures { IsTrue result → (background : Color) → All (IsNumber format.now) numbers.now
        → ShownUpto format.now w h (colors_of format.now numbers.now) background parts.old.items (colors_of format.now shown.old) k
        → ShownUpto format.now w h (colors_of format.now numbers.now) background parts.new.items (colors_of format.now shown.new) (k + 1) }
{
    let number = numbers[k];
    if shown[k] == number {
        return true;
    }
    if !has_room(format, numbers.len(), parts) {
        return false;
    }
    let column = (k % w as usize) as u8;
    let row = (k / w as usize) as u8;
    let part = grow(format, w, h, numbers, column, row);
    parts.push(part);
    show(shown, w, part, number);
    true
}

// Adds the parts of a tile that shows the background everywhere. Answers whether there was room for
// them.
fn parts_over(
    format: &PixelFormat,
    w: u8,
    h: u8,
    numbers: &[u32],
    parts: &mut Parts,
    shown: &mut [u32],
) -> bool
    requires across { 0 < w }
    requires numbers { length numbers.now ≡ w * h }
    requires most { length numbers.now ≤ 256 }
    requires shown { length numbers.now ≤ length shown.old }
    requires none { parts.old.items ≡ [] }
    ensures { result ≡ true → (background : ℕ) → All (IsNumber format.now) numbers.now
        → ((i : ℕ) → i < length numbers.now → slice_index shown.old i ≡ background)
        → IsCover format.now w h (colors_of format.now numbers.now) (number_color format.now background) parts.new.items }
{
    for k in 0..numbers.len() {
        if !show_pixel(format, w, h, numbers, k, parts, shown) {
            return false;
        }
    }
    true
}

// Whether all pixels below the first row, but at most so many, begin a part: they have another number
// than the background, the pixel before and the one above.
fn begin_parts(numbers: &[u32], w: usize, background: u32, others: usize) -> bool
    requires { 0 < w }
{
    let mut left = others;
    for k in w..numbers.len() {
        let number = numbers[k];
        if number == background || number == numbers[k - 1] || number == numbers[k - w] {
            if left == 0 {
                return false;
            }
            left -= 1;
        }
    }
    true
}

// Whether a tile surely has parts of several colours, and more of them than pay: then none needs to be
// listed. With parts of one colour no two pixels that follow one another begin one, so more than half
// of the pixels do so only with several. The second row alone tells of most tiles that it isn't so.
fn has_too_many(format: &PixelFormat, w: u8, numbers: &[u32], background: u32) -> bool
    requires across { 0 < w }
    requires most { length numbers.now ≤ 256 }
{
    let w = w as usize;
    let few = most_colored(format, numbers.len()).max(numbers.len() / 2);
    let Some(others) = numbers.len().checked_sub(w + few + 1) else {
        return false;
    };
    let two_rows = &numbers[..numbers.len().min(2 * w)];
    begin_parts(two_rows, w, background, w / 2) && begin_parts(numbers, w, background, others)
}

/// Leaves those parts in the list, of one number each, that, over the background, give every pixel
/// of a tile of w by h its number. Answers `false` if they would be too many. If the background is
/// the only number there are none.
pub(crate) fn cover(
    format: &PixelFormat,
    w: u8,
    h: u8,
    numbers: &[u32],
    background: u32,
    is_only: bool,
    parts: &mut Parts,
) -> bool
    requires across { 0 < w }
    requires size { length numbers.now ≡ w * h }
    requires most { length numbers.now ≤ 256 }
    requires only { is_only ≡ true → (k : ℕ) → k < length numbers.now → slice_index numbers.now k ≡ background }
    ensures { result ≡ true → All (IsNumber format.now) numbers.now
        → IsCover format.now w h (colors_of format.now numbers.now) (number_color format.now background) parts.new.items }
{
    parts.clear();
    if is_only {
        return true;
    }
    if has_too_many(format, w, numbers, background) {
        return false;
    }
    let mut shown = [background; 256];
    parts_over(format, w, h, numbers, parts, &mut shown)
}
