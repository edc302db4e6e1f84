//! Which subrectangles an encoder lists.

ghost use Rattle.std.specs.Prelude.{◌≡◌, ℕ, ◌+◌, ◌*◌, ◌^◌, ◌<◌, ◌≤◌, ◌==◌, length, IsTrue, IfOk, IfSome, None, true, false, take, slice_index, if◌then◌else◌, ◌&&◌, nat_le, nat_lt};
ghost use Rattle.rre.specs.Encoded.{IsUniform, AreUniform, Reaches, part_picture};
ghost use Rattle.rre.specs.Numbered.{others_in, counted, IsFirstOf, IsNew};
ghost use Rattle.pixel_format.specs.Number.{number_color, colors_of, times_in, HasMajority};
ghost use Rattle.pixel_format.specs.Canvas.{Agree, rows_of};

use crate::data::Subrectangle;
use arrayvec::ArrayVec;
use pixel_format::{PixelFormat, Pixels, end_of_number, most_voted};
use std::alloc::Global;
use terms::NoMemory;

// The most colours that are counted. With more, the others are mostly no shorter to write in RRE.
const MOST_COLORS: usize = 64;

/// Pixels that are to be covered, all but the background's, by at most so many subrectangles.
#[derive(Clone, Copy)]
pub(crate) struct Ground<'a> {
    pub pixels: Pixels<'a>,
    pub background: u32,
    pub most: usize,
}

// How often a number was met.
#[derive(Clone, Copy, Default)]
struct Count {
    number: u32,
    times: usize,
}

// The numbers that were met, each once. They are looked through one by one: in most pictures that are
// worth it the one that is looked for is among the first.
type Counts = ArrayVec<Count, MOST_COLORS>;

// The index of the first count of a number, if there is one.
fn find(counts: &[Count], number: u32) -> Option<usize>
    ensures within { IfSome result (λ index. index < length counts.now) }
    ensures found { IfSome result (IsFirstOf counts.now number) }
    ensures none { result ≡ None → IsNew counts.now number }
{
    for index in 0..counts.len() {
        if counts[index].number == number {
            return Some(index);
        }
    }
    None
}

// Counts a number so many times more, and answers how often it is counted then; `None` if it is new
// and the numbers are too many.
fn count_more(counts: &mut Counts, number: u32, more: usize) -> Option<usize>
    requires { counted counts.old.items number + more < 2 ^ 64 }
    ensures total { IfSome result (λ count. count ≡ counted counts.old.items number + more) }
    ensures counts { IfSome result (λ count. (other : ℕ)
        → counted counts.new.items other ≡ (if other == number then count else counted counts.old.items other)) }
{
    let Some(index) = find(counts.as_slice(), number) else {
        if counts.is_full() {
            return None;
        }
        counts.push(Count {
            number,
            times: more,
        });
        return Some(more);
    };
    let counts = counts.as_mut_slice();
    counts[index].times += more;
    Some(counts[index].times)
}

// The end of the run of one number that begins at an index.
fn end_of_run(numbers: &[u32], start: usize) -> usize
    requires { start < length numbers.now }
    ensures some { start < result }
    ensures within { result ≤ length numbers.now }
    ensures one_number { (k : ℕ) → start ≤ k → k < result → slice_index numbers.now k ≡ slice_index numbers.now start }
{
    end_of_number(numbers, start + 1, numbers[start])
}

// The index of a number that the most pixels have: no other number has more of them. `None` if the
// numbers are too many to be counted. Each run of one number is counted at once.
fn most_counted(numbers: &[u32]) -> Option<usize>
    requires { 0 < length numbers.now }
    ensures within { IfSome result (λ index. index < length numbers.now) }
    ensures frequent { IfSome result (λ index. (number : ℕ)
        → times_in number numbers.now ≤ times_in (slice_index numbers.now index) numbers.now) }
{
    let mut counts = Counts::new();
    let mut index = 0;
    let mut most = 0;
    let mut start = 0;
    while start < numbers.len() {
        let end = end_of_run(numbers, start);
        let count = count_more(&mut counts, numbers[start], end - start)?;
        if most < count {
            index = start;
            most = count;
        }
        start = end;
    }
    Some(index)
}

/// The index of a number that the most pixels have if the numbers are few, and else of the one that
/// more than half of them have, if there is one.
pub(crate) fn background(numbers: &[u32]) -> usize
    requires { 0 < length numbers.now }
    ensures within { result < length numbers.now }
    ensures majority { HasMajority numbers.now result }
{
    match most_counted(numbers) {
        Some(index) => index,
        None => most_voted(numbers, end_of_run(numbers, 0)),
    }
}

// Whether so many pixels of a row, from a column on, have the number.
fn has_number(numbers: &[u32], start: usize, width: u16, number: u32) -> bool
    requires { start + width ≤ length numbers.now }
    ensures { IsTrue result → (k : ℕ) → k < width → slice_index numbers.now (start + k) ≡ number }
{
    for k in 0..width {
        if numbers[start + k as usize] != number {
            return false;
        }
    }
    true
}

// The end of the run of pixels of one number that begins at a column, up to a pixel that is
// covered.
fn run_end(numbers: &[u32], start: usize, column: u16, row: u16, reach: &[u16]) -> u16
    requires some { column < length reach.now }
    requires narrow { length reach.now < 65536 }
    requires fits { start + length reach.now ≤ length numbers.now }
    ensures some { column < result }
    ensures within { result ≤ length reach.now }
    ensures one_number { (k : ℕ) → column ≤ k → k < result → slice_index numbers.now (start + k) ≡ slice_index numbers.now (start + column) }
{
    let number = numbers[start + column as usize];
    let mut end = column + 1;
    while (end as usize) < reach.len()
        && reach[end as usize] <= row
        && numbers[start + end as usize] == number
    {
        end += 1;
    }
    end
}

// The subrectangle of one colour that begins at a pixel: as wide as its row lets it be, and then as
// high as it can be.
fn grow(
    format: &PixelFormat,
    h: u16,
    numbers: &[u32],
    column: u16,
    row: u16,
    reach: &[u16],
) -> Subrectangle
    requires column { column < length reach.now }
    requires narrow { length reach.now < 65536 }
    requires row { row < h }
    requires size { length numbers.now ≡ h * length reach.now }
    ensures x { result.x ≡ column }
    ensures y { result.y ≡ row }
    ensures uniform { IsUniform (colors_of format.now numbers.now) (length reach.now) h result }
{
    let w = reach.len();
    let start = row as usize * w;
    let width = run_end(numbers, start, column, row, reach) - column;
    let number = numbers[start + column as usize];
    let mut end = row + 1;
    while end < h && has_number(numbers, end as usize * w + column as usize, width, number) {
        end += 1;
    }
    Subrectangle {
        x: column,
        y: row,
        w: width,
        h: end - row,
        color: format.color_of(number),
    }
}

// Gives the columns of a subrectangle their reach.
fn raise(reach: &mut [u16], column: u16, width: u16, end: u16)
    requires narrow { length reach.old < 65536 }
    requires within { column + width ≤ length reach.old }
    ensures { (c : ℕ) → slice_index reach.new c
        ≡ (if nat_le column c && nat_lt c (column + width) then end else slice_index reach.old c) }
{
    for c in column..column + width {
        reach[c as usize] = end;
    }
}

// Covers the pixels of a row that have another number than the background. Answers whether so many
// parts in all are enough.
fn cover_row(
    format: &PixelFormat,
    ground: Ground,
    row: u16,
    reach: &mut [u16],
    parts: &mut Vec<Subrectangle>,
) -> Result<bool, NoMemory>
    requires row { row < ground.pixels.h }
    requires columns { length reach.old ≡ ground.pixels.w }
    requires apart { length parts.old.items
        ≤ others_in ground.background (take (row * length reach.old) ground.pixels.numbers.now) }
    requires reaches { Reaches (colors_of format.now ground.pixels.numbers.now) (length reach.old) ground.pixels.h (number_color format.now ground.background) parts.old.items reach.old 0 row }
    ensures whole { IfOk result (λ whole. whole ≡ true
        → Reaches (colors_of format.now ground.entry.pixels.numbers.now) (length reach.old) ground.entry.pixels.h (number_color format.now ground.entry.background) parts.new.items reach.new 0 (row + 1)) }
    ensures apart { IfOk result (λ whole. whole ≡ true → length parts.new.items
        ≤ others_in ground.entry.background (take ((row + 1) * length reach.old) ground.entry.pixels.numbers.now)) }
    ensures many { IfOk result (λ whole. whole ≡ false → ground.entry.most < others_in ground.entry.background ground.entry.pixels.numbers.now) }
{
    let Pixels { h, numbers, .. } = ground.pixels;
    let start = row as usize * reach.len();
    let line = &numbers[start..start + reach.len()];
    let mut column = 0;
    while column < line.len() {
        if line[column] == ground.background {
            column = end_of_number(line, column + 1, ground.background);
        } else if reach[column] > row {
            column += 1;
        } else if parts.len() >= ground.most {
            return Ok(false);
        } else {
            let x = column as u16;
            let part = grow(format, h, numbers, x, row, reach);
            parts.push(part)?;
            raise(reach, x, part.w, row + part.h);
            column += part.w as usize;
        }
    }
    Ok(true)
}

/// At most so many subrectangles of one colour each that, over the background, give every pixel its
/// colour; `None` if they would be more. Each pixel is looked at a bounded number of times.
pub(crate) fn cover(
    alloc: Global,
    format: &PixelFormat,
    ground: Ground,
) -> Result<Option<Vec<Subrectangle>>, NoMemory>
    ensures uniform { IfOk result (λ covered. IfSome covered (λ parts. AreUniform (colors_of format.now ground.entry.pixels.numbers.now) ground.entry.pixels.w ground.entry.pixels.h parts.items)) }
    ensures few { IfOk result (λ covered. IfSome covered (λ parts. length parts.items ≤ ground.entry.pixels.h * ground.entry.pixels.w)) }
    ensures picture { IfOk result (λ covered. IfSome covered (λ parts. Agree ground.entry.pixels.w ground.entry.pixels.h
        (part_picture (number_color format.now ground.entry.background) parts.items) (rows_of (colors_of format.now ground.entry.pixels.numbers.now) ground.entry.pixels.w))) }
    ensures apart { IfOk result (λ covered. IfSome covered (λ parts. length parts.items ≤ others_in ground.entry.background ground.entry.pixels.numbers.now)) }
    ensures many { IfOk result (λ covered. covered ≡ None → ground.entry.most < others_in ground.entry.background ground.entry.pixels.numbers.now) }
{
    let mut parts = Vec::new(alloc);
    let mut reach = vec![in alloc; 0; ground.pixels.w as usize]?;
    for row in 0..ground.pixels.h {
        if !cover_row(format, ground, row, &mut reach, &mut parts)? {
            return Ok(None);
        }
    }
    Ok(Some(parts))
}
