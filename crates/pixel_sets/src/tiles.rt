//! Bits for the pixels of a screen, in the order of tiles.

ghost use Rattle.std.specs.Prelude.{◌≡◌, ◌+◌, ◌-◌, ◌*◌, ◌/◌, ◌%◌, ◌<◌, ◌≤◌, ◌^◌, ◌||◌, ◌&&◌, ℕ, Bool, length, IfSome, nat_eq, true, if◌then◌else◌};
ghost use Rattle.terms.specs.Area.{is_in, IsSmallest, IsSmallestOf};
ghost use Rattle.pixel_sets.specs.Bits.{is_between};
ghost use Rattle.pixel_sets.specs.Pixels.{tiles_of, tile_at, number_at, is_marked, AreGiven, KeepsSummary, IsRow, IsTilePart, HasTiles};

use crate::bits::{fill, fill_words, first, first_and_last};
use terms::Area;

/// How many pixels stand side by side in a tile, and how many rows of them there are.
pub const SIDE: u16 = 16;

/// How many bits a tile has, and how many words.
pub const TILE_BITS: usize = 256;

const TILE_WORDS: usize = 4;

/// How many tiles so many pixels take, side by side.
pub fn tiles_of(length: u16) -> usize
    ensures is { result ≡ tiles_of length }
    ensures few { result ≤ 2 ^ 12 }
{
    (usize::from(length) + 15) / 16
}

/// The number of the tile that has a pixel.
pub fn tile_at(columns: usize, x: u16, y: u16) -> usize
    requires { columns ≤ 2 ^ 12 }
    ensures { result ≡ tile_at columns x y }
{
    usize::from(y / SIDE) * columns + usize::from(x / SIDE)
}

// The number of a pixel's bit.
fn number_at(columns: usize, x: u16, y: u16) -> usize
    requires { columns ≤ 2 ^ 12 }
    ensures { result ≡ number_at columns x y }
{
    tile_at(columns, x, y) * TILE_BITS + usize::from(y % SIDE) * 16 + usize::from(x % SIDE)
}

// Gives the pixels of a part of a tile one value.
fn fill_part(words: &mut [u64], columns: usize, part: Area, value: bool)
    requires { IsTilePart columns part words.old }
    ensures { AreGiven columns words.old words.new value (λ x y. is_in part x y) }
{
    let start = number_at(columns, part.x, part.y);
    if part.w == SIDE {
        // Whole rows of a tile stand side by side.
        fill(words, start, start + usize::from(part.h) * 16, value);
        return;
    }
    let w = usize::from(part.w);
    for row in 0..usize::from(part.h) {
        let from = start + row * 16;
        fill(words, from, from + w, value);
    }
}

// Gives the pixels of a part of a tile one value, and sums the tile up.
fn fill_tile(words: &mut [u64], summary: &mut [u64], columns: usize, part: Area, value: bool)
    requires part { IsTilePart columns part words.old }
    requires room { tile_at columns part.x part.y < 64 * length summary.old }
    ensures filled { AreGiven columns words.old words.new value (λ x y. is_in part x y) }
    ensures summary { KeepsSummary columns words.old summary.old words.new summary.new }
{
    fill_part(words, columns, part, value);
    let tile = tile_at(columns, part.x, part.y);
    let has_some = value || first(words, tile * TILE_BITS, (tile + 1) * TILE_BITS).is_some();
    fill(summary, tile, tile + 1, has_some);
}

/// The pixels of a tile, from its column and its row of tiles.
pub fn tile_area(column: usize, row: usize) -> Area
    requires column { column < 2 ^ 12 }
    requires row { row < 2 ^ 12 }
    ensures { result ≡ record { x = 16 * column; y = 16 * row; w = 16; h = 16 } }
{
    Area {
        x: (16 * column) as u16,
        y: (16 * row) as u16,
        w: SIDE,
        h: SIDE,
    }
}

// Tiles that stand side by side, from a column of tiles to before another.
#[derive(Clone, Copy)]
struct TileRun {
    row: usize,
    from: usize,
    to: usize,
}

// Gives the pixels of an area one value that lie in a run of tiles.
fn fill_parts(
    words: &mut [u64],
    summary: &mut [u64],
    columns: usize,
    area: Area,
    run: TileRun,
    value: bool,
)
    requires area { HasTiles columns area words.old summary.old }
    requires row { run.row < tiles_of (area.y + area.h) }
    requires order { run.from ≤ run.to }
    requires within { run.to ≤ tiles_of (area.x + area.w) }
    ensures filled { AreGiven columns words.old words.new value (λ x y. is_in area x y && (nat_eq (y / 16) run.row && is_between run.from run.to (x / 16))) }
    ensures summary { KeepsSummary columns words.old summary.old words.new summary.new }
{
    for column in run.from..run.to {
        if let Some(part) = area.common(tile_area(column, run.row)) {
            fill_tile(words, summary, columns, part, value);
        }
    }
}

// Gives all pixels of a run of tiles one value: their bits stand side by side.
fn fill_run(words: &mut [u64], summary: &mut [u64], columns: usize, run: TileRun, value: bool)
    requires few { columns ≤ 2 ^ 12 }
    requires low { run.row < 2 ^ 12 }
    requires order { run.from ≤ run.to }
    requires within { run.to ≤ columns }
    requires bits { 256 * ((run.row + 1) * columns) ≤ 64 * length words.old }
    requires tiles { (run.row + 1) * columns ≤ 64 * length summary.old }
    ensures filled { AreGiven columns words.old words.new value (λ x y. nat_eq (y / 16) run.row && is_between run.from run.to (x / 16)) }
    ensures summary { KeepsSummary columns words.old summary.old words.new summary.new }
{
    let first = run.row * columns + run.from;
    let end = run.row * columns + run.to;
    fill_words(words, first * TILE_WORDS, end * TILE_WORDS, value);
    fill(summary, first, end, value);
}

// The tiles of a row that lie in an area whole; none, after the area, if no tile does.
fn whole_tiles(area: Area, row: usize) -> TileRun
    requires wide { area.x + area.w < 2 ^ 16 }
    requires high { area.y + area.h < 2 ^ 16 }
    requires low { row < 2 ^ 12 }
    ensures row { result.row ≡ row }
    ensures first { area.x / 16 ≤ result.from }
    ensures order { result.from ≤ result.to }
    ensures within { result.to ≤ tiles_of (area.x + area.w) }
    ensures inside { (x y : ℕ) → (nat_eq (y / 16) row && is_between result.from result.to (x / 16)) ≡ true
        → is_in area x y ≡ true }
{
    let (top, bottom) = (row * 16, row * 16 + 16);
    let from = tiles_of(area.x);
    let to = usize::from((area.x + area.w) / SIDE);
    if usize::from(area.y) <= top && bottom <= usize::from(area.y + area.h) && from < to {
        return TileRun { row, from, to };
    }
    let following = tiles_of(area.x + area.w);
    TileRun {
        row,
        from: following,
        to: following,
    }
}

// Gives the pixels of an area one value that lie in one row of tiles.
fn fill_tiles(
    words: &mut [u64],
    summary: &mut [u64],
    columns: usize,
    area: Area,
    row: usize,
    value: bool,
)
    requires area { HasTiles columns area words.old summary.old }
    requires row { row < tiles_of (area.y + area.h) }
    ensures filled { AreGiven columns words.old words.new value (λ x y. is_in area x y && nat_eq (y / 16) row) }
    ensures summary { KeepsSummary columns words.old summary.old words.new summary.new }
{
    let whole = whole_tiles(area, row);
    let before = TileRun {
        row,
        from: usize::from(area.x / SIDE),
        to: whole.from,
    };
    let following = TileRun {
        row,
        from: whole.to,
        to: tiles_of(area.x + area.w),
    };
    fill_parts(words, summary, columns, area, before, value);
    fill_run(words, summary, columns, whole, value);
    fill_parts(words, summary, columns, area, following, value);
}

/// Gives the pixels of an area one value, and sums their tiles up.
pub fn fill_area(words: &mut [u64], summary: &mut [u64], columns: usize, area: Area, value: bool)
    requires { HasTiles columns area words.old summary.old }
    ensures filled { AreGiven columns words.old words.new value (λ x y. is_in area x y) }
    ensures summary { KeepsSummary columns words.old summary.old words.new summary.new }
{
    for row in usize::from(area.y / SIDE)..tiles_of(area.y + area.h) {
        fill_tiles(words, summary, columns, area, row, value);
    }
}

// The smallest area that holds one that stands above a row, and the pixels of the row from one
// column to another.
fn with_row(found: Option<Area>, left: u16, right: u16, y: u16) -> Area
    requires order { left ≤ right }
    requires column { right + 1 < 2 ^ 16 }
    requires row { y + 1 < 2 ^ 16 }
    requires above { IfSome found (λ a. (a.x + a.w < 2 ^ 16) × (a.y + a.h ≤ y)) }
    ensures smallest { (p q : ℕ → ℕ → Bool) → IsSmallestOf p found → IsRow q left right y
        → IsSmallest (λ a b. p a b || q a b) result }
    ensures within { (width : ℕ) → right < width → IfSome found (λ a. a.x + a.w ≤ width)
        → result.x + result.w ≤ width }
    ensures end { result.y + result.h ≡ y + 1 }
{
    let Some(area) = found else {
        return Area {
            x: left,
            y,
            w: right - left + 1,
            h: 1,
        };
    };
    let x = area.x.min(left);
    let end = (area.x + area.w).max(right + 1);
    Area {
        x,
        y: area.y,
        w: end - x,
        h: y + 1 - area.y,
    }
}

// Whether a pixel of a part of a tile has a 1.
fn is_marked(words: &[u64], columns: usize, part: Area, x: u16, y: u16) -> bool
    requires part { IsTilePart columns part words.now }
    requires inside { is_in part x y ≡ true }
    ensures { result ≡ true → is_marked columns words.now x y ≡ true }
{
    let number = number_at(columns, x, y);
    first(words, number, number + 1).is_some()
}

// Whether the first and the last pixel of a part of a tile have a 1: no smaller area holds both.
fn has_corners(words: &[u64], columns: usize, part: Area) -> bool
    requires { IsTilePart columns part words.now }
    ensures { result ≡ true → IsSmallest (λ x y. is_in part x y && is_marked columns words.now x y) part }
{
    if part.w == 0 || part.h == 0 {
        return false;
    }
    if !is_marked(words, columns, part, part.x, part.y) {
        return false;
    }
    let (x, y) = (part.x + (part.w - 1), part.y + (part.h - 1));
    is_marked(words, columns, part, x, y)
}

/// The smallest area that holds the pixels with a 1 in a part of a tile.
pub fn smallest_in(words: &[u64], columns: usize, part: Area) -> Option<Area>
    requires { IsTilePart columns part words.now }
    ensures { IsSmallestOf (λ x y. is_in part x y && is_marked columns words.now x y) result }
{
    if has_corners(words, columns, part) {
        return Some(part);
    }
    let mut found: Option<Area> = None;
    let start = number_at(columns, part.x, part.y);
    let w = usize::from(part.w);
    for row in 0..part.h {
        let from = start + usize::from(row) * 16;
        if let Some(ends) = first_and_last(words, from, from + w) {
            let left = part.x + (ends.first - from) as u16;
            let right = part.x + (ends.last - from) as u16;
            found = Some(with_row(found, left, right, part.y + row));
        }
    }
    found
}
