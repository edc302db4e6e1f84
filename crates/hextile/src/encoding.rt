//! Encoding a rectangle.

ghost use Rattle.std.specs.Prelude.{◌≡◌, ℕ, List, ◌+◌, ◌*◌, ◌<◌, ◌≤◌, All, IsTrue, IfSome, IfOk, OnOk, OnErr, length, Some, None, true};
ghost use Rattle.pixel_format.specs.Pixel.{IsWithin};
ghost use Rattle.terms.specs.Appending.{Appends, AppendsIf, Grows};
ghost use Rattle.hextile.specs.declared.cover.Part.{Part};
ghost use Rattle.hextile.specs.Grammar.{Tile};
ghost use Rattle.pixel_format.specs.Number.{IsNumber, colors_of};
ghost use Rattle.hextile.specs.Encoded.{IsMaskFor, known_past, IsKnown, ShowsTile, Shows};

use crate::cover::{Part, Parts, choose_background, cover, tile_numbers};
use crate::fields::{Mask, pixel_size};
use crate::position::{count_tiles, tile_area};
use crate::writing::{Known, append_parts_tile, append_raw_tile};
use pixel_format::{Color, PixelFormat, Pixels, same};
use std::alloc::Global;
use terms::{NoMemory, keep_below, whole_or_none};

const NOTHING_KNOWN: Known = Known {
    background: None,
    foreground: None,
};

// The colour that all parts have, if they have one.
fn shared_color(parts: &[Part]) -> Option<Color>
    ensures all { IfSome result (λ color. All (λ s. s.color ≡ color) parts.now) }
    ensures some { IfSome result (λ _. 0 < length parts.now) }
{
    if parts.is_empty() {
        return None;
    }
    let color = parts[0].color;
    for part in parts {
        if !same(part.color, color) {
            return None;
        }
    }
    Some(color)
}

fn is_known(known: Option<Color>, color: Color) -> bool
    ensures { IsTrue result → known ≡ Some color }
{
    match known {
        Some(one) => same(one, color),
        None => false,
    }
}

// The mask of a tile of so many parts, which may all have one colour.
fn mask_for(known: Known, background: Color, ink: Option<Color>, count: usize) -> Mask
    ensures { IsMaskFor known background ink count result }
{
    let foreground = match ink {
        Some(color) => !is_known(known.foreground, color),
        None => false,
    };
    Mask {
        raw: false,
        background: !is_known(known.background, background),
        foreground,
        subrectangles: count > 0,
        colored: count > 0 && ink.is_none(),
    }
}

// What the next tile need not name after a tile of parts.
fn known_after(known: Known, background: Color, ink: Option<Color>, colored: bool) -> Known
    ensures { result ≡ known_past known background ink colored }
{
    if colored {
        return NOTHING_KNOWN;
    }
    Known {
        background: Some(background),
        foreground: ink.or(known.foreground),
    }
}

// How many bytes a tile of so many parts has.
fn parts_size(format: &PixelFormat, mask: Mask, count: usize) -> usize
    requires { count < 256 }
{
    let head = pixel_size(format, mask.background)
        + pixel_size(format, mask.foreground)
        + mask.subrectangles as usize;
    1 + head + count * (pixel_size(format, mask.colored) + 2)
}

// Appends a tile of w by h: the shorter one of parts over a background and of pixels. The parts are
// listed in the room. Answers what the next tile need not name.
fn append_tile(
    format: &PixelFormat,
    known: Known,
    w: u8,
    h: u8,
    numbers: &[u32],
    room: &mut Parts,
    bytes: &mut Vec<u8>,
) -> Result<Known, NoMemory>
    requires size { length numbers.now ≡ w * h }
    requires numbers { All (IsNumber format.now) numbers.now }
    requires across { 0 < w }
    requires down { 0 < h }
    requires wide { w ≤ 16 }
    requires high { h ≤ 16 }
    ensures ok { IfOk result (λ after. (before : List Tile) → IsKnown before known
        → Appends (ShowsTile format.now w h (colors_of format.now numbers.now) before after) bytes.old.items bytes.new.items) }
    ensures grows { Grows bytes.old.items bytes.new.items }
{
    let chosen = choose_background(numbers);
    let number = numbers[chosen.index];
    if cover(format, w, h, numbers, number, chosen.is_only, room) {
        let background = format.color_of(number);
        let parts = room.as_slice();
        let ink = shared_color(parts);
        let mask = mask_for(known, background, ink, parts.len());
        if parts_size(format, mask, parts.len()) <= 1 + numbers.len() * format.bytes() {
            let foreground = ink.unwrap_or(background);
            append_parts_tile(format, mask, background, foreground, parts, bytes)?;
            return Ok(known_after(known, background, ink, mask.colored));
        }
    }
    append_raw_tile(format, numbers, bytes)?;
    Ok(NOTHING_KNOWN)
}

// Appends the tiles of a rectangle of these pixels.
fn append_tiles(
    w: u16,
    h: u16,
    format: &PixelFormat,
    numbers: &[u32],
    bytes: &mut Vec<u8>,
) -> Result<(), NoMemory>
    requires size { length numbers.now ≡ h * w }
    requires numbers { All (IsNumber format.now) numbers.now }
    ensures ok { OnOk result (Appends (Shows format.now w h (colors_of format.now numbers.now)) bytes.old.items bytes.new.items) }
    ensures grows { Grows bytes.old.items bytes.new.items }
{
    let mut known = NOTHING_KNOWN;
    let mut room = Parts::new();
    for number in 0..count_tiles(w, h) {
        let area = tile_area(w, h, number);
        let tile = tile_numbers(numbers, w, area);
        let pixel_count = area.w as usize * area.h as usize;
        known = append_tile(
            format,
            known,
            area.w,
            area.h,
            &tile[..pixel_count],
            &mut room,
            bytes,
        )?;
    }
    Ok(())
}

// Appends data of a rectangle of these pixels. Running out of memory leaves `bytes` as it was.
fn encode_numbers(format: &PixelFormat, pixels: Pixels, bytes: &mut Vec<u8>) -> Result<(), NoMemory>
    requires { All (IsNumber format.now) pixels.numbers.now }
    ensures ok { OnOk result (Appends (Shows format.now pixels.entry.w pixels.entry.h (colors_of format.now pixels.entry.numbers.now)) bytes.old.items bytes.new.items) }
    ensures err { OnErr result (bytes.new.items ≡ bytes.old.items) }
{
    let start = bytes.len();
    let appended = append_tiles(pixels.w, pixels.h, format, pixels.numbers, bytes);
    whole_or_none(appended, start, bytes)
}

/// Appends data of a rectangle of w by h that has these colours, by rows from the top and each from
/// the left, in a format to whose maxima they keep (RFC 6143, section 7.7.4). Which form a tile
/// has, and which colours it names, isn't promised, but tested: each tile is the shorter one of
/// subrectangles over a background, which have the foreground's colour if they have one colour, and
/// of pixels. A background and a foreground are named if the tile before didn't have them, and in
/// the first tile after a raw or coloured one. Running out of memory leaves `bytes` as it was.
pub fn encode(
    alloc: Global,
    format: &PixelFormat,
    w: u16,
    h: u16,
    colors: &[Color],
    bytes: &mut Vec<u8>,
) -> Result<(), NoMemory>
    requires size { length colors.now ≡ h * w }
    requires within { All (IsWithin format.now) colors.now }
    ensures ok { OnOk result (Appends (Shows format.now w h colors.now) bytes.old.items bytes.new.items) }
    ensures err { OnErr result (bytes.new.items ≡ bytes.old.items) }
{
    let numbers = format.numbers_of(alloc, colors)?;
    let pixels = Pixels {
        w,
        h,
        numbers: &numbers,
    };
    encode_numbers(format, pixels, bytes)
}

/// Appends data of a rectangle that has these pixels, as [`encode`] does of their colours, if they
/// have fewer bytes than the limit, and answers whether they have. It takes memory for the bytes
/// alone. If they haven't, and when memory runs out, `bytes` stays as it was.
pub fn encode_numbers_below(
    format: &PixelFormat,
    pixels: Pixels,
    limit: usize,
    bytes: &mut Vec<u8>,
) -> Result<bool, NoMemory>
    requires { All (IsNumber format.now) pixels.numbers.now }
    ensures appended { AppendsIf (Shows format.now pixels.entry.w pixels.entry.h (colors_of format.now pixels.entry.numbers.now)) bytes.old.items bytes.new.items result }
    ensures below { IfOk result (λ whole. whole ≡ true → length bytes.new.items < length bytes.old.items + limit) }
{
    let before = bytes.len();
    encode_numbers(format, pixels, bytes)?;
    Ok(keep_below(limit, before, bytes))
}
