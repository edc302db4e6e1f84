//! What no clause says: Hextile data that are made at random, and how short the encoder's are.

ghost use Rattle.std.specs.Prelude.{◌≡◌, IfOk, length, ◌<◌, ◌≤◌, ◌*◌};

use crate::Kind;
use crate::tests::samples::{
    BLACK, BLUE, EIGHT, GREEN, RED, SIXTEEN, WHITE, any_color, below, converted, pixel_of, shows,
};
use hextile::{Subrectangle, encode, measure};
use pixel_format::{Color, PixelFormat};
use std::alloc::Global;
use std::test::Fail;
use terms::NoMemory;

// What a tile says.
#[derive(Drop)]
struct Drawn {
    raw: bool,
    pixels: Vec<Color>,
    background: Option<Color>,
    foreground: Option<Color>,
    parts: Vec<Subrectangle>,
}

// A tile of w by h, the first of a rectangle or a later one.
fn any_tile(alloc: Global, seed: &mut u64, first: bool, w: u8, h: u8) -> Result<Drawn, NoMemory>
    requires across { 0 < w }
    requires down { 0 < h }
    requires wide { w ≤ 16 }
    requires high { h ≤ 16 }
{
    let raw = !first && below(seed, 4) == 0;
    let colored = !first && below(seed, 3) == 0;
    let mut pixels = Vec::new(alloc);
    let mut parts = Vec::new(alloc);
    for _ in 0..w as u16 * h as u16 {
        pixels.push(any_color(seed))?;
    }
    for _ in 0..below(seed, 12) {
        let x = below(seed, w as u16) as u8;
        let y = below(seed, h as u16) as u8;
        let color = any_color(seed);
        parts.push(Subrectangle {
            x,
            y,
            w: below(seed, (w - x) as u16) as u8 + 1,
            h: below(seed, (h - y) as u16) as u8 + 1,
            color: if colored { Some(color) } else { None },
        })?;
    }
    let background = any_color(seed);
    let foreground = any_color(seed);
    let named = !raw && (first || below(seed, 2) == 0);
    let inked = !raw && (first || !colored && below(seed, 2) == 0);
    Ok(Drawn {
        raw,
        pixels,
        background: if named { Some(background) } else { None },
        foreground: if inked { Some(foreground) } else { None },
        parts,
    })
}

// Appends the data of a tile, in the host format.
fn write_tile(tile: &Drawn, bytes: &mut Vec<u8>) -> Result<(), NoMemory> {
    if tile.raw {
        bytes.push(1)?;
        for color in tile.pixels.iter() {
            bytes.extend_from_slice(&pixel_of(*color))?;
        }
        return Ok(());
    }
    let colored = match tile.parts.first() {
        Some(part) => part.color.is_some(),
        None => false,
    };
    let mut mask = 0u8;
    if tile.background.is_some() {
        mask |= 2;
    }
    if tile.foreground.is_some() {
        mask |= 4;
    }
    if !tile.parts.is_empty() {
        mask |= 8;
    }
    if colored {
        mask |= 16;
    }
    bytes.push(mask)?;
    for color in [tile.background, tile.foreground] {
        if let Some(color) = color {
            bytes.extend_from_slice(&pixel_of(color))?;
        }
    }
    if !tile.parts.is_empty() {
        bytes.push((tile.parts.len() % 256) as u8)?;
    }
    for part in tile.parts.iter() {
        if let Some(color) = part.color {
            bytes.extend_from_slice(&pixel_of(color))?;
        }
        bytes.push((part.x % 16) * 16 + part.y % 16)?;
        bytes.push((part.w.saturating_sub(1) % 16) * 16 + part.h.saturating_sub(1) % 16)?;
    }
    Ok(())
}

// The colour of a pixel, by a search backwards through the tiles.
fn plain(tiles: &[Drawn], w: u16, column: u16, row: u16) -> Color {
    let across = w as usize / 16 + (if w % 16 == 0 { 0 } else { 1 });
    let number = row as usize / 16 * across + column as usize / 16;
    let (i, j) = ((column % 16) as u8, (row % 16) as u8);
    let Some(tile) = tiles.get(number) else {
        return BLACK;
    };
    if tile.raw {
        let width = (w as usize - (column as usize / 16 * 16).min(w as usize)).min(16);
        return *tile
            .pixels
            .get(j as usize * width + i as usize)
            .unwrap_or(&BLACK);
    }
    let mut background = None;
    let mut foreground = None;
    for earlier in tiles[..number + 1].iter().rev() {
        background = background.or(earlier.background);
        foreground = foreground.or(earlier.foreground);
    }
    for part in tile.parts.iter().rev() {
        if part.x <= i
            && (i as u16) < part.x as u16 + part.w as u16
            && part.y <= j
            && (j as u16) < part.y as u16 + part.h as u16
        {
            return part.color.or(foreground).unwrap_or(BLACK);
        }
    }
    background.unwrap_or(BLACK)
}

// Draws nine tiles, of which those at the right and the bottom are narrower and lower than 16.
fn draw(
    alloc: Global,
    seed: &mut u64,
    edge: u8,
    tiles: &mut Vec<Drawn>,
    bytes: &mut Vec<u8>,
) -> Result<(), NoMemory>
    requires within { edge < 16 }
    requires some { 0 < edge }
{
    for number in 0..9 {
        let width = if number % 3 == 2 { edge } else { 16 };
        let height = if number / 3 == 2 { 16 - edge } else { 16 };
        let tile = any_tile(alloc, seed, number == 0, width, height)?;
        write_tile(&tile, bytes)?;
        tiles.push(tile)?;
    }
    Ok(())
}

// Whether the data of a rectangle of w by h show its tiles.
fn are_shown(tiles: &[Drawn], w: u16, h: u16, bytes: &[u8]) -> bool
    requires columns { w ≤ 320 }
    requires rows { h ≤ 120 }
{
    let host = PixelFormat::host();
    let Ok(canvas) = Kind::Hextile.painted(&host, w, h, bytes) else {
        return false;
    };
    for row in 0..h {
        for column in 0..w {
            if canvas.color(column, row) != plain(tiles, w, column, row) {
                return false;
            }
        }
    }
    measure(&host, w, h, bytes) == Ok(bytes.len())
}

#[test]
fn as_the_plain_way(rt: HostRuntime) -> Result<(), Fail> {
    let mut seed = 1;
    for edge in 1..16u8 {
        let mut tiles = Vec::new(rt.alloc());
        let mut bytes = Vec::new(rt.alloc());
        draw(rt.alloc(), &mut seed, edge, &mut tiles, &mut bytes)?;
        let (w, h) = (32 + u16::from(edge), 48 - u16::from(edge));
        assert!(rt; are_shown(&tiles, w, h, &bytes), "with an edge of {edge}");
    }
    Ok(())
}

// A picture of w by h pixels: stripes of one colour, squares of two or four, and pixels of any.
fn any_picture(alloc: Global, seed: &mut u64, w: u16, h: u16) -> Result<Vec<Color>, NoMemory>
    ensures { IfOk result (λ colors. length colors.items ≡ h * w) }
{
    let palette = [RED, GREEN, BLUE, WHITE];
    let mut colors = vec![in alloc; RED; h as usize * w as usize]?;
    for k in 0..colors.len() {
        let kind = k / 96 % 4;
        colors[k] = match kind {
            0 => palette[k / 32 % 4],
            1 => palette[k / 5 % 2],
            2 => palette[k / 7 % 4],
            _ => any_color(seed),
        };
    }
    Ok(colors)
}

// Whether a picture of w by h pixels is shown, in this format, by the data that it is encoded to,
// and two bytes before them stay.
fn comes_through(
    alloc: Global,
    format: &PixelFormat,
    w: u16,
    h: u16,
    picture: &[Color],
) -> Result<bool, Fail>
    requires size { length picture.now ≡ h * w }
    requires columns { w ≤ 320 }
    requires rows { h ≤ 120 }
{
    let colors = converted(alloc, format, picture)?;
    let mut bytes = vec![in alloc; 9, 9]?;
    encode(alloc, format, w, h, &colors, &mut bytes)?;
    let Some(data) = bytes.strip_prefix(&[9, 9]) else {
        return Ok(false);
    };
    let test_canvas = Kind::Hextile.painted(format, w, h, data)?;
    Ok(shows(&test_canvas, w, h, &colors) && measure(format, w, h, data) == Ok(data.len()))
}

#[test]
fn encoded_and_painted(rt: HostRuntime) -> Result<(), Fail> {
    let mut seed = 1;
    for edge in 1..17u16 {
        let (w, h) = (16 + edge, 17 - edge);
        let picture = any_picture(rt.alloc(), &mut seed, w, h)?;
        for bytes in [PixelFormat::host().write(), SIXTEEN, EIGHT] {
            let format = PixelFormat::read(&bytes)?;
            assert!(rt; comes_through(rt.alloc(), &format, w, h, &picture)?);
        }
    }
    Ok(())
}

// The colour of a letter: red, green, blue, or one of its own.
fn color_of(letter: u8) -> Color {
    match letter {
        b'r' => RED,
        b'g' => GREEN,
        b'b' => BLUE,
        _ => Color {
            r: letter.into(),
            g: 100,
            b: 200,
        },
    }
}

// The data of a row of three tiles, whose colours are given in letters, in the host format.
fn encoded(alloc: Global, row: &[u8; 48]) -> Result<Vec<u8>, NoMemory> {
    let host = PixelFormat::host();
    let mut colors = vec![in alloc; RED; 48]?;
    for k in 0..48 {
        colors[k] = color_of(row[k]);
    }
    let colors = converted(alloc, &host, &colors)?;
    let mut bytes = Vec::new(alloc);
    encode(alloc, &host, 48, 1, &colors, &mut bytes)?;
    Ok(bytes)
}

// Rows of three tiles, and their data, a line for each tile.
const ROWS: [(&[u8; 48], &[u8]); 6] = [
    // What is as before isn't told again.
    (
        b"rrrrrrrrrrrrrrrrrrrrrrrrrrrrrrrrrrrrrrrrrrrrrrrr",
        b"\x02\0\0\xff\0\
        \0\
        \0",
    ),
    // Green in two tiles: its pixel once.
    (
        b"rrrggrrrrrrrrrrrrrrrrrrrrrrrrrgrrrrrrrrrrrrrrrrr",
        b"\x0e\0\0\xff\0\0\xff\0\0\x01\x30\x10\
        \x08\x01\xe0\0\
        \0",
    ),
    // Green and blue in one tile: pixels of their own, and the next background is named.
    (
        b"rrrggrrrrrrrrrrrrrrrbrrrrrrrrrgrrrrrrrrrrrrrrrrr",
        b"\x0e\0\0\xff\0\0\xff\0\0\x01\x30\x10\
        \x18\x02\xff\0\0\0\x40\0\0\xff\0\0\xe0\0\
        \x02\0\0\xff\0",
    ),
    // Many colours: a raw tile, and the next background is named.
    (
        b"rrrggrrrrrrrrrrrABCDEFGHIJKLMNOPrrrrrrrrrrrrrrrr",
        b"\x0e\0\0\xff\0\0\xff\0\0\x01\x30\x10\
        \x01\xc8dA\0\xc8dB\0\xc8dC\0\xc8dD\0\xc8dE\0\xc8dF\0\xc8dG\0\xc8dH\0\
        \xc8dI\0\xc8dJ\0\xc8dK\0\xc8dL\0\xc8dM\0\xc8dN\0\xc8dO\0\xc8dP\0\
        \x02\0\0\xff\0",
    ),
    // After a raw tile, and after a coloured one, background and foreground are named again, though
    // they are those of the tile before it.
    (
        b"rrrggrrrrrrrrrrrABCDEFGHIJKLMNOPrrrrrrrrrrrrrrgr",
        b"\x0e\0\0\xff\0\0\xff\0\0\x01\x30\x10\
        \x01\xc8dA\0\xc8dB\0\xc8dC\0\xc8dD\0\xc8dE\0\xc8dF\0\xc8dG\0\xc8dH\0\
        \xc8dI\0\xc8dJ\0\xc8dK\0\xc8dL\0\xc8dM\0\xc8dN\0\xc8dO\0\xc8dP\0\
        \x0e\0\0\xff\0\0\xff\0\0\x01\xe0\0",
    ),
    (
        b"rrrggrrrrrrrrrrrrrrrgrrrrrrrrrbrrrrrrrrrrrrrrrgr",
        b"\x0e\0\0\xff\0\0\xff\0\0\x01\x30\x10\
        \x18\x02\0\xff\0\0\x40\0\xff\0\0\0\xe0\0\
        \x0e\0\0\xff\0\0\xff\0\0\x01\xe0\0",
    ),
];

#[test]
fn encoded_shortly(rt: HostRuntime) -> Result<(), Fail> {
    for (row, data) in ROWS {
        assert!(rt; encoded(rt.alloc(), row)?.as_slice() == data);
    }
    Ok(())
}
