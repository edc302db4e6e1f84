//! Painting a rectangle.

ghost use Rattle.std.specs.Prelude.{◌≡◌, ℕ, List, ◌<◌, ◌≤◌, ◌+◌, ◌*◌, ◌^◌, length, reverse, unwrap_or};
ghost use Rattle.pixel_format.specs.Format.{pixel_bytes};
ghost use Rattle.pixel_format.specs.Pixel.{pixel_color};
ghost use Rattle.pixel_format.specs.Canvas.{laid_over, pixel_rows, Agree};
ghost use Rattle.terms.specs.Area.{LiesWithin};
ghost use Rattle.terms.specs.Reading.{Got};
ghost use Rattle.hextile.specs.declared.fields.Subrectangle.{Subrectangle};
ghost use Rattle.hextile.specs.declared.fields.Named.{Named};
ghost use Rattle.hextile.specs.Grammar.{Tile, pixel_if, color_if, head_bytes, subrectangles_at, tile_at};
ghost use Rattle.hextile.specs.Data.{IsData, AreData};
ghost use Rattle.hextile.specs.Picture.{tile_picture, painted_over};
ghost use Rattle.hextile.specs.Painting.{named_in_head, carried, BeginsWithTile, BeginsWithParts, PartsPainted};

use crate::fields::{Mask, pixel_size, read_count, read_mask, read_subrectangle};
use crate::position::{count_tiles, tile_area};
use pixel_format::{Canvas, Color, PixelFormat};
use terms::Area;

const BLACK: Color = Color { r: 0, g: 0, b: 0 };

// The background and the foreground that tiles carry over.
#[derive(Clone, Copy)]
struct TileColors {
    background: Color,
    foreground: Color,
}

// How many bytes stand between a mask and the subrectangles.
fn head_size(format: &PixelFormat, mask: Mask) -> usize
    ensures { result ≡ head_bytes format.now mask }
{
    let count = if mask.subrectangles { 1 } else { 0 };
    pixel_size(format, mask.background) + pixel_size(format, mask.foreground) + count
}

// The colour whose pixel begins the bytes if it is there, else the one that is carried over.
fn color_or(format: &PixelFormat, there: bool, bytes: &[u8], carried: Color) -> Color
    requires { pixel_if format.now there ≤ length bytes.now }
    ensures { result ≡ unwrap_or (color_if format.now there bytes.now) carried }
{
    if there {
        format.pixel(&bytes[..format.bytes()])
    } else {
        carried
    }
}

// The colours of a tile, from what stands between its mask and its subrectangles.
#[tactic(auto, unfolding(crate::specs::Grammar::background_in, crate::specs::Grammar::foreground_in))]
fn name_colors(format: &PixelFormat, mask: Mask, head: &[u8], colors: TileColors) -> TileColors
    requires { length head.now ≡ head_bytes format.now mask }
    ensures { result ≡ named_in_head format.now mask head.now colors }
{
    let following = &head[pixel_size(format, mask.background)..];
    TileColors {
        background: color_or(format, mask.background, head, colors.background),
        foreground: color_or(format, mask.foreground, following, colors.foreground),
    }
}

// Paints pixels by rows into a tile's area of the canvas.
fn paint_pixels<C: Canvas>(format: &PixelFormat, area: Area, pixels: &[u8], canvas: &mut C)
    requires size { length pixels.now ≡ area.w * area.h * pixel_bytes format.now }
    requires within { LiesWithin (C.width canvas.old) (C.height canvas.old) area }
    requires last_column { area.x + area.w < 2 ^ 16 }
    requires last_row { area.y + area.h < 2 ^ 16 }
    requires held { (pixel : List ℕ) → C.holds (pixel_color format.now pixel) }
    ensures painted { Agree (C.width canvas.old) (C.height canvas.old) (C.picture canvas.new)
        (laid_over area.x area.y area.w area.h (pixel_rows format.now area.w pixels.now) (C.picture canvas.old)) }
    ensures width { C.width canvas.new ≡ C.width canvas.old }
    ensures height { C.height canvas.new ≡ C.height canvas.old }
{
    if format.is_host() {
        canvas.host_pixels(area, pixels);
    } else {
        canvas.pixels(format, area, pixels);
    }
}

// Paints subrectangles into a tile's area of the canvas, and answers the bytes after them.
fn paint_parts<'a, 'b, 'c, C: Canvas>(
    format: &'b PixelFormat,
    area: Area,
    colored: bool,
    count: u8,
    foreground: Color,
    bytes: &'a [u8],
    canvas: &'c mut C,
) -> &'a [u8]
    requires begin { BeginsWithParts format.now colored area.w area.h count bytes.now }
    requires within { LiesWithin (C.width canvas.old) (C.height canvas.old) area }
    requires last_column { area.x + area.w < 2 ^ 16 }
    requires last_row { area.y + area.h < 2 ^ 16 }
    requires held { (pixel : List ℕ) → C.holds (pixel_color format.now pixel) }
    requires foreground { C.holds foreground }
    ensures rest { (parts : List Subrectangle) → (rest : List ℕ)
        → subrectangles_at format.now colored area.w area.h count bytes.now ≡ Got parts rest → result.now ≡ rest }
    ensures painted { (parts : List Subrectangle) → (rest : List ℕ)
        → subrectangles_at format.now colored area.w area.h count bytes.now ≡ Got parts rest
        → PartsPainted area.x area.y area.w area.h foreground parts (C.width canvas.old) (C.height canvas.old) (C.picture canvas.old) (C.picture canvas.new) }
    ensures width { C.width canvas.new ≡ C.width canvas.old }
    ensures height { C.height canvas.new ≡ C.height canvas.old }
{
    let size = pixel_size(format, colored) + 2;
    let mut rest = bytes;
    for _ in 0..count {
        let (field, following) = rest.split_at(size);
        let part = read_subrectangle(format, colored, field);
        let filled = Area {
            x: area.x + part.x as u16,
            y: area.y + part.y as u16,
            w: part.w as u16,
            h: part.h as u16,
        };
        canvas.fill(filled, part.color.unwrap_or(foreground));
        rest = following;
    }
    rest
}

// Paints a tile into its area of the canvas, and answers the bytes after it.
fn paint_tile<'a, 'b, 'c, 'd, C: Canvas>(
    format: &'b PixelFormat,
    area: Area,
    colors: &'d mut TileColors,
    bytes: &'a [u8],
    canvas: &'c mut C,
) -> &'a [u8]
    requires begin { BeginsWithTile format.now area.w area.h bytes.now }
    requires within { LiesWithin (C.width canvas.old) (C.height canvas.old) area }
    requires last_column { area.x + area.w < 2 ^ 16 }
    requires last_row { area.y + area.h < 2 ^ 16 }
    requires held { (pixel : List ℕ) → C.holds (pixel_color format.now pixel) }
    requires background { C.holds colors.old.background }
    requires foreground { C.holds colors.old.foreground }
    ensures background { C.holds colors.new.background }
    ensures foreground { C.holds colors.new.foreground }
    ensures rest { (named : Named) → (tile : Tile) → (rest : List ℕ)
        → tile_at format.now named area.w area.h bytes.now ≡ Got tile rest → result.now ≡ rest }
    ensures colors { (named : Named) → (tile : Tile) → (rest : List ℕ)
        → tile_at format.now named area.w area.h bytes.now ≡ Got tile rest → colors.new ≡ carried colors.old tile }
    ensures painted { (named : Named) → (tile : Tile) → (rest : List ℕ)
        → tile_at format.now named area.w area.h bytes.now ≡ Got tile rest
        → Agree (C.width canvas.old) (C.height canvas.old) (C.picture canvas.new)
        (laid_over area.x area.y area.w area.h (tile_picture area.w colors.new.background colors.new.foreground tile) (C.picture canvas.old)) }
    ensures width { C.width canvas.new ≡ C.width canvas.old }
    ensures height { C.height canvas.new ≡ C.height canvas.old }
{
    let mask = read_mask(bytes[0]);
    let body = &bytes[1..];
    if mask.raw {
        let size = area.w as usize * area.h as usize * format.bytes();
        let (pixels, rest) = body.split_at(size);
        paint_pixels(format, area, pixels, canvas);
        return rest;
    }
    let (head, parts) = body.split_at(head_size(format, mask));
    *colors = name_colors(format, mask, head, *colors);
    canvas.fill(area, colors.background);
    let count = read_count(format, mask, head);
    paint_parts(
        format,
        area,
        mask.colored,
        count,
        colors.foreground,
        parts,
        canvas,
    )
}

/// Paints a rectangle of this area of the canvas from its data: the bytes that
/// [`measure`](crate::measure) takes whole (RFC 6143, section 7.7.4). The other pixels stay as they
/// were. The canvas can have the colours of the format's pixels. It takes no memory.
pub fn paint<C: Canvas>(format: &PixelFormat, area: Area, bytes: &[u8], canvas: &mut C)
    requires whole { AreData format.now area.w area.h bytes.now }
    requires within { LiesWithin (C.width canvas.old) (C.height canvas.old) area }
    requires last_column { area.x + area.w < 2 ^ 16 }
    requires last_row { area.y + area.h < 2 ^ 16 }
    requires held { (pixel : List ℕ) → C.holds (pixel_color format.now pixel) }
    ensures painted { (tiles : List Tile) → IsData format.now area.w area.h bytes.now tiles
        → Agree (C.width canvas.old) (C.height canvas.old) (C.picture canvas.new)
        (painted_over area.x area.y area.w area.h tiles (C.picture canvas.old)) }
    ensures width { C.width canvas.new ≡ C.width canvas.old }
    ensures height { C.height canvas.new ≡ C.height canvas.old }
{
    let mut colors = TileColors {
        background: BLACK,
        foreground: BLACK,
    };
    let mut rest = bytes;
    for number in 0..count_tiles(area.w, area.h) {
        let tile = tile_area(area.w, area.h, number);
        let painted = Area {
            x: area.x + tile.x,
            y: area.y + tile.y,
            w: tile.w as u16,
            h: tile.h as u16,
        };
        rest = paint_tile(format, painted, &mut colors, rest, canvas);
    }
}
