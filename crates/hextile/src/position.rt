//! Tiles of a rectangle, and their areas.

ghost use Rattle.std.specs.Prelude.{◌≡◌, ◌<◌, ◌≤◌, ◌+◌, ◌*◌, ◌-◌, ◌||◌, suc, true};
ghost use Rattle.hextile.specs.Tiles.{tiles_across, tile_count, tile_left, tile_top, tile_width, tile_height};

use crate::fields::{Mask, Named};

/// A tile of a rectangle that has pixels, and what is known of the tiles around it.
#[derive(Clone, Copy)]
pub struct Position {
    /// The rectangle's width.
    pub w: u16,
    /// The rectangle's height.
    pub h: u16,
    /// How many tiles follow.
    pub more: u32,
    /// Which colours the tiles so far have named.
    pub named: Named,
    pub ghost across: { 0 < w },
    pub ghost down: { 0 < h },
}

/// A tile of which the fields after the mask come next: its background's pixel, its foreground's,
/// and the number of its subrectangles, one of them at least.
#[derive(Clone, Copy)]
pub struct TileHead {
    pub tile: Position,
    pub mask: Mask,
    pub ghost some: { (mask.background || mask.foreground || mask.subrectangles) ≡ true },
}

/// An area of a rectangle.
#[derive(Clone, Copy)]
pub(crate) struct TileArea {
    pub x: u16,
    pub y: u16,
    pub w: u8,
    pub h: u8,
}

// How many tiles cover so many pixels side by side.
#[tactic(auto, unfolding(crate::specs::Tiles::tiles_across))]
fn across(pixel_count: u16) -> u32
    ensures value { result ≡ tiles_across pixel_count }
    ensures most { result ≤ 4096 }
    ensures some { 0 < pixel_count → 0 < result }
{
    (pixel_count as u32 + 15) / 16
}

/// How many tiles a rectangle of w by h has.
pub(crate) fn count_tiles(w: u16, h: u16) -> u32
    ensures { result ≡ tile_count w h }
{
    across(h) * across(w)
}

/// The area of the tile of this number, in a rectangle of w by h, which has pixels then.
#[tactic(auto, unfolding(crate::specs::Tiles::tile_left, crate::specs::Tiles::tile_top))]
pub(crate) fn tile_area(w: u16, h: u16, number: u32) -> TileArea
    requires { number < tile_count w h }
    ensures left { result.x ≡ tile_left w number }
    ensures top { result.y ≡ tile_top w number }
    ensures width { result.w ≡ tile_width w number }
    ensures height { result.h ≡ tile_height w h number }
    ensures columns { result.x + result.w ≤ w }
    ensures rows { result.y + result.h ≤ h }
    ensures across { 0 < result.w }
    ensures down { 0 < result.h }
{
    let columns = across(w);
    let x = number % columns * 16;
    let y = number / columns * 16;
    TileArea {
        x: x as u16,
        y: y as u16,
        w: (w as u32 - x).min(16) as u8,
        h: (h as u32 - y).min(16) as u8,
    }
}

impl Position {
    ghost use Rattle.hextile.specs.Measuring.{number_of, width_of, height_of};

    // The tile's number.
    fn number(self) -> u32
        ensures value { result ≡ number_of self }
        ensures within { result < tile_count self.w self.h }
    {
        (count_tiles(self.w, self.h) - 1).saturating_sub(self.more)
    }

    // The area of the tile.
    pub(crate) fn area(self) -> TileArea
        ensures width { result.w ≡ width_of self }
        ensures height { result.h ≡ height_of self }
        ensures across { 0 < result.w }
        ensures down { 0 < result.h }
    {
        tile_area(self.w, self.h, self.number())
    }
}
