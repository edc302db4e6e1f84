//! The fields of a rectangle's data.

ghost use Rattle.std.specs.Prelude.{◌≡◌, ◌≤◌, ◌+◌, length, drop, take};
ghost use Rattle.pixel_format.specs.Format.{pixel_bytes};
ghost use Rattle.terms.specs.Number.{u16_at, u32_at};
ghost use Rattle.rre.specs.Grammar.{subrectangle_of, subrectangle_bytes, is_inside, head_bytes};

use pixel_format::{Color, PixelFormat};
use terms::{read_u16, read_u32};

/// A part of a rectangle that has one colour. Its corner (x, y) counts from the rectangle's upper
/// left corner.
#[derive(Clone, Copy, Debug, PartialEq, Eq)]
pub struct Subrectangle {
    pub x: u16,
    pub y: u16,
    pub w: u16,
    pub h: u16,
    pub color: Color,
}

// The subrectangle that a whole field is.
#[tactic(auto, unfolding(crate::specs::Grammar::subrectangle_of))]
pub(crate) fn read_subrectangle(format: &PixelFormat, field: &[u8]) -> Subrectangle
    requires { length field.now ≡ subrectangle_bytes format.now }
    ensures { result ≡ subrectangle_of format.now field.now }
{
    let (pixel, area) = field.split_at(format.bytes());
    Subrectangle {
        x: read_u16(area, 0),
        y: read_u16(area, 2),
        w: read_u16(area, 4),
        h: read_u16(area, 6),
        color: format.pixel(pixel),
    }
}

// Whether the subrectangle that a whole field is lies within a rectangle of w by h. Its pixel plays
// no part.
#[tactic(auto, unfolding(crate::specs::Grammar::subrectangle_of, crate::specs::Grammar::is_inside))]
pub(crate) fn is_part_inside(format: &PixelFormat, field: &[u8], w: u16, h: u16) -> bool
    requires { length field.now ≡ subrectangle_bytes format.now }
    ensures { result ≡ is_inside w h (subrectangle_of format.now field.now) }
{
    let (_, area) = field.split_at(format.bytes());
    let right = read_u16(area, 0) as u32 + read_u16(area, 4) as u32;
    let bottom = read_u16(area, 2) as u32 + read_u16(area, 6) as u32;
    right <= w as u32 && bottom <= h as u32
}

// How many subrectangles follow a head.
pub(crate) fn read_count(head: &[u8]) -> u32
    requires { 4 ≤ length head.now }
    ensures { result ≡ u32_at head.now 0 }
{
    read_u32(head, 0)
}
