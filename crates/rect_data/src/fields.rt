//! The fields of a CopyRect rectangle's data.

ghost use Rattle.std.specs.Prelude.{◌≡◌, length};
ghost use Rattle.rect_data.specs.Grammar.{source_of, is_inside};

use terms::{Area, ScreenSize, read_u16};

/// Whether the area lies within a screen of this size.
#[tactic(auto, unfolding(crate::specs::Grammar::is_inside))]
pub fn lies_inside(area: Area, size: ScreenSize) -> bool
    ensures { result ≡ is_inside size.width size.height area }
{
    area.x as u32 + area.w as u32 <= size.width as u32
        && area.y as u32 + area.h as u32 <= size.height as u32
}

/// The area that is copied to a rectangle of this area: x and y stand in four bytes, the higher
/// byte of each first, and it is as large as the rectangle (RFC 6143, section 7.7.2).
#[tactic(auto, unfolding(crate::specs::Grammar::source_of))]
pub fn source_at(area: Area, source: &[u8]) -> Area
    requires { length source.now ≡ 4 }
    ensures { result ≡ source_of area source.now }
{
    Area {
        x: read_u16(source, 0),
        y: read_u16(source, 2),
        w: area.w,
        h: area.h,
    }
}
