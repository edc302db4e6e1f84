//! A part of a screen.

ghost use Rattle.std.specs.Prelude.{◌≡◌, ◌+◌, ◌<◌, ◌≤◌, ◌&&◌, ◌||◌, nat_lt, min, max, length, MatchOption};
ghost use Rattle.terms.specs.Area.{area_at, area_bytes, whole_area, is_in, HasPixels, HasJustOf, IsSmallest};

use crate::number::{read_u16, two_bytes};
use crate::screen_size::ScreenSize;

/// A rectangle of pixels: its upper left corner, its width and its height.
#[derive(Clone, Copy, Debug, PartialEq, Eq)]
pub struct Area {
    pub x: u16,
    pub y: u16,
    pub w: u16,
    pub h: u16,
}

// Columns or rows that stand side by side.
#[derive(Clone, Copy)]
struct Run {
    first: u16,
    length: u16,
}

// What two runs have in common, if anything.
fn common_run(one: Run, other: Run) -> Option<Run>
    ensures { let first = max one.first other.first in
        let end = min (one.first + one.length) (other.first + other.length) in
        MatchOption result (end ≤ first)
        (λ run. (run.first ≡ first) × (run.first + run.length ≡ end) × (first < end)) }
{
    let first = one.first.max(other.first);
    let one_end = u32::from(one.first) + u32::from(one.length);
    let other_end = u32::from(other.first) + u32::from(other.length);
    let end = one_end.min(other_end);
    if end <= u32::from(first) {
        return None;
    }
    Some(Run {
        first,
        length: (end - u32::from(first)) as u16,
    })
}

impl Area {
    // Its columns, and its rows.
    fn runs(self) -> (Run, Run)
        ensures { result ≡ record {
          0 = record { first = self.x; length = self.w };
          1 = record { first = self.y; length = self.h };
        } }
    {
        let columns = Run {
            first: self.x,
            length: self.w,
        };
        let rows = Run {
            first: self.y,
            length: self.h,
        };
        (columns, rows)
    }

    /// All of a screen of this size.
    pub fn whole(size: ScreenSize) -> Area
        ensures { result ≡ whole_area size.width size.height }
    {
        Area {
            x: 0,
            y: 0,
            w: size.width,
            h: size.height,
        }
    }

    /// The area whose numbers are in eight bytes of a field, from this offset on: x, y, width and
    /// height, the higher byte of each first.
    pub fn read(field: &[u8], at: usize) -> Area
        requires { at + 8 ≤ length field.now }
        ensures { result ≡ area_at field.now at }
    {
        Area {
            x: read_u16(field, at),
            y: read_u16(field, at + 2),
            w: read_u16(field, at + 4),
            h: read_u16(field, at + 6),
        }
    }

    /// Its numbers as they stand on the wire: two bytes each, the higher one first.
    pub fn bytes(self) -> [u8; 8]
        ensures { result ≡ area_bytes self }
    {
        let [x, x_low] = two_bytes(self.x);
        let [y, y_low] = two_bytes(self.y);
        let [w, w_low] = two_bytes(self.w);
        let [h, h_low] = two_bytes(self.h);
        [x, x_low, y, y_low, w, w_low, h, h_low]
    }

    /// The pixels that it has in common with another area, if any.
    pub fn common(self, other: Area) -> Option<Area>
        ensures { HasJustOf (λ x y. is_in self x y && is_in other x y) result }
    {
        let (my_columns, my_rows) = self.runs();
        let (columns, rows) = other.runs();
        let columns = common_run(my_columns, columns)?;
        let rows = common_run(my_rows, rows)?;
        Some(Area {
            x: columns.first,
            y: rows.first,
            w: columns.length,
            h: rows.length,
        })
    }

    /// Its part on a screen of this size, in pixels, if any.
    pub fn cut(self, size: ScreenSize) -> Option<Area>
        ensures { HasJustOf (λ x y. is_in self x y && (nat_lt x size.width && nat_lt y size.height)) result }
    {
        self.common(Area::whole(size))
    }

    /// The smallest area that holds it and another.
    pub fn around(self, other: Area) -> Area
        requires one { HasPixels self }
        requires other { HasPixels other }
        ensures { IsSmallest (λ x y. is_in self x y || is_in other x y) result }
    {
        let x = self.x.min(other.x);
        let y = self.y.min(other.y);
        Area {
            x,
            y,
            w: (self.x + self.w).max(other.x + other.w) - x,
            h: (self.y + self.h).max(other.y + other.h) - y,
        }
    }
}
