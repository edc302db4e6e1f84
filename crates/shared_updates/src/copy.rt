//! A copy that a viewer can be sent instead of colours.

ghost use Rattle.std.specs.Prelude.{◌≡◌, ◌+◌, ◌-◌, ◌<◌, ◌≤◌, ◌^◌, length};
ghost use Rattle.rect_data.specs.Grammar.{source_of};
ghost use Rattle.shared_updates.specs.Copies.{source, moved_by};

use rect_data::source_at;
use terms::Area;

/// Pixels that a viewer can copy from others (RFC 6143, section 7.7.2).
#[derive(Clone, Copy, PartialEq, Eq)]
pub struct KeptCopy {
    /// What it is copied to.
    pub area: Area,
    /// The left top corner of what is copied, an area as large.
    pub source_x: u16,
    pub source_y: u16,
}

impl Default for KeptCopy {
    fn default() -> KeptCopy {
        KeptCopy {
            area: Area {
                x: 0,
                y: 0,
                w: 0,
                h: 0,
            },
            source_x: 0,
            source_y: 0,
        }
    }
}

impl KeptCopy {
    /// The copy that the data of a rectangle of this area name.
    pub fn named(area: Area, bytes: &[u8]) -> KeptCopy
        requires { length bytes.now ≡ 4 }
        ensures area { result.area ≡ area }
        ensures source { source result ≡ source_of area bytes.now }
    {
        let source = source_at(area, bytes);
        KeptCopy {
            area,
            source_x: source.x,
            source_y: source.y,
        }
    }

    /// The area that is copied.
    pub fn source(self) -> Area
        ensures { result ≡ source self }
    {
        Area {
            x: self.source_x,
            y: self.source_y,
            ..self.area
        }
    }

    /// Where it takes an area of what it copies.
    pub fn moved(self, area: Area) -> Area
        requires left { self.source_x ≤ area.x }
        requires top { self.source_y ≤ area.y }
        requires right { self.area.x + (area.x - self.source_x) < 2 ^ 16 }
        requires bottom { self.area.y + (area.y - self.source_y) < 2 ^ 16 }
        ensures { result ≡ moved_by self area }
    {
        Area {
            x: self.area.x + (area.x - self.source_x),
            y: self.area.y + (area.y - self.source_y),
            ..area
        }
    }
}
