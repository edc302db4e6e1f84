//! Two copies, one after the other, as one.

ghost use Rattle.std.specs.Prelude.{◌≡◌, ◌+◌, ◌*◌, ◌<◌, ◌≤◌, ◌^◌, ◌||◌, ℕ, true, IfSome, IsTrue};
ghost use Rattle.terms.specs.Area.{is_in};
ghost use Rattle.shared_updates.specs.Copies.{lies_in, AreOne, IsCheap, IsCopyWithin};
ghost use Rattle.shared_updates.specs.Inside.{LiesInside};

use crate::copy::KeptCopy;
use terms::{Area, ScreenSize};

/// Two copies as one, and a rest of what they go to, which it doesn't bring.
#[derive(Clone, Copy)]
pub struct Joined {
    pub copy: KeptCopy,
    pub rest: Area,
}

/// How many pixels an area has.
pub fn pixels_in(area: Area) -> u64
    ensures { result ≡ area.w * area.h }
{
    u64::from(area.w) * u64::from(area.h)
}

/// Whether the area lies in another.
pub fn lies_in(area: Area, outer: Area) -> bool
    ensures { result ≡ lies_in area outer }
{
    let right = u32::from(area.x) + u32::from(area.w) <= u32::from(outer.x) + u32::from(outer.w);
    let bottom = u32::from(area.y) + u32::from(area.h) <= u32::from(outer.y) + u32::from(outer.h);
    (outer.x <= area.x && right) && (outer.y <= area.y && bottom)
}

// What an area has above or below a part of it that has all its columns, if the part lies at an edge.
fn rows_beside(area: Area, part: Area) -> Option<Area>
    requires bottom { area.y + area.h < 2 ^ 16 }
    requires left { part.x ≡ area.x }
    requires width { part.w ≡ area.w }
    requires top { area.y ≤ part.y }
    requires within { part.y + part.h ≤ area.y + area.h }
    ensures inside { IfSome result (λ rest. lies_in rest area ≡ true) }
    ensures all { IfSome result (λ rest. (x y : ℕ)
        → (is_in part x y || is_in rest x y) ≡ is_in area x y) }
{
    let h = area.h - part.h;
    if part.y == area.y {
        return Some(Area {
            y: part.y + part.h,
            h,
            ..area
        });
    }
    if part.y + part.h == area.y + area.h {
        return Some(Area { h, ..area });
    }
    None
}

// The same beside a part of it that has all its rows.
fn columns_beside(area: Area, part: Area) -> Option<Area>
    requires right { area.x + area.w < 2 ^ 16 }
    requires top { part.y ≡ area.y }
    requires height { part.h ≡ area.h }
    requires left { area.x ≤ part.x }
    requires within { part.x + part.w ≤ area.x + area.w }
    ensures inside { IfSome result (λ rest. lies_in rest area ≡ true) }
    ensures all { IfSome result (λ rest. (x y : ℕ)
        → (is_in part x y || is_in rest x y) ≡ is_in area x y) }
{
    let w = area.w - part.w;
    if part.x == area.x {
        return Some(Area {
            x: part.x + part.w,
            w,
            ..area
        });
    }
    if part.x + part.w == area.x + area.w {
        return Some(Area { w, ..area });
    }
    None
}

// What an area has beside a part of it, if that is an area.
fn beside(area: Area, part: Area) -> Option<Area>
    requires right { area.x + area.w < 2 ^ 16 }
    requires bottom { area.y + area.h < 2 ^ 16 }
    requires inside { LiesInside part area }
    ensures inside { IfSome result (λ rest. lies_in rest area ≡ true) }
    ensures all { IfSome result (λ rest. (x y : ℕ)
        → (is_in part x y || is_in rest x y) ≡ is_in area x y) }
{
    if part.x == area.x && part.w == area.w {
        return rows_beside(area, part);
    }
    if part.y == area.y && part.h == area.h {
        return columns_beside(area, part);
    }
    None
}

/// A copy and the one that follows it as one, if that is simple: the first goes to nothing that the
/// second doesn't go to, and what the second takes of anything else lies above, below, to the left or
/// to the right of what it takes of the first. So it is with text that scrolls by a line, and another.
pub fn as_one(first: KeptCopy, second: KeptCopy, size: ScreenSize) -> Option<Joined>
    requires first { IsCopyWithin size.width size.height first }
    requires second { IsCopyWithin size.width size.height second }
    ensures { IfSome result (λ j. AreOne first second j.copy j.rest) }
{
    if !lies_in(first.area, second.area) {
        return None;
    }
    let taken = first.area.common(second.source())?;
    let area = second.moved(taken);
    let rest = beside(second.area, area)?;
    let copy = KeptCopy {
        area,
        source_x: first.source_x + (taken.x - first.area.x),
        source_y: first.source_y + (taken.y - first.area.y),
    };
    Some(Joined { copy, rest })
}

/// Whether it is cheap to send a rest instead of copying it, where an area is sent in any case: the
/// pixels that are sent for it are no more than an eighth of those that are still copied.
pub fn is_cheap(sent: Option<Area>, copied: Area, rest: Area) -> bool
    ensures { IsTrue result → IsCheap sent copied rest }
{
    let both = match sent {
        Some(sent) => rest.common(sent),
        None => None,
    };
    let known = match both {
        Some(both) => pixels_in(both),
        None => 0,
    };
    8 * pixels_in(rest) <= pixels_in(copied) + 8 * known
}
