//! Rows of a picture, which are shared.

ghost use Rattle.std.specs.Prelude.{◌≡◌, ◌+◌, ◌-◌, ◌<◌, ◌≤◌, ℕ, Some, None, List, IfOk, OnOk, length, map, slice_index_or};
ghost use Rattle.std.specs.List.{flat_map};
ghost use Rattle.pixel_format.specs.declared.Color.{Color};
ghost use Rattle.pixel_format.specs.Format.{host_format};
ghost use Rattle.terms.specs.Area.{LiesWithin};
ghost use Rattle.rect_data.specs.Data.{AreData};
ghost use Rattle.painter.specs.Pixels.{color_of};
ghost use Rattle.painter.specs.Framebuffer.{Has};
ghost use Rattle.painter.specs.Picture.{black};
ghost use Rattle.painter.specs.WholeRows.{AreRows, AreKept, AreMoved, StayKept, stacked, first_rows};

use crate::pixel::{BLACK, Pixel};
use crate::sheet::Sheet;
use rect_data::source_at;
use rfb_wire::Encoding;
use std::alloc::Global;
use std::marker::Model;
use std::sync::Arc;
use terms::{Area, NoMemory, ScreenSize};

/// A row of pixels that is never painted, and that many may look at.
#[derive(Drop)]
pub(crate) struct SharedRow {
    pixels: Arc<Vec<Pixel>>,
}

impl Model for SharedRow {
    ghost use Rattle.std.specs.Prelude.{List, map};
    ghost use Rattle.std.specs.Arc.{arc_value};
    ghost use Rattle.pixel_format.specs.declared.Color.{Color};
    ghost use Rattle.painter.specs.Pixels.{color_of};

    ghost Value = { List Color };

    ghost view = { λ r. map color_of (arc_value r.pixels).items };
}

impl SharedRow {
    // A copy of these pixels.
    fn new(alloc: Global, pixels: &[Pixel]) -> Result<SharedRow, NoMemory>
        ensures { IfOk result (λ row. row ≡ map color_of pixels.now) }
    {
        let pixels = Arc::new(alloc, Vec::from_slice(alloc, pixels)?)?;
        Ok(SharedRow { pixels })
    }

    // The same row: it takes no memory, and is refused only if its owners can't be counted any
    // more.
    fn share(&self) -> Result<SharedRow, NoMemory>
        ensures { IfOk result (λ row. row ≡ self.now) }
    {
        let pixels = Arc::try_clone(&self.pixels)?;
        Ok(SharedRow { pixels })
    }

    /// Its pixels, from the left.
    #[inline(always)]
    pub(crate) fn pixels(&self) -> &[Pixel]
        ensures { map color_of result.now ≡ self.now }
    {
        &self.pixels
    }
}

// The row of these pixels: the one that is kept, or a new one, which is kept from now on.
fn keep(
    alloc: Global,
    pixels: &[Pixel],
    kept: &mut Option<SharedRow>,
) -> Result<SharedRow, NoMemory>
    requires { (row : List Color) → kept.old ≡ Some row → row ≡ map color_of pixels.now }
    ensures kept { (row : List Color) → kept.new ≡ Some row → row ≡ map color_of pixels.now }
    ensures ok { IfOk result (λ row. row ≡ map color_of pixels.now) }
{
    if let Some(row) = kept {
        return row.share();
    }
    let row = SharedRow::new(alloc, pixels)?;
    *kept = Some(row.share()?);
    Ok(row)
}

/// The first rows of a screen, as many as there is room for: those that are kept are shared, and
/// the others are kept from now on. Running out of memory leaves some that aren't.
pub(crate) fn keep_rows(
    alloc: Global,
    sheet: &Sheet,
    kept: &mut [Option<SharedRow>],
) -> Result<Vec<SharedRow>, NoMemory>
    requires { AreKept sheet.now kept.old }
    ensures kept { AreKept sheet.now kept.new }
    ensures ok { IfOk result (λ rows. rows.items ≡ first_rows sheet.now (length kept.old)) }
{
    let mut rows = Vec::with_capacity(alloc, kept.len())?;
    for y in 0..kept.len() {
        let row = keep(alloc, sheet.whole_row(y), &mut kept[y])?;
        rows.push(row)?;
    }
    Ok(rows)
}

/// The rows of a picture of this size that is black everywhere. All are one.
pub(crate) fn black_rows(alloc: Global, size: ScreenSize) -> Result<Vec<SharedRow>, NoMemory>
    ensures rows { IfOk result (λ rows. AreRows size.width size.height rows.items) }
    ensures black { IfOk result (λ rows. Has (stacked size.width size.height rows.items) black) }
{
    let pixels = vec![in alloc; BLACK; usize::from(size.width)]?;
    let black = SharedRow::new(alloc, &pixels)?;
    let mut rows = Vec::with_capacity(alloc, usize::from(size.height))?;
    for _ in 0..size.height {
        let row = black.share()?;
        rows.push(row)?;
    }
    Ok(rows)
}

/// Makes room for so many rows. None of those that are new is kept.
pub(crate) fn make_room(count: usize, kept: &mut Vec<Option<SharedRow>>) -> Result<(), NoMemory>
    ensures kept { (y : ℕ) → slice_index_or kept.new.items y None ≡ slice_index_or kept.old.items y None }
    ensures count { length kept.new.items ≤ length kept.old.items + (count - length kept.old.items) }
    ensures ok { OnOk result (count ≤ length kept.new.items) }
{
    for _ in kept.len()..count {
        kept.push(None)?;
    }
    Ok(())
}

// Keeps no row of this area any more.
#[inline]
fn forget(kept: &mut [Option<SharedRow>], area: Area)
    ensures { (y : ℕ) (row : List Color) → slice_index_or kept.new y None ≡ Some row
        → (slice_index_or kept.old y None ≡ Some row) × (area.y ≤ y → area.y + area.h ≤ y) }
{
    let top = usize::from(area.y);
    let bottom = top + usize::from(area.h);
    for y in top..bottom.min(kept.len()) {
        kept[y] = None;
    }
}

// Keeps of one row what is kept of another, or nothing if that can't be shared once more.
fn keep_as(kept: &mut [Option<SharedRow>], from: usize, to: usize)
    ensures { AreMoved from to 1 kept.old kept.new }
{
    let moved = match kept.get(from) {
        Some(Some(row)) => row.share().ok(),
        _ => None,
    };
    if to < kept.len() {
        kept[to] = moved;
    }
}

// Keeps of some rows what is kept of as many that stand no higher, from the top row to the bottom.
fn move_up(kept: &mut [Option<SharedRow>], from: u16, to: u16, count: u16)
    requires { to ≤ from }
    ensures { AreMoved from to count kept.old kept.new }
{
    let (from, to) = (usize::from(from), usize::from(to));
    for k in 0..usize::from(count) {
        keep_as(kept, from + k, to + k);
    }
}

// Keeps of some rows what is kept of as many that stand higher, from the bottom row to the top.
fn move_down(kept: &mut [Option<SharedRow>], from: u16, to: u16, count: u16)
    requires { from < to }
    ensures { AreMoved from to count kept.old kept.new }
{
    let (from, to) = (usize::from(from), usize::from(to));
    let mut k = usize::from(count);
    while k > 0 {
        k -= 1;
        keep_as(kept, from + k, to + k);
    }
}

// Keeps of some rows what is kept of as many others, as if these were read before any is changed.
fn move_rows(kept: &mut [Option<SharedRow>], from: u16, to: u16, count: u16)
    ensures { AreMoved from to count kept.old kept.new }
{
    if to <= from {
        move_up(kept, from, to, count);
    } else {
        move_down(kept, from, to, count);
    }
}

/// Goes on to what a rectangle of these data leaves on a screen of this size: rows that it copies
/// whole are kept as their sources were, and other rows that it touches aren't kept any more. It
/// takes no memory.
#[inline]
pub(crate) fn follow(
    kept: &mut [Option<SharedRow>],
    size: ScreenSize,
    encoding: Encoding,
    area: Area,
    data: &[u8],
)
    requires content { AreData host_format size.width size.height encoding area data.now }
    requires within { LiesWithin size.width size.height area }
    ensures { StayKept size encoding area data.now kept.old kept.new }
{
    match encoding {
        // An area as wide as the screen begins at its left edge, and so does its source.
        Encoding::CopyRect if area.w == size.width => {
            move_rows(kept, source_at(area, data).y, area.y, area.h);
        }
        _ => forget(kept, area),
    }
}

/// Writes the pixels of rows, one after another, over as many others.
pub(crate) fn write_rows(rows: &[SharedRow], pixels: &mut [Pixel])
    requires { length pixels.old ≡ length (flat_map (λ row. row) rows.now) }
    ensures { map color_of pixels.new ≡ flat_map (λ row. row) rows.now }
{
    let mut start = 0;
    for row in rows {
        let line = row.pixels();
        let end = start + line.len();
        pixels[start..end].copy_from_slice(line);
        start = end;
    }
}
