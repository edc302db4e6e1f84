//! Snapshots of a screen.

ghost use Rattle.std.specs.Prelude.{◌≡◌, ◌↔◌, ◌*◌, ◌<◌, ◌^◌, [], All, IsTrue, IfOk, OnOk, OnErr, length, map};
ghost use Rattle.pixel_format.specs.Pixel.{IsScreenColor};
ghost use Rattle.terms.specs.Appending.{Appends};
ghost use Rattle.terms.specs.Area.{LiesWithin};
ghost use Rattle.terms.specs.declared.area.Area.{Area};
ghost use Rattle.rect_codec.specs.Parts.{AreParts};
ghost use Rattle.painter.specs.Framebuffer.{color_at, Has, Shows, AgreeIn, AreColorsOf, IsSame};
ghost use Rattle.painter.specs.Picture.{black};
ghost use Rattle.painter.specs.Pixels.{color_of};
ghost use Rattle.painter.specs.Sent.{area_colors};
ghost use Rattle.painter.specs.SentUpdate.{parts_of, CanBeSent};
ghost use Rattle.painter.specs.WholeRows.{stacked, AreRows};

use crate::pixel::Pixel;
use crate::reading::{Rows, same_colors};
use crate::row::color_of_pixel;
use crate::shared_rows::{SharedRow, black_rows, write_rows};
use crate::update::{ScreenPart, append_parts};
use pixel_format::{Color, PixelFormat};
use std::alloc::Global;
use std::marker::Model;
use std::sync::Arc;
use terms::{Area, NoMemory, ScreenSize};

/// What a screen showed once. It is never painted again, and those who share it have one copy
/// between them. What wasn't painted between two snapshots of a screen they have in common.
#[derive(Drop)]
pub struct Snapshot {
    size: ScreenSize,
    // From the top.
    rows: Arc<Vec<SharedRow>>,
}

impl Model for Snapshot {
    ghost use Rattle.std.specs.Arc.{arc_value};
    ghost use Rattle.painter.specs.Framebuffer.{Framebuffer};
    ghost use Rattle.painter.specs.WholeRows.{stacked, AreRows};

    ghost Value = { Framebuffer };

    ghost view = { λ s. stacked s.size.width s.size.height (arc_value s.rows).items };

    ghost invariant = { λ s. AreRows s.size.width s.size.height (arc_value s.rows).items };
}

impl Snapshot {
    /// The picture of this size that these rows make up.
    pub(crate) fn new(
        alloc: Global,
        size: ScreenSize,
        rows: Vec<SharedRow>,
    ) -> Result<Snapshot, NoMemory>
        requires { AreRows size.width size.height rows.items }
        ensures { IfOk result (λ snapshot. snapshot ≡ stacked size.width size.height rows.items) }
    {
        let rows = Arc::new(alloc, rows)?;
        Ok(Snapshot { size, rows })
    }

    /// What a screen of this size shows before anything is painted: black everywhere. It takes
    /// memory for one row, whatever its height.
    pub fn black(alloc: Global, size: ScreenSize) -> Result<Snapshot, NoMemory>
        ensures width { IfOk result (λ snapshot. snapshot.width ≡ size.width) }
        ensures height { IfOk result (λ snapshot. snapshot.height ≡ size.height) }
        ensures black { IfOk result (λ snapshot. Has snapshot black) }
        ensures shows { IfOk result (λ snapshot. Shows snapshot []) }
    {
        let rows = black_rows(alloc, size)?;
        Snapshot::new(alloc, size, rows)
    }

    /// The same snapshot for one more who looks at it. It takes no memory, and is refused only if
    /// their number can't be counted any more.
    pub fn share(&self) -> Result<Snapshot, NoMemory>
        ensures { IfOk result (λ snapshot. snapshot ≡ self.now) }
    {
        let size = self.size;
        let rows = Arc::try_clone(&self.rows)?;
        Ok(Snapshot { size, rows })
    }

    /// Whether another has the same colour at each pixel of an area. Only these pixels are read.
    pub fn same_in(&self, other: &Snapshot, area: Area) -> bool
        requires within { LiesWithin self.now.width self.now.height area }
        requires other { LiesWithin other.now.width other.now.height area }
        ensures { IsTrue result ↔ AgreeIn area self.now other.now }
    {
        same_colors(self, other, area)
    }

    /// Whether the other snapshot is the same: it has this size, and the same colour at each pixel.
    pub fn same(&self, other: &Snapshot) -> bool
        ensures { IsTrue result ↔ IsSame self.now other.now }
    {
        let size = self.size;
        let whole = Area {
            x: 0,
            y: 0,
            w: size.width,
            h: size.height,
        };
        size == other.size && self.same_in(other, whole)
    }

    /// Its size.
    pub fn size(&self) -> ScreenSize
        ensures { result ≡ record { width = self.now.width; height = self.now.height } }
    {
        self.size
    }

    /// The colour of a pixel: column x of row y, counted from 0 at the left and the top. Its
    /// channels are at most 255.
    pub fn color(&self, x: u16, y: u16) -> Color
        requires column { x < self.now.width }
        requires row { y < self.now.height }
        ensures value { result ≡ color_at self.now x y }
        ensures screen { IsScreenColor result }
    {
        let row = self.row(Area { x, y, w: 1, h: 1 }, 0);
        color_of_pixel(row[0])
    }

    /// Which colours `area_colors` are: those of the pixels of an area, by rows. (It does nothing.)
    pub fn known_colors(&self)
        ensures { (area : Area) → LiesWithin self.now.width self.now.height area
            → AreColorsOf self.now area (area_colors self.now area) }
    {
        self.known_rows();
    }

    /// Writes its pixels over as many others.
    pub(crate) fn write(&self, pixels: &mut [Pixel])
        requires { length pixels.old ≡ self.now.height * self.now.width }
        ensures { map color_of pixels.new ≡ self.now.slots }
    {
        write_rows(&self.rows, pixels);
    }

    /// Appends a FramebufferUpdate (RFC 6143, section 7.6.1) with a rectangle for each of these
    /// parts, in their order, as `rect_codec::write_parts` writes one of its colours as the format
    /// has them; Raw straight from its pixels. Running out of memory leaves `out` as it was.
    pub fn append_update(
        &self,
        alloc: Global,
        format: &PixelFormat,
        parts: &[ScreenPart],
        out: &mut Vec<u8>,
    ) -> Result<(), NoMemory>
        requires count { length parts.now < 2 ^ 16 }
        requires each { All (CanBeSent self.now) parts.now }
        ensures ok { OnOk result (Appends (AreParts format.now (parts_of format.now self.now parts.now)) out.old.items out.new.items) }
        ensures err { OnErr result (out.new.items ≡ out.old.items) }
    {
        append_parts(alloc, format, self, parts, out)
    }
}

impl Rows for Snapshot {
    ghost shown = { λ s. s };

    fn known_rows(&self) {
        let _ = &self.size;
    }

    #[inline(always)]
    fn row(&self, area: Area, row: usize) -> &[Pixel] {
        let pixels = self.rows[usize::from(area.y) + row].pixels();
        let left = usize::from(area.x);
        &pixels[left..left + usize::from(area.w)]
    }
}
