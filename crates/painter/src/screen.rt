//! Screens.

ghost use Rattle.std.specs.Prelude.{◌≡◌, ◌↔◌, ◌<◌, ◌^◌, ◌++◌, ◌∷◌, [], All, IsTrue, IfOk, OnOk, OnErr, List, length, slice_index_or};
ghost use Rattle.rfb_wire.specs.Host.{Host};
ghost use Rattle.pixel_format.specs.Pixel.{IsScreenColor};
ghost use Rattle.painter.specs.Framebuffer.{Framebuffer, color_at, SameSize, Has, AreColorsOf, AppendsColors, IsSame, Shows};
ghost use Rattle.rfb_wire.specs.declared.message.Rectangle.{Rectangle};
ghost use Rattle.painter.specs.Picture.{black, painted_rectangle, painted_message};
ghost use Rattle.terms.specs.Appending.{Appends};
ghost use Rattle.painter.specs.Sent.{area_colors};
ghost use Rattle.painter.specs.SentUpdate.{parts_of, CanBeSent};
ghost use Rattle.rect_codec.specs.Parts.{AreParts};
ghost use Rattle.terms.specs.Area.{LiesWithin};
ghost use Rattle.terms.specs.declared.area.Area.{Area};

use crate::colors::append_colors;
use crate::reading::Rows;
use crate::shared_rows::{SharedRow, follow, keep_rows, make_room};
use crate::sheet::Sheet;
use crate::snapshot::Snapshot;
use crate::update::{ScreenPart, append_parts};
use pixel_format::{Color, PixelFormat};
use rfb_wire::HostMessage;
use std::alloc::Global;
use std::marker::Model;
use terms::{Area, NoMemory, ScreenSize};

/// A screen: a colour for each of its pixels. It takes four bytes a pixel, and as many again if a
/// snapshot was made of it.
#[derive(Drop)]
pub struct Screen {
    sheet: Sheet,
    // The rows that snapshots have, none at one that was painted since the last of them. They are
    // empty until there is a snapshot.
    kept: Vec<Option<SharedRow>>,
}

impl Model for Screen {
    ghost use Rattle.painter.specs.Framebuffer.{Framebuffer};
    ghost use Rattle.painter.specs.WholeRows.{AreKept};

    ghost Value = { Framebuffer };

    ghost view = { λ s. s.sheet };

    ghost invariant = { λ s. AreKept s.sheet s.kept.items };
}

impl Screen {
    /// A screen of this size, black everywhere.
    pub fn black(alloc: Global, size: ScreenSize) -> Result<Screen, NoMemory>
        ensures width { IfOk result (λ screen. screen.width ≡ size.width) }
        ensures height { IfOk result (λ screen. screen.height ≡ size.height) }
        ensures black { IfOk result (λ screen. Has screen black) }
        ensures shows { IfOk result (λ screen. Shows screen []) }
    {
        let sheet = Sheet::black(alloc, size)?;
        let kept = Vec::new(alloc);
        Ok(Screen { sheet, kept })
    }

    /// Its size.
    pub fn size(&self) -> ScreenSize
        ensures { result ≡ record { width = self.now.width; height = self.now.height } }
    {
        self.sheet.size()
    }

    /// The colour of a pixel: column x of row y, counted from 0 at the left and the top. Its
    /// channels are at most 255.
    pub fn color(&self, x: u16, y: u16) -> Color
        requires column { x < self.now.width }
        requires row { y < self.now.height }
        ensures value { result ≡ color_at self.now x y }
        ensures screen { IsScreenColor result }
    {
        self.sheet.color(x, y)
    }

    /// Appends the colours of the pixels of an area, by rows from the top and each from the left.
    /// Running out of memory leaves `out` as it was.
    pub fn area(&self, area: Area, out: &mut Vec<Color>) -> Result<(), NoMemory>
        requires within { LiesWithin self.now.width self.now.height area }
        ensures ok { OnOk result (AppendsColors self.now area out.old.items out.new.items) }
        ensures err { OnErr result (out.new.items ≡ out.old.items) }
    {
        append_colors(&self.sheet, area, out)
    }

    /// Which colours `area_colors` are: those of the pixels of an area, by rows. (It does nothing.)
    pub fn known_colors(&self)
        ensures { (area : Area) → LiesWithin self.now.width self.now.height area
            → AreColorsOf self.now area (area_colors self.now area) }
    {
        self.sheet.known_rows();
    }

    /// Appends a FramebufferUpdate (RFC 6143, section 7.6.1) with a rectangle for each of these
    /// parts, in their order, as `rect_codec::write_parts` writes one of the screen's colours as
    /// the format has them; Raw straight from the screen. Running out of memory leaves `out` as it
    /// was.
    pub fn append_update(
        &self,
        alloc: Global,
        format: &PixelFormat,
        parts: &[ScreenPart],
        out: &mut Vec<u8>,
    ) -> Result<(), NoMemory>
        requires count { length parts.now < 2 ^ 16 }
        requires each { All (CanBeSent self.now) parts.now }
        ensures ok { OnOk result (Appends (AreParts format.now (parts_of format.now self.now parts.now)) out.old.items out.new.items) }
        ensures err { OnErr result (out.new.items ≡ out.old.items) }
    {
        append_parts(alloc, format, &self.sheet, parts, out)
    }

    /// Whether the other screen is the same: it has this size, and the same colour at each pixel.
    pub fn same(&self, other: &Screen) -> bool
        ensures { IsTrue result ↔ IsSame self.now other.now }
    {
        self.sheet.same(&other.sheet)
    }

    /// The same screen again.
    pub fn copy(&self, alloc: Global) -> Result<Screen, NoMemory>
        ensures { IfOk result (λ screen. screen ≡ self.now) }
    {
        let sheet = self.sheet.copy(alloc)?;
        let kept = Vec::new(alloc);
        Ok(Screen { sheet, kept })
    }

    /// What the screen shows now. It copies the rows that were painted since the last snapshot, and
    /// shares the others with that; a row that a CopyRect of whole rows moved is shared, too. The
    /// screen stays as it was, at a refusal too.
    pub fn snapshot(&mut self, alloc: Global) -> Result<Snapshot, NoMemory>
        ensures shows { IfOk result (λ snapshot. snapshot ≡ self.old) }
        ensures same { self.new ≡ self.old }
    {
        let size = self.sheet.size();
        self.sheet.known();
        make_room(usize::from(size.height), &mut self.kept)?;
        let rows = keep_rows(alloc, &self.sheet, &mut self.kept)?;
        Snapshot::new(alloc, size, rows)
    }

    /// Takes over the colours of a snapshot of this size. It takes no memory.
    pub fn set_to(&mut self, snapshot: &Snapshot)
        requires width { snapshot.now.width ≡ self.old.width }
        requires height { snapshot.now.height ≡ self.old.height }
        ensures { self.new ≡ snapshot.now }
    {
        self.sheet.set_to(snapshot);
        self.kept.clear();
    }

    /// Paints the rectangle of this number, counted from 0, of a message of this size, over what the
    /// screen shows (RFC 6143, section 7.7). It takes no memory.
    pub fn paint_rectangle(&mut self, message: &HostMessage, number: usize)
        requires width { message.now.width ≡ self.old.width }
        requires height { message.now.height ≡ self.old.height }
        requires number { number < length message.now.rectangles }
        ensures size { SameSize self.old self.new }
        ensures painted { (other : Rectangle) → Has self.new (painted_rectangle message.now.bytes
            (slice_index_or message.now.rectangles number other) (color_at self.old)) }
    {
        let rectangle = message.rectangles()[number];
        let area = rectangle.area;
        let data = &message.bytes()[rectangle.start..rectangle.end];
        let size = self.sheet.size();
        self.sheet.known();
        follow(&mut self.kept, size, rectangle.encoding, area, data);
        self.sheet.paint_data(rectangle.encoding, area, data);
        self.sheet.known();
    }

    /// Paints a message of this size: its rectangles in their order, each over what the ones before
    /// it left (RFC 6143, section 7.7). It takes no memory.
    pub fn paint(&mut self, message: &HostMessage)
        requires width { message.now.width ≡ self.old.width }
        requires height { message.now.height ≡ self.old.height }
        ensures size { SameSize self.old self.new }
        ensures painted { Has self.new (painted_message message.now (color_at self.old)) }
        ensures shows { (messages : List Host) → Shows self.old messages → Shows self.new (messages ++ message.now ∷ []) }
    {
        for number in 0..message.rectangles().len() {
            self.paint_rectangle(message, number);
        }
    }
}
