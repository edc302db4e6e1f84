//! What a view shows.

ghost use Rattle.std.specs.Prelude.{◌≡◌, ◌<◌, ◌^◌, [], All, IfOk, IfSome, OnOk, OnErr, length};
ghost use Rattle.std.specs.List.{AllByRecursion};
ghost use Rattle.terms.specs.Appending.{Appends};
ghost use Rattle.terms.specs.Area.{LiesWithin};
ghost use Rattle.terms.specs.declared.area.Area.{Area};
ghost use Rattle.rect_codec.specs.Parts.{AreParts};
ghost use Rattle.painter.specs.Framebuffer.{SameSize, Shows, AreColorsOf};
ghost use Rattle.painter.specs.Sent.{area_colors};
ghost use Rattle.painter.specs.SentUpdate.{parts_of, CanBeSent};
ghost use Rattle.keyed_entries.specs.Entry.{IsStampedOf};
ghost use Rattle.viewer_session.specs.Shown.{AreAllPaintedOver, start_or};

use crate::painting::paint_slice;
use painter::{Screen, ScreenPart, Snapshot};
use pixel_format::PixelFormat;
use replay::Slice;
use std::alloc::Global;
use std::marker::Model;
use terms::{NoMemory, ScreenSize};

/// Whose pixels are shown.
#[derive(Drop)]
pub enum Surface {
    /// Those of a snapshot, which many share.
    Given(Snapshot),
    /// Those of a screen of one's own.
    Own(Screen),
}

/// What a view shows: the snapshot that it was given last or, once something was painted since, a
/// screen of its own. It has that only as long as it shows it.
#[derive(Drop)]
pub struct Shown {
    surface: Surface,
}

impl Model for Shown {
    ghost use Rattle.painter.specs.Framebuffer.{Framebuffer};
    ghost use Rattle.viewer_session.specs.Shown.{shown_of};

    ghost Value = { Framebuffer };

    ghost view = { λ s. shown_of s.surface };
}

impl Shown {
    /// A snapshot of this size that is black everywhere.
    pub fn black(alloc: Global, size: ScreenSize) -> Result<Shown, NoMemory>
        ensures width { IfOk result (λ shown. shown.width ≡ size.width) }
        ensures height { IfOk result (λ shown. shown.height ≡ size.height) }
        ensures shows { IfOk result (λ shown. Shows shown []) }
    {
        let black = Snapshot::black(alloc, size)?;
        Ok(Shown {
            surface: Surface::Given(black),
        })
    }

    /// Its size.
    pub fn size(&self) -> ScreenSize
        ensures { result ≡ record { width = self.now.width; height = self.now.height } }
    {
        match &self.surface {
            Surface::Given(snapshot) => snapshot.size(),
            Surface::Own(screen) => screen.size(),
        }
    }

    /// The snapshot that is shown, unless it is a screen of one's own.
    pub fn given(&self) -> Option<&Snapshot>
        ensures { IfSome result (λ snapshot. snapshot.now ≡ self.now) }
    {
        match &self.surface {
            Surface::Given(snapshot) => Some(snapshot),
            Surface::Own(_) => None,
        }
    }

    /// Shows a snapshot of this size from now on. It takes no memory, and paints nothing.
    pub fn give(&mut self, snapshot: Snapshot)
        requires { SameSize self.old snapshot }
        ensures { self.new ≡ snapshot }
    {
        self.surface = Surface::Given(snapshot);
    }

    // A screen that shows the same.
    fn copy(&self, alloc: Global) -> Result<Screen, NoMemory>
        ensures { IfOk result (λ screen. screen ≡ self.now) }
    {
        match &self.surface {
            Surface::Given(snapshot) => {
                let mut screen = Screen::black(alloc, snapshot.size())?;
                screen.set_to(snapshot);
                Ok(screen)
            }
            Surface::Own(screen) => screen.copy(alloc),
        }
    }

    // Shows a start from now on, if there is one. It takes no memory, and is refused only if those
    // who share it can't be counted any more. A refusal changes nothing.
    fn begin(&mut self, start: &Option<Snapshot>) -> Result<(), NoMemory>
        requires { IfSome start.now (λ s. (s.width ≡ self.old.width) × (s.height ≡ self.old.height)) }
        ensures size { SameSize self.old self.new }
        ensures ok { OnOk result (self.new ≡ start_or start.now self.old) }
        ensures err { OnErr result (self.new ≡ self.old) }
    {
        if let Some(start) = start {
            self.surface = Surface::Given(start.share()?);
        }
        Ok(())
    }

    /// Paints a slice's messages over its start or, if it has none, over what is shown. If there
    /// are messages, and a snapshot is shown, it takes memory for a screen of its own. A refusal
    /// changes nothing.
    pub fn paint(&mut self, alloc: Global, slice: &Slice) -> Result<(), NoMemory>
        requires each { AllByRecursion (IsStampedOf self.old.width self.old.height) slice.now.messages.items }
        requires start { IfSome slice.now.start (λ s. (s.width ≡ self.old.width) × (s.height ≡ self.old.height)) }
        ensures size { SameSize self.old self.new }
        ensures painted { OnOk result (AreAllPaintedOver (start_or slice.now.start self.old) self.new slice.now.messages.items) }
        ensures err { OnErr result (self.new ≡ self.old) }
    {
        if slice.messages.is_empty() {
            return self.begin(&slice.start);
        }
        if let Surface::Own(screen) = &mut self.surface {
            paint_slice(screen, slice);
            return Ok(());
        }
        let mut screen = self.copy(alloc)?;
        paint_slice(&mut screen, slice);
        self.surface = Surface::Own(screen);
        Ok(())
    }

    /// Which colours `area_colors` are: those of the pixels of an area, by rows. (It does nothing.)
    pub fn known_colors(&self)
        ensures { (area : Area) → LiesWithin self.now.width self.now.height area
            → AreColorsOf self.now area (area_colors self.now area) }
    {
        match &self.surface {
            Surface::Given(snapshot) => snapshot.known_colors(),
            Surface::Own(screen) => screen.known_colors(),
        }
    }

    /// Appends an update of these parts, as `Screen::append_update`. Running out of memory leaves
    /// `out` as it was.
    pub fn append_update(
        &self,
        alloc: Global,
        format: &PixelFormat,
        parts: &[ScreenPart],
        out: &mut Vec<u8>,
    ) -> Result<(), NoMemory>
        requires count { length parts.now < 2 ^ 16 }
        requires each { All (CanBeSent self.now) parts.now }
        ensures ok { OnOk result (Appends (AreParts format.now (parts_of format.now self.now parts.now))
            out.old.items out.new.items) }
        ensures err { OnErr result (out.new.items ≡ out.old.items) }
    {
        match &self.surface {
            Surface::Given(snapshot) => snapshot.append_update(alloc, format, parts, out),
            Surface::Own(screen) => screen.append_update(alloc, format, parts, out),
        }
    }
}
