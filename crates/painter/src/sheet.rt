//! The pixels that a screen is painted on.

ghost use Rattle.std.specs.Prelude.{◌≡◌, ◌↔◌, ◌+◌, ◌*◌, ◌<◌, IsTrue, IfOk, map};
ghost use Rattle.pixel_format.specs.Format.{host_format};
ghost use Rattle.pixel_format.specs.Pixel.{IsScreenColor};
ghost use Rattle.terms.specs.Area.{LiesWithin};
ghost use Rattle.rect_data.specs.Data.{AreData};
ghost use Rattle.rect_codec.specs.Picture.{painted_data};
ghost use Rattle.painter.specs.Framebuffer.{color_at, SameSize, Has, IsSame};
ghost use Rattle.painter.specs.Picture.{black};
ghost use Rattle.painter.specs.Pixels.{color_of};
ghost use Rattle.painter.specs.WholeRows.{IsFilled, whole_row};

use crate::pixel::{BLACK, Pixel};
use crate::reading::Rows;
use crate::rectangle::{copy_area, fill_area, paint_raw};
use crate::row::{area_row, color_of_pixel, pixel_of_color};
use crate::snapshot::Snapshot;
use pixel_format::{Canvas, Color, PixelFormat};
use rect_data::source_at;
use rfb_wire::Encoding;
use std::alloc::Global;
use std::marker::Model;
use terms::{Area, NoMemory, ScreenSize};

/// The pixels of a screen of this size: a colour for each, in four bytes.
#[derive(Drop)]
pub(crate) struct Sheet {
    size: ScreenSize,
    // By rows, from the top and the left.
    pixels: Vec<Pixel>,
}

impl Model for Sheet {
    ghost use Rattle.std.specs.Prelude.{◌≡◌, ◌*◌, map, vec_len};
    ghost use Rattle.painter.specs.Framebuffer.{Framebuffer};
    ghost use Rattle.painter.specs.Pixels.{color_of};

    ghost Value = { Framebuffer };

    ghost view = { λ s. record { width = s.size.width; height = s.size.height; slots = map color_of s.pixels.items } };

    ghost invariant = { λ s. vec_len s.pixels ≡ s.size.height * s.size.width };
}

impl Sheet {
    /// One of this size, black everywhere.
    pub(crate) fn black(alloc: Global, size: ScreenSize) -> Result<Sheet, NoMemory>
        ensures width { IfOk result (λ sheet. sheet.width ≡ size.width) }
        ensures height { IfOk result (λ sheet. sheet.height ≡ size.height) }
        ensures black { IfOk result (λ sheet. Has sheet black) }
    {
        let slots = usize::from(size.width) * usize::from(size.height);
        let pixels = vec![in alloc; BLACK; slots]?;
        Ok(Sheet { size, pixels })
    }

    /// Its size.
    pub(crate) fn size(&self) -> ScreenSize
        ensures { result ≡ record { width = self.now.width; height = self.now.height } }
    {
        self.size
    }

    /// What holds of it. (It does nothing.)
    pub(crate) fn known(&self)
        ensures { IsFilled self.now }
    {
        let _ = &self.size;
    }

    /// The colour of a pixel.
    pub(crate) fn color(&self, x: u16, y: u16) -> Color
        requires column { x < self.now.width }
        requires row { y < self.now.height }
        ensures value { result ≡ color_at self.now x y }
        ensures screen { IsScreenColor result }
    {
        let slot = usize::from(y) * usize::from(self.size.width) + usize::from(x);
        color_of_pixel(self.pixels[slot])
    }

    /// The pixels of a whole row.
    pub(crate) fn whole_row(&self, y: usize) -> &[Pixel]
        requires { y < self.now.height }
        ensures { map color_of result.now ≡ whole_row self.now y }
    {
        let width = usize::from(self.size.width);
        let start = y * width;
        &self.pixels[start..start + width]
    }

    /// Whether another is the same: of this size, with the same colour at each pixel.
    pub(crate) fn same(&self, other: &Sheet) -> bool
        ensures { IsTrue result ↔ IsSame self.now other.now }
    {
        self.size == other.size && self.pixels == other.pixels
    }

    /// The same again.
    pub(crate) fn copy(&self, alloc: Global) -> Result<Sheet, NoMemory>
        ensures { IfOk result (λ sheet. sheet ≡ self.now) }
    {
        let pixels = Vec::from_slice(alloc, &self.pixels)?;
        Ok(Sheet {
            size: self.size,
            pixels,
        })
    }

    /// Takes over the colours of a snapshot of this size.
    pub(crate) fn set_to(&mut self, snapshot: &Snapshot)
        requires width { snapshot.now.width ≡ self.old.width }
        requires height { snapshot.now.height ≡ self.old.height }
        ensures { self.new ≡ snapshot.now }
    {
        snapshot.write(&mut self.pixels);
    }

    /// Paints a rectangle of this area from its data.
    pub(crate) fn paint_data(&mut self, encoding: Encoding, area: Area, bytes: &[u8])
        requires content { AreData host_format self.old.width self.old.height encoding area bytes.now }
        requires within { LiesWithin self.old.width self.old.height area }
        ensures size { SameSize self.old self.new }
        ensures painted { Has self.new (painted_data host_format encoding area bytes.now (color_at self.old)) }
    {
        let host = PixelFormat::host();
        let width = self.size.width;
        match encoding {
            Encoding::Raw => paint_raw(&mut self.pixels, width, area, bytes),
            Encoding::CopyRect => {
                copy_area(&mut self.pixels, width, source_at(area, bytes), area);
            }
            Encoding::Rre => rre::paint(&host, area, bytes, self),
            Encoding::Hextile => hextile::paint(&host, area, bytes, self),
        }
    }
}

impl Rows for Sheet {
    ghost shown = { λ s. s };

    fn known_rows(&self) {
        let _ = &self.size;
    }

    #[inline(always)]
    fn row(&self, area: Area, row: usize) -> &[Pixel] {
        area_row(&self.pixels, self.size.width, area, row)
    }
}

impl Canvas for Sheet {
    ghost use Rattle.pixel_format.specs.Pixel.{IsScreenColor};
    ghost use Rattle.painter.specs.Framebuffer.{color_at};

    ghost width = { λ s. s.width };

    ghost height = { λ s. s.height };

    ghost holds = { IsScreenColor };

    ghost picture = { color_at };

    #[inline(always)]
    fn fill(&mut self, area: Area, color: Color) {
        let width = self.size.width;
        fill_area(&mut self.pixels, width, area, pixel_of_color(color));
    }

    fn host_pixels(&mut self, area: Area, bytes: &[u8]) {
        paint_raw(&mut self.pixels, self.size.width, area, bytes);
    }
}
