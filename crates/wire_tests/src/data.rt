//! Data in either encoding of subrectangles, judged and painted.

ghost use Rattle.std.specs.Prelude.{◌≤◌};

use crate::test_canvas::TestCanvas;
use pixel_format::{Color, PixelFormat};
use terms::{Area, NoLength};

const WHITE: Color = Color {
    r: 255,
    g: 255,
    b: 255,
};

/// An encoding whose data are a background and subrectangles.
#[derive(Clone, Copy, PartialEq, Eq)]
pub enum Kind {
    Rre,
    Hextile,
}

impl Kind {
    /// How many bytes the data of a rectangle have that the bytes begin with.
    pub fn measure(
        self,
        format: &PixelFormat,
        w: u16,
        h: u16,
        bytes: &[u8],
    ) -> Result<usize, NoLength> {
        match self {
            Kind::Rre => rre::measure(format, w, h, bytes),
            Kind::Hextile => hextile::measure(format, w, h, bytes),
        }
    }

    /// What the data paint that the bytes begin with, in the upper left corner of a white canvas.
    pub fn painted(
        self,
        format: &PixelFormat,
        w: u16,
        h: u16,
        bytes: &[u8],
    ) -> Result<TestCanvas, NoLength>
        requires columns { w ≤ 320 }
        requires rows { h ≤ 120 }
    {
        let area = Area { x: 0, y: 0, w, h };
        let mut canvas = TestCanvas::new(WHITE);
        match self {
            Kind::Rre => {
                let length = rre::measure(format, w, h, bytes)?;
                rre::paint(format, area, &bytes[..length], &mut canvas);
            }
            Kind::Hextile => {
                let length = hextile::measure(format, w, h, bytes)?;
                hextile::paint(format, area, &bytes[..length], &mut canvas);
            }
        }
        Ok(canvas)
    }
}
