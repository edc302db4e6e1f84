//! What pictures are painted on.

ghost use Rattle.std.specs.Prelude.{◌≡◌, ℕ, List, ◌+◌, ◌*◌, ◌^◌, ◌<◌, length};
ghost use Rattle.pixel_format.specs.declared.Color.{Color};
ghost use Rattle.pixel_format.specs.Format.{host_format, pixel_bytes};
ghost use Rattle.pixel_format.specs.Pixel.{host_color, pixel_color};
ghost use Rattle.terms.specs.Area.{LiesWithin};
ghost use Rattle.pixel_format.specs.Canvas.{Picture, filled, laid_over, pixel_rows, Agree};

use crate::Color;
use crate::format::PixelFormat;
use terms::Area;

/// Pixels that can be painted, by columns from the left and rows from the top.
pub trait Canvas {
    ghost width: { Self → ℕ };

    ghost height: { Self → ℕ };

    /// The colours that its pixels can have.
    ghost holds: { Color → Type 0 };

    /// The colour at each of its pixels; past its edges it says nothing.
    ghost picture: { Self → Picture };

    /// Gives the pixels of an area of the canvas, which may be empty, one colour that they can have,
    /// and leaves the others alone.
    fn fill(&mut self, area: Area, color: Color)
        requires within { LiesWithin (width self.old) (height self.old) area }
        requires held { holds color }
        ensures width { width self.new ≡ width self.old }
        ensures height { height self.new ≡ height self.old }
        ensures painted { Agree (width self.old) (height self.old) (picture self.new)
            (filled area.x area.y area.w area.h color (picture self.old)) };

    /// Gives the pixels of an area of the canvas the colours of as many pixels of a format, by rows
    /// from the top and each from the left, and leaves the others alone. The canvas can have these
    /// colours.
    fn pixels(&mut self, format: &PixelFormat, area: Area, bytes: &[u8])
        requires within { LiesWithin (width self.old) (height self.old) area }
        requires last_column { area.x + area.w < 2 ^ 16 }
        requires last_row { area.y + area.h < 2 ^ 16 }
        requires size { length bytes.now ≡ area.w * area.h * pixel_bytes format.now }
        requires held { (pixel : List ℕ) → holds (pixel_color format.now pixel) }
        ensures width { width self.new ≡ width self.old }
        ensures height { height self.new ≡ height self.old }
        ensures painted { Agree (width self.old) (height self.old) (picture self.new)
            (laid_over area.x area.y area.w area.h (pixel_rows format.now area.w bytes.now) (picture self.old)) }
    {
        let size = format.bytes();
        let (wide, high) = (u32::from(area.w), u32::from(area.h));
        for k in 0..wide * high {
            let start = k as usize * size;
            let color = format.pixel(&bytes[start..start + size]);
            let pixel = Area {
                x: area.x + (k % wide) as u16,
                y: area.y + (k / wide) as u16,
                w: 1,
                h: 1,
            };
            self.fill(pixel, color);
        }
    }

    /// The same of pixels of the host's format.
    fn host_pixels(&mut self, area: Area, bytes: &[u8])
        requires within { LiesWithin (width self.old) (height self.old) area }
        requires last_column { area.x + area.w < 2 ^ 16 }
        requires last_row { area.y + area.h < 2 ^ 16 }
        requires size { length bytes.now ≡ 4 * (area.w * area.h) }
        requires held { (pixel : List ℕ) → holds (host_color pixel) }
        ensures width { width self.new ≡ width self.old }
        ensures height { height self.new ≡ height self.old }
        ensures painted { Agree (width self.old) (height self.old) (picture self.new)
            (laid_over area.x area.y area.w area.h (pixel_rows host_format area.w bytes.now) (picture self.old)) }
    {
        self.pixels(&PixelFormat::host(), area, bytes);
    }
}
