//! Reading a picture row by row, however its pixels are kept.

ghost use Rattle.std.specs.Prelude.{◌≡◌, ◌↔◌, ◌<◌, IsTrue, length, map};
ghost use Rattle.terms.specs.Area.{LiesWithin};
ghost use Rattle.terms.specs.declared.area.Area.{Area};
ghost use Rattle.painter.specs.Framebuffer.{Framebuffer, AgreeIn, AreColorsOf};
ghost use Rattle.painter.specs.Pixels.{color_of};
ghost use Rattle.painter.specs.Sent.{row_colors, area_colors};

use crate::pixel::Pixel;
use terms::Area;

/// A picture whose pixels are read by rows.
pub(crate) trait Rows {
    /// What it shows.
    ghost shown: { Self → Framebuffer };

    /// Which colours `area_colors` are: those of the pixels of an area, by rows. (It does nothing.)
    fn known_rows(&self)
        ensures { (area : Area) → LiesWithin (shown self.now).width (shown self.now).height area
            → AreColorsOf (shown self.now) area (area_colors (shown self.now) area) };

    /// The pixels of a row of an area, counted from its top.
    fn row(&self, area: Area, row: usize) -> &[Pixel]
        requires within { LiesWithin (shown self.now).width (shown self.now).height area }
        requires row { row < area.h }
        ensures length { length result.now ≡ area.w }
        ensures colors { map color_of result.now ≡ row_colors (shown self.now) area row };
}

/// Whether two pictures have the same colour at each pixel of an area.
pub(crate) fn same_colors<R: Rows>(one: &R, other: &R, area: Area) -> bool
    requires one { LiesWithin (R.shown one.now).width (R.shown one.now).height area }
    requires other { LiesWithin (R.shown other.now).width (R.shown other.now).height area }
    ensures { IsTrue result ↔ AgreeIn area (R.shown one.now) (R.shown other.now) }
{
    for row in 0..usize::from(area.h) {
        if one.row(area, row) != other.row(area, row) {
            return false;
        }
    }
    true
}
