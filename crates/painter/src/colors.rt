//! Reading the colours of areas.

ghost use Rattle.std.specs.Prelude.{◌≡◌, ◌+◌, ◌*◌, ◌<◌, ℕ, OnOk, OnErr, length};
ghost use Rattle.pixel_format.specs.Pixel.{IsScreenColor};
ghost use Rattle.pixel_format.specs.Canvas.{nth};
ghost use Rattle.terms.specs.Area.{LiesWithin};
ghost use Rattle.painter.specs.Framebuffer.{color_at, AppendsColors};
ghost use Rattle.painter.specs.Pixels.{pixel_color_at};

use crate::pixel::{BLACK, Pixel};
use crate::reading::Rows;
use crate::row::color_of_pixel;
use pixel_format::Color;
use terms::{Area, NoMemory};

// The colours of a row of pixels.
fn read_row(pixels: &[Pixel], colors: &mut [Color])
    requires { length pixels.now ≡ length colors.old }
    ensures value { (k : ℕ) → k < length colors.old → nth colors.new k ≡ pixel_color_at pixels.now k }
    ensures screen { (k : ℕ) → k < length colors.old → IsScreenColor (nth colors.new k) }
{
    for (k, color) in colors.iter_mut().enumerate() {
        *color = color_of_pixel(pixels[k]);
    }
}

// The colours of the pixels of an area, row by row.
fn read_area<R: Rows>(rows: &R, area: Area, colors: &mut [Color])
    requires area { LiesWithin (R.shown rows.now).width (R.shown rows.now).height area }
    requires size { length colors.old ≡ area.h * area.w }
    ensures value { (x y : ℕ) → x < area.w → y < area.h → nth colors.new (y * area.w + x)
        ≡ color_at (R.shown rows.now) (area.x + x) (area.y + y) }
    ensures screen { (k : ℕ) → k < length colors.old → IsScreenColor (nth colors.new k) }
{
    let w = usize::from(area.w);
    for row in 0..usize::from(area.h) {
        let from = row * w;
        read_row(rows.row(area, row), &mut colors[from..from + w]);
    }
}

/// Appends the colours of the pixels of an area, by rows from the top and each from the left.
/// Running out of memory leaves `out` as it was.
pub(crate) fn append_colors<R: Rows>(
    rows: &R,
    area: Area,
    out: &mut Vec<Color>,
) -> Result<(), NoMemory>
    requires within { LiesWithin (R.shown rows.now).width (R.shown rows.now).height area }
    ensures ok { OnOk result (AppendsColors (R.shown rows.now) area out.old.items out.new.items) }
    ensures err { OnErr result (out.new.items ≡ out.old.items) }
{
    let start = out.len();
    let slots = usize::from(area.h) * usize::from(area.w);
    out.resize(start + slots, color_of_pixel(BLACK))?;
    read_area(rows, area, &mut out[start..]);
    Ok(())
}
