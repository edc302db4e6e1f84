//! Painting a rectangle.

ghost use Rattle.std.specs.Prelude.{◌≡◌, ℕ, List, ◌<◌, ◌+◌, ◌^◌};
ghost use Rattle.pixel_format.specs.Pixel.{pixel_color};
ghost use Rattle.pixel_format.specs.Canvas.{Agree};
ghost use Rattle.terms.specs.Area.{LiesWithin};
ghost use Rattle.rre.specs.Grammar.{Content};
ghost use Rattle.rre.specs.Data.{IsData, AreData};
ghost use Rattle.rre.specs.Picture.{painted_over};

use crate::data::read_subrectangle;
use pixel_format::{Canvas, PixelFormat};
use terms::Area;

/// Paints a rectangle of this area of the canvas from its data: the bytes that
/// [`measure`](crate::measure) takes whole (RFC 6143, section 7.7.3). The other pixels stay as they
/// were. The canvas can have the colours of the format's pixels. It takes no memory.
pub fn paint<C: Canvas>(format: &PixelFormat, area: Area, bytes: &[u8], canvas: &mut C)
    requires whole { AreData format.now area.w area.h bytes.now }
    requires within { LiesWithin (C.width canvas.old) (C.height canvas.old) area }
    requires last_column { area.x + area.w < 2 ^ 16 }
    requires last_row { area.y + area.h < 2 ^ 16 }
    requires held { (pixel : List ℕ) → C.holds (pixel_color format.now pixel) }
    ensures width { C.width canvas.new ≡ C.width canvas.old }
    ensures height { C.height canvas.new ≡ C.height canvas.old }
    ensures painted { (content : Content) → IsData format.now area.w area.h bytes.now content
        → Agree (C.width canvas.old) (C.height canvas.old) (C.picture canvas.new)
        (painted_over area.x area.y area.w area.h content (C.picture canvas.old)) }
{
    let (head, mut rest) = bytes.split_at(4 + format.bytes());
    canvas.fill(area, format.pixel(&head[4..]));
    while !rest.is_empty() {
        let (field, following) = rest.split_at(format.bytes() + 8);
        let part = read_subrectangle(format, field);
        let filled = Area {
            x: area.x + part.x,
            y: area.y + part.y,
            w: part.w,
            h: part.h,
        };
        canvas.fill(filled, part.color);
        rest = following;
    }
}
