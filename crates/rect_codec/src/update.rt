//! Rectangles of updates, and updates of one rectangle.

ghost use Rattle.std.specs.Prelude.{◌≡◌, ◌*◌, ◌++◌, All, OnOk, OnErr, length};
ghost use Rattle.pixel_format.specs.Pixel.{IsWithin};
ghost use Rattle.terms.specs.Appending.{Appends};
ghost use Rattle.client_wire.specs.Written.{rectangle_head};
ghost use Rattle.rect_data.specs.Data.{number_of};
ghost use Rattle.rect_codec.specs.Parts.{IsUpdateFor};

use crate::parts::{Part, write_parts};
use pixel_format::{Color, PixelFormat};
use rect_data::Encoding;
use std::alloc::Global;
use terms::{Area, NoMemory, four_bytes};

/// Appends the header of a rectangle: its area, and the number of its encoding (RFC 6143, section
/// 7.6.1). Running out of memory leaves `out` as it was.
pub fn append_head(area: Area, encoding: Encoding, out: &mut Vec<u8>) -> Result<(), NoMemory>
    ensures ok { OnOk result (out.new.items ≡ out.old.items ++ rectangle_head area (number_of encoding)) }
    ensures err { OnErr result (out.new.items ≡ out.old.items) }
{
    let [x, x_low, y, y_low, w, w_low, h, h_low] = area.bytes();
    let [first, second, third, fourth] = four_bytes(encoding.number());
    out.extend_from_slice(&[
        x, x_low, y, y_low, w, w_low, h, h_low, first, second, third, fourth,
    ])
}

/// Appends a FramebufferUpdate of one rectangle (RFC 6143, section 7.6.1) that gives the pixels of
/// its area these colours, by rows from the top and each from the left, in a format to whose maxima
/// they keep. It is written in the encoding that is asked for if that makes it shorter than Raw,
/// and else, as for CopyRect, in Raw: so it never has more bytes than 16 and a pixel value for each
/// pixel. Running out of memory leaves `out` as it was.
pub fn write_update(
    alloc: Global,
    format: &PixelFormat,
    area: Area,
    colors: &[Color],
    encoding: Encoding,
    out: &mut Vec<u8>,
) -> Result<(), NoMemory>
    requires size { length colors.now ≡ area.h * area.w }
    requires within { All (IsWithin format.now) colors.now }
    ensures ok { OnOk result (Appends (IsUpdateFor format.now area colors.now encoding) out.old.items out.new.items) }
    ensures err { OnErr result (out.new.items ≡ out.old.items) }
{
    let part = Part::Colors {
        area,
        colors,
        encoding,
    };
    write_parts(alloc, format, &[part], out)
}
