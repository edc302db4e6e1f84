//! Rectangles of pixels that are numbers.

ghost use Rattle.std.specs.Prelude.{◌≡◌, ◌+◌, ◌*◌, ◌<◌, All, IfOk, OnOk, OnErr, length, true};
ghost use Rattle.pixel_format.specs.Format.{pixel_bytes};
ghost use Rattle.pixel_format.specs.Number.{colors_of, IsNumber};
ghost use Rattle.terms.specs.Appending.{Appends, AppendsIf};
ghost use Rattle.rect_codec.specs.Written.{Shows};
ghost use Rattle.rect_codec.specs.Parts.{IsRectangle, IsRectangleFor};

use crate::update::append_head;
use pixel_format::{PixelFormat, Pixels};
use rect_data::Encoding;
use std::alloc::Global;
use terms::{Area, NoMemory, whole_or_none};

// Appends the data of a rectangle in this encoding if they are shorter than in Raw, and answers
// whether they are: in Raw and CopyRect they never are. If they aren't, and when memory runs out,
// `out` stays as it was.
fn append_data(
    alloc: Global,
    format: &PixelFormat,
    encoding: Encoding,
    pixels: Pixels,
    out: &mut Vec<u8>,
) -> Result<bool, NoMemory>
    requires { All (IsNumber format.now) pixels.numbers.now }
    ensures appended { AppendsIf (Shows encoding format.now pixels.entry.w pixels.entry.h (colors_of format.now pixels.entry.numbers.now)) out.old.items out.new.items result }
    ensures short { IfOk result (λ whole. whole ≡ true → length out.new.items < length out.old.items + pixels.entry.h * pixels.entry.w * pixel_bytes format.now) }
{
    let limit = pixels.numbers.len() * format.bytes();
    match encoding {
        Encoding::Rre => rre::encode_numbers_below(alloc, format, pixels, limit, out),
        Encoding::Hextile => hextile::encode_numbers_below(format, pixels, limit, out),
        Encoding::Raw | Encoding::CopyRect => Ok(false),
    }
}

/// Appends a rectangle in this encoding that gives its area these pixels, by rows, if the encoder
/// comes out shorter than Raw, and answers whether it is there: in Raw and CopyRect it never is. What
/// is appended is no longer than in Raw; that no shorter one is passed over is in no clause. If
/// nothing is appended, and when memory runs out, `out` stays as it was.
pub fn append_numbers(
    alloc: Global,
    format: &PixelFormat,
    area: Area,
    numbers: &[u32],
    encoding: Encoding,
    out: &mut Vec<u8>,
) -> Result<bool, NoMemory>
    requires size { length numbers.now ≡ area.h * area.w }
    requires numbers { All (IsNumber format.now) numbers.now }
    ensures { AppendsIf (IsRectangleFor format.now area (colors_of format.now numbers.now) encoding) out.old.items out.new.items result }
{
    let start = out.len();
    append_head(area, encoding, out)?;
    let pixels = Pixels {
        w: area.w,
        h: area.h,
        numbers,
    };
    let written = append_data(alloc, format, encoding, pixels, out);
    if let Ok(true) = written {
        return written;
    }
    out.truncate(start);
    written
}

/// Appends a rectangle in Raw that gives its area these pixels, by rows. Running out of memory
/// leaves `out` as it was.
pub(crate) fn append_raw(
    format: &PixelFormat,
    area: Area,
    numbers: &[u32],
    out: &mut Vec<u8>,
) -> Result<(), NoMemory>
    requires size { length numbers.now ≡ area.h * area.w }
    requires numbers { All (IsNumber format.now) numbers.now }
    ensures ok { OnOk result (Appends (IsRectangle format.now area (colors_of format.now numbers.now) Encoding.Raw) out.old.items out.new.items) }
    ensures err { OnErr result (out.new.items ≡ out.old.items) }
{
    let start = out.len();
    append_head(area, Encoding::Raw, out)?;
    let appended = format.append_numbers(numbers, out);
    whole_or_none(appended, start, out)
}
