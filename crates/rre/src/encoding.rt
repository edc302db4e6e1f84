//! Encoding a rectangle.

ghost use Rattle.std.specs.Prelude.{◌≡◌, ◌+◌, ◌*◌, ◌<◌, All, IfOk, OnOk, OnErr, length, true, false};
ghost use Rattle.pixel_format.specs.Number.{number_color, IsNumber, colors_of};
ghost use Rattle.pixel_format.specs.Pixel.{IsWithin};
ghost use Rattle.terms.specs.Appending.{Appends, AppendsIf};
ghost use Rattle.rre.specs.Encoded.{Shows, IsMajority, HasFew, HasMany, IsLong};

use crate::append::append_data;
use crate::cover::{Ground, background, cover};
use pixel_format::{Color, PixelFormat, Pixels};
use std::alloc::Global;
use terms::{NoMemory, keep_below, whole_or_none};

const BLACK: Color = Color { r: 0, g: 0, b: 0 };

// The number of the background: black's if there are no pixels.
fn background_number(format: &PixelFormat, numbers: &[u32]) -> u32
    requires { All (IsNumber format.now) numbers.now }
    ensures number { IsNumber format.now result }
    ensures majority { IsMajority (colors_of format.now numbers.now) (number_color format.now result) }
{
    if numbers.is_empty() {
        return format.number_of(BLACK);
    }
    numbers[background(numbers)]
}

// Appends data of at most so many subrectangles, and answers whether they are enough. If they
// aren't, and when memory runs out, `bytes` stays as it was.
fn append_few(
    alloc: Global,
    format: &PixelFormat,
    pixels: Pixels,
    most: usize,
    bytes: &mut Vec<u8>,
) -> Result<bool, NoMemory>
    requires { All (IsNumber format.now) pixels.numbers.now }
    ensures appended { AppendsIf (Shows format.now pixels.entry.w pixels.entry.h (colors_of format.now pixels.entry.numbers.now)) bytes.old.items bytes.new.items result }
    ensures few { IfOk result (λ whole. whole ≡ true
        → HasFew format.now (colors_of format.now pixels.entry.numbers.now) (length bytes.old.items) (length bytes.new.items)) }
    ensures many { IfOk result (λ whole. whole ≡ false → HasMany (colors_of format.now pixels.entry.numbers.now) most) }
{
    let number = background_number(format, pixels.numbers);
    let ground = Ground {
        pixels,
        background: number,
        most,
    };
    let covered = cover(alloc, format, ground)?;
    let Some(parts) = covered else {
        return Ok(false);
    };
    let start = bytes.len();
    let background = format.color_of(number);
    let appended = append_data(format, background, &parts, bytes);
    whole_or_none(appended, start, bytes)?;
    Ok(true)
}

/// Appends data of a rectangle of w by h that has these colours, by rows from the top and each from
/// the left, in a format to whose maxima they keep (RFC 6143, section 7.7.3). Bits of a pixel that
/// belong to no channel are 0. Which background and which subrectangles it lists isn't promised:
/// today the background is a colour that the most pixels have if the colours are few, else one that
/// more than half of them have, if there is one; and the subrectangles are as wide, and then as
/// high, as one colour reaches. It looks at each pixel a bounded number of times. Running out of
/// memory leaves `bytes` as it was.
pub fn encode(
    alloc: Global,
    format: &PixelFormat,
    w: u16,
    h: u16,
    colors: &[Color],
    bytes: &mut Vec<u8>,
) -> Result<(), NoMemory>
    requires size { length colors.now ≡ h * w }
    requires within { All (IsWithin format.now) colors.now }
    ensures ok { OnOk result (Appends (Shows format.now w h colors.now) bytes.old.items bytes.new.items) }
    ensures err { OnErr result (bytes.new.items ≡ bytes.old.items) }
{
    let most = h as usize * w as usize;
    let numbers = format.numbers_of(alloc, colors)?;
    let pixels = Pixels {
        w,
        h,
        numbers: &numbers,
    };
    let whole = append_few(alloc, format, pixels, most, bytes)?;
    prove!(whole);
    Ok(())
}

/// Appends data of a rectangle that has these pixels, as [`encode`] does of their colours, if they
/// have fewer bytes than the limit, and answers whether they have. It stops listing subrectangles
/// once they have as many. It answers `false` only if data that list each pixel of another colour
/// than the background's by itself have as many bytes as the limit; then, and when memory runs out,
/// `bytes` stays as it was.
pub fn encode_numbers_below(
    alloc: Global,
    format: &PixelFormat,
    pixels: Pixels,
    limit: usize,
    bytes: &mut Vec<u8>,
) -> Result<bool, NoMemory>
    requires { All (IsNumber format.now) pixels.numbers.now }
    ensures appended { AppendsIf (Shows format.now pixels.entry.w pixels.entry.h (colors_of format.now pixels.entry.numbers.now)) bytes.old.items bytes.new.items result }
    ensures below { IfOk result (λ whole. whole ≡ true → length bytes.new.items < length bytes.old.items + limit) }
    ensures long { IfOk result (λ whole. whole ≡ false → IsLong format.now (colors_of format.now pixels.entry.numbers.now) limit) }
{
    let before = bytes.len();
    let most = limit / (format.bytes() + 8);
    let whole = append_few(alloc, format, pixels, most, bytes)?;
    if !whole {
        return Ok(false);
    }
    Ok(keep_below(limit, before, bytes))
}
