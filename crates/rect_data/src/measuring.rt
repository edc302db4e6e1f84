//! The length of data that are there as a whole.

ghost use Rattle.std.specs.Prelude.{◌≡◌, ℕ, ◌≤◌, List, length, take, Ok, IfOk, IfSome};
ghost use Rattle.rect_data.specs.Grammar.{raw_at, copy_at, data_at, measured, length_as};
ghost use Rattle.rect_data.specs.Data.{AreData};

use crate::encoding::Encoding;
use crate::fields::{lies_inside, source_at};
use pixel_format::PixelFormat;
use terms::{Area, NoLength, ScreenSize, WireFault};

// The length of Raw data.
fn measure_raw(format: &PixelFormat, area: Area, bytes: &[u8]) -> Option<usize>
    ensures { Ok result ≡ measured (length bytes.now) (raw_at format.now area bytes.now) }
{
    let length = format.bytes() * (area.w as usize * area.h as usize);
    if bytes.len() < length {
        return None;
    }
    Some(length)
}

// The length of CopyRect data.
fn measure_copy(size: ScreenSize, area: Area, bytes: &[u8]) -> Result<Option<usize>, WireFault>
    ensures { result ≡ measured (length bytes.now) (copy_at size.width size.height area bytes.now) }
{
    if bytes.len() < 4 {
        return Ok(None);
    }
    if !lies_inside(source_at(area, &bytes[..4]), size) {
        return Err(WireFault::SourceOutside);
    }
    Ok(Some(4))
}

// What a codec says of the length of its data, with the fault by which they are refused here.
fn refused_by(fault: WireFault, length: Result<usize, NoLength>) -> Result<Option<usize>, WireFault>
    ensures { result ≡ length_as fault length }
{
    match length {
        Ok(length) => Ok(Some(length)),
        Err(NoLength::NeedMore) => Ok(None),
        Err(NoLength::Bad) => Err(fault),
    }
}

/// The length of the data that begin the bytes, of a rectangle of this area on a screen of this
/// size (RFC 6143, section 7.7); `None` if they are too few. A fault is that of the first field
/// that is refused: `BadRre`, `BadHextile`, or `SourceOutside`. It takes no memory.
pub fn measure(
    format: &PixelFormat,
    size: ScreenSize,
    encoding: Encoding,
    area: Area,
    bytes: &[u8],
) -> Result<Option<usize>, WireFault>
    ensures value { result ≡ measured (length bytes.now) (data_at format.now size.width size.height encoding area bytes.now) }
    ensures whole { IfOk result (λ o. IfSome o (λ n. (n ≤ length bytes.now) × AreData format.now size.width size.height encoding area (take n bytes.now))) }
{
    match encoding {
        Encoding::Raw => Ok(measure_raw(format, area, bytes)),
        Encoding::CopyRect => measure_copy(size, area, bytes),
        Encoding::Rre => {
            let length = rre::measure(format, area.w, area.h, bytes);
            refused_by(WireFault::BadRre, length)
        }
        Encoding::Hextile => {
            let length = hextile::measure(format, area.w, area.h, bytes);
            refused_by(WireFault::BadHextile, length)
        }
    }
}
