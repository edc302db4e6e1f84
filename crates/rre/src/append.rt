//! Writing the data of a rectangle.

ghost use Rattle.std.specs.Prelude.{◌≡◌, ◌<◌, ◌≤◌, ◌^◌, ◌+◌, ◌++◌, All, OnOk, OnErr, length};
ghost use Rattle.pixel_format.specs.Format.{pixel_bytes};
ghost use Rattle.pixel_format.specs.Pixel.{IsWithin, pixel_of};
ghost use Rattle.terms.specs.Number.{u32_at};
ghost use Rattle.terms.specs.Appending.{Appends, Grows};
ghost use Rattle.std.specs.Int.{bytes_high_first};
ghost use Rattle.std.specs.List.{flat_map};
ghost use Rattle.rre.specs.Data.{AreBytesOf};
ghost use Rattle.rre.specs.Encoded.{IsAreaOf, AreBytesOfAll, IsWritten, area_bytes, part_bytes, data_bytes};

use crate::data::Subrectangle;
use pixel_format::{Color, PixelFormat};
use terms::{NoMemory, four_bytes, two_bytes};

// The x, y, width and height of a subrectangle, in two bytes each.
fn area_of(part: Subrectangle) -> [u8; 8]
    ensures numbers { IsAreaOf part result }
    ensures bytes { result ≡ area_bytes part }
{
    let [x, x_low] = two_bytes(part.x);
    let [y, y_low] = two_bytes(part.y);
    let [w, w_low] = two_bytes(part.w);
    let [h, h_low] = two_bytes(part.h);
    [x, x_low, y, y_low, w, w_low, h, h_low]
}

// Appends a subrectangle: its pixel, its corner and its size.
fn append_part(
    format: &PixelFormat,
    part: Subrectangle,
    bytes: &mut Vec<u8>,
) -> Result<(), NoMemory>
    requires { IsWithin format.now part.color }
    ensures ok { OnOk result (Appends (AreBytesOf format.now part) bytes.old.items bytes.new.items) }
    ensures written { OnOk result (bytes.new.items ≡ bytes.old.items ++ part_bytes format.now part) }
    ensures grows { Grows bytes.old.items bytes.new.items }
{
    format.append_pixel(part.color, bytes)?;
    bytes.extend_from_slice(&area_of(part))?;
    Ok(())
}

fn append_parts(
    format: &PixelFormat,
    parts: &[Subrectangle],
    bytes: &mut Vec<u8>,
) -> Result<(), NoMemory>
    requires { All (λ s. IsWithin format.now s.color) parts.now }
    ensures ok { OnOk result (Appends (AreBytesOfAll format.now parts.now) bytes.old.items bytes.new.items) }
    ensures written { OnOk result (bytes.new.items ≡ bytes.old.items ++ flat_map (part_bytes format.now) parts.now) }
    ensures grows { Grows bytes.old.items bytes.new.items }
{
    for part in parts {
        append_part(format, *part, bytes)?;
    }
    Ok(())
}

// How many subrectangles there are, in four bytes.
fn count_of(parts: &[Subrectangle]) -> [u8; 4]
    requires { length parts.now < 2 ^ 32 }
    ensures size { length result ≡ 4 }
    ensures value { u32_at result 0 ≡ length parts.now }
    ensures bytes { result ≡ bytes_high_first 4 (length parts.now) }
{
    four_bytes(parts.len() as u32)
}

/// Appends the data of a background and subrectangles. Running out of memory may leave some of the
/// bytes.
pub(crate) fn append_data(
    format: &PixelFormat,
    background: Color,
    parts: &[Subrectangle],
    bytes: &mut Vec<u8>,
) -> Result<(), NoMemory>
    requires background { IsWithin format.now background }
    requires parts { All (λ s. IsWithin format.now s.color) parts.now }
    requires few { length parts.now < 2 ^ 32 }
    ensures ok { OnOk result (Appends (IsWritten format.now background parts.now) bytes.old.items bytes.new.items) }
    ensures written { OnOk result (bytes.new.items ≡ bytes.old.items
        ++ data_bytes format.now (record { background = background; subrectangles = parts.now })) }
    ensures grows { Grows bytes.old.items bytes.new.items }
{
    bytes.extend_from_slice(&count_of(parts))?;
    format.append_pixel(background, bytes)?;
    append_parts(format, parts, bytes)?;
    Ok(())
}
