//! Writing the data of a tile.

ghost use Rattle.std.specs.Prelude.{◌≡◌, ℕ, ◌+◌, ◌*◌, ◌<◌, ◌≤◌, [], ◌∷◌, ◌++◌, length, map, All, OnOk, if◌then◌else◌};
ghost use Rattle.pixel_format.specs.Format.{pixel_bytes};
ghost use Rattle.pixel_format.specs.Pixel.{IsWithin, pixel_of};
ghost use Rattle.terms.specs.Appending.{Appends, Grows};
ghost use Rattle.std.specs.List.{flat_map};
ghost use Rattle.pixel_format.specs.Number.{IsNumber, colors_of};
ghost use Rattle.hextile.specs.Grammar.{mask_of};
ghost use Rattle.hextile.specs.Data.{IsPixelIf, AreBytesOf, AreSubrectangles, IsHead, AreRaw};
ghost use Rattle.hextile.specs.Encoded.{shown_if, drawn, pixel_if, part_bytes, mask_number, parts_tile_bytes, IsPart, IsWritten};

use crate::cover::Part;
use crate::fields::Mask;
use pixel_format::{Color, PixelFormat};
use terms::NoMemory;

/// The colours that the tiles after a tile need not name again. That they aren't named is tested
/// alone; by contract the data show the colours, whichever are named.
#[derive(Clone, Copy)]
pub(crate) struct Known {
    pub background: Option<Color>,
    pub foreground: Option<Color>,
}

// The byte of a mask.
fn byte_of(mask: Mask) -> u8
    ensures mask { mask_of result ≡ mask }
    ensures known { result < 32 }
    ensures number { result ≡ mask_number mask }
{
    mask.raw as u8
        + 2 * mask.background as u8
        + 4 * mask.foreground as u8
        + 8 * mask.subrectangles as u8
        + 16 * mask.colored as u8
}

// Appends the pixel of a colour, if it is to be there.
fn append_pixel_if(
    there: bool,
    format: &PixelFormat,
    color: Color,
    bytes: &mut Vec<u8>,
) -> Result<(), NoMemory>
    requires { IsWithin format.now color }
    ensures ok { OnOk result (Appends (IsPixelIf format.now there (shown_if there color)) bytes.old.items bytes.new.items) }
    ensures written { OnOk result (bytes.new.items ≡ bytes.old.items ++ pixel_if format.now (shown_if there color)) }
    ensures grows { Grows bytes.old.items bytes.new.items }
{
    if there {
        return format.append_pixel(color, bytes);
    }
    Ok(())
}

/// Appends what stands between a mask and the subrectangles. Running out of memory may leave some
/// of the bytes.
fn append_head(
    format: &PixelFormat,
    mask: Mask,
    background: Color,
    foreground: Color,
    count: u8,
    bytes: &mut Vec<u8>,
) -> Result<(), NoMemory>
    requires background { IsWithin format.now background }
    requires foreground { IsWithin format.now foreground }
    ensures ok { OnOk result (Appends (IsHead format.now mask (shown_if mask.background background) (shown_if mask.foreground foreground)
        (if mask.subrectangles then count else 0)) bytes.old.items bytes.new.items) }
    ensures written { OnOk result (bytes.new.items ≡ bytes.old.items ++ (pixel_if format.now (shown_if mask.background background)
        ++ (pixel_if format.now (shown_if mask.foreground foreground) ++ (if mask.subrectangles then count ∷ [] else [])))) }
    ensures grows { Grows bytes.old.items bytes.new.items }
{
    append_pixel_if(mask.background, format, background, bytes)?;
    append_pixel_if(mask.foreground, format, foreground, bytes)?;
    if mask.subrectangles {
        bytes.push(count)?;
    }
    Ok(())
}

// Appends a part as a subrectangle.
fn append_part(
    format: &PixelFormat,
    colored: bool,
    part: Part,
    bytes: &mut Vec<u8>,
) -> Result<(), NoMemory>
    requires { IsPart format.now 16 16 part }
    ensures ok { OnOk result (Appends (AreBytesOf format.now colored (drawn colored part)) bytes.old.items bytes.new.items) }
    ensures written { OnOk result (bytes.new.items ≡ bytes.old.items ++ part_bytes format.now (drawn colored part)) }
    ensures grows { Grows bytes.old.items bytes.new.items }
{
    append_pixel_if(colored, format, part.color, bytes)?;
    bytes.extend_from_slice(&[part.x * 16 + part.y, (part.w - 1) * 16 + (part.h - 1)])
}

// Appends parts as subrectangles.
fn append_parts(
    format: &PixelFormat,
    colored: bool,
    parts: &[Part],
    bytes: &mut Vec<u8>,
) -> Result<(), NoMemory>
    requires { All (IsPart format.now 16 16) parts.now }
    ensures ok { OnOk result ((w h : ℕ) → All (IsPart format.now w h) parts.now
        → Appends (AreSubrectangles format.now colored w h (map (drawn colored) parts.now)) bytes.old.items bytes.new.items) }
    ensures written { OnOk result (bytes.new.items ≡ bytes.old.items ++ flat_map (part_bytes format.now) (map (drawn colored) parts.now)) }
    ensures grows { Grows bytes.old.items bytes.new.items }
{
    for part in parts {
        append_part(format, colored, *part, bytes)?;
    }
    Ok(())
}

/// Appends a tile of parts over a background. Running out of memory may leave some of the bytes.
pub(crate) fn append_parts_tile(
    format: &PixelFormat,
    mask: Mask,
    background: Color,
    foreground: Color,
    parts: &[Part],
    bytes: &mut Vec<u8>,
) -> Result<(), NoMemory>
    requires background { IsWithin format.now background }
    requires foreground { IsWithin format.now foreground }
    requires parts { All (IsPart format.now 16 16) parts.now }
    requires count { length parts.now < 256 }
    ensures ok { OnOk result ((w h : ℕ) → All (IsPart format.now w h) parts.now
        → Appends (IsWritten format.now w h mask background foreground parts.now) bytes.old.items bytes.new.items) }
    ensures written { OnOk result (bytes.new.items ≡ bytes.old.items ++ parts_tile_bytes format.now mask background foreground parts.now) }
    ensures grows { Grows bytes.old.items bytes.new.items }
{
    bytes.push(byte_of(mask))?;
    append_head(
        format,
        mask,
        background,
        foreground,
        parts.len() as u8,
        bytes,
    )?;
    append_parts(format, mask.colored, parts, bytes)?;
    Ok(())
}

/// Appends a raw tile. Running out of memory may leave some of the bytes.
pub(crate) fn append_raw_tile(
    format: &PixelFormat,
    numbers: &[u32],
    bytes: &mut Vec<u8>,
) -> Result<(), NoMemory>
    requires { All (IsNumber format.now) numbers.now }
    ensures ok { OnOk result ((w h : ℕ) → length numbers.now ≡ w * h
        → Appends (AreRaw format.now w h (colors_of format.now numbers.now)) bytes.old.items bytes.new.items) }
    ensures written { OnOk result (bytes.new.items ≡ bytes.old.items ++ 1 ∷ flat_map (pixel_of format.now) (colors_of format.now numbers.now)) }
    ensures grows { Grows bytes.old.items bytes.new.items }
{
    bytes.push(1)?;
    format.append_numbers(numbers, bytes)?;
    Ok(())
}
