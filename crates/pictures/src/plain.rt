//! A screen as a PPM or a BMP file, in which its pixels stand as they are.

ghost use Rattle.std.specs.Prelude.{◌≡◌, ◌<◌, ◌++◌, OnOk};
ghost use Rattle.std.specs.Io.KnownBytes.{Appends};
ghost use Rattle.painter.specs.Framebuffer.{color_at};
ghost use Rattle.pictures.specs.declared.plain.PlainFormat.TheVariants.{Bmp};
ghost use Rattle.pictures.specs.Plain.{FitsIn, bmp_head, four_bytes, head_text, pixel_text, plain_text, ppm_head, row_at, row_text, two_bytes};

use byteorder::{ByteOrder, LittleEndian};
use painter::Screen;
use pixel_format::Color;
use std::alloc::Global;
use std::io;
use std::io::Write;
use terms::{NoMemory, ScreenSize};

/// A format without compression.
#[derive(Clone, Copy)]
pub enum PlainFormat {
    /// Portable pixmap, its binary form `P6`: three bytes a pixel, by rows from the top.
    Ppm,
    /// Windows bitmap without compression, 32 bits a pixel, by rows from the bottom.
    Bmp,
}

/// How many bytes stand before the pixels of a BMP file.
const BMP_HEAD: u64 = 54;

// A number in two bytes, the lower first.
fn two_bytes(n: u16) -> [u8; 2]
    ensures { result ≡ two_bytes n }
{
    let mut bytes = [0; 2];
    LittleEndian::write_u16(&mut bytes, n);
    bytes
}

// A number in four bytes, the lowest first.
fn four_bytes(n: u32) -> [u8; 4]
    ensures { result ≡ four_bytes n }
{
    let mut bytes = [0; 4];
    LittleEndian::write_u32(&mut bytes, n);
    bytes
}

// Appends what stands before the pixels of a PPM file.
fn append_ppm_head(alloc: Global, size: ScreenSize, out: &mut Vec<u8>) -> io::Result<()>
    ensures { OnOk result (out.new.items ≡ out.old.items ++ ppm_head size.width size.height) }
{
    let across = size.width.to_string(alloc)?;
    let down = size.height.to_string(alloc)?;
    out.extend_from_slice(b"P6\n")?;
    out.extend_from_slice(across.as_bytes())?;
    out.extend_from_slice(b" ")?;
    out.extend_from_slice(down.as_bytes())?;
    out.extend_from_slice(b"\n255\n")?;
    Ok(())
}

// Appends what stands before the pixels of a BMP file: the file's header and BITMAPINFOHEADER.
// A picture that is longer than its four bytes say is refused.
fn append_bmp_head(size: ScreenSize, out: &mut Vec<u8>) -> io::Result<()>
    ensures head { OnOk result (out.new.items ≡ out.old.items ++ bmp_head size.width size.height) }
    ensures fits { OnOk result (FitsIn Bmp size.width size.height) }
{
    let pixels = 4 * u64::from(size.width) * u64::from(size.height);
    let Ok(length) = u32::try_from(BMP_HEAD + pixels) else {
        return Err(io::ErrorKind::InvalidInput.into());
    };
    out.extend_from_slice(b"BM")?;
    out.extend_from_slice(&four_bytes(length))?;
    out.extend_from_slice(&four_bytes(0))?;
    out.extend_from_slice(&four_bytes(BMP_HEAD as u32))?;
    out.extend_from_slice(&four_bytes(40))?;
    out.extend_from_slice(&four_bytes(u32::from(size.width)))?;
    out.extend_from_slice(&four_bytes(u32::from(size.height)))?;
    out.extend_from_slice(&two_bytes(1))?;
    out.extend_from_slice(&two_bytes(32))?;
    out.extend_from_slice(&four_bytes(0))?;
    out.extend_from_slice(&four_bytes(pixels as u32))?;
    out.extend_from_slice(&[0; 16])?;
    Ok(())
}

// Appends what stands before the pixels.
fn append_head(
    alloc: Global,
    format: PlainFormat,
    size: ScreenSize,
    out: &mut Vec<u8>,
) -> io::Result<()>
    ensures head { OnOk result (out.new.items ≡ out.old.items ++ head_text format size.width size.height) }
    ensures fits { OnOk result (FitsIn format size.width size.height) }
{
    match format {
        PlainFormat::Ppm => append_ppm_head(alloc, size, out),
        PlainFormat::Bmp => append_bmp_head(size, out),
    }
}

// Appends a pixel.
fn append_pixel(format: PlainFormat, color: Color, out: &mut Vec<u8>) -> Result<(), NoMemory>
    requires r { color.r < 256 }
    requires g { color.g < 256 }
    requires b { color.b < 256 }
    ensures { OnOk result (out.new.items ≡ out.old.items ++ pixel_text format color) }
{
    let (r, g, b) = (color.r as u8, color.g as u8, color.b as u8);
    match format {
        PlainFormat::Ppm => out.extend_from_slice(&[r, g, b])?,
        PlainFormat::Bmp => out.extend_from_slice(&[b, g, r, 0])?,
    }
    Ok(())
}

/// Appends the pixels of a row.
pub fn append_row(
    format: PlainFormat,
    screen: &Screen,
    y: u16,
    out: &mut Vec<u8>,
) -> Result<(), NoMemory>
    requires { y < screen.now.height }
    ensures { OnOk result (out.new.items ≡ out.old.items ++ row_text format (color_at screen.now) y 0 screen.now.width) }
{
    let size = screen.size();
    for x in 0..size.width {
        append_pixel(format, screen.color(x, y), out)?;
    }
    Ok(())
}

// Which row of so many stands at a position among the rows of a file.
fn row_of(format: PlainFormat, height: u16, slot: u16) -> u16
    requires { slot < height }
    ensures value { result ≡ row_at format height slot }
    ensures within { result < height }
{
    match format {
        PlainFormat::Ppm => slot,
        PlainFormat::Bmp => height - 1 - slot,
    }
}

/// Writes a screen as such a file, whose length its format can say. It takes memory for one row.
pub fn write_plain<W: Write>(
    alloc: Global,
    screen: &Screen,
    format: PlainFormat,
    out: &mut W,
) -> io::Result<()>
    ensures all { OnOk result (Appends (W.contents out.old) (W.contents out.new)
        (plain_text format screen.now.width screen.now.height (color_at screen.now))) }
    ensures fits { OnOk result (FitsIn format screen.now.width screen.now.height) }
{
    let size = screen.size();
    let mut row = Vec::new(alloc);
    append_head(alloc, format, size, &mut row)?;
    out.write_all(&row)?;
    for slot in 0..size.height {
        row.clear();
        append_row(format, screen, row_of(format, size.height, slot), &mut row)?;
        out.write_all(&row)?;
    }
    Ok(())
}
