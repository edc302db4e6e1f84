//! A screen as a PNG file.

ghost use Rattle.std.specs.Prelude.{◌≡◌, ◌<◌, ◌++◌, ℕ, List, OnOk, IfOk, length};
ghost use Rattle.std.specs.Io.KnownBytes.{Appends};
ghost use Rattle.painter.specs.Framebuffer.{color_at};
ghost use Rattle.pixel_format.specs.Canvas.{Picture};
ghost use Rattle.pictures.specs.Checksums.{adler32, first_sum, second_sum};
ghost use Rattle.pictures.specs.Png.{image_header, png_text, row_chunks, scanline, scanlines, zlib_end};

use crate::checksum::{Adler, CrcTable};
use crate::chunk::{append_stored, write_chunk};
use crate::plain::{PlainFormat, append_row};
use painter::Screen;
use std::alloc::Global;
use std::io;
use std::io::Write;
use terms::{NoMemory, ScreenSize, four_bytes};

// The data of the first chunk.
fn image_header(size: ScreenSize) -> [u8; 13]
    ensures { result ≡ image_header size.width size.height }
{
    let w = four_bytes(u32::from(size.width));
    let h = four_bytes(u32::from(size.height));
    [
        w[0], w[1], w[2], w[3], h[0], h[1], h[2], h[3], 8, 2, 0, 0, 0,
    ]
}

// The data of the last chunk of pixels.
fn zlib_end(checksum: u32) -> [u8; 9]
    ensures { (rows : List ℕ) → checksum ≡ adler32 rows → result ≡ zlib_end rows }
{
    let sum = four_bytes(checksum);
    [1, 0, 0, 255, 255, sum[0], sum[1], sum[2], sum[3]]
}

// Appends a row with its filter type.
fn append_scanline(screen: &Screen, y: u16, out: &mut Vec<u8>) -> Result<(), NoMemory>
    requires { y < screen.now.height }
    ensures { OnOk result (out.new.items ≡ out.old.items ++ scanline (color_at screen.now) screen.now.width y) }
{
    out.push(0)?;
    append_row(PlainFormat::Ppm, screen, y, out)
}

// Writes all rows, and answers the sums of their bytes.
fn write_rows<W: Write>(
    alloc: Global,
    table: &CrcTable,
    screen: &Screen,
    out: &mut W,
) -> io::Result<Adler>
    ensures rows { OnOk result (Appends (W.contents out.old) (W.contents out.new) (row_chunks (color_at screen.now) screen.now.width 0 screen.now.height)) }
    ensures first { IfOk result (λ sums. sums.first ≡ first_sum (scanlines (color_at screen.now) screen.now.width 0 screen.now.height)) }
    ensures second { IfOk result (λ sums. sums.second ≡ second_sum (scanlines (color_at screen.now) screen.now.width 0 screen.now.height)) }
{
    let size = screen.size();
    let mut sums = Adler::new();
    let mut row = Vec::new(alloc);
    let mut blocks = Vec::new(alloc);
    for y in 0..size.height {
        row.clear();
        append_scanline(screen, y, &mut row)?;
        sums.add(&row);
        blocks.clear();
        append_stored(&row, &mut blocks)?;
        write_chunk(table, b"IDAT", &blocks, out)?;
    }
    Ok(sums)
}

/// Writes a screen as a PNG file, with the rows in stored blocks. It takes memory for two rows.
pub fn write_png<W: Write>(alloc: Global, screen: &Screen, out: &mut W) -> io::Result<()>
    ensures { OnOk result (Appends (W.contents out.old) (W.contents out.new) (png_text screen.now.width screen.now.height (color_at screen.now))) }
{
    let table = CrcTable::new(alloc)?;
    out.write_all(b"\x89PNG\r\n\x1a\n")?;
    write_chunk(&table, b"IHDR", &image_header(screen.size()), out)?;
    write_chunk(&table, b"IDAT", &[0x78, 0x01], out)?;
    let sums = write_rows(alloc, &table, screen, out)?;
    write_chunk(&table, b"IDAT", &zlib_end(sums.value()), out)?;
    write_chunk(&table, b"IEND", &[], out)?;
    Ok(())
}

/// How many bytes the PNG file of a screen has.
pub fn png_length(size: ScreenSize) -> u64
    ensures { (picture : Picture) → length (png_text size.width size.height picture) ≡ result }
{
    let row = 1 + 3 * u64::from(size.width);
    let blocks = row.div_ceil(65_535);
    let chunk = 12 + 5 * blocks + row;
    8 + 25 + 14 + u64::from(size.height) * chunk + 21 + 12
}
