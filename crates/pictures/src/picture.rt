//! A screen as a picture file.

ghost use Rattle.std.specs.Prelude.{OnOk};
ghost use Rattle.std.specs.Io.KnownBytes.{Appends};
ghost use Rattle.painter.specs.Framebuffer.{color_at};
ghost use Rattle.pictures.specs.Pictures.{Fits, picture_text};

use crate::plain::{PlainFormat, write_plain};
use crate::png::write_png;
use painter::Screen;
use std::alloc::Global;
use std::io;
use std::io::Write;

/// The format of a picture file.
#[derive(Clone, Copy, Debug, PartialEq, Eq)]
pub enum PictureFormat {
    /// Portable pixmap, its binary form `P6`: three bytes a pixel, by rows from the top.
    Ppm,
    /// Windows bitmap without compression, 32 bits a pixel, by rows from the bottom.
    Bmp,
    /// Portable network graphics without compression, 24 bits a pixel.
    Png,
}

/// Writes a screen as a picture file: all of it if the answer is `Ok`. It takes memory for one row,
/// for PNG for two. An error is the writer's, that memory ran out, or `InvalidInput` for a BMP of
/// 2^32 bytes or more; a part of the file may have been written then.
pub fn write_picture<W: Write>(
    alloc: Global,
    screen: &Screen,
    format: PictureFormat,
    out: &mut W,
) -> io::Result<()>
    ensures all { OnOk result (Appends (W.contents out.old) (W.contents out.new)
        (picture_text format screen.now.width screen.now.height (color_at screen.now))) }
    ensures fits { OnOk result (Fits format screen.now.width screen.now.height) }
{
    match format {
        PictureFormat::Ppm => write_plain(alloc, screen, PlainFormat::Ppm, out),
        PictureFormat::Bmp => write_plain(alloc, screen, PlainFormat::Bmp, out),
        PictureFormat::Png => write_png(alloc, screen, out),
    }
}
