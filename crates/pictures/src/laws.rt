//! What follows from the definitions.

ghost use Rattle.std.specs.Prelude.{◌≡◌, ◌<◌, codes};
ghost use Rattle.pixel_format.specs.Canvas.{Picture};
ghost use Rattle.pictures.specs.Checksums.{adler32, crc32};
ghost use Rattle.pictures.specs.Png.{png_text};
ghost use Rattle.pictures.specs.PngRules.{IsPng};

use terms::ScreenSize;

/// CRC-32 of "123456789" is cbf43926, and Adler-32 of "Wikipedia" is 11e60398, as published.
pub fn published_checksums()
    ensures crc { crc32 (codes "123456789") ≡ 0xcbf43926 }
    ensures adler { adler32 (codes "Wikipedia") ≡ 0x11e60398 }
{}

/// What is written of a screen as PNG is a PNG file of it by the rules of RFC 2083.
pub fn png_is_by_rules(size: ScreenSize)
    requires wide { 0 < size.width }
    requires high { 0 < size.height }
    ensures { (picture : Picture) → IsPng size.width size.height picture (png_text size.width size.height picture) }
{
    let _size = size;
}
