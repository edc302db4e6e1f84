//! Pixel formats, pixels in them, and screen colours.

ghost use Rattle.std.specs.Prelude.{◌≡◌, ◌<◌, length};

use crate::account::{Account, Untold};
use pixel_format::{Color, PixelFormat};
use terms::NoMemory;

/// Formats by the number of their bits.
pub(crate) fn of_bits(bits: u16) -> Result<PixelFormat, Untold> {
    let bytes = match bits {
        32 => return Ok(PixelFormat::host()),
        // The highest byte first: 5 bits of red, 6 of green, 5 of blue.
        16 => [16, 16, 1, 1, 0, 31, 0, 63, 0, 31, 11, 5, 0, 0, 0, 0],
        // 3 bits of green, 3 of red, 2 of blue.
        _ => [8, 8, 0, 1, 0, 7, 0, 7, 0, 3, 0, 3, 6, 0, 0, 0],
    };
    PixelFormat::read(&bytes).map_err(|_| Untold::NoVector)
}

// Tells a pixel's colour, and the pixel that is put from it; then the screen colour (255, 128, 0) as
// the format has it.
fn tell_format(account: &mut Account, format: &PixelFormat, pixel: &[u8]) -> Result<(), NoMemory> {
    let size = format.bytes();
    account.tell_at(size, "bytes")?;
    if pixel.len() != size {
        return Ok(());
    }
    let Color { r, g, b } = format.pixel(pixel);
    let orange = format.convert(Color {
        r: 255,
        g: 128,
        b: 0,
    });
    let mut put = [0; 4];
    let put = &mut put[..size];
    format.put(orange, put);
    account.tell("")?;
    account.add_numbers(&[r, g, b])?;
    account.tell("orange")?;
    account.add_bytes(put)
}

/// Tells what a format of 16 bytes makes of the pixel after it, or the number of its fault.
pub(crate) fn run(account: &mut Account, bytes: &[u8]) -> Result<(), Untold> {
    let Some((first, pixel)) = bytes.split_first_chunk::<16>() else {
        return Err(Untold::NoVector);
    };
    match PixelFormat::read(first) {
        Ok(format) => tell_format(account, &format, pixel)?,
        Err(fault) => {
            account.tell("refused")?;
            account.add_number(fault.number())?;
        }
    }
    Ok(())
}
