//! Pictures in letters.

use crate::account::Account;
use pixel_format::Color;
use std::fmt::Write;
use terms::NoMemory;

/// What has a colour at each pixel.
pub(crate) trait Pixels {
    /// The colour of a pixel; none outside.
    fn color_at(&self, x: u16, y: u16) -> Option<Color>;
}

// Adds the letter of a colour, or its numbers.
fn write_letter(account: &mut Account, color: Option<Color>) -> Result<(), NoMemory> {
    let Some(Color { r, g, b }) = color else {
        return account.add("?");
    };
    let letter = match (r, g, b) {
        (0, 0, 0) => ".",
        (255, 0, 0) => "r",
        (0, 255, 0) => "g",
        (0, 0, 255) => "b",
        (255, 255, 255) => "w",
        _ => return write!(account.text, "({r},{g},{b})"),
    };
    account.add(letter)
}

// Whether a row is as the one before it.
fn is_repeated<P: Pixels>(pixels: &P, width: u16, y: u16) -> bool {
    y > 0 && (0..width).all(|x| pixels.color_at(x, y) == pixels.color_at(x, y - 1))
}

/// Adds the rows of a picture, each after a space; a row that is as the one before it is a dash.
pub(crate) fn write_rows<P: Pixels>(
    account: &mut Account,
    pixels: &P,
    size: (u16, u16),
) -> Result<(), NoMemory> {
    let (width, height) = size;
    for y in 0..height {
        account.add(" ")?;
        if is_repeated(pixels, width, y) {
            account.add("-")?;
            continue;
        }
        for x in 0..width {
            write_letter(account, pixels.color_at(x, y))?;
        }
    }
    Ok(())
}
