//! Colours, formats and pictures that several tests share.

ghost use Rattle.std.specs.Prelude.{◌≡◌, ℕ, IfOk, All, length, ◌<◌, ◌≤◌};
ghost use Rattle.pixel_format.specs.Pixel.{IsWithin, IsScreenColor};

use crate::test_canvas::TestCanvas;
use pixel_format::{Color, PixelFormat};
use std::alloc::Global;
use terms::{Area, NoMemory, ScreenSize};

pub(crate) const BLACK: Color = Color { r: 0, g: 0, b: 0 };

pub(crate) const RED: Color = Color { r: 255, g: 0, b: 0 };

pub(crate) const GREEN: Color = Color { r: 0, g: 255, b: 0 };

pub(crate) const BLUE: Color = Color { r: 0, g: 0, b: 255 };

pub(crate) const WHITE: Color = Color {
    r: 255,
    g: 255,
    b: 255,
};

/// 16 bits, the highest byte first: 5 bits of red, 6 of green, 5 of blue.
pub(crate) const SIXTEEN: [u8; 16] = [16, 16, 1, 1, 0, 31, 0, 63, 0, 31, 11, 5, 0, 0, 0, 0];

/// 8 bits: 3 of green, 3 of red, 2 of blue.
pub(crate) const EIGHT: [u8; 16] = [8, 8, 0, 1, 0, 7, 0, 7, 0, 3, 0, 3, 6, 0, 0, 0];

/// An update of one Raw rectangle: one red pixel at (0, 0).
pub(crate) const RED_UPDATE: [u8; 20] = [
    0, 0, 0, 1, 0, 0, 0, 0, 0, 1, 0, 1, 0, 0, 0, 0, 0, 0, 255, 0,
];

/// An area with this upper left corner, width and height.
pub(crate) fn area(x: u16, y: u16, w: u16, h: u16) -> Area
    ensures { result ≡ record { x = x; y = y; w = w; h = h } }
{
    Area { x, y, w, h }
}

/// A screen's size.
pub(crate) fn size(width: u16, height: u16) -> ScreenSize
    ensures { result ≡ record { width = width; height = height } }
{
    ScreenSize { width, height }
}

/// The next number below a limit.
pub(crate) fn below(seed: &mut u64, limit: u16) -> u16
    requires { 0 < limit }
    ensures { result < limit }
{
    *seed = seed
        .wrapping_mul(6_364_136_223_846_793_005)
        .wrapping_add(1_442_695_040_888_963_407);
    (*seed >> 48) as u16 % limit
}

/// A screen colour of a few.
pub(crate) fn any_color(seed: &mut u64) -> Color {
    Color {
        r: below(seed, 2) * 255,
        g: below(seed, 3),
        b: below(seed, 256),
    }
}

/// The pixel of a screen colour in the host format.
pub(crate) fn pixel_of(color: Color) -> [u8; 4] {
    let byte = |channel: u16| (channel % 256) as u8;
    [byte(color.b), byte(color.g), byte(color.r), 7]
}

fn screen_color(color: Color) -> Color
    ensures { IsScreenColor result }
{
    Color {
        r: color.r.min(255),
        g: color.g.min(255),
        b: color.b.min(255),
    }
}

/// The colours, as a format has them.
pub(crate) fn converted(
    alloc: Global,
    format: &PixelFormat,
    colors: &[Color],
) -> Result<Vec<Color>, NoMemory>
    ensures within { IfOk result (λ v. All (IsWithin format.now) v.items) }
    ensures size { IfOk result (λ v. length v.items ≡ length colors.now) }
{
    let mut all = Vec::new(alloc);
    for color in colors {
        all.push(format.convert(screen_color(*color)))?;
    }
    Ok(all)
}

/// Whether a sheet has these colours in its upper left corner, by rows of so many pixels.
pub(crate) fn shows(test_canvas: &TestCanvas, w: u16, h: u16, colors: &[Color]) -> bool
    requires columns { w ≤ 320 }
    requires rows { h ≤ 120 }
{
    let mut all = colors.iter();
    for row in 0..h {
        for column in 0..w {
            if Some(&test_canvas.color(column, row)) != all.next() {
                return false;
            }
        }
    }
    true
}
