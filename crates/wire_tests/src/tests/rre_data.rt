//! What no clause says: RRE data that are made at random, and how short the encoder's are.

ghost use Rattle.std.specs.Prelude.{◌≡◌, IfOk, length, ◌*◌};

use crate::Kind;
use crate::tests::samples::{
    BLACK, EIGHT, GREEN, RED, SIXTEEN, WHITE, any_color, below, converted, pixel_of, shows,
};
use pixel_format::{Color, PixelFormat};
use rre::{Subrectangle, encode, measure};
use std::alloc::Global;
use std::test::Fail;
use terms::NoMemory;

mod shortness;

// A subrectangle within 16 by 12 pixels, in one of a few colours.
fn any_part(seed: &mut u64) -> Subrectangle {
    let (x, y) = (below(seed, 17), below(seed, 13));
    Subrectangle {
        x,
        y,
        w: below(seed, 17 - x),
        h: below(seed, 13 - y),
        color: any_color(seed),
    }
}

// The data of these subrectangles, in the host format.
fn written(alloc: Global, background: Color, parts: &[Subrectangle]) -> Result<Vec<u8>, NoMemory> {
    let mut bytes = vec![in alloc; 0, 0, 0, (parts.len() % 256) as u8]?;
    bytes.extend_from_slice(&pixel_of(background))?;
    for part in parts {
        bytes.extend_from_slice(&pixel_of(part.color))?;
        for number in [part.x, part.y, part.w, part.h] {
            bytes.extend_from_slice(&number.to_be_bytes())?;
        }
    }
    Ok(bytes)
}

// The colour of the last part that covers the pixel.
fn plain(background: Color, parts: &[Subrectangle], column: u16, row: u16) -> Color {
    for part in parts.iter().rev() {
        if part.x <= column
            && u32::from(column) < u32::from(part.x) + u32::from(part.w)
            && part.y <= row
            && u32::from(row) < u32::from(part.y) + u32::from(part.h)
        {
            return part.color;
        }
    }
    background
}

// Whether the data of 16 by 12 pixels show the subrectangles.
fn are_shown(background: Color, parts: &[Subrectangle], bytes: &[u8]) -> bool {
    let host = PixelFormat::host();
    let Ok(canvas) = Kind::Rre.painted(&host, 16, 12, bytes) else {
        return false;
    };
    for row in 0..12 {
        for column in 0..16 {
            if canvas.color(column, row) != plain(background, parts, column, row) {
                return false;
            }
        }
    }
    measure(&host, 16, 12, bytes) == Ok(bytes.len())
}

// So many subrectangles over one another.
fn any_parts(alloc: Global, seed: &mut u64, count: usize) -> Result<Vec<Subrectangle>, NoMemory> {
    let mut parts = Vec::new(alloc);
    for _ in 0..count {
        parts.push(any_part(seed))?;
    }
    Ok(parts)
}

#[test]
fn as_the_plain_way(rt: HostRuntime) -> Result<(), Fail> {
    let mut seed = 1;
    for count in 0..40 {
        let background = any_color(&mut seed);
        let parts = any_parts(rt.alloc(), &mut seed, count)?;
        let bytes = written(rt.alloc(), background, &parts)?;
        assert!(rt; are_shown(background, &parts, &bytes), "with {count}");
    }
    Ok(())
}

// A picture of 16 by 12 pixels: squares of a few colours, and single pixels.
fn any_picture(alloc: Global, seed: &mut u64) -> Result<Vec<Color>, NoMemory>
    ensures { IfOk result (λ colors. length colors.items ≡ 12 * 16) }
{
    let palette = [RED, GREEN, WHITE, any_color(seed)];
    let mut colors = vec![in alloc; RED; 12 * 16]?;
    for k in 0..192 {
        let square = (k / 64 + k % 16 / 4) % 4;
        let index = if below(seed, 8) == 0 {
            below(seed, 4) as usize
        } else {
            square
        };
        colors[k] = palette[index];
    }
    Ok(colors)
}

// Whether a picture of 16 by 12 pixels is shown, in this format, by the data that it is encoded to,
// and two bytes before them stay.
fn comes_through(alloc: Global, format: &PixelFormat, picture: &[Color]) -> Result<bool, Fail>
    requires { length picture.now ≡ 12 * 16 }
{
    let colors = converted(alloc, format, picture)?;
    let mut bytes = vec![in alloc; 9, 9]?;
    encode(alloc, format, 16, 12, &colors, &mut bytes)?;
    let Some(data) = bytes.strip_prefix(&[9, 9]) else {
        return Ok(false);
    };
    let test_canvas = Kind::Rre.painted(format, 16, 12, data)?;
    Ok(shows(&test_canvas, 16, 12, &colors) && measure(format, 16, 12, data) == Ok(data.len()))
}

#[test]
fn encoded_and_painted(rt: HostRuntime) -> Result<(), Fail> {
    let mut seed = 1;
    for _ in 0..7 {
        let picture = any_picture(rt.alloc(), &mut seed)?;
        for bytes in [PixelFormat::host().write(), SIXTEEN, EIGHT] {
            assert!(rt; comes_through(rt.alloc(), &PixelFormat::read(&bytes)?, &picture)?);
        }
    }
    Ok(())
}

// The data of 16 by 16 pixels, in the host format.
fn encoded(alloc: Global, picture: &[Color]) -> Result<Vec<u8>, NoMemory>
    requires { length picture.now ≡ 16 * 16 }
{
    let host = PixelFormat::host();
    let colors = converted(alloc, &host, picture)?;
    let mut bytes = Vec::new(alloc);
    encode(alloc, &host, 16, 16, &colors, &mut bytes)?;
    Ok(bytes)
}

// One colour is a background and no subrectangle, and a rectangle in it is one subrectangle.
#[test]
fn encoded_shortly(rt: HostRuntime) -> Result<(), Fail> {
    let mut picture = vec![in rt.alloc(); RED; 16 * 16]?;
    let bytes = encoded(rt.alloc(), &picture)?;
    assert!(rt; bytes.as_slice() == [0, 0, 0, 0, 0, 0, 255, 0].as_slice());
    for row in 3..7 {
        for column in 2..12 {
            picture[16 * row + column] = GREEN;
        }
    }
    let bytes = encoded(rt.alloc(), &picture)?;
    let green = [
        0, 0, 0, 1, 0, 0, 255, 0, 0, 255, 0, 0, 0, 2, 0, 3, 0, 10, 0, 4,
    ];
    assert!(rt; bytes.as_slice() == green.as_slice());
    Ok(())
}

#[test]
fn nothing_encoded(rt: HostRuntime) -> Result<(), Fail> {
    let mut bytes = Vec::new(rt.alloc());
    encode(rt.alloc(), &PixelFormat::host(), 0, 5, &[], &mut bytes)?;
    assert!(rt; bytes.as_slice() == [0; 8].as_slice());
    Ok(())
}
