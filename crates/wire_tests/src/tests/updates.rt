//! What no clause says: updates worked by hand.

ghost use Rattle.std.specs.Prelude.{◌≡◌, IfOk, length, ◌*◌};

use crate::test_canvas::TestCanvas;
use crate::tests::samples::{EIGHT, GREEN, RED, SIXTEEN, WHITE, area, below, converted};
use pixel_format::{Canvas, Color, PixelFormat};
use rect_codec::{Part, pick, write_parts, write_update};
use rect_data::Encoding;
use std::alloc::Global;
use std::test::Fail;
use terms::{Area, NoLength, NoMemory};

// The colour of the pixel of this number.
fn pixel_color(format: &PixelFormat, data: &[u8], number: usize) -> Option<Color> {
    let start = number.checked_mul(format.bytes())?;
    let end = start.checked_add(format.bytes())?;
    if end > data.len() {
        return None;
    }
    Some(format.pixel(&data[start..end]))
}

// What an update paints on a white sheet; refused if it isn't an update of one rectangle on the
// sheet, or has bytes after it.
fn painted(format: &PixelFormat, update: &[u8]) -> Result<TestCanvas, NoLength> {
    let [
        0,
        0,
        0,
        1,
        0,
        x,
        0,
        y,
        0,
        w,
        0,
        h,
        0,
        0,
        0,
        encoding,
        data @ ..,
    ] = update
    else {
        return Err(NoLength::Bad);
    };
    let (x, y) = (u16::from(*x), u16::from(*y));
    let (w, h) = (u16::from(*w), u16::from(*h));
    if x + w > 320 || y + h > 120 {
        return Err(NoLength::Bad);
    }
    let area = Area { x, y, w, h };
    let mut test_canvas = TestCanvas::new(WHITE);
    let length = match *encoding {
        0 => {
            for k in 0..w * h {
                let color = pixel_color(format, data, usize::from(k)).ok_or(NoLength::NeedMore)?;
                let pixel = Area {
                    x: x + k % w,
                    y: y + k / w,
                    w: 1,
                    h: 1,
                };
                test_canvas.fill(pixel, color);
            }
            usize::from(w * h) * format.bytes()
        }
        2 => {
            let Ok(length) = rre::measure(format, w, h, data) else {
                return Err(NoLength::Bad);
            };
            rre::paint(format, area, &data[..length], &mut test_canvas);
            length
        }
        5 => {
            let length = hextile::measure(format, w, h, data)?;
            hextile::paint(format, area, &data[..length], &mut test_canvas);
            length
        }
        _ => return Err(NoLength::Bad),
    };
    if length != data.len() {
        return Err(NoLength::Bad);
    }
    Ok(test_canvas)
}

// An update after a byte that was there before.
fn update(
    alloc: Global,
    format: &PixelFormat,
    area: Area,
    colors: &[Color],
    encoding: Encoding,
) -> Result<Vec<u8>, NoMemory>
    requires { length colors.now ≡ area.h * area.w }
{
    let colors = converted(alloc, format, colors)?;
    let mut out = vec![in alloc; 9]?;
    write_update(alloc, format, area, &colors, encoding, &mut out)?;
    Ok(out)
}

const ALL: [Encoding; 3] = [Encoding::Raw, Encoding::Rre, Encoding::Hextile];

#[test]
fn first_of_the_list(rt: HostRuntime) {
    let rows: [(&[i32], Encoding); 6] = [
        (&[], Encoding::Raw),
        (&[1, -239], Encoding::Raw),
        (&[-239, 5, 0], Encoding::Hextile),
        (&[7, 16, 1, 2, 5], Encoding::Rre),
        (&[0, 5, 2], Encoding::Raw),
        (&[i32::MIN, 5, 2, 5], Encoding::Hextile),
    ];
    for (numbers, encoding) in rows {
        assert!(rt; pick(numbers) == encoding);
    }
}

#[test]
fn one_red_pixel(rt: HostRuntime) -> Result<(), Fail> {
    let one_pixel = area(0, 0, 1, 1);
    let red = [
        9, 0, 0, 0, 1, 0, 0, 0, 0, 0, 1, 0, 1, 0, 0, 0, 0, 0, 0, 255, 0,
    ];
    for encoding in ALL {
        let out = update(
            rt.alloc(),
            &PixelFormat::host(),
            one_pixel,
            &[RED],
            encoding,
        )?;
        assert!(rt; out.as_slice() == red.as_slice());
    }
    Ok(())
}

// Two pixels that are copied from the two one further left, and an update of no rectangles.
#[test]
fn a_copy_and_nothing(rt: HostRuntime) -> Result<(), Fail> {
    let host = PixelFormat::host();
    let copy = Part::Copy {
        area: area(1, 0, 2, 1),
        sx: 0,
        sy: 0,
    };
    let mut out = Vec::new(rt.alloc());
    write_parts(rt.alloc(), &host, &[copy], &mut out)?;
    write_parts(rt.alloc(), &host, &[], &mut out)?;
    let update = [0, 0, 0, 1, 0, 1, 0, 0, 0, 2, 0, 1, 0, 0, 0, 1, 0, 0, 0, 0];
    let (first, second) = out.split_at(out.len().min(20));
    assert!(rt; first == update.as_slice());
    assert!(rt; second == [0, 0, 0, 0].as_slice());
    Ok(())
}

// Nine pixels of one colour, in five, six and five bits.
#[test]
fn a_row_is_converted(rt: HostRuntime) -> Result<(), Fail> {
    let format = PixelFormat::read(&SIXTEEN)?;
    let orange = Color {
        r: 255,
        g: 128,
        b: 0,
    };
    let mut row = [Color { r: 0, g: 0, b: 0 }; 9];
    format.convert_row(&[orange; 9], &mut row);
    for color in row {
        assert!(rt; color.r == 31 && color.g == 32 && color.b == 0);
    }
    Ok(())
}

// 258 pixels beside one another at (770, 1), none of them high: the head, and no data.
#[test]
fn no_area(rt: HostRuntime) -> Result<(), Fail> {
    let one_pixel = area(770, 1, 258, 0);
    let head = [9, 0, 0, 0, 1, 3, 2, 0, 1, 1, 2, 0, 0, 0, 0, 0, 0];
    for encoding in ALL {
        let out = update(rt.alloc(), &PixelFormat::host(), one_pixel, &[], encoding)?;
        assert!(rt; out.as_slice() == head.as_slice());
    }
    Ok(())
}

// A picture of 21 by 18 pixels: a few squares over one colour, or pixels of any colour.
fn any_picture(alloc: Global, seed: &mut u64, flat: bool) -> Result<Vec<Color>, NoMemory>
    ensures { IfOk result (λ colors. length colors.items ≡ 18 * 21) }
{
    let mut colors = vec![in alloc; GREEN; 378]?;
    for k in 0..378 {
        let square = k % 21 / 7 == 1 && k / 126 == 1;
        let any = Color {
            r: below(seed, 256),
            g: below(seed, 256),
            b: below(seed, 256),
        };
        if !flat {
            colors[k] = any;
        } else if square {
            colors[k] = RED;
        }
    }
    Ok(colors)
}

// Whether a picture is written, in this format and with this encoding asked for, as an update in
// the encoding of this number that shows it.
fn is_written(
    alloc: Global,
    format: &PixelFormat,
    picture: &[Color],
    encoding: Encoding,
    number: u8,
) -> Result<bool, Fail>
    requires { length picture.now ≡ 18 * 21 }
{
    let one_pixel = area(3, 11, 21, 18);
    let out = update(alloc, format, one_pixel, picture, encoding)?;
    let Some(written) = out.strip_prefix(&[9]) else {
        return Ok(false);
    };
    let test_canvas = painted(format, written)?;
    let colors = converted(alloc, format, picture)?;
    let mut all = colors.iter();
    for y in 11..29 {
        for x in 3..24 {
            if Some(&test_canvas.color(x, y)) != all.next() {
                return Ok(false);
            }
        }
    }
    let raw = 16 + 378 * format.bytes();
    let is_as_long = if number == 0 {
        written.len() == raw
    } else {
        written.len() < raw
    };
    Ok(is_as_long && written.get(15) == Some(&number))
}

// Whether a flat picture is written in the encoding that is asked for, and one of many colours in Raw.
fn are_written(
    alloc: Global,
    format: &PixelFormat,
    flat: &[Color],
    many: &[Color],
) -> Result<bool, Fail>
    requires flat { length flat.now ≡ 18 * 21 }
    requires many { length many.now ≡ 18 * 21 }
{
    let is_flat_written = is_written(alloc, format, flat, Encoding::Raw, 0)?
        && is_written(alloc, format, flat, Encoding::Rre, 2)?
        && is_written(alloc, format, flat, Encoding::Hextile, 5)?;
    Ok(
        is_flat_written
            && is_written(alloc, format, many, Encoding::Rre, 0)?
            && is_written(alloc, format, many, Encoding::Hextile, 0)?,
    )
}

#[test]
fn written_and_painted(rt: HostRuntime) -> Result<(), Fail> {
    let mut seed = 1;
    let flat = any_picture(rt.alloc(), &mut seed, true)?;
    let many = any_picture(rt.alloc(), &mut seed, false)?;
    for bytes in [PixelFormat::host().write(), SIXTEEN, EIGHT] {
        assert!(rt; are_written(rt.alloc(), &PixelFormat::read(&bytes)?, &flat, &many)?);
    }
    Ok(())
}
