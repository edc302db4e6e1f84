//! Areas that are copied on a screen, whichever way source and destination overlap, and a screen as
//! RRE has it.

use crate::tests::samples::{area, size};
use painter::{Screen, ScreenPart};
use pixel_format::{Color, PixelFormat};
use rfb_wire::{Encoding, HostMessage};
use std::alloc::Global;
use std::test::Fail;
use terms::{Format, ScreenSize};

// The screen of this size that the updates paint. It promises nothing, nor does the next one: with
// the clauses of `Screen` the test would be slow to prove.
fn painted(alloc: Global, size: ScreenSize, updates: &[&[u8]]) -> Result<Screen, Fail> {
    let mut screen = Screen::black(alloc, size)?;
    for bytes in updates {
        let message = HostMessage::from_bytes(alloc, size, bytes)?;
        if message.size() == screen.size() {
            screen.paint(&message);
        }
    }
    Ok(screen)
}

// The colour of a pixel.
fn color(screen: &Screen, x: u16, y: u16) -> Option<Color> {
    let size = screen.size();
    if x < size.width && y < size.height {
        Some(screen.color(x, y))
    } else {
        None
    }
}

// The colour of a pixel of a screen of 5 by 5, on which no two pixels are alike.
fn own_color(x: u16, y: u16) -> Color {
    Color {
        r: x % 256,
        g: y % 256,
        b: 7,
    }
}

// An update of a screen of 5 by 5, after which no two pixels are alike.
fn distinct(alloc: Global) -> Result<Vec<u8>, Fail> {
    let mut bytes = b"\0\0\0\x01\0\0\0\0\0\x05\0\x05\0\0\0\0".to_vec(alloc)?;
    for one_pixel in 0..25_u8 {
        bytes.extend_from_slice(&[7, one_pixel / 5, one_pixel % 5, 0])?;
    }
    Ok(bytes)
}

#[test]
fn copied_whichever_way_the_areas_overlap(rt: HostRuntime) -> Result<(), Fail> {
    let alloc = rt.alloc();
    let update = distinct(alloc)?;
    for to_x in 0..3_u8 {
        for to_y in 0..3_u8 {
            // Three pixels by three, whose corner is at (1, 1).
            let copy = [
                0, 0, 0, 1, 0, to_x, 0, to_y, 0, 3, 0, 3, 0, 0, 0, 1, 0, 1, 0, 1,
            ];
            let screen = painted(alloc, size(5, 5), &[&update, &copy])?;
            let (left, top) = (u16::from(to_x), u16::from(to_y));
            for x in 0..5 {
                for y in 0..5 {
                    let inside = x >= left && x < left + 3 && y >= top && y < top + 3;
                    let expected = if inside {
                        own_color(x - left + 1, y - top + 1)
                    } else {
                        own_color(x, y)
                    };
                    assert!(rt; color(&screen, x, y) == Some(expected), "at {x}, {y}");
                }
            }
        }
    }
    Ok(())
}

// One of four bytes a pixel would have 262,160.
#[test]
fn key_of_a_black_screen(rt: HostRuntime) -> Result<(), Fail> {
    let screen = Screen::black(rt.alloc(), size(256, 256))?;
    let key = screen.key(rt.alloc(), Format::One)?;
    assert!(rt; key.bytes().len() < 262_160);
    Ok(())
}

// An update of rows 64 to 79 of a screen of 2 by 128, no two of whose pixels are alike then.
fn noise_in_the_middle(alloc: Global) -> Result<Vec<u8>, Fail> {
    let mut bytes = b"\0\0\0\x01\0\0\0\x40\0\x02\0\x10\0\0\0\0".to_vec(alloc)?;
    for pixel in 0..32_u8 {
        bytes.extend_from_slice(&[7, pixel, 0, 0])?;
    }
    Ok(bytes)
}

// Hextile would be shorter than Raw, but not of these rows, which are the sample.
#[test]
fn key_judged_by_a_sample(rt: HostRuntime) -> Result<(), Fail> {
    let alloc = rt.alloc();
    let noise = noise_in_the_middle(alloc)?;
    let screen = painted(alloc, size(2, 128), &[&noise])?;
    let is_small = Format::One.limits().allow(screen.size());
    assert!(rt; is_small && screen.key(alloc, Format::One)?.bytes().len() == 16 + 4 * 2 * 128);
    Ok(())
}

// The whole screen as a viewer is sent it that asked for RRE.
fn sent(alloc: Global, screen: &Screen) -> Result<Vec<u8>, Fail> {
    let size = screen.size();
    let whole = ScreenPart::Region {
        area: area(0, 0, size.width, size.height),
        encoding: Encoding::Rre,
    };
    let mut out = Vec::new(alloc);
    screen.append_update(alloc, &PixelFormat::host(), &[whole], &mut out)?;
    Ok(out)
}

// A red pixel among ten, the others black, as RFC 6143, section 7.7.3 has it. Raw would have 40
// bytes instead of 20.
#[test]
fn red_pixel_sent_in_rre(rt: HostRuntime) -> Result<(), Fail> {
    let alloc = rt.alloc();
    let red = [0, 0, 0, 1, 0, 2, 0, 1, 0, 1, 0, 1, 0, 0, 0, 0, 0, 0, 255, 0];
    let screen = painted(alloc, size(5, 2), &[&red])?;
    let heads = [0, 0, 0, 1, 0, 0, 0, 0, 0, 5, 0, 2, 0, 0, 0, 2];
    let one_on_black = [0, 0, 0, 1, 0, 0, 0, 0];
    let subrectangle = [0, 0, 255, 0, 0, 2, 0, 1, 0, 1, 0, 1];
    let expected = [
        heads.as_slice(),
        one_on_black.as_slice(),
        subrectangle.as_slice(),
    ];
    assert!(rt; sent(alloc, &screen)?.as_slice() == expected.concat(alloc)?.as_slice());
    Ok(())
}
