//! Hextile rectangles as a file has them.

ghost use Rattle.std.specs.Prelude.{◌≤◌, ◌+◌, length, IfSome};
ghost use Rattle.pixel_format.specs.Format.{host_format};
ghost use Rattle.hextile.specs.Data.{AreData};

use hextile::{measure, paint};
use pixel_format::{Color, PixelFormat};
use std::io;
use terms::{Area, NoLength};
use wire_tests::{HEIGHT, TestCanvas, WIDTH, hextile_in_pieces};

const BLACK: Color = Color { r: 0, g: 0, b: 0 };

// A rectangle that fits on a test canvas, and the bytes of its data.
#[derive(Clone, Copy)]
struct Rectangle<'a> {
    w: u16,
    h: u16,
    bytes: &'a [u8],
}

// The rectangle that bytes begin with; none if there is none, or if the ways of measuring its data
// differ: with all that follows them, with a byte too few, which is to need more, and field by
// field.
fn first_rectangle(bytes: &[u8]) -> Option<Rectangle<'_>>
    ensures whole { IfSome result (λ r. AreData host_format r.w r.h r.bytes.now) }
    ensures size { IfSome result (λ r. 4 + length r.bytes.now ≤ length bytes.now) }
    ensures columns { IfSome result (λ r. r.w ≤ 320) }
    ensures rows { IfSome result (λ r. r.h ≤ 120) }
{
    let [w_high, w_low, h_high, h_low, rest @ ..] = bytes else {
        return None;
    };
    let w = u16::from_be_bytes([*w_high, *w_low]);
    let h = u16::from_be_bytes([*h_high, *h_low]);
    let host = PixelFormat::host();
    let length = measure(&host, w, h, rest).ok()?;
    let in_pieces = hextile_in_pieces(&host, w, h, rest).ok()?;
    let needs_all = length > 0
        && measure(&host, w, h, &rest[..length - 1]) == Err(NoLength::NeedMore);
    if w > WIDTH || h > HEIGHT || in_pieces != length || !needs_all {
        return None;
    }
    Some(Rectangle {
        w,
        h,
        bytes: &rest[..length],
    })
}

impl Rectangle<'_> {
    // A number of all its colours, as they are painted.
    fn checksum(&self) -> u32
        requires whole { AreData host_format self.now.w self.now.h self.now.bytes.now }
        requires columns { self.now.w ≤ 320 }
        requires rows { self.now.h ≤ 120 }
    {
        let mut test_canvas = TestCanvas::new(BLACK);
        let area = Area {
            x: 0,
            y: 0,
            w: self.w,
            h: self.h,
        };
        paint(&PixelFormat::host(), area, self.bytes, &mut test_canvas);
        let mut sum = 0u32;
        for y in 0..self.h {
            for x in 0..self.w {
                let color = test_canvas.color(x, y);
                let number = ((color.r as u32) << 16) | ((color.g as u32) << 8) | color.b as u32;
                sum = sum.wrapping_mul(31).wrapping_add(number).wrapping_add(1);
            }
        }
        sum
    }
}

/// Prints a line for each rectangle of the bytes.
pub(crate) fn print_rectangles(rt: &HostRuntime, bytes: &[u8]) -> io::Result<()> {
    let mut rest = bytes;
    for _ in 0..bytes.len() {
        if rest.is_empty() {
            return Ok(());
        }
        let Some(first) = first_rectangle(rest) else {
            return println!(rt; "refused");
        };
        let Rectangle { w, h, bytes: data } = first;
        println!(rt; "{w} {h} {} {}", data.len(), first.checksum())?;
        rest = &rest[4 + data.len()..];
    }
    Ok(())
}
