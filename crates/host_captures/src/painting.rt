//! The screens that messages paint.

ghost use Rattle.std.specs.Prelude.{◌≡◌};
ghost use Rattle.pixel_format.specs.Pixel.{IsScreenColor};

use crate::stream::SIZE;
use painter::Screen;
use pixel_format::Color;
use rfb_wire::HostMessage;
use sha2::{Digest, Sha256};
use std::io;

// A pixel that is looked at once so many messages are painted.
struct Sample {
    after: usize,
    x: u16,
    y: u16,
}

const SAMPLES: [Sample; 7] = [
    Sample {
        after: 4,
        x: 165,
        y: 38,
    },
    Sample {
        after: 8,
        x: 202,
        y: 166,
    },
    Sample {
        after: 12,
        x: 24,
        y: 18,
    },
    Sample {
        after: 16,
        x: 274,
        y: 24,
    },
    Sample {
        after: 20,
        x: 187,
        y: 149,
    },
    Sample {
        after: 24,
        x: 29,
        y: 232,
    },
    Sample {
        after: 28,
        x: 259,
        y: 54,
    },
];

// Red, green and blue.
fn channels(color: Color) -> [u8; 3]
    requires { IsScreenColor color }
{
    [color.r as u8, color.g as u8, color.b as u8]
}

// The SHA-256 of a screen: red, green and blue of each pixel, by rows.
fn digest_of(screen: &Screen) -> [u8; 32]
    requires width { screen.now.width ≡ 320 }
    requires height { screen.now.height ≡ 240 }
{
    let mut hasher = Sha256::new();
    for y in 0..SIZE.height {
        for x in 0..SIZE.width {
            hasher.update(channels(screen.color(x, y)));
        }
    }
    hasher.finalize()
}

// Prints the samples and the digest that are due once so many messages are painted.
fn print_after(rt: &HostRuntime, screen: &Screen, count: usize, last: bool) -> io::Result<()>
    requires width { screen.now.width ≡ 320 }
    requires height { screen.now.height ≡ 240 }
{
    for sample in &SAMPLES {
        if sample.after == count && sample.x < SIZE.width && sample.y < SIZE.height {
            let color = screen.color(sample.x, sample.y);
            let text = hex::encode(rt.alloc(), channels(color))?;
            println!(rt; "after {count} at {} {}: {text}", sample.x, sample.y)?;
        }
    }
    if count % 8 == 0 || last {
        let text = hex::encode(rt.alloc(), digest_of(screen))?;
        println!(rt; "screen after {count}: {text}")?;
    }
    Ok(())
}

/// Paints the messages in their order, and prints their types and lengths and what is due after
/// each.
pub(crate) fn print_screens(rt: &HostRuntime, messages: &[HostMessage]) -> io::Result<()> {
    let mut screen = Screen::black(rt.alloc(), SIZE)?;
    for (number, message) in messages.iter().enumerate() {
        if message.size() != SIZE {
            return println!(rt; "a message for another screen");
        }
        screen.paint(message);
        let bytes = message.bytes();
        if let Some(kind) = bytes.first() {
            println!(rt; "type {kind}, {} bytes", bytes.len())?;
        }
        print_after(rt, &screen, number + 1, number + 1 == messages.len())?;
    }
    Ok(())
}
