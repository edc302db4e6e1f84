//! Data of rectangles.

use crate::account::{Account, Untold};
use crate::formats;
use crate::picture::{Pixels, write_rows};
use pixel_format::{Color, PixelFormat};
use rect_data::{Encoding, Judging, measure};
use terms::{Area, NoLength, NoMemory, ScreenSize, WireFault};
use wire_tests::{HEIGHT, Kind, TestCanvas, WIDTH, hextile_in_pieces};

impl Pixels for TestCanvas {
    fn color_at(&self, x: u16, y: u16) -> Option<Color> {
        if x < WIDTH && y < HEIGHT {
            Some(self.color(x, y))
        } else {
            None
        }
    }
}

// A rectangle of this size, whose data are in an encoding of subrectangles and a format.
#[derive(Clone, Copy)]
struct Drawn<'a> {
    kind: Kind,
    format: &'a PixelFormat,
    size: (u16, u16),
}

impl Drawn<'_> {
    // Adds the rows that whole data paint, if they have an area and fit on the canvas.
    fn write(&self, account: &mut Account, data: &[u8]) -> Result<(), Untold> {
        let (w, h) = self.size;
        if w == 0 || h == 0 || w >= WIDTH || h >= HEIGHT {
            return Ok(());
        }
        match self.kind.painted(self.format, w, h, data) {
            Ok(canvas) => Ok(write_rows(account, &canvas, (w + 1, h + 1))?),
            Err(_) => Err(Untold::NoVector),
        }
    }

    // Tells at which byte data are whole, and what they paint; or the byte at which they are
    // refused.
    fn tell(&self, account: &mut Account, bytes: &[u8]) -> Result<(), Untold> {
        let (w, h) = self.size;
        for count in 0..=bytes.len() {
            let data = bytes.get(..count).unwrap_or(bytes);
            let answer = self.kind.measure(self.format, w, h, data);
            let pieces = hextile_in_pieces(self.format, w, h, data);
            if self.kind == Kind::Hextile && pieces != answer {
                return Ok(account.tell_at(count, "otherwise in pieces")?);
            }
            match answer {
                Err(NoLength::NeedMore) => {}
                Err(NoLength::Bad) => return Ok(account.tell_at(count, "bad")?),
                Ok(length) => {
                    account.tell_number_at(count, "whole", length)?;
                    return self.write(account, data);
                }
            }
        }
        Ok(account.tell("needs more")?)
    }
}

/// Tells at which byte data are whole, with one column and one row more than they paint, or refused.
/// Of Hextile, also field by field.
pub(crate) fn run_painted(
    account: &mut Account,
    kind: &str,
    bits: u16,
    size: (u16, u16),
    bytes: &[u8],
) -> Result<(), Untold> {
    let format = &formats::of_bits(bits)?;
    let kind = match kind {
        "rre" => Kind::Rre,
        "hextile" => Kind::Hextile,
        _ => return Err(Untold::NoVector),
    };
    Drawn { kind, format, size }.tell(account, bytes)
}

// How many bytes data have that are judged field by field; none if they need more.
fn in_pieces(
    size: ScreenSize,
    encoding: Encoding,
    area: Area,
    bytes: &[u8],
) -> Result<Option<usize>, WireFault> {
    let host = PixelFormat::host();
    let mut rest = bytes;
    let mut next = Judging::start(&host, encoding, area);
    for _ in 0..=bytes.len() {
        let Some(stage) = next else {
            return Ok(Some(bytes.len() - rest.len().min(bytes.len())));
        };
        let wants = stage.wants(&host);
        if rest.len() < wants {
            return Ok(None);
        }
        let fields = stage.run(&host, size, &rest[..wants])?;
        rest = &rest[fields.taken..];
        next = fields.next;
    }
    Ok(None)
}

/// Tells at which byte the data of a rectangle of a screen of this size are whole or refused.
pub(crate) fn run_measured(
    account: &mut Account,
    number: u16,
    size: ScreenSize,
    area: Area,
    bytes: &[u8],
) -> Result<(), NoMemory> {
    let Some(encoding) = Encoding::from_number(u32::from(number)) else {
        return account.tell("no encoding");
    };
    let host = PixelFormat::host();
    for count in 0..=bytes.len() {
        let data = bytes.get(..count).unwrap_or(bytes);
        let answer = measure(&host, size, encoding, area, data);
        if in_pieces(size, encoding, area, data) != answer {
            return account.tell_at(count, "otherwise in pieces");
        }
        match answer {
            Ok(None) => {}
            Ok(Some(length)) => return account.tell_number_at(count, "whole", length),
            Err(fault) => return account.tell_number_at(count, "fault", fault.number()),
        }
    }
    account.tell("needs more")
}
