//! Updates as they are written.

ghost use Rattle.std.specs.Prelude.{◌≡◌, ◌*◌, All, IfOk, length};
ghost use Rattle.pixel_format.specs.Format.{host_format};
ghost use Rattle.pixel_format.specs.Pixel.{IsWithin};
ghost use Rattle.terms.specs.Area.{LiesWithin};

use crate::account::{Account, Untold};
use crate::picture::write_rows;
use crate::screens::painted;
use painter::Screen;
use pixel_format::{Color, PixelFormat};
use rect_codec::write_update;
use rect_data::Encoding;
use std::alloc::Global;
use terms::{Area, NoMemory, ScreenSize};

// The colours of an area of a screen, in the host's format.
fn colors_of(alloc: Global, screen: &Screen, area: Area) -> Result<Vec<Color>, NoMemory>
    requires { LiesWithin screen.now.width screen.now.height area }
    ensures size { IfOk result (λ colors. length colors.items ≡ area.h * area.w) }
    ensures within { IfOk result (λ colors. All (IsWithin host_format) colors.items) }
{
    let mut colors = Vec::new(alloc);
    screen.area(area, &mut colors)?;
    let mut row = colors.clone()?;
    PixelFormat::host().convert_row(&colors, &mut row);
    Ok(row)
}

// An update of all of a screen, in the host's format.
fn written(alloc: Global, screen: &Screen, encoding: Encoding) -> Result<Vec<u8>, NoMemory> {
    let size = screen.size();
    let area = Area::whole(size);
    let colors = colors_of(alloc, screen, area)?;
    let mut out = Vec::new(alloc);
    write_update(
        alloc,
        &PixelFormat::host(),
        area,
        &colors,
        encoding,
        &mut out,
    )?;
    Ok(out)
}

// Tells how long an update is beside one in Raw, and what it paints.
fn tell(account: &mut Account, size: ScreenSize, raw: usize, update: &[u8]) -> Result<(), Untold> {
    account.tell_at(raw, "in Raw")?;
    if update.len() < raw {
        account.tell("shorter")?;
    }
    account.tell("")?;
    let again = painted(account.alloc, size, update)?;
    Ok(write_rows(account, &again, (size.width, size.height))?)
}

/// Tells of a screen that an update paints how many bytes an update of all of it has in Raw, whether
/// it is shorter in the encoding of this number, and the rows that this one paints.
pub(crate) fn run(
    account: &mut Account,
    number: u16,
    size: ScreenSize,
    bytes: &[u8],
) -> Result<(), Untold> {
    let Some(encoding) = Encoding::from_number(u32::from(number)) else {
        return Err(Untold::NoVector);
    };
    let screen = painted(account.alloc, size, bytes)?;
    let raw = written(account.alloc, &screen, Encoding::Raw)?.len();
    let update = written(account.alloc, &screen, encoding)?;
    tell(account, size, raw, &update)
}
