//! Screens that updates paint.

ghost use Rattle.std.specs.Prelude.{◌≡◌, IfOk};

use crate::account::{Account, Untold};
use crate::picture::{Pixels, write_rows};
use crate::words::bytes;
use painter::Screen;
use pixel_format::Color;
use rfb_wire::HostMessage;
use std::alloc::Global;
use terms::{Format, ScreenSize};

impl Pixels for Screen {
    fn color_at(&self, x: u16, y: u16) -> Option<Color> {
        let size = self.size();
        if x < size.width && y < size.height {
            Some(self.color(x, y))
        } else {
            None
        }
    }
}

// Paints an update on a screen, if there is one.
fn paint(alloc: Global, screen: &mut Screen, bytes: &[u8]) -> Result<(), Untold>
    ensures width { screen.new.width ≡ screen.old.width }
    ensures height { screen.new.height ≡ screen.old.height }
{
    if bytes.is_empty() {
        return Ok(());
    }
    let Ok(message) = HostMessage::from_bytes(alloc, screen.size(), bytes) else {
        return Err(Untold::NoVector);
    };
    if message.size() != screen.size() {
        return Err(Untold::NoVector);
    }
    screen.paint(&message);
    Ok(())
}

// Paints the updates that commas part.
fn paint_all(alloc: Global, screen: &mut Screen, text: &str) -> Result<(), Untold> {
    for update in text.split(",") {
        paint(alloc, screen, &bytes(alloc, update)?)?;
    }
    Ok(())
}

/// Tells the rows of a screen of this size that updates paint, which commas part.
pub(crate) fn run(account: &mut Account, size: ScreenSize, text: &str) -> Result<(), Untold> {
    let mut screen = Screen::black(account.alloc, size)?;
    paint_all(account.alloc, &mut screen, text)?;
    write_rows(account, &screen, (size.width, size.height))?;
    Ok(())
}

/// A black screen of this size that an update painted.
pub(crate) fn painted(alloc: Global, size: ScreenSize, bytes: &[u8]) -> Result<Screen, Untold>
    ensures width { IfOk result (λ screen. screen.width ≡ size.width) }
    ensures height { IfOk result (λ screen. screen.height ≡ size.height) }
{
    let mut screen = Screen::black(alloc, size)?;
    paint(alloc, &mut screen, bytes)?;
    Ok(screen)
}

// Tells a key screen of this screen, if it paints the same.
fn tell_key(account: &mut Account, screen: &Screen) -> Result<(), Untold> {
    let size = screen.size();
    if !Format::One.limits().allow(size) {
        return Err(Untold::NoVector);
    }
    let key = screen.key(account.alloc, Format::One)?;
    if painted(account.alloc, size, key.bytes())?.same(screen) {
        account.add_bytes(key.bytes())?;
    } else {
        account.tell("another screen")?;
    }
    Ok(())
}

/// Tells the key screen of a screen that an update paints.
pub(crate) fn run_key(account: &mut Account, size: ScreenSize, bytes: &[u8]) -> Result<(), Untold> {
    tell_key(account, &painted(account.alloc, size, bytes)?)
}
