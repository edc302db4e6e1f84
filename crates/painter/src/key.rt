//! Key screens: a screen as one message.

ghost use Rattle.std.specs.Prelude.{◌≡◌, ◌↔◌, ◌⊎◌, ◌+◌, ◌*◌, ◌≤◌, length, IfOk, IsTrue};
ghost use Rattle.terms.specs.Limits.{limits};
ghost use Rattle.painter.specs.Framebuffer.{SameSize, color_at};
ghost use Rattle.painter.specs.Key.{IsKey, IsWhole};

use crate::screen::Screen;
use crate::update::ScreenPart;
use pixel_format::PixelFormat;
use rfb_wire::{Encoding, HostMessage, Rectangle};
use std::alloc::{AllocError, Global};
use terms::{Area, Format, NoMemory, RecordedScreen, ScreenSize};

// Of so many rows of pixels, one row of Hextile's tiles is tried.
const ROWS_A_TRY: u16 = 128;

// Whether the rectangle is one of all pixels of a screen of this size, in an encoding that doesn't
// look at what stood there.
fn is_whole(size: ScreenSize, rectangle: Rectangle) -> bool
    ensures { IsTrue result ↔ IsWhole size.width size.height rectangle }
{
    let of_all_pixels = rectangle.area == Area::whole(size);
    of_all_pixels && matches!(rectangle.encoding, Encoding::Raw | Encoding::Hextile)
}

impl Screen {
    // The encoding to try for its key: Hextile, unless a sample says that it wouldn't save a quarter
    // of Raw's bytes. A host waits for its key, and to encode a photo takes far longer than to copy
    // it. The sample is one row of tiles in eight; a screen of fewer than 128 rows has none.
    fn key_encoding(&self, alloc: Global) -> Result<Encoding, NoMemory>
        ensures { IfOk result (λ e. (e ≡ Encoding.Raw) ⊎ (e ≡ Encoding.Hextile)) }
    {
        let size = self.size();
        let host = PixelFormat::host();
        let mut tried = Vec::new(alloc);
        let tries = size.height / ROWS_A_TRY;
        for k in 0..tries {
            let mut area = Area::whole(size);
            area.y = k * ROWS_A_TRY + ROWS_A_TRY / 2;
            area.h = 16;
            let encoding = Encoding::Hextile;
            let row = ScreenPart::Region { area, encoding };
            self.append_update(alloc, &host, &[row], &mut tried)?;
        }
        let pixels = usize::from(tries) * 16 * usize::from(size.width);
        if tried.len() / 3 > pixels {
            return Ok(Encoding::Raw);
        }
        Ok(Encoding::Hextile)
    }

    /// An update that paints the screen over whatever stood there (RFC 6143, section 7.6.1), for a
    /// recording of this format: one rectangle over the whole screen, in Hextile if that saves bytes
    /// enough, by a sample of a screen of 128 rows or more, and comes out shorter than Raw; else in
    /// Raw. It has at most 16 bytes and 4 more for each pixel, as in Raw; that no shorter one is
    /// passed over is in no clause. It is for a screen within the limits of the format.
    pub fn key(&self, alloc: Global, format: Format) -> Result<HostMessage, NoMemory>
        requires { self.now.width * self.now.height ≤ (limits format).area }
        ensures format { IfOk result (λ m. m.format ≡ format) }
        ensures key { IfOk result (IsKey self.now.width self.now.height (color_at self.now)) }
        ensures short { IfOk result (λ m. length m.bytes ≤ 16 + 4 * (self.now.width * self.now.height)) }
    {
        let size = self.size();
        self.known_colors();
        let encoding = self.key_encoding(alloc)?;
        let slots = ScreenPart::Region {
            area: Area::whole(size),
            encoding,
        };
        let host = PixelFormat::host();
        let mut bytes = Vec::new(alloc);
        self.append_update(alloc, &host, &[slots], &mut bytes)?;
        match HostMessage::from_bytes_in(alloc, RecordedScreen { format, size }, &bytes) {
            Ok(message) => Ok(message),
            Err(_) => Err(AllocError),
        }
    }

    /// Whether the message, of this screen's size, is a key screen that paints this screen: an
    /// update of one Raw or Hextile rectangle over the whole screen which paints, over whatever
    /// stands there, what this screen has. `other`, a screen of this size, is painted over.
    pub fn is_key(&self, message: &HostMessage, other: &mut Screen) -> bool
        requires width { message.now.width ≡ self.now.width }
        requires height { message.now.height ≡ self.now.height }
        requires size { SameSize self.now other.old }
        ensures size { SameSize self.now other.new }
        ensures is_key { IsTrue result ↔ IsKey self.now.width self.now.height (color_at self.now) message.now }
    {
        let size = self.size();
        let rectangles = message.rectangles();
        if rectangles.len() != 1 || !is_whole(size, rectangles[0]) {
            return false;
        }
        other.paint(message);
        other.same(self)
    }
}
