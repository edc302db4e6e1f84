//! Desks for tests.

ghost use Rattle.std.specs.Prelude.{◌≡◌, IfSome};
ghost use Rattle.book_tests.specs.OnePixel.{IsOfOnePixel};

use broadcast::Desk;
use disk::Disk;
use flusher_core::Book;
use gated_journal::Header;
use std::alloc::Global;
use terms::ScreenSize;

/// The size of a screen of one pixel.
pub const ONE_PIXEL: ScreenSize = ScreenSize {
    width: 1,
    height: 1,
};

/// A desk over a new recording of one pixel, with a key interval of 4 and the name 'x', boxed; none
/// when memory runs out, the device fails, or the disk has bytes.
pub fn desk_of_one_pixel<D: Disk + Drop>(alloc: Global, disk: D) -> Option<Box<Desk<D>>>
    ensures pixel { IfSome result (λ desk. IsOfOnePixel desk.value.head) }
{
    let header = Header::new(alloc, ONE_PIXEL, 4, b"x").ok()?;
    match Book::create(alloc, disk, header) {
        Ok(book) => Box::new(alloc, Desk::new(book)).ok(),
        Err(_) => None,
    }
}
