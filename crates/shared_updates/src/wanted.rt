//! What an update is to have.

ghost use Rattle.std.specs.Prelude.{◌≡◌, ◌↔◌, IsTrue};

use crate::copy::KeptCopy;
use pixel_format::PixelFormat;
use rect_data::Encoding;
use terms::Area;

/// What an update is to have: copies first, if there are any, and the pixels of some areas after
/// them, in their order.
#[derive(Clone, Copy)]
pub struct Wanted<'a> {
    /// The pixel format in which the viewer takes it.
    pub format: &'a PixelFormat,
    /// The encoding that the viewer asked for.
    pub encoding: Encoding,
    pub copies: &'a [KeptCopy],
    pub areas: &'a [Area],
}

impl Wanted<'_> {
    /// Whether more is done for it than pixels are copied: it isn't in Raw and the host's format.
    pub fn is_converted(&self) -> bool {
        self.encoding != Encoding::Raw || !self.format.is_host()
    }
}

/// Whether two formats are the same.
pub(crate) fn same_format(one: &PixelFormat, other: &PixelFormat) -> bool
    ensures { IsTrue result → one.now ≡ other.now }
{
    one.write() == other.write()
}

/// Whether two lists of copies are the same.
pub(crate) fn same_copies(one: &[KeptCopy], other: &[KeptCopy]) -> bool
    ensures { IsTrue result → one.now ≡ other.now }
{
    if one.len() != other.len() {
        return false;
    }
    for k in 0..one.len() {
        if one[k] != other[k] {
            return false;
        }
    }
    true
}

/// Whether two lists of areas are the same.
pub(crate) fn same_areas(one: &[Area], other: &[Area]) -> bool
    ensures { IsTrue result → one.now ≡ other.now }
{
    if one.len() != other.len() {
        return false;
    }
    for k in 0..one.len() {
        if one[k] != other[k] {
            return false;
        }
    }
    true
}
