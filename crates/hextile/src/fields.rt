//! The fields of a tile's data.

ghost use Rattle.std.specs.Prelude.{◌≡◌, ◌≤◌, ◌<◌, ◌+◌, length, slice_index, true};
ghost use Rattle.hextile.specs.Grammar.{mask_of, is_allowed, pixel_if, subrectangle_bytes, subrectangle_of, is_inside, count_in, head_bytes};

use pixel_format::{Color, PixelFormat};

/// A part of a tile that has one colour. Its corner (x, y) counts from the tile's upper left
/// corner.
#[derive(Clone, Copy, Debug, PartialEq, Eq)]
pub struct Subrectangle {
    pub x: u8,
    pub y: u8,
    pub w: u8,
    pub h: u8,
    /// Its own colour; with none it has the foreground's.
    pub color: Option<Color>,
}

/// What a tile's first byte says of the bytes after it.
#[derive(Clone, Copy)]
pub struct Mask {
    /// All pixels of the tile follow, and the other bits play no part.
    pub raw: bool,
    /// The background's pixel is there.
    pub background: bool,
    /// The foreground's pixel is there.
    pub foreground: bool,
    /// There is a number of subrectangles, which follow.
    pub subrectangles: bool,
    /// Each subrectangle has a pixel of its own.
    pub colored: bool,
}

/// Which colours the tiles so far have named.
#[derive(Clone, Copy)]
pub struct Named {
    pub background: bool,
    pub foreground: bool,
}

// The mask that a byte is.
#[tactic(auto, unfolding(crate::specs::Grammar::mask_of))]
pub(crate) fn read_mask(byte: u8) -> Mask
    ensures { result ≡ mask_of byte }
{
    Mask {
        raw: byte & 1 != 0,
        background: byte & 2 != 0,
        foreground: byte & 4 != 0,
        subrectangles: byte & 8 != 0,
        colored: byte & 16 != 0,
    }
}

// Whether the mask may follow tiles that named these colours.
#[tactic(auto, unfolding(crate::specs::Grammar::is_allowed))]
pub(crate) fn may_stand(named: Named, byte: u8, mask: Mask) -> bool
    ensures { result ≡ is_allowed named byte mask }
{
    mask.raw
        || (byte < 32
            && !(mask.foreground && mask.colored)
            && (named.background || mask.background)
            && (!mask.subrectangles || mask.colored || named.foreground || mask.foreground))
}

// How many bytes a pixel takes that is there or not.
pub(crate) fn pixel_size(format: &PixelFormat, there: bool) -> usize
    ensures size { result ≡ pixel_if format.now there }
    ensures some { there ≡ true → 0 < result }
    ensures most { result ≤ 4 }
{
    if there { format.bytes() } else { 0 }
}

// How many subrectangles follow a head.
#[tactic(auto, unfolding(crate::specs::Grammar::count_in))]
pub(crate) fn read_count(format: &PixelFormat, mask: Mask, head: &[u8]) -> u8
    requires { length head.now ≡ head_bytes format.now mask }
    ensures { result ≡ count_in format.now mask head.now }
{
    if mask.subrectangles {
        head[pixel_size(format, mask.background) + pixel_size(format, mask.foreground)]
    } else {
        0
    }
}

// The subrectangle that a whole field is.
#[tactic(auto, unfolding(crate::specs::Grammar::subrectangle_of))]
pub(crate) fn read_subrectangle(format: &PixelFormat, colored: bool, field: &[u8]) -> Subrectangle
    requires { length field.now ≡ subrectangle_bytes format.now colored }
    ensures { result ≡ subrectangle_of format.now colored field.now }
{
    let (pixel, area) = field.split_at(pixel_size(format, colored));
    let color = if colored {
        Some(format.pixel(pixel))
    } else {
        None
    };
    Subrectangle {
        x: area[0] / 16,
        y: area[0] % 16,
        w: area[1] / 16 + 1,
        h: area[1] % 16 + 1,
        color,
    }
}

// Whether the subrectangle that a whole field is lies within a tile of w by h. Its pixel plays no
// part.
#[tactic(auto, unfolding(crate::specs::Grammar::subrectangle_of, crate::specs::Grammar::is_inside))]
pub(crate) fn is_part_inside(
    format: &PixelFormat,
    colored: bool,
    field: &[u8],
    w: u8,
    h: u8,
) -> bool
    requires { length field.now ≡ subrectangle_bytes format.now colored }
    ensures { result ≡ is_inside w h (subrectangle_of format.now colored field.now) }
{
    let (_, area) = field.split_at(pixel_size(format, colored));
    area[0] / 16 + area[1] / 16 < w && area[0] % 16 + area[1] % 16 < h
}
