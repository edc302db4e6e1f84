//! A rectangle of pixels that are numbers.

ghost use Rattle.std.specs.Prelude.{◌≡◌, ◌*◌, length};

/// The pixels of a rectangle of w by h as numbers, by rows from the top and each from the left.
#[derive(Clone, Copy)]
pub struct Pixels<'a> {
    pub w: u16,
    pub h: u16,
    pub numbers: &'a [u32],
    pub ghost size: { length numbers.now ≡ h * w },
}
