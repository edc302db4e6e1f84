//! Comparing colours.

ghost use Rattle.std.specs.Prelude.{◌≡◌, ◌↔◌, IsTrue};

use crate::Color;

/// Whether two colours are the same. Each channel is compared, whatever the others are, so that many
/// colours are compared at once.
#[inline(always)]
pub fn same(one: Color, other: Color) -> bool
    ensures { IsTrue result ↔ (one ≡ other) }
{
    (one.r == other.r) & (one.g == other.g) & (one.b == other.b)
}
