//! The encoding that a viewer's list asks for.

ghost use Rattle.std.specs.Prelude.{◌≡◌, ◌⊎◌, All};
ghost use Rattle.rect_codec.specs.Encoding.{IsOther, StandsFirst};

use rect_data::Encoding;

/// The encoding for a viewer that sent these numbers, its most wanted first (RFC 6143, section
/// 7.5.2): the first of 0, 2 and 5 that stands in the list, and `Raw` if none of them does. Other
/// numbers play no part, nor does CopyRect's.
pub fn pick(numbers: &[i32]) -> Encoding
    ensures first { (encoding : Encoding) → StandsFirst numbers.now encoding → result ≡ encoding }
    ensures given { StandsFirst numbers.now result ⊎ (All IsOther numbers.now × (result ≡ Encoding.Raw)) }
{
    for number in numbers {
        match number {
            0 => return Encoding::Raw,
            2 => return Encoding::Rre,
            5 => return Encoding::Hextile,
            _ => {}
        }
    }
    Encoding::Raw
}
