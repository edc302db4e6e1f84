//! Decimal numbers in text.

ghost use Rattle.std.specs.Prelude.{◌≡◌, ◌^◌};
ghost use Rattle.std.specs.Char.{is_ascii_digit};
ghost use Rattle.std.specs.List.{list_all};
ghost use Rattle.terms.specs.Decimal.{number_of};

fn is_number(word: &[u8]) -> bool
    ensures { result ≡ list_all is_ascii_digit word.now }
{
    word.iter().all(|digit| digit.is_ascii_digit())
}

/// The number that a word writes in decimal digits alone, one or more, if it fits: none if there is
/// a sign or a space, which `parse` of the standard library would take in part.
pub fn decimal_number(word: &[u8]) -> Option<u64>
    ensures { result ≡ number_of (2 ^ 64) word.now }
{
    if !is_number(word) {
        return None;
    }
    str::from_utf8(word).ok()?.parse().ok()
}
