//! Words and numbers in a text.

ghost use Rattle.std.specs.Prelude.{◌≡◌, ◌≢◌, ◌++◌, ◌^◌, ℕ, List, MatchOption};
ghost use Rattle.std.specs.Char.{is_ascii_digit};
ghost use Rattle.terms.specs.Decimal.{number_of};
ghost use Rattle.web_target.specs.Orders.{json_number, leads_with_zero};
ghost use Rattle.web_target.specs.Targets.{IsBare, IsDigits};

use terms::decimal_number;

/// What follows a front, if bytes begin with it.
pub fn following<'a>(bytes: &'a [u8], front: &[u8]) -> Option<&'a [u8]>
    ensures { MatchOption result ((rest : List ℕ) → bytes.now ≢ front.now ++ rest) (λ rest. bytes.now ≡ front.now ++ rest.now) }
{
    bytes.strip_prefix(front)
}

/// The digits that bytes begin with, and what follows them.
pub fn digits_first(bytes: &[u8]) -> (&[u8], &[u8])
    ensures whole { bytes.now ≡ result.0.now ++ result.1.now }
    ensures digits { IsDigits result.0.now }
    ensures rest { IsBare result.1.now }
{
    for (end, byte) in bytes.iter().enumerate() {
        if !byte.is_ascii_digit() {
            return (&bytes[..end], &bytes[end..]);
        }
    }
    (bytes, &[])
}

/// A number of 32 bits.
pub fn small_number(digits: &[u8]) -> Option<u32>
    ensures { result ≡ number_of (2 ^ 32) digits.now }
{
    u32::try_from(decimal_number(digits)?).ok()
}

// Whether there is a zero before further digits.
fn leads_with_zero(digits: &[u8]) -> bool
    ensures { result ≡ leads_with_zero digits.now }
{
    digits.len() > 1 && digits[0] == b'0'
}

/// A number in JSON (RFC 8259, section 6).
pub fn json_number(digits: &[u8]) -> Option<u64>
    ensures { result ≡ json_number (2 ^ 64) digits.now }
{
    if leads_with_zero(digits) {
        return None;
    }
    decimal_number(digits)
}

/// A number in JSON, of 32 bits.
pub fn small_json_number(digits: &[u8]) -> Option<u32>
    ensures { result ≡ json_number (2 ^ 32) digits.now }
{
    if leads_with_zero(digits) {
        return None;
    }
    small_number(digits)
}
