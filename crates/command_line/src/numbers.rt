//! Numbers on the command line.

ghost use Rattle.std.specs.Prelude.{◌≤◌, IfSome};

/// A decimal number: digits alone.
pub fn number(word: &str) -> Option<u64> {
    if !word.bytes().all(|byte| byte.is_ascii_digit()) {
        return None;
    }
    word.parse().ok()
}

/// A decimal number with at most three digits after the point, in thousandths.
pub fn thousandths(word: &str) -> Option<u32> {
    let (whole, part) = word.split_once(".").unwrap_or((word, "0"));
    let scale = match part.len() {
        1 => 100,
        2 => 10,
        3 => 1,
        _ => return None,
    };
    let thousandths = number(whole)?
        .checked_mul(1000)?
        .checked_add(number(part)?.checked_mul(scale)?)?;
    u32::try_from(thousandths).ok()
}

/// A number within these limits; `default` if no word is given.
pub fn within(word: Option<&str>, least: u64, most: u64, default: u64) -> Option<u64>
    ensures least { IfSome result (λ number. least ≤ number) }
    ensures most { IfSome result (λ number. number ≤ most) }
{
    let number = match word {
        Some(word) => number(word)?,
        None => default,
    };
    if number < least || most < number {
        return None;
    }
    Some(number)
}

/// What was read of an option, which may be left out; `None` if it can't be read.
pub fn if_given<T>(read: Option<Option<T>>) -> Option<Option<T>> {
    match read {
        None => Some(None),
        Some(None) => None,
        Some(Some(value)) => Some(Some(value)),
    }
}
