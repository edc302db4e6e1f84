//! The moments of a recording, as people write them.

ghost use Rattle.std.specs.Prelude.{◌≡◌, ◌^◌, ◌<◌, ◌*◌, ◌==◌, IfSome, option_map, position};
ghost use Rattle.spelling.specs.Moments.{clock, milliseconds, moment_of, number, parted, seconds_by, sixtieths, thousandths};

use terms::decimal_number;

// The index of the first such byte of a word.
fn first(word: &[u8], mark: u8) -> Option<usize>
    ensures { result ≡ position (λ byte. byte == mark) word.now }
{
    word.iter().position(|byte| *byte == mark)
}

// What stands before the first such byte of a word, and after it.
fn parts(word: &[u8], mark: u8) -> Option<(&[u8], &[u8])>
    ensures { option_map (λ parts. (parts.0.now, parts.1.now)) result ≡ parted mark word.now }
{
    match first(word, mark) {
        None => None,
        Some(at) => {
            let (front, _) = word.split_at(at);
            let (_, rest) = word.split_at(at + 1);
            Some((front, rest))
        }
    }
}

// A number in digits.
fn whole_number(word: &[u8]) -> Option<u64>
    ensures value { result ≡ number word.now }
    ensures below { IfSome result (λ number. number < 2 ^ 32) }
{
    let number = u32::try_from(decimal_number(word)?).ok()?;
    Some(u64::from(number))
}

// Two digits, below sixty.
fn sixtieth(word: &[u8]) -> Option<u64>
    ensures value { result ≡ sixtieths word.now }
    ensures below { IfSome result (λ number. number < 60) }
{
    if word.len() != 2 {
        return None;
    }
    decimal_number(word).filter(|number| *number < 60)
}

// The digits after a point, in thousandths: one to three.
fn fraction(word: &[u8]) -> Option<u64>
    ensures value { result ≡ thousandths word.now }
    ensures below { IfSome result (λ number. number < 2 ^ 32 * 100) }
{
    let scale = match word.len() {
        1 => 100,
        2 => 10,
        3 => 1,
        _ => return None,
    };
    Some(whole_number(word)? * scale)
}

// Seconds in milliseconds, with a point or without.
fn seconds(word: &[u8]) -> Option<u64>
    ensures value { result ≡ seconds_by number word.now }
    ensures below { IfSome result (λ number. number < 2 ^ 32 * 1100) }
{
    match parts(word, b'.') {
        None => Some(whole_number(word)? * 1000),
        Some((whole, rest)) => Some(whole_number(whole)? * 1000 + fraction(rest)?),
    }
}

// The seconds of a clock in milliseconds, with a point or without.
fn clock_seconds(word: &[u8]) -> Option<u64>
    ensures value { result ≡ seconds_by sixtieths word.now }
    ensures below { IfSome result (λ number. number < 2 ^ 32 * 1100) }
{
    match parts(word, b'.') {
        None => Some(sixtieth(word)? * 1000),
        Some((whole, rest)) => Some(sixtieth(whole)? * 1000 + fraction(rest)?),
    }
}

// A time of a clock in milliseconds: minutes or hours, and what stands after the first colon.
fn clock_time(front: &[u8], rest: &[u8]) -> Option<u64>
    ensures { result ≡ clock front.now rest.now }
{
    let first = whole_number(front)?;
    match parts(rest, b':') {
        None => Some(first * 60_000 + clock_seconds(rest)?),
        Some((minutes, rest)) => {
            let minutes = sixtieth(minutes)?;
            Some(first * 3_600_000 + minutes * 60_000 + clock_seconds(rest)?)
        }
    }
}

// What a word means, in milliseconds.
fn meaning(word: &[u8]) -> Option<u64>
    ensures { result ≡ milliseconds word.now }
{
    match parts(word, b's') {
        Some((front, rest)) if rest.is_empty() => seconds(front),
        Some(_) => None,
        None => match parts(word, b':') {
            Some((front, rest)) => clock_time(front, rest),
            None => whole_number(word),
        },
    }
}

/// The moment that a word names, in milliseconds of a recording: `61210` is in milliseconds,
/// `61.2s` in seconds, `1:01.2` in minutes and seconds, and `1:02:03` in hours, minutes and
/// seconds. One to three digits follow a point, and two, below 60, a colon. `None` if a word is
/// none of these, or names a time that no recording has.
pub fn moment(word: &str) -> Option<u32>
    ensures { result ≡ moment_of word.now }
{
    u32::try_from(meaning(word.as_bytes())?).ok()
}
