//! The words of a vector.

use crate::account::Untold;
use std::alloc::Global;
use std::fmt::Write;
use terms::NoMemory;

/// The lines of a part of a file that aren't comments, one after the other.
pub(crate) fn without_comments(alloc: Global, part: &str) -> Result<String, NoMemory> {
    let mut kept = String::new(alloc);
    for line in part.lines() {
        if !line.starts_with("#") {
            write!(kept, "{line} ")?;
        }
    }
    Ok(kept)
}

/// Whether two texts have the same words.
pub(crate) fn are_same(first: &str, second: &str) -> bool {
    let mut others = second.split_whitespace();
    for word in first.split_whitespace() {
        if others.next() != Some(word) {
            return false;
        }
    }
    others.next().is_none()
}

/// Appends the numbers after the first word.
pub(crate) fn append_numbers(head: &str, numbers: &mut Vec<u16>) -> Result<(), Untold> {
    let mut words = head.split_whitespace();
    let _kind = words.next();
    for word in words {
        match word.parse::<u16>() {
            Ok(number) => numbers.push(number)?,
            Err(_) => return Err(Untold::NoVector),
        }
    }
    Ok(())
}

// A word without the count after its `*`, and that count: 1 if there is none.
fn repeated(word: &str) -> (&str, usize) {
    match word.split_once("*") {
        Some((digits, count)) => (digits, count.parse::<usize>().unwrap_or(0)),
        None => (word, 1),
    }
}

// Appends the bytes that a word spells.
fn append_word(alloc: Global, word: &str, bytes: &mut Vec<u8>) -> Result<(), Untold> {
    let (digits, count) = repeated(word);
    let Ok(part) = hex::decode(alloc, digits) else {
        return Err(Untold::NoVector);
    };
    for _ in 0..count {
        bytes.extend_from_slice(&part)?;
    }
    Ok(())
}

/// The bytes that words spell: hexadecimal digits, and `*` with a count if they are repeated.
pub(crate) fn bytes(alloc: Global, text: &str) -> Result<Vec<u8>, Untold> {
    let mut bytes = Vec::new(alloc);
    for word in text.split_whitespace() {
        append_word(alloc, word, &mut bytes)?;
    }
    Ok(bytes)
}
