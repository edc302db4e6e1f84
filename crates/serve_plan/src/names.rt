//! The names of a server.

use std::alloc::Global;
use std::io;

/// The names by which browsers may ask, of a word that has a comma between two; none without one. An
/// error is of memory.
pub fn names_of<'a>(alloc: Global, word: Option<&'a str>) -> io::Result<Vec<&'a [u8]>> {
    let mut names = Vec::new(alloc);
    if let Some(word) = word {
        for name in word.as_bytes().split(|byte| *byte == b',') {
            names.push(name)?;
        }
    }
    Ok(names)
}
