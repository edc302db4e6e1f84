//! The files of transcripts.

use std::alloc::Global;
use std::fs::File;
use std::rt::Files;
use std::{fs, io};

/// The bytes that words of hexadecimal digits spell.
pub fn bytes_of(alloc: Global, digits: &str) -> io::Result<Vec<u8>> {
    let mut bytes = Vec::new(alloc);
    for word in digits.split_whitespace() {
        match hex::decode(alloc, word) {
            Ok(part) => bytes.extend_from_slice(&part)?,
            Err(_) => return Err(io::ErrorKind::InvalidData.into()),
        }
    }
    Ok(bytes)
}

/// Writes a file as another one, with another byte at an offset.
pub fn change<R: AllocGlobal + Files<File = File>>(
    rt: &R,
    from: &str,
    name: &str,
    offset: &str,
    byte: &str,
) -> io::Result<()> {
    let mut bytes = fs::read(rt, from)?;
    let (Ok(offset), Ok(byte)) = (offset.parse::<usize>(), byte.parse::<u8>()) else {
        return Err(io::ErrorKind::InvalidData.into());
    };
    match bytes.get_mut(offset) {
        Some(changed) => *changed = byte,
        None => return Err(io::ErrorKind::InvalidData.into()),
    }
    fs::write(rt, name, bytes.as_slice())
}

/// The digits of a file's bytes, if it has others than these digits say.
pub fn other_bytes<R: AllocGlobal + Files<File = File>>(
    rt: &R,
    name: &str,
    digits: &str,
) -> io::Result<Option<String>> {
    let bytes = fs::read(rt, name)?;
    if bytes.as_slice() == bytes_of(rt.alloc(), digits)?.as_slice() {
        return Ok(None);
    }
    Ok(Some(hex::encode(rt.alloc(), bytes.as_slice())?))
}
