//! Opens recordings of which one byte is changed, to each of its values, and recordings that are cut
//! off at each length.
//!
//! Each word names a file: `.journal` is opened as blocks, whatever their bodies are, and any other
//! one as messages. A line says what is answered for the file as it is. Then, but for `.damaged`, a
//! line for each offset says what is answered for which values there, and a last one for which
//! lengths; each ends with the first digits of a digest of all that was read.
#![tactic(auto)]

mod outcome;
mod runs;

use outcome::{Kind, outcome_of};
use runs::Runs;
use sha2::{Digest, Sha256};
use std::{env, fs, io};

// What is answered for each value of the byte at an offset.
fn print_offset(rt: &HostRuntime, kind: Kind, file: &[u8], offset: usize) -> io::Result<()> {
    let mut runs = Runs::new(rt.alloc());
    let mut read = Sha256::new();
    for value in 0..=255u8 {
        let mut changed = file.to_vec(rt.alloc())?;
        if let Some(byte) = changed.get_mut(offset) {
            *byte = value;
        }
        let outcome = outcome_of(rt.alloc(), kind, changed, &mut read);
        runs.note(usize::from(value), outcome)?;
    }
    print!(rt; "offset {offset}:")?;
    runs.print(rt, read.finalize())
}

// What is answered for each length that is shorter.
fn print_lengths(rt: &HostRuntime, kind: Kind, file: &[u8]) -> io::Result<()> {
    let mut runs = Runs::new(rt.alloc());
    let mut read = Sha256::new();
    for length in 0..file.len() {
        let cut_off = file[..length].to_vec(rt.alloc())?;
        runs.note(length, outcome_of(rt.alloc(), kind, cut_off, &mut read))?;
    }
    print!(rt; "length:")?;
    runs.print(rt, read.finalize())
}

fn print_file(rt: &HostRuntime, name: &str) -> io::Result<()> {
    let file = fs::read(rt, name)?;
    let kind = if name.ends_with(".journal") {
        Kind::Blocks
    } else {
        Kind::Messages
    };
    let whole = file.clone()?;
    let outcome = outcome_of(rt.alloc(), kind, whole, &mut Sha256::new());
    println!(rt; "{name}: {outcome}")?;
    if name.ends_with(".damaged") {
        return Ok(());
    }
    for offset in 0..file.len() {
        print_offset(rt, kind, &file, offset)?;
    }
    print_lengths(rt, kind, &file)
}

fn main(rt: HostRuntime) -> io::Result<()> {
    for name in env::args(&rt)?.skip(1) {
        print_file(&rt, name.as_str())?;
    }
    Ok(())
}
