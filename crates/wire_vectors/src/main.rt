//! Runs vectors of the protocol: bytes, and what comes of them, worked by hand from RFC 6143.
//!
//! Each word names a file of vectors, which empty lines part. A vector is `KIND NUMBERS: BYTES`, an
//! arrow `->`, and its outcome; a line that begins with `#` is a comment. For each file a line is
//! printed that counts its vectors, and two for each whose outcome is another.
#![tactic(auto)]

mod account;
mod formats;
mod hosts;
mod picture;
mod readings;
mod rectangles;
mod screens;
mod served;
mod sessions;
mod updates;
mod vector;
mod viewers;
mod words;

use account::Account;
use std::{env, fs, io};

// Prints a vector if its outcome is another than is expected.
fn run_vector(rt: &HostRuntime, name: &str, vector: &str, expected: &str) -> io::Result<()> {
    let mut account = Account::new(rt.alloc());
    vector::run(&mut account, vector)?;
    let outcome = &account.text;
    if !words::are_same(outcome, expected) {
        println!(rt; "{name}: {vector}\n-> {outcome}")?;
    }
    Ok(())
}

// Runs the vector that a part of a file tells: 0 if there is none, else 1.
fn run_part(rt: &HostRuntime, name: &str, part: &str) -> io::Result<u64> {
    let told = words::without_comments(rt.alloc(), part)?;
    let Some((vector, expected)) = told.split_once("->") else {
        return Ok(0);
    };
    run_vector(rt, name, vector, expected)?;
    Ok(1)
}

// Prints what is found of the vectors of a file.
fn run_parts(rt: &HostRuntime, name: &str, text: &str) -> io::Result<()> {
    let mut count = 0u64;
    for part in text.split("\n\n") {
        count = count.wrapping_add(run_part(rt, name, part)?);
    }
    println!(rt; "{name}: vectors {count}")
}

fn run_file(rt: &HostRuntime, name: &str) -> io::Result<()> {
    let text = fs::read_to_string(rt, name)?;
    run_parts(rt, name, &text)
}

fn main(rt: HostRuntime) -> io::Result<()> {
    for name in env::args(&rt)?.skip(1) {
        run_file(&rt, name.as_str())?;
    }
    Ok(())
}
