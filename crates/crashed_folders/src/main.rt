//! Makes recordings in a folder in memory, and looks what is left if the machine crashes at each
//! moment, or a call fails.
//!
//! Each word names a file, a recording. It is recorded again in a folder that has nothing, a file
//! without bytes at its path, or a part of a header under its draft's name. A line says what crashes
//! at each moment leave, and one what each call that fails leaves: `-` what was there at first, `+` a
//! recording with all that was committed, `~` the one or the other, `!` that no recorder goes on from
//! it, `?` anything else.
#![tactic(auto)]

mod crashes;
mod folder_file;
mod life;
mod source;

use crashes::{First, Left, folder_with, live};
use source::Source;
use std::{env, fs, io};

const FIRSTS: [(&str, First); 3] = [
    ("nothing", First::Nothing),
    ("empty", First::Empty),
    ("draft", First::Draft),
];

// No life of these recordings makes so many calls of its folder.
const MOST_CALLS: u64 = 1_000;

fn sign_of(left: Left) -> char {
    match left {
        Left::AtFirst => '-',
        Left::Recording => '+',
        Left::Either => '~',
        Left::Dead => '!',
        Left::Wrong => '?',
    }
}

// What crashes leave at each moment of a life.
fn print_crashes(rt: &HostRuntime, source: &Source, first: First) -> io::Result<()> {
    let alloc = rt.alloc();
    let life = live(alloc, folder_with(alloc, first)?, first, source)?;
    let (begin, end) = life.moments();
    for moment in begin..=end {
        let sign = sign_of(life.left_at(alloc, source, moment)?);
        print!(rt; "{sign}")?;
    }
    println!(rt; "{end}", end = if life.is_done { "" } else { " not done" })
}

// What each call that fails leaves, up to the life in which none does.
fn print_refusals(rt: &HostRuntime, source: &Source, first: First) -> io::Result<()> {
    let alloc = rt.alloc();
    for calls in 0..MOST_CALLS {
        let mut folder = folder_with(alloc, first)?;
        folder.fail_after(calls);
        let life = live(alloc, folder, first, source)?;
        if life.is_unhurt() {
            return println!(rt; "");
        }
        let (_begin, end) = life.moments();
        let sign = sign_of(life.left_at(alloc, source, end)?);
        print!(rt; "{sign}")?;
    }
    println!(rt; " no end")
}

fn main(rt: HostRuntime) -> io::Result<()> {
    for name in env::args(&rt)?.skip(1) {
        let source = Source::of(rt.alloc(), &fs::read(&rt, name.as_str())?)?;
        for (word, first) in FIRSTS {
            print!(rt; "{name} {word} crashed ")?;
            print_crashes(&rt, &source, first)?;
            print!(rt; "{name} {word} refused ")?;
            print_refusals(&rt, &source, first)?;
        }
    }
    Ok(())
}
