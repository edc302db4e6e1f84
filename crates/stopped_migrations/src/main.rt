//! Migrates recordings, while the devices stop at one call after another.
//!
//! Each word names a file, a recording of format 1. It is migrated onto an empty disk again and
//! again: the devices of both stop at the first call, at the second and so on, until a run meets no
//! stop. For each fill a line says what the stops leave of the target: `-` no recording, `+` one with
//! all messages, `?` anything else; and at its end that the run without a stop migrated all of them.
#![tactic(auto)]

mod stopping;

use disk::Fill;
use std::{env, fs, io};
use stopping::{Left, Run, migrated};

const FILLS: [(&str, Fill); 5] = [
    ("held", Fill::Held),
    ("now", Fill::Now),
    ("4f", Fill::Byte(0x4f)),
    ("43", Fill::Byte(0x43)),
    ("00", Fill::Byte(0)),
];

// No migration of these files makes so many calls.
const MOST_CALLS: u64 = 1_000;

fn sign_of(left: Left) -> &'static str {
    match left {
        Left::NoRecording => "-",
        Left::AllMessages => "+",
        Left::Other => "?",
    }
}

// What each stop leaves with this fill, up to the run that meets none.
fn print_stops(rt: &HostRuntime, file: &[u8], fill: Fill) -> io::Result<()> {
    for calls in 0..MOST_CALLS {
        let Run { is_stopped, left } = migrated(rt.alloc(), file, calls, fill)?;
        if !is_stopped {
            let end = match left {
                Left::AllMessages => "migrated",
                Left::NoRecording | Left::Other => "not migrated",
            };
            println!(rt; " {end}")?;
            return Ok(());
        }
        let sign = sign_of(left);
        print!(rt; "{sign}")?;
    }
    println!(rt; " no end")
}

fn main(rt: HostRuntime) -> io::Result<()> {
    for name in env::args(&rt)?.skip(1) {
        let file = fs::read(&rt, name.as_str())?;
        for (word, fill) in FILLS {
            print!(rt; "{name} {word} ")?;
            print_stops(&rt, &file, fill)?;
        }
    }
    Ok(())
}
