//! Runs drills, and compares what they answer with what stands beside them.
//!
//! Each word names a file of drills, which empty lines part. A line of a drill that begins with `> `
//! or `* ` is a line of its script, one with `# ` a comment; the others are its answers. For each
//! file a line is printed that counts its drills, and one for each that was answered in another way.
#![tactic(auto)]

mod transcript;

use std::{env, fs, io};
use transcript::Transcript;

// Prints what is found of a file of drills.
fn run_file(rt: &HostRuntime, name: &str) -> io::Result<()> {
    let text = fs::read_to_string(rt, name)?;
    let mut count = 0u64;
    for part in text.split("\n\n") {
        let transcript = Transcript::read(rt.alloc(), part)?;
        count = count.wrapping_add(1);
        if let Some(answers) = transcript.answered_otherwise(rt.alloc())? {
            println!(rt; "{name}: drill {count} is answered\n{answers}")?;
        }
    }
    println!(rt; "{name}: drills {count}")
}

fn main(rt: HostRuntime) -> io::Result<()> {
    for name in env::args(&rt)?.skip(1) {
        run_file(&rt, name.as_str())?;
    }
    Ok(())
}
