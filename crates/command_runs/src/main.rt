//! Plays transcripts: what the program prints, how it ends, and what its files hold then.
//!
//! Each word names a file of transcripts, whose paragraphs are parted by empty lines:
//!
//! | Paragraph | Says |
//! |---|---|
//! | `STATUS WORDS`, and lines after `< `, `| ` and `: ` | with these words and this input it ends so, and prints these lines and bytes |
//! | `bad`, and words in lines | none of the lines is a command line |
//! | `file NAME`, and bytes | a file is written |
//! | `change FROM NAME OFFSET BYTE` | a file is written as another one, with another byte at an offset |
//! | `link FROM NAME` | a file has another name, too |
//! | `here NAME`, and bytes | a file has just these bytes |
//! | `remove NAMES` | files are removed, if they are there |
//! | `#`, and a text | nothing: it is a comment |
//!
//! Bytes are hexadecimal digits; what is printed on standard error comes after what is printed on
//! standard output. For each file a line is printed that counts the paragraphs that are so, beside
//! comments, and each one that isn't, with what came instead. At last drills are run whose output
//! has little room, and one whose input can't be read: their exit statuses are printed.
#![tactic(auto)]

mod calls;
mod files;
mod streams;
mod transcript;

use calls::words_of;
use std::{env, io};
use streams::Input;
use transcript::{play, run};

/// A drill that prints 25 bytes.
const DRILL: &[u8] = b"new 1 1 4 x\nopen\n";

fn main(rt: HostRuntime) -> io::Result<()> {
    for name in env::args(&rt)?.skip(1) {
        play(&rt, name.as_str())?;
    }
    let words = words_of(rt.alloc(), "drill")?;
    print!(rt; "a drill of 25 bytes, with room for 0 to 25:")?;
    for room in 0..=25 {
        let outcome = run(&rt, &words, Input::Bytes(DRILL), room)?;
        print!(rt; " {}", outcome.status)?;
    }
    let outcome = run(&rt, &words, Input::Unreadable, 25)?;
    println!(rt; "\nwith an input that can't be read: {}", outcome.status)
}
