//! `recorderd`, a crash-safe recorder of VNC sessions.
#![tactic(auto)]

ghost use Rattle.std.specs.Prelude.{◌≤◌, IfSome};
ghost use Rattle.std.specs.Process.{exit_status};

use command_line::{Terminals, command, no_words};
use file_disk::Progress;
use std::fs::{File, OpenOptions};
use std::io::IsTerminal;
use std::os::fd::AsRawFd;
use std::process::ExitCode;
use std::{env, io};

/// The highest number of a standard stream: that of standard error.
const LAST_STREAM: i32 = 2;

// If a standard stream is closed, the next file or socket would get its number, and what is printed
// would be written there. So the null device has it first; it stays open as long as what is
// answered is kept.
fn hold_standard_streams(rt: &HostRuntime) -> [Option<File>; 3] {
    let mut held = [None, None, None];
    for stream in &mut held {
        let Ok(file) = OpenOptions::new()
            .read(true)
            .write(true)
            .open(rt, "/dev/null")
        else {
            break;
        };
        if file.as_raw_fd() > LAST_STREAM {
            break;
        }
        *stream = Some(file);
    }
    held
}

fn arguments(rt: &HostRuntime) -> io::Result<Vec<String>> {
    Ok(env::args(rt)?.collect(rt.alloc())?)
}

// How the program ends: with the status of its command, or with 1 if there is no memory for its
// words.
fn exit_code(status: Option<u8>) -> ExitCode
    requires { IfSome status (λ status. status ≤ 2) }
    ensures { exit_status result ≤ 2 }
{
    ExitCode::from(status.unwrap_or(1))
}

fn main(rt: HostRuntime) -> ExitCode {
    let _held = hold_standard_streams(&rt);
    let mut err = rt.stderr();
    let terminals = Terminals {
        out: rt.stdout().is_terminal(),
        err: err.is_terminal(),
    };
    let words = match arguments(&rt) {
        Ok(words) => words,
        Err(error) if error.kind() == io::ErrorKind::InvalidData => {
            return exit_code(Some(no_words(terminals.err, &mut err)));
        }
        Err(_) => return exit_code(None),
    };
    let mut out = io::writer(&rt);
    let progress = Progress::new(err);
    let status = command(
        &rt,
        &words,
        terminals,
        progress,
        rt.reader(),
        &mut out,
        &mut err,
    );
    exit_code(Some(status))
}
