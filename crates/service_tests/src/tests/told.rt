//! What is told while nobody reads it.

use std::net::Net;
use std::os::fd::AsRawFd;
use std::os::unix::net::UnixStream;
use std::sync::Wait;
use std::test::Fail;
use std::thread::Threads;
use std::{io, thread};
use telling::{Event, Telling, Told};

/// More lines than a socket and the queue take.
const LINES: u64 = 20_000;

// Tells so many lines while nobody reads, and then that nothing more is told: what is read from then
// on, if anybody reads.
fn told<R: AllocGlobal + Net + Sync + Threads + Wait>(rt: &R, is_read: bool) -> io::Result<String> {
    let telling = &Telling::new(rt.alloc(), Told::Everything)?;
    let (reader, writer) = UnixStream::pair(rt)?;
    thread::scope(thread::scope_env(), rt, |scope| {
        // The socket is closed after it.
        let _writing = scope.spawn(move || {
            telling.write_to(rt, writer.as_raw_fd());
        });
        for messages in 0..LINES {
            telling.tell(rt, Event::Recorded { messages, bytes: 0 });
        }
        telling.end(rt);
        if is_read {
            io::read_to_string(rt.alloc(), &reader)
        } else {
            Ok(String::new(rt.alloc()))
        }
    })
}

// How many lines a text tells of, each in its turn, or counted there; `None` if it doesn't.
fn count_of(text: &str) -> Option<u64> {
    let mut count = 0u64;
    for line in text.lines() {
        let line = line.strip_prefix("recorderd: ")?;
        let more = match line.strip_suffix(" lines were left out") {
            Some(left_out) => left_out.parse::<u64>().ok()?,
            None => {
                let number = line
                    .strip_prefix("recorded ")?
                    .strip_suffix(" messages, 0 bytes")?;
                if number.parse::<u64>().ok()? != count {
                    return None;
                }
                1
            }
        };
        count = count.checked_add(more)?;
    }
    Some(count)
}

#[test]
fn who_tells_waits_for_nobody_who_reads(rt: HostRuntime) -> Result<(), Fail> {
    let late = told(&rt, true)?;
    assert!(rt; late.as_str().contains(" lines were left out\n"));
    assert_eq!(rt; count_of(&late), Some(LINES));
    told(&rt, false)?;
    Ok(())
}
