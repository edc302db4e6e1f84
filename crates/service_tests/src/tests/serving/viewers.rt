//! Viewers of a host.

use super::is_recorded;
use super::peers::{
    ALL, BLACK, CHANGES, GREEN, Loopback, RED, large_host, silent_viewer, small_host, viewer,
};
use serve_plan::{Audience, Origin};
use std::fs::OpenOptions;
use std::net::{Net, TcpStream};
use std::test::Fail;
use std::time::Duration;
use std::{fs, thread};

// Two viewers, who see the black screen, and then the host's update.
fn two_watch(rt: &HostRuntime, ends: Loopback) -> Result<(), Fail> {
    let alloc = rt.alloc();
    let host = small_host(alloc, &ends.hosts)?;
    let one = viewer(rt, ends.viewers)?;
    let other = viewer(rt, ends.viewers)?;
    one.talk(alloc, &ALL, &BLACK)?;
    other.talk(alloc, &ALL, &BLACK)?;
    one.say(&CHANGES)?;
    other.say(&CHANGES)?;
    host.talk(alloc, &RED, &CHANGES)?;
    one.hear(alloc, &RED)?;
    other.hear(alloc, &RED)
}

#[test]
fn two_viewers_get_a_host_s_update(rt: HostRuntime) -> Result<(), Fail> {
    let rt = &rt;
    let said = recorded!(rt, "watched", Audience::Count(2), Origin::Live, two_watch)?;
    is_recorded(rt, "watched", &said, 1, "1 1 messages 1 blocks 1")
}

// One viewer says nothing, one is of another version, one leaves within a message, and one begins
// after what there is; the last one sees all.
fn strangers_come(rt: &HostRuntime, ends: Loopback) -> Result<(), Fail> {
    let alloc = rt.alloc();
    let host = small_host(alloc, &ends.hosts)?;
    let silent = silent_viewer(rt, ends.viewers)?;
    let old = silent_viewer(rt, ends.viewers)?;
    old.hear(alloc, b"RFB 003.008\n")?;
    old.talk(alloc, b"RFB 003.003\n", b"\0\0\0\0\x10only RFB 003.008")?;
    old.ends()?;
    let torn = viewer(rt, ends.viewers)?;
    torn.say(&ALL[..5])?;
    drop(torn);
    let wild = viewer(rt, ends.viewers)?;
    wild.say(&[9])?;
    wild.ends()?;
    let last = viewer(rt, ends.viewers)?;
    last.talk(alloc, &ALL, &BLACK)?;
    host.talk(alloc, &RED, &CHANGES)?;
    // What it is shown is committed: so the next update has a block of its own.
    last.say(&CHANGES)?;
    last.hear_at_last(alloc, &RED, &CHANGES)?;
    host.talk(alloc, &GREEN, &CHANGES)?;
    last.say(&CHANGES)?;
    last.hear_at_last(alloc, &GREEN, &CHANGES)?;
    drop(silent);
    Ok(())
}

#[test]
fn a_viewer_s_fault_ends_it_alone(rt: HostRuntime) -> Result<(), Fail> {
    let rt = &rt;
    let said = recorded!(
        rt,
        "strangers",
        Audience::Count(3),
        Origin::Count(0),
        strangers_come
    )?;
    is_recorded(rt, "strangers", &said, 2, "1 1 messages 2 blocks 2")
}

// A request for all of the large screen, whose answer is more than sockets hold.
const WHOLE: [u8; 10] = *b"\x03\0\0\0\0\0\x08\0\x04\0";

// How many bytes that answer has, and how many of them tell that it is under way.
const LENGTH: usize = 16 + 4 * 2048 * 1024;

const BEGUN: usize = 16;

// What the host asks after each update of the large screen.
const MORE: [u8; 10] = *b"\x03\x01\0\0\0\0\x08\0\x04\0";

// A viewer doesn't read its answer while the other is shown two updates. Then it reads the answer,
// and is shown the newest pixel at last.
fn one_sleeps(rt: &HostRuntime, ends: Loopback) -> Result<(), Fail> {
    let alloc = rt.alloc();
    let host = large_host(alloc, &ends.hosts)?;
    let asleep = viewer(rt, ends.viewers)?;
    let awake = viewer(rt, ends.viewers)?;
    asleep.say(&WHOLE)?;
    awake.talk(alloc, &ALL, &BLACK)?;
    host.talk(alloc, &RED, &MORE)?;
    awake.talk(alloc, &CHANGES, &RED)?;
    host.talk(alloc, &GREEN, &MORE)?;
    awake.talk(alloc, &CHANGES, &GREEN)?;
    asleep.skip(alloc, LENGTH)?;
    // Its seat may take what it missed only after this request.
    asleep.say(&ALL)?;
    asleep.hear_at_last(alloc, &GREEN, &CHANGES)
}

#[test]
fn a_viewer_that_sleeps_holds_up_nobody(rt: HostRuntime) -> Result<(), Fail> {
    let rt = &rt;
    let said = recorded!(rt, "asleep", Audience::Count(2), Origin::Live, one_sleeps)?;
    is_recorded(rt, "asleep", &said, 2, "2048 1024 messages 2 blocks 2")
}

// Waits until a file is longer than this: its length then.
fn longer(rt: &HostRuntime, file: &str, length: u64) -> Result<u64, Fail> {
    for _ in 0..2000 {
        let now = fs::metadata(rt, file)?.len();
        if now > length {
            return Ok(now);
        }
        thread::sleep(rt, Duration::from_millis(10));
    }
    Err("the file didn't grow".into())
}

// The file loses what a viewer that doesn't read its answer is to be shown next. The viewer goes on
// with what is newest.
fn the_file_is_cut_off(rt: &HostRuntime, ends: Loopback, file: &str) -> Result<(), Fail> {
    let alloc = rt.alloc();
    let host = large_host(alloc, &ends.hosts)?;
    let one = viewer(rt, ends.viewers)?;
    one.say(&WHOLE)?;
    one.skip(alloc, BEGUN)?;
    let mut length = fs::metadata(rt, file)?.len();
    // The first is committed once the second is written, and isn't read before the answer is.
    for update in [&RED, &GREEN] {
        host.talk(alloc, update, &MORE)?;
        length = longer(rt, file, length)?;
    }
    OpenOptions::new().write(true).open(rt, file)?.set_len(0)?;
    one.skip(alloc, LENGTH - BEGUN)?;
    one.say(&ALL)?;
    one.hear_at_last(alloc, &GREEN, &CHANGES)
}

#[test]
fn a_viewer_goes_on_if_a_read_fails(rt: HostRuntime) -> Result<(), Fail> {
    let rt = &rt;
    let file = "cut";
    let said = recorded!(
        rt,
        file,
        Audience::Count(1),
        Origin::Live,
        the_file_is_cut_off,
        file
    )?;
    let refused = "false serving\nrecorderd: serve refused journal 3\n";
    assert!(rt; said.as_str() == refused, "{said}");
    fs::remove_file(rt, file)?;
    Ok(())
}
