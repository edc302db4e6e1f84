//! Recordings that are shown from their start.

use super::checked;
use super::peers::{
    ALL, BLACK, CHANGES, Endpoint, GREEN, Peer, RED, listener, silent_viewer, viewer,
};
use crate::plan_of;
use playing::Pace;
use reception::Stop;
use serve_plan::{Audience, Origin, Plan, Playing};
use std::fs;
use std::fs::OpenOptions;
use std::net::{Net, TcpListener, TcpStream};
use std::test::Fail;
use std::time::{Clock, Instant};

/// A recording of one pixel with two messages: red after 3 seconds, and green after 25 minutes.
const RECORDING: [u8; 83] =
    *b"ORFBREC1\0\x01\0\x01\0\x04\0\x01xO\0\0\0\x3a\0\x02\0\0\0\x0b\xb8\0\0\0\x14\0\0\0\x01\0\0\0\0\0\x01\0\x01\0\0\0\0\0\0\xff\0\0\0\x16\xe3\x60\0\0\0\x14\0\0\0\x01\0\0\0\0\0\x01\0\x01\0\0\0\0\0\xff\0\0C";

// What a viewer sees that asks again and again.
fn sees_each(rt: &HostRuntime, endpoint: Endpoint) -> Result<(), Fail> {
    let alloc = rt.alloc();
    let viewer = viewer(rt, endpoint)?;
    viewer.talk(alloc, &ALL, &BLACK)?;
    viewer.talk(alloc, &CHANGES, &RED)?;
    viewer.talk(alloc, &CHANGES, &GREEN)?;
    viewer.say(&CHANGES)?;
    viewer.stays()
}

// What a viewer sees that asks for all each time, and so never for what changes next.
fn sees_each_as_a_whole(rt: &HostRuntime, endpoint: Endpoint) -> Result<(), Fail> {
    let alloc = rt.alloc();
    let viewer = viewer(rt, endpoint)?;
    viewer.talk(alloc, &ALL, &BLACK)?;
    viewer.say(&ALL)?;
    viewer.hear_at_last(alloc, &RED, &ALL)?;
    viewer.say(&ALL)?;
    viewer.hear_at_last(alloc, &GREEN, &ALL)
}

// Asks, and is shown this update no sooner than so many milliseconds from a moment on.
fn comes_after(
    rt: &HostRuntime,
    viewer: &Peer,
    update: &[u8],
    started: Instant,
    milliseconds: u128,
) -> Result<(), Fail> {
    viewer.talk(rt.alloc(), &CHANGES, update)?;
    if started.elapsed(rt)?.as_millis() < milliseconds {
        return Err("too early".into());
    }
    Ok(())
}

// What it sees of a recording that is played again and again, with pauses of two seconds at most.
fn sees_each_in_time(rt: &HostRuntime, endpoint: Endpoint) -> Result<(), Fail> {
    let started = Instant::now(rt)?;
    let viewer = viewer(rt, endpoint)?;
    viewer.talk(rt.alloc(), &ALL, &BLACK)?;
    comes_after(rt, &viewer, &RED, started, 2000)?;
    comes_after(rt, &viewer, &GREEN, started, 4000)?;
    comes_after(rt, &viewer, &BLACK, started, 5000)
}

// What one sees for whom the first message comes later than the recorder's end.
fn is_cut_off(rt: &HostRuntime, endpoint: Endpoint) -> Result<(), Fail> {
    let viewer = viewer(rt, endpoint)?;
    viewer.talk(rt.alloc(), &ALL, &BLACK)?;
    viewer.ends()
}

#[test]
fn a_playback_ends_with_the_recorder(rt: HostRuntime) -> Result<(), Fail> {
    let rt = &rt;
    let file = "cut_off";
    fs::write(rt, file, RECORDING.as_slice())?;
    let plan = Plan {
        playing: Some(Playing {
            pace: Pace::from_thousandths(1000).ok_or("pace")?,
            longest_pause: None,
            repeats: false,
        }),
        stop: Stop {
            at_end_of_input: false,
            after: Some(1),
        },
        ..plan_of(file, None, Audience::Any, Origin::Count(0))
    };
    let (viewers, endpoint) = listener(rt)?;
    let said = serve_while!(rt, &plan, viewers, move || is_cut_off(rt, endpoint))?;
    assert!(rt; said.as_str() == "true serving\ncommitted 2\n", "{said}");
    fs::remove_file(rt, file)?;
    Ok(())
}

#[test]
fn each_message_is_shown(rt: HostRuntime) -> Result<(), Fail> {
    let rt = &rt;
    let file = "each";
    fs::write(rt, file, RECORDING.as_slice())?;
    let plan = plan_of(file, None, Audience::Count(1), Origin::Count(0));
    let (viewers, endpoint) = listener(rt)?;
    let said = serve_while!(rt, &plan, viewers, move || sees_each(rt, endpoint))?;
    assert!(rt; said.as_str() == "true serving\ncommitted 2\n", "{said}");
    let (viewers, endpoint) = listener(rt)?;
    let said = serve_while!(
        rt,
        &plan,
        viewers,
        move || sees_each_as_a_whole(rt, endpoint)
    )?;
    assert!(rt; said.as_str() == "true serving\ncommitted 2\n", "{said}");
    let plan = Plan {
        playing: Some(Playing {
            pace: Pace::from_thousandths(1000).ok_or("pace")?,
            longest_pause: Some(2000),
            repeats: true,
        }),
        ..plan
    };
    let (viewers, endpoint) = listener(rt)?;
    let said = serve_while!(rt, &plan, viewers, move || sees_each_in_time(rt, endpoint))?;
    assert!(rt; said.as_str() == "true serving\ncommitted 2\n", "{said}");
    assert!(rt; checked(rt, file)?.as_str() == "recording 1 1 messages 2 blocks 1\n");
    Ok(())
}

// The file is cut off before a viewer has a seat: it is shown the screen at which it begins, and
// closed as a message is to be read for it then.
fn sees_the_beginning(rt: &HostRuntime, endpoint: Endpoint, file: &str) -> Result<(), Fail> {
    let alloc = rt.alloc();
    let first = silent_viewer(rt, endpoint)?;
    first.hear(alloc, b"RFB 003.008\n")?; // the recording is open
    OpenOptions::new().write(true).open(rt, file)?.set_len(0)?;
    let viewer = viewer(rt, endpoint)?;
    viewer.talk(alloc, &ALL, &BLACK)?;
    viewer.ends()
}

#[test]
fn a_viewer_is_closed_if_a_read_fails(rt: HostRuntime) -> Result<(), Fail> {
    let rt = &rt;
    let file = "lost";
    fs::write(rt, file, RECORDING.as_slice())?;
    let plan = plan_of(file, None, Audience::Count(1), Origin::Count(0));
    let (viewers, endpoint) = listener(rt)?;
    let said = serve_while!(
        rt,
        &plan,
        viewers,
        move || sees_the_beginning(rt, endpoint, file)
    )?;
    let refused = "false serving\nrecorderd: serve refused journal 3\n";
    assert!(rt; said.as_str() == refused, "{said}");
    fs::remove_file(rt, file)?;
    Ok(())
}
