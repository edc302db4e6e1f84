//! What viewers are shown of a host's end, and who is taken.

use super::checked;
use super::peers::{
    ALL, BLACK, CHANGES, GREEN, Loopback, Peer, RED, silent_viewer, small_host, viewer,
};
use serve_plan::{Audience, Origin};
use std::alloc::Global;
use std::fs;
use std::net::{Net, TcpStream};
use std::test::Fail;

/// An update of the one pixel in blue.
const BLUE: [u8; 20] = *b"\0\0\0\x01\0\0\0\0\0\x01\0\x01\0\0\0\0\xff\0\0\0";

/// A version, and the refusal of a viewer who comes when as many have come as are served.
const ENOUGH: &[u8; 56] = b"RFB 003.008\n\0\0\0\0\x27as many viewers have come as are served";

// Sends 300 updates and a blue one in one piece, and ends.
fn burst(alloc: Global, host: &Peer) -> Result<(), Fail> {
    let mut bytes = Vec::new(alloc);
    for _ in 0..300 {
        bytes.extend_from_slice(&RED)?;
    }
    bytes.extend_from_slice(&BLUE)?;
    host.say(&bytes)?;
    host.finish()
}

// One viewer comes, and a second is turned away, since one is served; or it goes, a second is there,
// and one says nothing. Then the host ends, and who is there is shown the end.
fn the_end_is_shown(rt: &HostRuntime, ends: Loopback, stays: bool) -> Result<(), Fail> {
    let alloc = rt.alloc();
    let host = small_host(alloc, &ends.hosts)?;
    let first = viewer(rt, ends.viewers)?;
    first.talk(alloc, &ALL, &BLACK)?;
    if stays {
        // More than there are handshakes at a time.
        for _ in 0..257 {
            let refused = silent_viewer(rt, ends.viewers)?;
            refused.say(b"RFB 003.008\n")?;
            refused.hear(alloc, ENOUGH)?;
            refused.ends()?;
        }
        first.say(&CHANGES)?;
        burst(alloc, &host)?;
        first.hear_at_last(alloc, &BLUE, &CHANGES)?;
        first.say(&CHANGES)?;
        return first.ends();
    }
    drop(first);
    let silent = silent_viewer(rt, ends.viewers)?;
    let second = viewer(rt, ends.viewers)?;
    second.talk(alloc, &ALL, &BLACK)?;
    second.say(&CHANGES)?;
    burst(alloc, &host)?;
    second.hear_at_last(alloc, &BLUE, &CHANGES)?;
    second.say(&CHANGES)?;
    second.ends()?;
    silent.hear(alloc, b"RFB 003.008\n")?;
    silent.ends()
}

#[test]
fn a_viewer_is_shown_the_end(rt: HostRuntime) -> Result<(), Fail> {
    let rt = &rt;
    let file = "shown";
    for audience in [Audience::Any, Audience::Count(1)] {
        let stays = audience == Audience::Count(1);
        let said = recorded!(rt, file, audience, Origin::Live, the_end_is_shown, stays)?;
        assert!(rt; said.as_str() == "true serving\ncommitted 301\n", "{said}");
    }
    fs::remove_file(rt, file)?;
    Ok(())
}

// Two updates come in one piece, and then one with a fault after it.
fn pieces_come(rt: &HostRuntime, ends: Loopback) -> Result<(), Fail> {
    let alloc = rt.alloc();
    let host = small_host(alloc, &ends.hosts)?;
    let mut piece = Vec::from_slice(alloc, &RED)?;
    piece.extend_from_slice(&GREEN)?;
    host.say(&piece)?;
    host.hear(alloc, &CHANGES)?;
    host.hear(alloc, &CHANGES)?;
    let one = viewer(rt, ends.viewers)?;
    one.say(&ALL)?;
    one.hear_at_last(alloc, &GREEN, &CHANGES)?;
    let mut piece = Vec::from_slice(alloc, &BLUE)?;
    piece.push(9)?;
    host.say(&piece)?;
    // The green one was the last, so that nothing comes between.
    one.talk(alloc, &CHANGES, &BLUE)
}

#[test]
fn messages_in_one_piece_keep_their_order(rt: HostRuntime) -> Result<(), Fail> {
    let rt = &rt;
    let file = "pieces";
    let said = recorded!(rt, file, Audience::Count(1), Origin::Count(0), pieces_come)?;
    let refused = "false serving\nrecorderd: serve refused host 1\n";
    assert!(rt; said.as_str() == refused, "{said}");
    let said = checked(rt, file)?;
    assert!(rt;
        said.as_str().starts_with("recording 1 1 messages 3 "),
        "{said}"
    );
    Ok(())
}
