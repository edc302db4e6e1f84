//! What no clause says: sessions worked by hand, and a viewer that paints what it is answered.

ghost use Rattle.std.specs.Prelude.{◌≡◌, ◌<◌, ◌^◌, IfOk, OnOk, length};

use crate::row;
use key_index::Stamped;
use painter::Screen;
use replay::Slice;
use rfb_wire::HostMessage;
use std::alloc::Global;
use std::test::Fail;
use terms::{PixelFormatFault, ScreenSize, WireFault};
use viewer_session::shared_updates::Unshared;
use viewer_session::{Session, SessionFault};

mod painting;
mod sharing;

// A viewer's handshake: its version, the type None, and a shared-flag.
const HANDSHAKE: [u8; 14] = *b"RFB 003.008\n\x01\x01";

// What it is answered by a session of 2 by 1 named `r`: version, one type, OK, and ServerInit.
const GREETING: [u8; 43] =
    *b"RFB 003.008\n\x01\x01\0\0\0\0\0\x02\0\x01\x20\x18\0\x01\0\xff\0\xff\0\xff\x10\x08\0\0\0\0\0\0\0\x01r";

// Updates of one Raw rectangle: red at (0, 0); green at (1, 0); and both.
const RED: [u8; 20] = *b"\0\0\0\x01\0\0\0\0\0\x01\0\x01\0\0\0\0\0\0\xff\0";

const GREEN: [u8; 20] = *b"\0\0\0\x01\0\x01\0\0\0\x01\0\x01\0\0\0\0\0\xff\0\0";

const BOTH: [u8; 24] = *b"\0\0\0\x01\0\0\0\0\0\x02\0\x01\0\0\0\0\0\0\xff\0\0\xff\0\0";

// Red, green and blue; then a copy of the first two pixels to the last two.
const THREE: [u8; 28] = *b"\0\0\0\x01\0\0\0\0\0\x03\0\x01\0\0\0\0\0\0\xff\0\0\xff\0\0\xff\0\0\0";

const COPIED: [u8; 20] = *b"\0\0\0\x01\0\x01\0\0\0\x02\0\x01\0\0\0\x01\0\0\0\0";

// A request for the first pixel.
const FIRST: [u8; 10] = *b"\x03\0\0\0\0\0\0\x01\0\x01";

// A session, boxed, so that a test that ends early doesn't take it apart.
fn new_session(alloc: Global, size: ScreenSize, name: &[u8]) -> Result<Box<Session>, Fail>
    requires name { length name.now < 2 ^ 32 }
    ensures width { IfOk result (λ s. s.value.view.screen.width ≡ size.width) }
    ensures height { IfOk result (λ s. s.value.view.screen.height ≡ size.height) }
    ensures position { IfOk result (λ s. s.value.view.position ≡ 0) }
{
    Ok(Box::new(alloc, Session::new(alloc, size, name)?)?)
}

// A screen that one update has painted.
fn painted_once(alloc: Global, width: u16, update: &[u8]) -> Result<Screen, Fail>
    ensures width { IfOk result (λ screen. screen.width ≡ width) }
    ensures height { IfOk result (λ screen. screen.height ≡ 1) }
{
    let message = HostMessage::from_bytes(alloc, row(width), update)?;
    let mut screen = Screen::black(alloc, row(width))?;
    screen.paint(&message);
    Ok(screen)
}

// A session after its handshake, whose start was painted by one update.
fn started(alloc: Global, width: u16, update: &[u8]) -> Result<Box<Session>, Fail>
    ensures position { IfOk result (λ s. s.value.view.position ≡ 1) }
    ensures width { IfOk result (λ s. s.value.view.screen.width ≡ width) }
    ensures height { IfOk result (λ s. s.value.view.screen.height ≡ 1) }
{
    let mut screen = painted_once(alloc, width, update)?;
    let start = screen.snapshot(alloc)?;
    let mut session = new_session(alloc, row(width), b"r")?;
    session.advance(&Slice {
        first: 1,
        start: Some(start),
        messages: Vec::new(alloc),
    })?;
    session.feed(&HANDSHAKE)?;
    session.answer(&Unshared, &mut Vec::new(alloc))?;
    Ok(session)
}

// What a session puts out once it was fed these bytes.
fn answered(alloc: Global, session: &mut Session, bytes: &[u8]) -> Result<Vec<u8>, Fail>
    ensures screen { session.new.view.screen ≡ session.old.view.screen }
    ensures position { session.new.view.position ≡ session.old.view.position }
{
    session.feed(bytes)?;
    put_out(alloc, session)
}

// The session's calls, without what they promise: a test would be slow to prove beside all of it.
fn feed(session: &mut Session, piece: &[u8]) -> Result<(), SessionFault> {
    session.feed(piece)
}

// What is put out now.
fn put_out(alloc: Global, session: &mut Session) -> Result<Vec<u8>, Fail>
    ensures screen { session.new.view.screen ≡ session.old.view.screen }
    ensures position { session.new.view.position ≡ session.old.view.position }
{
    let mut out = Vec::new(alloc);
    session.answer(&Unshared, &mut out)?;
    Ok(out)
}

// The recorder speaks first, and answers each field once: to the whole handshake, to one of another
// version, and to one of another type, whose fault each later call gets.
#[test]
fn handshakes(rt: HostRuntime) -> Result<(), Fail> {
    let alloc = rt.alloc();
    let rows: [(&[u8], Result<(), SessionFault>, &[u8]); 3] = [
        (&HANDSHAKE, Ok(()), &GREETING[12..]),
        (
            b"RFB 003.003\n\x01",
            Err(SessionFault::Version),
            b"\0\0\0\0\x10only RFB 003.008",
        ),
        (
            b"RFB 003.008\n\x02",
            Err(SessionFault::Security),
            b"\x01\x01\0\0\0\x01\0\0\0\x09only None",
        ),
    ];
    for (piece, heard, told) in rows {
        let mut session = new_session(alloc, row(2), b"r")?;
        assert!(rt; put_out(alloc, &mut session)?.as_slice() == &GREETING[..12]);
        assert!(rt; feed(&mut session, piece) == heard && feed(&mut session, b"") == heard);
        for answer in [told, b""] {
            assert!(rt; put_out(alloc, &mut session)?.as_slice() == answer);
        }
        assert!(rt; !session.wants());
    }
    Ok(())
}

// A message of an unknown type after a request, a format without colours, and an end: what was
// asked for before is answered all the same.
#[test]
fn faults(rt: HostRuntime) -> Result<(), Fail> {
    let alloc = rt.alloc();
    let format = WireFault::BadFormat(PixelFormatFault::NoTrueColor);
    let rows: [(&[u8], SessionFault); 3] = [
        (b"\x07", SessionFault::Wire(WireFault::UnknownType)),
        (
            b"\0\0\0\0\x20\x18\0\0\0\xff\0\xff\0\xff\x10\x08\0\0\0\0",
            SessionFault::Wire(format),
        ),
        (b"", SessionFault::Closed),
    ];
    for (piece, fault) in rows {
        let mut session = started(alloc, 2, &BOTH)?;
        feed(&mut session, &FIRST)?;
        assert!(rt; feed(&mut session, piece).is_ok() == piece.is_empty());
        session.close();
        assert!(rt; feed(&mut session, &FIRST) == Err(fault));
        assert!(rt; put_out(alloc, &mut session)?.as_slice() == RED.as_slice());
    }
    Ok(())
}

// What a viewer is answered that sent these lists, and asks for a row of so many columns, of which the
// first one is red.
fn answered_in_row(alloc: Global, width: u8, lists: &[u8]) -> Result<Vec<u8>, Fail> {
    let mut session = started(alloc, u16::from(width), &RED)?;
    feed(&mut session, lists)?;
    feed(&mut session, &[3, 0, 0, 0, 0, 0, 0, width, 0, 1])?;
    put_out(alloc, &mut session)
}

// The encoding of the rectangle: with no list, and an empty one; with Raw, RRE and Hextile first;
// with unknown ones in front; with CopyRect alone, and in front; and with one list after another.
#[test]
fn encodings(rt: HostRuntime) -> Result<(), Fail> {
    let rows: [(&[u8], u8); 9] = [
        (b"", 0),
        (b"\x02\0\0\0", 0),
        (b"\x02\0\0\x02\0\0\0\0\0\0\0\x05", 0),
        (b"\x02\0\0\x02\0\0\0\x02\0\0\0\x05", 2),
        (b"\x02\0\0\x02\0\0\0\x05\0\0\0\0", 5),
        (b"\x02\0\0\x03\xff\xff\xff\x11\0\0\0\x10\0\0\0\x02", 2),
        (b"\x02\0\0\x01\0\0\0\x01", 0),
        (b"\x02\0\0\x02\0\0\0\x01\0\0\0\x05", 5),
        (b"\x02\0\0\x01\0\0\0\x05\x02\0\0\x01\0\0\0\x02", 2),
    ];
    for (lists, encoding) in rows {
        let answer = answered_in_row(rt.alloc(), 16, lists)?;
        let told = answer.get(12..).unwrap_or_default();
        assert!(rt; told.starts_with(&[0, 0, 0, encoding]), "{lists:?}");
    }
    Ok(())
}

// Seventeen columns stand in two tiles: a rectangle for each, and the second one after 80 bytes.
#[test]
fn tiles(rt: HostRuntime) -> Result<(), Fail> {
    let answer = answered_in_row(rt.alloc(), 17, b"")?;
    let first = b"\0\0\0\x02\0\0\0\0\0\x10\0\x01\0\0\0\0\0\0\xff\0";
    let second = b"\0\x10\0\0\0\x01\0\x01\0\0\0\0\0\0\0\0";
    assert!(rt; answer.starts_with(first.as_slice()));
    assert!(rt; answer.get(80..).unwrap_or_default() == second.as_slice());
    Ok(())
}

// Goes on by one update, from a position on.
fn go_on(
    alloc: Global,
    session: &mut Session,
    first: u64,
    width: u16,
    update: &[u8],
) -> Result<(), Fail>
    requires few { first < 2 ^ 32 }
    requires width { session.old.view.screen.width ≡ width }
    requires height { session.old.view.screen.height ≡ 1 }
    requires position { session.old.view.position ≡ first }
    ensures width { session.new.view.screen.width ≡ session.old.view.screen.width }
    ensures height { session.new.view.screen.height ≡ session.old.view.screen.height }
{
    let message = HostMessage::from_bytes(alloc, row(width), update)?;
    let messages = Vec::from_array(alloc, [Stamped { time: 0, message }])?;
    session.advance(&Slice {
        first,
        start: None,
        messages,
    })?;
    Ok(())
}

// The copy of two of three pixels, for one who takes copies, and else the colours.
#[test]
fn copies(rt: HostRuntime) -> Result<(), Fail> {
    let alloc = rt.alloc();
    let colors = b"\0\0\0\x01\0\x01\0\0\0\x02\0\x01\0\0\0\0\0\0\xff\0\0\xff\0\0";
    let rows: [(&[u8], &[u8]); 2] = [
        (
            b"\x02\0\0\x02\0\0\0\x01\0\0\0\0\x03\0\0\0\0\0\0\x03\0\x01",
            &COPIED,
        ),
        (b"\x02\0\0\x01\0\0\0\0\x03\0\0\0\0\0\0\x03\0\x01", colors),
    ];
    for (sent, told) in rows {
        let mut session = started(alloc, 3, &THREE)?;
        answered(alloc, &mut session, sent)?;
        go_on(alloc, &mut session, 1, 3, &COPIED)?;
        let answer = answered(alloc, &mut session, b"\x03\x01\0\0\0\0\0\x03\0\x01")?;
        assert!(rt; answer.as_slice() == told);
    }
    Ok(())
}

// A row of four pixels; and an update that moves the last three to the left, and paints the last red.
const FOUR: [u8; 32] =
    *b"\0\0\0\x01\0\0\0\0\0\x04\0\x01\0\0\0\0\0\0\xff\0\0\xff\0\0\xff\0\0\0\xff\xff\xff\0";

const MOVED: [u8; 36] =
    *b"\0\0\0\x02\0\0\0\0\0\x03\0\x01\0\0\0\x01\0\x01\0\0\0\x03\0\0\0\x01\0\x01\0\0\0\0\0\0\xff\0";

// A viewer of that row, who takes copies, and was sent all of it.
fn started_four(alloc: Global) -> Result<Box<Session>, Fail>
    ensures width { IfOk result (λ s. s.value.view.screen.width ≡ 4) }
    ensures height { IfOk result (λ s. s.value.view.screen.height ≡ 1) }
    ensures position { IfOk result (λ s. s.value.view.position ≡ 1) }
{
    let mut session = started(alloc, 4, &FOUR)?;
    answered(
        alloc,
        &mut session,
        b"\x02\0\0\x02\0\0\0\x01\0\0\0\0\x03\0\0\0\0\0\0\x04\0\x01",
    )?;
    Ok(session)
}

// Goes on by the same update so many times.
fn go_on_by(
    alloc: Global,
    session: &mut Session,
    width: u16,
    update: &[u8],
    times: usize,
) -> Result<(), Fail>
    requires width { session.old.view.screen.width ≡ width }
    requires height { session.old.view.screen.height ≡ 1 }
{
    for _ in 0..times {
        let first = session.position();
        if first < 1000 {
            go_on(alloc, session, first, width, update)?;
        }
    }
    Ok(())
}

// The header of a rectangle that copies, in a row: its columns, and the first that is copied.
fn copy_rect(x: u8, w: u8, from: u8) -> [u8; 16] {
    [0, x, 0, 0, 0, w, 0, 1, 0, 0, 0, 1, 0, from, 0, 0]
}

// Who is behind by some moves is sent one by as much, and then the pixels that were painted between
// them and moved on; nothing is moved that isn't there any more. If not all of the row is asked for, it
// is sent colours alone.
#[test]
fn moves(rt: HostRuntime) -> Result<(), Fail> {
    let alloc = rt.alloc();
    let all: &[u8] = b"\x03\x01\0\0\0\0\0\x04\0\x01";
    let first: &[u8] = b"\x03\x01\0\0\0\0\0\x01\0\x01";
    let rows: [(usize, &[u8], Option<[u8; 16]>, &[u8]); 5] = [
        (
            1,
            all,
            Some(copy_rect(0, 3, 1)),
            b"\0\x03\0\0\0\x01\0\x01\0\0\0\0\0\0\xff\0",
        ),
        (
            2,
            all,
            Some(copy_rect(0, 2, 2)),
            b"\0\x02\0\0\0\x02\0\x01\0\0\0\0\0\0\xff\0\0\0\xff\0",
        ),
        (
            3,
            all,
            Some(copy_rect(0, 1, 3)),
            b"\0\x01\0\0\0\x03\0\x01\0\0\0\0\0\0\xff\0\0\0\xff\0\0\0\xff\0",
        ),
        (
            4,
            all,
            Some(copy_rect(0, 1, 3)),
            b"\0\0\0\0\0\x04\0\x01\0\0\0\0\0\0\xff\0\0\0\xff\0\0\0\xff\0\0\0\xff\0",
        ),
        (2, first, None, b"\0\0\0\0\0\x01\0\x01\0\0\0\0\xff\0\0\0"),
    ];
    for (times, request, copy, told) in rows {
        let mut session = started_four(alloc)?;
        go_on_by(alloc, &mut session, 4, &MOVED, times)?;
        let answer = answered(alloc, &mut session, request)?;
        let mut expected = Vec::from_slice(alloc, &[0, 0, 0])?;
        match copy {
            Some(copy) => {
                expected.push(2)?;
                expected.extend_from_slice(&copy)?;
            }
            None => expected.push(1)?,
        }
        expected.extend_from_slice(told)?;
        assert!(rt; answer.as_slice() == expected.as_slice(), "{times}");
    }
    Ok(())
}

// Updates of a row of forty pixels, which copy all but the first to the left by one; its right half to
// the left one; and all but four to the left by two, and two more to the right end.
const SHIFTED: [u8; 20] = *b"\0\0\0\x01\0\0\0\0\0\x27\0\x01\0\0\0\x01\0\x01\0\0";

const HALVED: [u8; 20] = *b"\0\0\0\x01\0\0\0\0\0\x14\0\x01\0\0\0\x01\0\x14\0\0";

const SCROLLED: [u8; 36] =
    *b"\0\0\0\x02\0\0\0\0\0\x24\0\x01\0\0\0\x01\0\x02\0\0\0\x26\0\0\0\x02\0\x01\0\0\0\x01\0\x24\0\0";

// A viewer of a row of forty pixels, who takes copies, is sent all of it, and then the same update so
// many times before it asks again.
fn moved_often(alloc: Global, update: &[u8], times: usize) -> Result<Vec<u8>, Fail> {
    let mut session = started(alloc, 40, &RED)?;
    answered(
        alloc,
        &mut session,
        b"\x02\0\0\x02\0\0\0\x01\0\0\0\0\x03\0\0\0\0\0\0\x28\0\x01",
    )?;
    go_on_by(alloc, &mut session, 40, update, times)?;
    answered(alloc, &mut session, b"\x03\x01\0\0\0\0\0\x28\0\x01")
}

// The row is moved to the left by one, 17 times, and nothing is painted: that is a copy of 23 pixels
// by 17, and the others are sent, of two tiles.
#[test]
fn many_moves(rt: HostRuntime) -> Result<(), Fail> {
    let answer = moved_often(rt.alloc(), &SHIFTED, 17)?;
    assert!(rt; answer.starts_with(&[0, 0, 0, 3]));
    assert!(rt; answer.get(4..20).unwrap_or_default() == copy_rect(0, 23, 17).as_slice());
    assert!(rt; answer.len() == 4 + 16 + 2 * 12 + 16 * 4);
    Ok(())
}

// The right half goes to the left one, which can't become one copy with another. 32 are kept, of 16
// rows' pixels; those of the next are sent, of two tiles.
#[test]
fn many_copies(rt: HostRuntime) -> Result<(), Fail> {
    let answer = moved_often(rt.alloc(), &HALVED, 33)?;
    assert!(rt; answer.starts_with(&[0, 0, 0, 34]));
    assert!(rt; answer.len() == 4 + 32 * 16 + 2 * 12 + 20 * 4);
    Ok(())
}

// All but the last pixels of a row are moved to the left by two, and the last two are copied from the
// ones before them, which stay. The small copy isn't kept between the large ones: three become one
// by six, which brings 32 pixels, and the others that they go to are sent, in one tile.
#[test]
fn small_copies(rt: HostRuntime) -> Result<(), Fail> {
    let answer = moved_often(rt.alloc(), &SCROLLED, 3)?;
    assert!(rt; answer.starts_with(&[0, 0, 0, 3]));
    assert!(rt; answer.get(4..20).unwrap_or_default() == copy_rect(0, 32, 6).as_slice());
    assert!(rt; answer.get(20..36).unwrap_or_default() == copy_rect(38, 2, 36).as_slice());
    assert!(rt; answer.len() == 4 + 2 * 16 + 12 + 4 * 4);
    Ok(())
}

// Goes on by one update, to a snapshot of a screen that was painted by another, and then by this.
fn go_on_to(alloc: Global, session: &mut Session, painted: &[u8], update: &[u8]) -> Result<(), Fail>
    requires width { session.old.view.screen.width ≡ 2 }
    requires height { session.old.view.screen.height ≡ 1 }
    requires position { session.old.view.position ≡ 1 }
    ensures width { OnOk result (session.new.view.screen.width ≡ 2) }
    ensures height { OnOk result (session.new.view.screen.height ≡ 1) }
    ensures position { OnOk result (session.new.view.position ≡ 2) }
{
    let message = HostMessage::from_bytes(alloc, row(2), update)?;
    let mut screen = painted_once(alloc, 2, painted)?;
    screen.paint(&message);
    let snapshot = screen.snapshot(alloc)?;
    let messages = Vec::from_array(alloc, [Stamped { time: 0, message }])?;
    let slice = Slice {
        first: 1,
        start: None,
        messages,
    };
    session.advance_to(&slice, snapshot);
    Ok(())
}

// Who is given a snapshot is answered what it shows, and then what is painted over that.
#[test]
fn snapshots(rt: HostRuntime) -> Result<(), Fail> {
    let alloc = rt.alloc();
    let mut session = started(alloc, 2, &RED)?;
    answered(alloc, &mut session, b"\x03\0\0\0\0\0\0\x02\0\x01")?;
    go_on_to(alloc, &mut session, &RED, &GREEN)?;
    let shown = answered(alloc, &mut session, b"\x03\x01\0\0\0\0\0\x02\0\x01")?;
    assert!(rt; shown.as_slice() == GREEN.as_slice());
    go_on(alloc, &mut session, 2, 2, &RED)?;
    feed(&mut session, b"\x03\0\0\0\0\0\0\x02\0\x01")?;
    assert!(rt; put_out(alloc, &mut session)?.as_slice() == BOTH.as_slice());
    Ok(())
}

// Requests that have no area, or lie off the screen, ask for nothing; one that leaves it is cut.
// Thousands in one piece are one pending area.
#[test]
fn requests(rt: HostRuntime) -> Result<(), Fail> {
    let alloc = rt.alloc();
    let mut session = started(alloc, 2, &BOTH)?;
    feed(
        &mut session,
        b"\x03\0\0\0\0\0\0\0\0\x01\x03\0\0\x02\0\0\0\x05\0\x05",
    )?;
    assert!(rt; !session.wants());
    let mut piece = Vec::new(alloc);
    for _ in 0..3000 {
        piece.extend_from_slice(b"\x03\0\0\x01\0\0\xea\x60\0\x09")?;
    }
    feed(&mut session, &piece)?;
    assert!(rt; put_out(alloc, &mut session)?.as_slice() == GREEN.as_slice());
    assert!(rt; !session.wants());
    Ok(())
}
