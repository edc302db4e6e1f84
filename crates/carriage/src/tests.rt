//! What is told in a WebSocket, byte by byte (RFC 6455, sections 5.2, 5.5.1 and 7.4).

use crate::{Carriage, Ending, Status};
use reception::Reason;
use std::test::Fail;
use web_frames::{Fault, Heard};

/// How a session stands.
const STATUS: Status = Status {
    message: 3,
    time: 1500,
    length: 2000,
    watching: 2,
    orders: 1,
    has_ended: false,
};

/// Closes: codes of section 7.4.1, and private ones of section 7.4.2.
const ENDINGS: [(Ending, &[u8]); 8] = [
    (Ending::Ended, b"\x88\x18\x03\xe8the recorder has ended"),
    (
        Ending::TurnedAway(Reason::Full),
        b"\x88\x15\x0f\xa1all seats are taken",
    ),
    (
        Ending::TurnedAway(Reason::Enough),
        b"\x88\x29\x0f\xa2as many viewers have come as are served",
    ),
    (
        Ending::TurnedAway(Reason::Closing),
        b"\x88\x19\x0f\xa3the recording has ended",
    ),
    (
        Ending::TooFar,
        b"\x88\x22\x0f\xa4the recording has fewer messages",
    ),
    (
        Ending::Unreadable,
        b"\x88\x1d\x0f\xa5the recording can't be read",
    ),
    (
        Ending::Unknown,
        b"\x88\x23\x03\xf0there is no such thing to ask for",
    ),
    (
        Ending::Faulty(Fault::TooLong),
        b"\x88\x17\x03\xf1a message is too long",
    ),
];

#[test]
fn a_status_is_told(rt: HostRuntime) -> Result<(), Fail> {
    let alloc = rt.alloc();
    let text =
        "{\"message\":3,\"time\":1500,\"length\":2000,\"watching\":2,\"orders\":1,\"ended\":false}";
    assert!(rt; STATUS.text(alloc)?.as_str() == text);
    let mut out = Vec::new(alloc);
    Carriage::framed(alloc).tell(STATUS, &mut out)?;
    assert!(rt; out.strip_prefix(b"\x81\x4d") == Some(text.as_bytes()));
    out.clear();
    Carriage::Plain.tell(STATUS, &mut out)?;
    Carriage::Plain.end(Ending::Ended, &mut out)?;
    assert!(rt; out.is_empty());
    // What a viewer is shown isn't news of the session.
    let shown = Status {
        message: 4,
        time: 2000,
        orders: 2,
        ..STATUS
    };
    assert!(rt; !shown.is_news_after(STATUS));
    let news = [
        Status {
            length: 2001,
            ..STATUS
        },
        Status {
            watching: 1,
            ..STATUS
        },
        Status {
            has_ended: true,
            ..STATUS
        },
    ];
    for status in news {
        assert!(rt; status.is_news_after(STATUS));
    }
    Ok(())
}

#[test]
fn answers_are_carried(rt: HostRuntime) -> Result<(), Fail> {
    let alloc = rt.alloc();
    let mut answer = Vec::new(alloc);
    answer.resize(32_768, b'x')?;
    answer.push(b'y')?;
    let mut out = Vec::new(alloc);
    Carriage::Plain.wrap(&mut answer.to_vec(alloc)?, &mut out)?;
    assert!(rt; out == answer);
    out.clear();
    Carriage::framed(alloc).wrap(&mut answer, &mut out)?;
    let mut expected = b"\x82\x7e\x80\0".to_vec(alloc)?;
    expected.resize(4 + 32_768, b'x')?;
    expected.extend_from_slice(b"\x82\x01y")?;
    assert!(rt; out == expected);
    Ok(())
}

#[test]
fn what_comes_is_carried(rt: HostRuntime) -> Result<(), Fail> {
    let alloc = rt.alloc();
    let mut heard = Heard::new(alloc);
    assert!(rt; Carriage::Plain.take(b"Hi", &mut heard));
    let mut framed = Carriage::framed(alloc);
    // A binary message and the text of section 5.7, each masked.
    assert!(rt; framed.take(b"\x82\x81\0\0\0\0!", &mut heard));
    assert!(rt; framed.take(b"\x81\x85\x37\xfa\x21\x3d\x7f\x9f\x4d\x51\x58", &mut heard));
    assert!(rt; heard.payload.as_slice() == b"Hi!".as_slice());
    assert!(rt; heard.words.as_slice() == b"Hello\xff".as_slice() && heard.replies.is_empty());
    // One that isn't masked closes the connection, by 1002, and nothing is said any more.
    assert!(rt; !framed.take(b"\x81\x05Hello", &mut heard));
    let closed = b"\x88\x1d\x03\xeaa frame breaks the protocol";
    assert!(rt; heard.replies.as_slice() == closed.as_slice());
    let mut out = Vec::new(alloc);
    framed.end(Ending::Ended, &mut out)?;
    assert!(rt; out.is_empty() && framed.wrap(&mut b"x".to_vec(alloc)?, &mut out).is_err());
    Ok(())
}

#[test]
fn endings_have_codes(rt: HostRuntime) -> Result<(), Fail> {
    let alloc = rt.alloc();
    for (ending, frame) in ENDINGS {
        let mut out = Vec::new(alloc);
        Carriage::framed(alloc).end(ending, &mut out)?;
        assert!(rt; out.as_slice() == frame, "{}", ending.reason());
    }
    Ok(())
}
