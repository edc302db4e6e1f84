//! The frames of RFC 6455, section 5.7, and what closes a connection.

use crate::{Fault, Frames, Heard, LONGEST_FRAME};
use std::test::Fail;
use websocket::protocol::CloseCode;

/// `Hello` in a text of a client, masked by the key of section 5.7.
const HELLO: [u8; 11] = *b"\x81\x85\x37\xfa\x21\x3d\x7f\x9f\x4d\x51\x58";

// What frames that come in pieces of so many bytes are heard as, and how they end.
fn heard(rt: &HostRuntime, bytes: &[u8], piece: usize) -> Result<(Heard, Result<(), Fault>), Fail> {
    let alloc = rt.alloc();
    let mut frames = Frames::new(alloc);
    let mut heard = Heard::new(alloc);
    for part in bytes.chunks(piece.max(1)) {
        let fed = frames.feed(part, &mut heard);
        if fed.is_err() {
            return Ok((heard, fed));
        }
    }
    Ok((heard, Ok(())))
}

#[test]
fn frames_of_clients_are_heard(rt: HostRuntime) -> Result<(), Fail> {
    let mut bytes = HELLO.to_vec(rt.alloc())?;
    // The fragments of section 5.7, each masked, with a ping between them (section 5.4).
    bytes.extend_from_slice(b"\x01\x83\0\0\0\0\x48\x65\x6c")?;
    bytes.extend_from_slice(b"\x89\x85\x37\xfa\x21\x3d\x7f\x9f\x4d\x51\x58")?;
    bytes.extend_from_slice(b"\x80\x82\0\0\0\0\x6c\x6f")?;
    // The pong that section 5.7 answers a ping by, and a binary message.
    bytes.extend_from_slice(b"\x8a\x85\x37\xfa\x21\x3d\x7f\x9f\x4d\x51\x58")?;
    bytes.extend_from_slice(b"\x82\x85\x37\xfa\x21\x3d\x7f\x9f\x4d\x51\x58")?;
    for piece in [1, 7, 100] {
        let (heard, end) = heard(&rt, &bytes, piece)?;
        assert!(rt; end.is_ok());
        assert!(rt; heard.words.as_slice() == b"Hello\xffHello\xff".as_slice());
        assert!(rt; heard.payload.as_slice() == b"Hello".as_slice());
        // A server's pong isn't masked.
        assert!(rt; heard.replies.as_slice() == b"\x8a\x05\x48\x65\x6c\x6c\x6f".as_slice());
    }
    Ok(())
}

#[test]
fn answers_are_framed(rt: HostRuntime) -> Result<(), Fail> {
    let alloc = rt.alloc();
    let mut frames = Frames::new(alloc);
    let mut out = Vec::new(alloc);
    frames.tell("Hello", &mut out).map_err(|_| "text")?;
    assert!(rt; out.as_slice() == b"\x81\x05\x48\x65\x6c\x6c\x6f".as_slice());
    // 256 bytes, and 64 KiB, of section 5.7.
    let fronts: [(usize, &[u8]); 2] = [
        (256, b"\x82\x7e\x01\0"),
        (65_536, b"\x82\x7f\0\0\0\0\0\x01\0\0"),
    ];
    for (length, front) in fronts {
        let mut answer = Vec::new(alloc);
        answer.resize(length, b'x')?;
        out.clear();
        frames.wrap(&answer, &mut out).map_err(|_| "binary")?;
        assert!(rt; out.strip_prefix(front) == Some(answer.as_slice()));
    }
    out.clear();
    // Section 7.4.1: 1001, as section 5.5.1 writes it.
    frames
        .close(CloseCode::Away, "bye", &mut out)
        .map_err(|_| "close")?;
    assert!(rt; out.as_slice() == b"\x88\x05\x03\xe9bye".as_slice());
    assert!(rt; frames.wrap(b"x", &mut out).is_err() && out.len() == 7);
    Ok(())
}

#[test]
fn faults_end_a_connection(rt: HostRuntime) -> Result<(), Fail> {
    let refused: [(&[u8], Fault); 9] = [
        // Section 5.1: a client's frame is masked.
        (b"\x81\x05\x48\x65\x6c\x6c\x6f", Fault::Protocol),
        // Section 5.2: a reserved bit, and a reserved opcode.
        (b"\xc1\x80\0\0\0\0", Fault::Protocol),
        (b"\x83\x80\0\0\0\0", Fault::Protocol),
        // Section 5.4: nothing goes on that hasn't begun, and nothing begins within another.
        (b"\x80\x80\0\0\0\0", Fault::Protocol),
        (b"\x01\x80\0\0\0\0\x81\x80\0\0\0\0", Fault::Protocol),
        // Section 5.5: a ping is one frame.
        (b"\x09\x80\0\0\0\0", Fault::Protocol),
        // Section 8.1, and RFC 3629, section 3: an octet that is in no UTF-8.
        (b"\x81\x81\0\0\0\0\xff", Fault::NotUtf8),
        // One byte more than is taken.
        (b"\x82\xff\0\0\0\0\0\x01\0\x01\0\0\0\0", Fault::TooLong),
        // Section 5.5.1: a close.
        (b"\x88\x82\0\0\0\0\x03\xe8", Fault::Closed),
    ];
    for (bytes, fault) in refused {
        let mut all = HELLO.to_vec(rt.alloc())?;
        all.extend_from_slice(bytes)?;
        let (heard, end) = heard(&rt, &all, 100)?;
        assert!(rt; end == Err(fault), "{fault}");
        assert!(rt; heard.words.as_slice() == b"Hello\xff".as_slice());
        let echo: &[u8] = if fault == Fault::Closed {
            b"\x88\x02\x03\xe8"
        } else {
            b""
        };
        assert!(rt; heard.replies.as_slice() == echo, "{fault}");
    }
    Ok(())
}

#[test]
fn the_longest_frame_is_taken(rt: HostRuntime) -> Result<(), Fail> {
    let mut bytes = b"\x82\xff\0\0\0\0\0\x01\0\0\0\0\0\0".to_vec(rt.alloc())?;
    bytes.resize(14 + LONGEST_FRAME, b'x')?;
    let (heard, end) = heard(&rt, &bytes, 4096)?;
    assert!(rt; end.is_ok() && heard.payload.len() == 65_536);
    Ok(())
}

#[test]
fn a_ping_is_short(rt: HostRuntime) -> Result<(), Fail> {
    // Section 5.5: at most 125 bytes.
    let mut bytes = b"\x89\xfe\0\x7e\0\0\0\0".to_vec(rt.alloc())?;
    bytes.resize(8 + 126, b'x')?;
    let (heard, end) = heard(&rt, &bytes, 200)?;
    assert!(rt; end == Err(Fault::Protocol) && heard.replies.is_empty());
    Ok(())
}

#[test]
fn faults_have_codes(rt: HostRuntime) {
    // Section 7.4.1.
    let codes = [
        (Fault::Closed, 1000),
        (Fault::Protocol, 1002),
        (Fault::TooLong, 1009),
        (Fault::NotUtf8, 1007),
        (Fault::NoMemory, 1011),
    ];
    for (fault, code) in codes {
        assert!(rt; u16::from(fault.code()) == code, "{fault}");
    }
}
