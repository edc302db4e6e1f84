//! The handshake of RFC 6455, section 1.3, and what it becomes by a change.

use crate::{Judged, Refusal, judge, write_answer};
use request_head::Fault;
use std::alloc::{AllocError, Global};
use std::test::Fail;
use web_target::{Asked, Beginning, Survey};

/// The Sec-WebSocket-Accept of section 1.3.
const ACCEPT: [u8; 28] = *b"s3pPLMBiTxaQ9kYGzzhZRbK+xOo=";

/// The lines of the handshake of section 1.3 after its first, but for a page of the same host and
/// no protocol.
const FIELDS: [&[u8]; 6] = [
    b"Host: server.example.com\r\n",
    b"Upgrade: websocket\r\n",
    b"Connection: Upgrade\r\n",
    b"Sec-WebSocket-Key: dGhlIHNhbXBsZSBub25jZQ==\r\n",
    b"Origin: http://server.example.com\r\n",
    b"Sec-WebSocket-Version: 13\r\n",
];

// What bytes are judged by the server of section 1.3.
fn judged(bytes: &[u8]) -> Judged {
    judge(bytes, &[b"server.example.com"])
}

// A request of this first line, and of the fields with another one in the stead of one.
fn request(
    alloc: Global,
    first: &[u8],
    instead_of: usize,
    field: &[u8],
) -> Result<Vec<u8>, AllocError> {
    let mut bytes = first.to_vec(alloc)?;
    for (at, line) in FIELDS.iter().enumerate() {
        bytes.extend_from_slice(if at == instead_of { field } else { line })?;
    }
    bytes.extend_from_slice(b"\r\n")?;
    Ok(bytes)
}

#[test]
fn a_handshake_is_answered(rt: HostRuntime) -> Result<(), Fail> {
    let alloc = rt.alloc();
    let mut bytes = request(alloc, b"GET /watch?at=5 HTTP/1.1\r\n", 6, b"")?;
    assert!(rt; judged(&bytes) == Judged::Watch(Beginning::Still(5), ACCEPT));
    assert!(rt; judged(&bytes[..bytes.len().saturating_sub(1)]) == Judged::Unfinished);
    // Nothing comes of a client until it is answered (section 4.1).
    bytes.push(0x82)?;
    assert!(rt; judged(&bytes) == Judged::Refused(Refusal::Early));
    let mut answer = Vec::new(alloc);
    write_answer(&ACCEPT, &mut answer).map_err(|_| "answer")?;
    let lines: [&[u8]; 4] = [
        b"connection: Upgrade",
        b"upgrade: websocket",
        b"sec-websocket-accept: s3pPLMBiTxaQ9kYGzzhZRbK+xOo=",
        b"",
    ];
    let mut expected = b"HTTP/1.1 101 Switching Protocols\r\n".to_vec(alloc)?;
    for line in lines {
        expected.extend_from_slice(line)?;
        expected.extend_from_slice(b"\r\n")?;
    }
    assert!(rt; answer == expected);
    Ok(())
}

#[test]
fn other_handshakes_are_refused(rt: HostRuntime) -> Result<(), Fail> {
    let forbidden = Refusal::Head(Fault::Forbidden);
    let changed: [(usize, &[u8], Refusal); 12] = [
        (0, b"Host: example.com\r\n", forbidden),
        (0, b"", Refusal::Head(Fault::BadRequest)),
        // Section 4.2.1.
        (1, b"", Refusal::NoUpgrade),
        (1, b"Upgrade: h2c\r\n", Refusal::NoUpgrade),
        (2, b"Connection: keep-alive\r\n", Refusal::NoUpgrade),
        (3, b"", Refusal::NoUpgrade),
        (
            3,
            b"Sec-WebSocket-Key: dGhlIHNhbXBsZQ==\r\n",
            Refusal::NoUpgrade,
        ),
        (5, b"Sec-WebSocket-Version: 8\r\n", Refusal::NoUpgrade),
        // The origin of section 1.3, another port's, that of a page in a box, and none.
        (4, b"Origin: http://example.com\r\n", Refusal::Foreign),
        (
            4,
            b"Origin: http://server.example.com:8080\r\n",
            Refusal::Foreign,
        ),
        (4, b"Origin: null\r\n", Refusal::Foreign),
        (4, b"", Refusal::Foreign),
    ];
    for (at, field, refusal) in changed {
        let bytes = request(rt.alloc(), b"GET /watch HTTP/1.1\r\n", at, field)?;
        assert!(rt; judged(&bytes) == Judged::Refused(refusal), "{at}");
    }
    Ok(())
}

#[test]
fn a_page_is_asked_for(rt: HostRuntime) {
    let asked: [(&[u8], Judged); 6] = [
        (b"GET / HTTP/1.0\r\n\r\n", Judged::Asked(Asked::Page)),
        (
            b"GET /times?from=3 HTTP/1.1\r\nHost: 127.0.0.1:80\r\n\r\n",
            Judged::Asked(Asked::Times(Survey {
                from: 3,
                every: None,
            })),
        ),
        (
            b"GET /chat HTTP/1.0\r\n\r\n",
            Judged::Refused(Refusal::Head(Fault::NotFound)),
        ),
        (
            b"POST / HTTP/1.0\r\n\r\n",
            Judged::Refused(Refusal::Head(Fault::MethodNotAllowed)),
        ),
        (
            b"GET / HTTP/1.1\r\nHost: example.com\r\n\r\n",
            Judged::Refused(Refusal::Head(Fault::Forbidden)),
        ),
        (
            b"GET /watch HTTP/1.0\r\n\r\n",
            Judged::Refused(Refusal::NoUpgrade),
        ),
    ];
    for (bytes, expected) in asked {
        assert!(rt; judged(bytes) == expected);
    }
}
