//! A host's stream in pieces, from memory.

use crate::end::HostEnd;
use crate::stream::{HostStream, Next};
use std::io;
use std::io::Read;
use std::rt::HostRuntime;
use std::test::Fail;
use terms::Format;

/// A handshake of a host of one pixel and three bells (RFC 6143, sections 7.1, 7.3.2 and 7.6.3).
const THREE_BELLS: [u8; 46] = *b"RFB 003.008\n\x01\x01\0\0\0\0\0\x01\0\x01\
    \x20\x18\0\x01\0\xff\0\xff\0\xff\x10\x08\0\0\0\0\0\0\0\x01h\x02\x02\x02";

/// Gives its bytes, and then fails.
#[derive(Drop)]
struct Breaking<'a> {
    bytes: &'a [u8],
    failures: u32,
}

impl<'a> Read for Breaking<'a> {
    fn read(&mut self, buf: &mut [u8]) -> io::Result<usize> {
        if !self.bytes.is_empty() {
            return self.bytes.read(buf);
        }
        self.failures = self.failures.saturating_add(1);
        if self.failures == 1 {
            return Err(io::ErrorKind::Interrupted.into());
        }
        Err(io::ErrorKind::ConnectionReset.into())
    }
}

// How many messages are given until the stream ends, which then ended so.
fn given_until_end<S: Read>(stream: &mut HostStream, source: &mut S) -> (u64, Option<HostEnd>) {
    let mut count = 0u64;
    for _ in 0..1_000 {
        match stream.next(false) {
            Next::Message(_) => count = count.saturating_add(1),
            Next::Ended => break,
            Next::Read if stream.is_read_next() => {
                let _read = stream.read_from(source, &mut [0; 7]);
            }
            Next::Read => {}
        }
    }
    (count, stream.end())
}

#[test]
fn each_message_is_given_until_the_stream_ends(rt: HostRuntime) -> Result<(), Fail> {
    let mut stream = HostStream::new(rt.alloc(), Format::One, None);
    let mut source = THREE_BELLS.as_slice();
    assert!(rt; given_until_end(&mut stream, &mut source) == (3, Some(HostEnd::Closed(0))));
    Ok(())
}

#[test]
fn an_interruption_ends_nothing(rt: HostRuntime) -> Result<(), Fail> {
    let mut stream = HostStream::new(rt.alloc(), Format::One, None);
    let mut source = Breaking {
        bytes: &THREE_BELLS,
        failures: 0,
    };
    assert!(rt; given_until_end(&mut stream, &mut source) == (3, Some(HostEnd::Socket)));
    assert!(rt; source.failures == 2);
    Ok(())
}

#[test]
fn what_has_come_is_given_before_a_stop(rt: HostRuntime) -> Result<(), Fail> {
    let mut stream = HostStream::new(rt.alloc(), Format::One, None);
    stream.read_from(&mut THREE_BELLS.as_slice(), &mut [0; 64])?;
    for _ in 0..3 {
        assert!(rt; matches!(stream.next(true), Next::Message(_)));
    }
    assert!(rt; matches!(stream.next(true), Next::Ended));
    Ok(())
}

#[test]
fn a_fault_comes_after_the_messages_before_it(rt: HostRuntime) -> Result<(), Fail> {
    let mut stream = HostStream::new(rt.alloc(), Format::One, None);
    // No message has type 9 (section 7.6).
    let mut source = THREE_BELLS.as_slice().chain(b"\x09".as_slice());
    let (count, end) = given_until_end(&mut stream, &mut source);
    assert!(rt; count == 3);
    assert!(rt; matches!(end, Some(HostEnd::Fault(_))));
    Ok(())
}
