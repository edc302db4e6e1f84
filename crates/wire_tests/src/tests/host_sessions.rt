//! A conversation with a host while memory runs out.

use crate::tests::readers::Reader;
use host_session::{HostFault, HostSession};
use rfb_wire::HostMessage;
use terms::WireFault;

// A host's part of a whole handshake, and an update: version, one type, OK, ServerInit of a screen of
// 1 by 1 whose name is x, and the red pixel. The host's own format is no valid one.
const RED_STREAM: [u8; 63] =
    *b"RFB 003.008\n\x01\x01\0\0\0\0\0\x01\0\x01\t\t\t\t\t\t\t\t\t\t\t\t\t\t\t\t\0\0\0\x01x\0\0\0\x01\0\0\0\0\0\x01\0\x01\0\0\0\0\0\0\xff\0";

// What is said in answer: version, type, shared-flag; once ServerInit is whole SetPixelFormat,
// SetEncodings and a request for all of the screen; and a request for what has changed on it.
const RED_ANSWERS: [u8; 74] =
    *b"RFB 003.008\n\x01\x01\0\0\0\0\x20\x18\0\x01\0\xff\0\xff\0\xff\x10\x08\0\0\0\0\x02\0\0\x04\0\0\0\x01\0\0\0\x05\0\0\0\x02\0\0\0\0\x03\0\0\0\0\0\0\x01\0\x01\x03\x01\0\0\0\0\0\x01\0\x01";

// Feeds a piece. If an allocation fails, `feed` answers that for good, and `out` has changed
// nothing.
fn is_fed(
    session: &mut HostSession,
    piece: &[u8],
    messages: &mut Vec<HostMessage>,
    out: &mut Vec<u8>,
) -> bool {
    let fault = session.take(piece, messages).err();
    let is_for_good = match fault {
        Some(HostFault::Wire(WireFault::NoMemory)) => session.take(&[2], messages).err() == fault,
        _ => fault.is_none(),
    };
    let before = out.len();
    let is_out = session.out(out).is_ok() || out.len() == before && session.out(out).is_ok();
    is_for_good && is_out
}

// With memory at hand all is given and said; else what was put out is a beginning of it.
#[test]
fn want_of_memory(rt: HostRuntime) {
    let mut session = HostSession::new(rt.alloc(), None);
    let mut messages = Vec::new(rt.alloc());
    let mut out = Vec::new(rt.alloc());
    for piece in RED_STREAM.chunks(5) {
        assert!(rt; is_fed(&mut session, piece, &mut messages, &mut out));
    }
    assert!(rt; RED_ANSWERS.starts_with(&out) && messages.len() <= 1);
    if session.take(&[], &mut messages).is_ok() {
        assert!(rt; out.len() == RED_ANSWERS.len() && messages.len() == 1);
    }
}
