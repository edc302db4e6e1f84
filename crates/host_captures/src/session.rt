//! A session with each host: a handshake, and then its stream, in whatever pieces they come.

ghost use Rattle.std.specs.Prelude.{◌<◌};

use crate::stream::are_same;
use host_session::{HostFault, HostSession};
use rfb_wire::HostMessage;
use std::alloc::Global;
use std::io;

// What such a host sends before its messages: the version, None, a SecurityResult, and a ServerInit
// of 320 by 240 without a name.
const HANDSHAKE: [u8; 42] = [
    b'R', b'F', b'B', b' ', b'0', b'0', b'3', b'.', b'0', b'0', b'8', b'\n', 1, 1, 0, 0, 0, 0, 1,
    64, 0, 240, 32, 24, 0, 1, 0, 255, 0, 255, 0, 255, 16, 8, 0, 0, 0, 0, 0, 0, 0, 0,
];

// What it is sent: the version, None, a ClientInit, SetPixelFormat, SetEncodings, and a request for
// the whole screen.
const ANSWERS: [u8; 64] = [
    b'R', b'F', b'B', b' ', b'0', b'0', b'3', b'.', b'0', b'0', b'8', b'\n', 1, 1, 0, 0, 0, 0, 32,
    24, 0, 1, 0, 255, 0, 255, 0, 255, 16, 8, 0, 0, 0, 0, 2, 0, 0, 4, 0, 0, 0, 1, 0, 0, 0, 5, 0, 0,
    0, 2, 0, 0, 0, 0, 3, 0, 0, 0, 0, 0, 1, 64, 0, 240,
];

// A request for what has changed on it.
const REQUEST: [u8; 10] = [3, 1, 0, 0, 0, 0, 1, 64, 0, 240];

// What came of a session.
#[derive(Drop)]
struct Conversation {
    messages: Vec<HostMessage>,
    said: Vec<u8>,
}

// Feeds a session a host's bytes, in pieces of this length.
fn feed_all(
    session: &mut HostSession,
    bytes: &[u8],
    length: usize,
    talk: &mut Conversation,
) -> Result<(), HostFault>
    requires { 0 < length }
{
    for piece in bytes.chunks(length) {
        session.feed(piece, &mut talk.messages)?;
        session.out(&mut talk.said)?;
    }
    Ok(())
}

// What comes of a session with a host whose bytes come in pieces of this length.
fn conversation_of(alloc: Global, bytes: &[u8], length: usize) -> Result<Conversation, HostFault>
    requires { 0 < length }
{
    let mut session = HostSession::new(alloc, None);
    let mut talk = Conversation {
        messages: Vec::new(alloc),
        said: Vec::new(alloc),
    };
    feed_all(&mut session, bytes, length, &mut talk).map(|()| talk)
}

// What is to be said to a host of these messages: a request for each update.
fn answers_to(alloc: Global, messages: &[HostMessage]) -> io::Result<Vec<u8>> {
    let mut answers = Vec::from_slice(alloc, &ANSWERS)?;
    for message in messages {
        if message.is_update() {
            answers.extend_from_slice(&REQUEST)?;
        }
    }
    Ok(answers)
}

// Prints how many messages a session gives, and how many bytes it says, if its bytes come in pieces
// of this length and it gives these messages and answers.
fn print_session(
    rt: &HostRuntime,
    bytes: &[u8],
    length: usize,
    messages: &[HostMessage],
    answers: &[u8],
) -> io::Result<()>
    requires { 0 < length }
{
    match conversation_of(rt.alloc(), bytes, length) {
        Err(fault) => println!(rt; "session refused {}", fault.number()),
        Ok(talk) if are_same(&talk.messages, messages) && talk.said.as_slice() == answers => {
            println!(rt;
                "session in pieces of {length}: {} messages, {} bytes said",
                talk.messages.len(),
                talk.said.len()
            )
        }
        Ok(_) => println!(rt; "session in pieces of {length}: another"),
    }
}

/// Prints what a session gives, in one piece and in pieces of 1, 7 and 1,000 bytes, if the messages
/// are these and a request answers each update.
pub(crate) fn print_sessions(
    rt: &HostRuntime,
    stream: &[u8],
    messages: &[HostMessage],
) -> io::Result<()> {
    let alloc = rt.alloc();
    let mut bytes = Vec::from_slice(alloc, &HANDSHAKE)?;
    bytes.extend_from_slice(stream)?;
    let answers = answers_to(alloc, messages)?;
    for length in [bytes.len().max(1), 1, 7, 1_000] {
        print_session(rt, &bytes, length, messages, &answers)?;
    }
    Ok(())
}
