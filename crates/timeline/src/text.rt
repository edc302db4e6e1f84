//! A timeline in JSON (RFC 8259).

use crate::stretch::Stretch;
use crate::timeline::Timeline;
use std::io;
use std::io::Write;
use terms::ScreenSize;

/// What is told of a session beside its timeline.
#[derive(Clone, Copy, Debug, PartialEq, Eq)]
pub struct Facts {
    /// The size of its screen.
    pub size: ScreenSize,
    /// How many messages are committed.
    pub messages: u64,
    /// The time of the last of them, in milliseconds.
    pub length: u32,
}

/// Appends the facts, the stretches and the number of the block to ask for next.
pub fn write_timeline(facts: Facts, timeline: &Timeline, text: &mut Vec<u8>) -> io::Result<()> {
    let ScreenSize { width, height } = facts.size;
    let (messages, length) = (facts.messages, facts.length);
    write!(
        text,
        "{{\"width\":{width},\"height\":{height},\"messages\":{messages},\"length\":{length},\"stretches\":["
    )?;
    let mut comma = "";
    for stretch in timeline.stretches() {
        let Stretch {
            time,
            message,
            block,
            updates,
        } = *stretch;
        write!(
            text,
            "{comma}{{\"time\":{time},\"message\":{message},\"block\":{block},\"updates\":{updates}}}"
        )?;
        comma = ",";
    }
    let next = timeline.next();
    write!(text, "],\"next\":{next}}}\n")
}
