//! Reads what two VNC hosts sent, whole and in pieces, and paints it.
//!
//! The first word names a file of Hextile rectangles in the host format, one after the other: width
//! and height, of two bytes each with the higher first, and the rectangle's data. For each a line
//! is printed: width, height, how many bytes the data have, and a number of all its colours.
//!
//! Each further word names a stream: what a host of 320 by 240 pixels sent after its ServerInit.
//! Printed are the type and length of each recorded message, the colour of some pixels, and the
//! SHA-256 of some screens, which are three bytes for each pixel, red, green and blue, by rows; and
//! what a session with such a host makes of a handshake and the stream.
//!
//! All of it is compared with what an independent reader and painter made.
#![tactic(auto)]

mod painting;
mod rectangle;
mod session;
mod stream;

use painting::print_screens;
use rectangle::print_rectangles;
use session::print_sessions;
use std::{env, fs, io};
use stream::messages_in_pieces;

// Prints what is made of a host's stream.
fn print_stream(rt: &HostRuntime, name: &str) -> io::Result<()> {
    let stream = fs::read(rt, name)?;
    println!(rt; "{name}: {} bytes", stream.len())?;
    let Ok(messages) = messages_in_pieces(rt.alloc(), &stream) else {
        return println!(rt; "refused");
    };
    print_screens(rt, &messages)?;
    print_sessions(rt, &stream, &messages)
}

fn main(rt: HostRuntime) -> io::Result<()> {
    let mut names = env::args(&rt)?.skip(1);
    if let Some(name) = names.next() {
        print_rectangles(&rt, &fs::read(&rt, name.as_str())?)?;
    }
    for name in names {
        print_stream(&rt, name.as_str())?;
    }
    Ok(())
}
