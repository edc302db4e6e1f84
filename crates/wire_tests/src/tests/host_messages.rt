//! How a host's messages are told apart and written, also when memory runs out.

use crate::tests::readers::gives;
use crate::tests::samples::{RED_UPDATE as RED, area, size};
use crate::{write_bell, write_color_map, write_raw_update, write_server_cut_text};
use pixel_format::Color;
use rfb_wire::*;
use std::alloc::Global;
use std::test::Fail;
use terms::NoMemory;

// Appends the message of a screen of one row.
fn append(
    alloc: Global,
    width: u16,
    bytes: &[u8],
    messages: &mut Vec<HostMessage>,
) -> Result<(), Fail> {
    messages.push(HostMessage::from_bytes(alloc, size(width, 1), bytes)?)?;
    Ok(())
}

#[test]
fn messages_told_apart(rt: HostRuntime) -> Result<(), Fail> {
    let mut messages = Vec::new(rt.alloc());
    for (width, bytes) in [(1, RED.as_slice()), (1, &[2]), (2, &[2])] {
        append(rt.alloc(), width, bytes, &mut messages)?;
    }
    let [red, bell, wider] = messages.as_slice() else {
        return Err("three messages".into());
    };
    assert!(rt; red.is_update() && !bell.is_update());
    assert!(rt; red.same(&red.copy(rt.alloc())?) && !red.same(bell) && !bell.same(wider));
    assert!(rt; ServerReader::new(rt.alloc(), size(3, 2)).size() == size(3, 2));
    Ok(())
}

// What `write_all` writes, a line for each message. The update is of one red pixel, as a viewer of 16
// bits has it.
const WRITTEN: [u8; 41] = [
    3, 0, 0, 0, 0, 0, 0, 2, 104, 105, //
    2, //
    0, 0, 0, 1, 0, 1, 1, 2, 0, 1, 0, 1, 0, 0, 0, 0, 0, 248, //
    1, 0, 1, 2, 0, 1, 255, 255, 1, 0, 0, 1,
];

fn write_all(out: &mut Vec<u8>) -> Result<(), NoMemory> {
    let color = Color {
        r: 65_535,
        g: 256,
        b: 1,
    };
    write_server_cut_text(b"hi", out)?;
    write_bell(out)?;
    write_raw_update(area(1, 258, 1, 1), &[0, 248], out)?;
    write_color_map(258, &[color], out)
}

#[test]
fn messages_that_are_written(rt: HostRuntime) -> Result<(), Fail> {
    let mut out = Vec::new(rt.alloc());
    write_all(&mut out)?;
    assert!(rt; out.as_slice() == WRITTEN.as_slice());
    Ok(())
}

// A bell, a cut text of two bytes, a colour map of one colour, and an update.
const STREAM: [u8; 43] = [
    2, 3, 0, 0, 0, 0, 0, 0, 2, 104, 105, 1, 0, 0, 0, 0, 1, 0, 0, 0, 0, 0, 0, 0, 0, 0, 1, 0, 0, 0,
    0, 0, 1, 0, 1, 0, 0, 0, 0, 0, 0, 255, 0,
];

// Also run with each allocation failing in turn.
#[test]
fn reading_while_memory_lasts(rt: HostRuntime) {
    let mut reader = ServerReader::new(rt.alloc(), size(1, 1));
    assert!(rt; gives(rt.alloc(), &mut reader, &STREAM, &[1, 10, 20]));
}

// Also run with each allocation failing in turn.
#[test]
fn writing_while_memory_lasts(rt: HostRuntime) {
    let mut out = Vec::new(rt.alloc());
    let one_pixel = area(0, 0, 1, 1);
    let color = Color { r: 0, g: 0, b: 0 };
    for _ in 0..9 {
        let before = out.len();
        let written = write_raw_update(one_pixel, &[0, 0, 255, 0], &mut out);
        assert!(rt; out.len() == (if written.is_ok() { before + 20 } else { before }));
        let before = out.len();
        let written = write_color_map(7, &[color], &mut out);
        assert!(rt; out.len() == (if written.is_ok() { before + 12 } else { before }));
        let before = out.len();
        let written = write_server_cut_text(b"hello", &mut out);
        assert!(rt; out.len() == (if written.is_ok() { before + 13 } else { before }));
        let before = out.len();
        let written = write_bell(&mut out);
        assert!(rt; out.len() == (if written.is_ok() { before + 1 } else { before }));
    }
}
