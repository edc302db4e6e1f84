//! How a viewer's messages are written, and what happens when memory runs out.

ghost use Rattle.std.specs.Prelude.{◌≡◌, length};

use crate::tests::readers::gives;
use crate::tests::samples::area;
use crate::{write_client_cut_text, write_key_event, write_pointer_event};
use client_wire::*;
use pixel_format::PixelFormat;
use std::test::Fail;
use terms::NoMemory;

// What `write_all` writes, a line for each message.
const WRITTEN: [u8; 66] = [
    0, 0, 0, 0, 0x20, 0x18, 0, 1, 0, 255, 0, 255, 0, 255, 16, 8, 0, 0, 0, 0, //
    2, 0, 0, 2, 255, 255, 255, 17, 0, 0, 0, 5, //
    3, 1, 0, 1, 1, 2, 0, 3, 255, 255, //
    4, 1, 0, 0, 1, 2, 255, 13, //
    5, 5, 1, 2, 0, 3, //
    6, 0, 0, 0, 0, 0, 0, 2, 104, 105,
];

fn write_all(encodings: &[i32], out: &mut Vec<u8>) -> Result<(), NoMemory>
    requires { length encodings.now ≡ 2 }
{
    write_set_pixel_format(&PixelFormat::host(), out)?;
    write_set_encodings(encodings, out)?;
    write_request(true, area(1, 258, 3, 65_535), out)?;
    write_key_event(true, 0x0102_ff0d, out)?;
    write_pointer_event(5, 258, 3, out)?;
    write_client_cut_text(b"hi", out)
}

#[test]
fn messages_that_are_written(rt: HostRuntime) -> Result<(), Fail> {
    let encodings = Encodings::from_vec(Vec::from_slice(rt.alloc(), &[-239, 5])?);
    let mut out = Vec::new(rt.alloc());
    write_all(encodings.as_slice(), &mut out)?;
    assert!(rt; out.as_slice() == WRITTEN.as_slice());
    Ok(())
}

// SetPixelFormat, SetEncodings, FramebufferUpdateRequest and PointerEvent, one after the other.
const STREAM: [u8; 48] = [
    0, 9, 9, 9, 16, 16, 1, 1, 0, 31, 0, 63, 0, 31, 11, 5, 0, 0, 0, 0, 2, 0, 0, 2, 255, 255, 255,
    17, 0, 0, 0, 5, 3, 1, 0, 1, 0, 2, 0, 3, 0, 4, 5, 0, 0, 1, 0, 2,
];

// Also run with each allocation failing in turn.
#[test]
fn reading_while_memory_lasts(rt: HostRuntime) {
    let mut reader = ClientReader::new(rt.alloc());
    assert!(rt; gives(rt.alloc(), &mut reader, &STREAM, &[0, 2, 3, 5]));
}

// Also run with each allocation failing in turn.
#[test]
fn writing_while_memory_lasts(rt: HostRuntime) {
    let mut out = Vec::new(rt.alloc());
    for _ in 0..9 {
        let before = out.len();
        let written = write_set_encodings(&[-239, 5], &mut out);
        assert!(rt; out.len() == (if written.is_ok() { before + 12 } else { before }));
        let before = out.len();
        let written = write_client_cut_text(b"hello", &mut out);
        assert!(rt; out.len() == (if written.is_ok() { before + 13 } else { before }));
        let before = out.len();
        let written = write_set_pixel_format(&PixelFormat::host(), &mut out);
        assert!(rt; out.len() == (if written.is_ok() { before + 20 } else { before }));
    }
}
