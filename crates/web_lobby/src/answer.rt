//! Answers: HTTP responses, with a body that is known before it is written, or without it.

ghost use Rattle.std.specs.Prelude.{◌≡◌, ◌↔◌, true};
ghost use Rattle.request_head.specs.Lines.{begins_with_head};

use arrayvec::ArrayString;
use request_head::{Fault, wants_head_alone};
use std::fmt::Display;
use std::io::Write;
use std::{fmt, io};

/// No text of a refusal is longer, in bytes.
const LONGEST_WHY: usize = 100;

/// How much of an answer is written.
#[derive(Clone, Copy, Debug, PartialEq, Eq)]
pub enum Extent {
    /// Its head and its body.
    Whole,
    /// Its head alone, as HEAD asks for it (RFC 9110, section 9.3.2).
    HeadAlone,
}

impl Extent {
    /// That of the answer to a request that begins so.
    pub fn of(request: &[u8]) -> Extent
        ensures { (result ≡ Extent.HeadAlone) ↔ (begins_with_head request.now ≡ true) }
    {
        if wants_head_alone(request) {
            Extent::HeadAlone
        } else {
            Extent::Whole
        }
    }
}

/// What an answer is, in HTTP's words (RFC 9110, sections 8.3 and 15).
#[derive(Clone, Copy)]
pub struct Head<'a> {
    /// The status code and its reason phrase.
    pub status: &'a str,
    /// The media type of the body.
    pub media: &'a str,
    /// How many bytes the body has, if that is known.
    pub size: Option<u64>,
}

/// The status of an answer that refuses what isn't a WebSocket of version 13. It names that protocol
/// and that version (RFC 9110, section 15.5.22, and RFC 6455, section 4.4).
pub const UPGRADE_REQUIRED: &str = "426 Upgrade Required";

/// Writes what stands before the body. No other page may use what is served, nothing is kept by a
/// browser, the page uses nothing from elsewhere, and the connection ends after the body.
pub fn write_head<W: Write>(out: &mut W, head: Head<'_>) -> io::Result<()> {
    let Head {
        status,
        media,
        size,
    } = head;
    write!(out, "HTTP/1.1 {status}\r\nContent-Type: {media}\r\n")?;
    if let Some(size) = size {
        write!(out, "Content-Length: {size}\r\n")?;
    }
    write!(
        out,
        "Cache-Control: no-store\r\nX-Content-Type-Options: nosniff\r\nReferrer-Policy: no-referrer\r\n"
    )?;
    write!(
        out,
        "Cross-Origin-Resource-Policy: same-origin\r\nContent-Security-Policy: default-src 'self'; img-src 'self' blob: data:; frame-ancestors 'none'\r\n"
    )?;
    if status == UPGRADE_REQUIRED {
        write!(
            out,
            "Upgrade: websocket\r\nSec-WebSocket-Version: 13\r\nConnection: upgrade\r\n"
        )?;
    }
    write!(out, "Allow: GET, HEAD\r\nConnection: close\r\n\r\n")
}

/// Writes an answer, or its head alone.
pub fn write_answer<W: Write>(
    out: &mut W,
    status: &str,
    media: &str,
    body: &[u8],
    extent: Extent,
) -> io::Result<()> {
    let size = Some(body.len() as u64);
    write_head(
        out,
        Head {
            status,
            media,
            size,
        },
    )?;
    match extent {
        Extent::Whole => out.write_all(body),
        Extent::HeadAlone => Ok(()),
    }
}

/// Writes why something isn't given, in a line.
pub fn write_failure<W: Write>(
    out: &mut W,
    status: &str,
    why: &str,
    extent: Extent,
) -> io::Result<()> {
    write_answer(
        out,
        status,
        "text/plain; charset=utf-8",
        why.as_bytes(),
        extent,
    )
}

/// Writes why a request is refused, as a line.
pub fn write_refusal<W: Write, T: Display + Drop>(
    out: &mut W,
    status: &str,
    why: T,
    extent: Extent,
) -> io::Result<()> {
    let mut text = ArrayString::<LONGEST_WHY>::new();
    let _written = fmt::Write::write_fmt(&mut text, format_args!("{why}\n"));
    write_failure(out, status, text.as_str(), extent)
}

/// What the answer to a request that is refused for its head begins with.
pub fn status_of(fault: Fault) -> &'static str {
    match fault {
        Fault::BadRequest => "400 Bad Request",
        Fault::Forbidden => "403 Forbidden",
        Fault::NotFound => "404 Not Found",
        Fault::MethodNotAllowed => "405 Method Not Allowed",
        Fault::TooLarge => "431 Request Header Fields Too Large",
    }
}
