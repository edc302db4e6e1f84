//! What comes of a vector, whatever its kind.

use crate::account::{Account, Untold};
use crate::hosts::HostReader;
use crate::words::{append_numbers, bytes};
use crate::{formats, hosts, readings, rectangles, screens, served, sessions, updates};
use client_wire::ClientReader;
use terms::{Area, Format, RecordedScreen, ScreenSize};

/// Tells what comes of a vector, which its kind and numbers, a colon and its bytes tell.
pub(crate) fn run(account: &mut Account, vector: &str) -> Result<(), Untold> {
    let Some((head, text)) = vector.split_once(":") else {
        return Err(Untold::NoVector);
    };
    let kind = head.split_whitespace().next().unwrap_or("");
    let mut numbers = Vec::new(account.alloc);
    append_numbers(head, &mut numbers)?;
    run_text(account, kind, &numbers, text)
}

fn run_text(account: &mut Account, kind: &str, numbers: &[u16], text: &str) -> Result<(), Untold> {
    match (kind, numbers) {
        ("screen", &[width, height]) => screens::run(account, ScreenSize { width, height }, text),
        ("served", &[width, height]) => served::run(account, ScreenSize { width, height }, text),
        _ => run_bytes(account, kind, numbers, &bytes(account.alloc, text)?),
    }
}

fn run_bytes(
    account: &mut Account,
    kind: &str,
    numbers: &[u16],
    bytes: &[u8],
) -> Result<(), Untold> {
    match *numbers {
        [] => run_alone(account, kind, bytes),
        [width, height] => run_of_size(account, kind, ScreenSize { width, height }, bytes),
        [number, width, height] if kind == "written" => {
            updates::run(account, number, ScreenSize { width, height }, bytes)
        }
        [bits, w, h] => rectangles::run_painted(account, kind, bits, (w, h), bytes),
        [number, width, height, x, y, w, h] => {
            let size = ScreenSize { width, height };
            let area = Area { x, y, w, h };
            Ok(rectangles::run_measured(account, number, size, area, bytes)?)
        }
        _ => Err(Untold::NoVector),
    }
}

fn run_alone(account: &mut Account, kind: &str, bytes: &[u8]) -> Result<(), Untold> {
    match kind {
        "viewer" => readings::run(account, ClientReader::new(account.alloc), bytes)?,
        "session" => sessions::run(account, Format::One, None, bytes)?,
        "session2" => sessions::run(account, Format::Two, None, bytes)?,
        "format" => formats::run(account, bytes)?,
        _ => return Err(Untold::NoVector),
    }
    Ok(())
}

fn run_of_size(
    account: &mut Account,
    kind: &str,
    size: ScreenSize,
    bytes: &[u8],
) -> Result<(), Untold> {
    let (format, kind) = match kind {
        "host2" => (Format::Two, "host"),
        _ => (Format::One, kind),
    };
    let screen = RecordedScreen { format, size };
    match kind {
        "host" => readings::run(account, HostReader::new(account.alloc, screen), bytes)?,
        "changed" => hosts::run_changed(account, screen, bytes)?,
        "message" => hosts::run_message(account, screen, bytes)?,
        "session" => sessions::run(account, format, Some(size), bytes)?,
        "key" => screens::run_key(account, size, bytes)?,
        _ => return Err(Untold::NoVector),
    }
    Ok(())
}
