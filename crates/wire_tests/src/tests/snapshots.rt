//! Snapshots of a screen that is painted on.

use crate::tests::samples::{BLACK, RED, area, size};
use painter::{Screen, ScreenPart, Snapshot};
use pixel_format::{Color, PixelFormat};
use rfb_wire::{BytesFault, Encoding, HostMessage};
use std::alloc::Global;
use std::test::Fail;
use terms::NoMemory;

// Some pixels of a screen of 3 by 40, each in another row, two of them one below the other.
const PIXELS: [(u8, u8); 3] = [(0, 15), (1, 16), (2, 39)];

// A screen of 3 by 40, black everywhere. It promises nothing, nor do the next functions: so the
// tests are proved quickly.
fn black(alloc: Global) -> Result<Screen, NoMemory> {
    Screen::black(alloc, size(3, 40))
}

// Paints one of the pixels red.
fn paint(alloc: Global, screen: &mut Screen, pixel: usize) -> Result<(), BytesFault> {
    let (x, y) = PIXELS[pixel % 3];
    paint_update(
        alloc,
        screen,
        &[0, 0, 0, 1, 0, x, 0, y, 0, 1, 0, 1, 0, 0, 0, 0, 0, 0, 255, 0],
    )
}

// Copies all rows but the last up by a row, or all but the first down.
fn scroll(alloc: Global, screen: &mut Screen, from: u8, to: u8) -> Result<(), BytesFault> {
    paint_update(
        alloc,
        screen,
        &[
            0, 0, 0, 1, 0, 0, 0, to, 0, 3, 0, 39, 0, 0, 0, 1, 0, 0, 0, from,
        ],
    )
}

// Paints an update of one rectangle.
fn paint_update(alloc: Global, screen: &mut Screen, bytes: &[u8; 20]) -> Result<(), BytesFault> {
    let message = HostMessage::from_bytes(alloc, screen.size(), bytes)?;
    if message.size() == screen.size() {
        screen.paint(&message);
    }
    Ok(())
}

// Whether so many of the pixels are red, and the others black.
fn shows(snapshot: &Snapshot, red: usize) -> bool {
    let size = snapshot.size();
    for (k, (x, y)) in PIXELS.iter().enumerate() {
        let (x, y) = (u16::from(*x), u16::from(*y));
        let expected: Color = if k < red { RED } else { BLACK };
        if x >= size.width || y >= size.height || snapshot.color(x, y) != expected {
            return false;
        }
    }
    true
}

#[test]
fn a_snapshot_keeps_its_picture(rt: HostRuntime) -> Result<(), Fail> {
    let alloc = rt.alloc();
    let mut screen = black(alloc)?;
    let none = screen.snapshot(alloc)?;
    for painted in 0..3 {
        let before = screen.snapshot(alloc)?;
        paint(alloc, &mut screen, painted)?;
        let after = screen.snapshot(alloc)?;
        assert!(rt; shows(&before, painted) && shows(&after.share()?, painted + 1));
    }
    assert!(rt; shows(&none, 0));
    Ok(())
}

// Whether a pixel of the middle column is red.
fn is_red(snapshot: &Snapshot, y: u16) -> bool {
    let size = snapshot.size();
    size.width > 1 && y < size.height && snapshot.color(1, y) == RED
}

#[test]
fn a_scroll_moves_the_rows_of_a_snapshot(rt: HostRuntime) -> Result<(), Fail> {
    let alloc = rt.alloc();
    let mut screen = black(alloc)?;
    paint(alloc, &mut screen, 1)?;
    let before = screen.snapshot(alloc)?;
    scroll(alloc, &mut screen, 1, 0)?;
    let higher = screen.snapshot(alloc)?;
    scroll(alloc, &mut screen, 0, 1)?;
    let again = screen.snapshot(alloc)?;
    assert!(rt; is_red(&before, 16) && !is_red(&before, 15));
    assert!(rt; is_red(&higher, 15) && !is_red(&higher, 16));
    assert!(rt; is_red(&again, 16) && !is_red(&again, 15));
    Ok(())
}

#[test]
fn a_screen_that_is_taken_over_is_in_its_snapshot(rt: HostRuntime) -> Result<(), Fail> {
    let alloc = rt.alloc();
    let mut screen = black(alloc)?;
    let before = screen.snapshot(alloc)?;
    let mut other = black(alloc)?;
    paint(alloc, &mut other, 0)?;
    let taken = other.snapshot(alloc)?;
    if taken.size() == screen.size() {
        screen.set_to(&taken);
    }
    let after = screen.snapshot(alloc)?;
    assert!(rt; shows(&before, 0) && shows(&after, 1));
    Ok(())
}

// What a viewer is sent of an area of some rows, of a screen or of its snapshot.
fn sent(alloc: Global, snapshot: bool) -> Result<Vec<u8>, Fail> {
    let mut screen = black(alloc)?;
    paint(alloc, &mut screen, 1)?;
    let part = ScreenPart::Region {
        area: area(1, 15, 2, 24),
        encoding: Encoding::Hextile,
    };
    let mut out = Vec::new(alloc);
    let host = PixelFormat::host();
    if screen.size() != size(3, 40) {
        return Ok(out);
    }
    if snapshot {
        let shared = screen.snapshot(alloc)?;
        shared.append_update(alloc, &host, &[part], &mut out)?;
    } else {
        screen.append_update(alloc, &host, &[part], &mut out)?;
    }
    Ok(out)
}

#[test]
fn a_snapshot_is_sent_as_its_screen(rt: HostRuntime) -> Result<(), Fail> {
    let of_screen = sent(rt.alloc(), false)?;
    let of_snapshot = sent(rt.alloc(), true)?;
    assert!(rt; !of_screen.is_empty() && of_screen.as_slice() == of_snapshot.as_slice());
    Ok(())
}

// A snapshot, after a refusal the next one.
fn snapshot(alloc: Global, screen: &mut Screen) -> Result<Snapshot, NoMemory> {
    match screen.snapshot(alloc) {
        Ok(snapshot) => Ok(snapshot),
        Err(_) => screen.snapshot(alloc),
    }
}

// Also run with each allocation failing in turn.
#[test]
fn snapshots_while_memory_lasts(rt: HostRuntime) {
    let alloc = rt.alloc();
    let Ok(mut screen) = black(alloc) else {
        return;
    };
    for red in 0..3 {
        let seen = snapshot(alloc, &mut screen);
        assert!(rt; seen.is_ok_and(|seen| shows(&seen, red)));
        if paint(alloc, &mut screen, red).is_err() {
            return;
        }
    }
}
