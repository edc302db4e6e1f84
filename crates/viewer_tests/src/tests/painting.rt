//! A viewer of the test, which paints what it is answered (RFC 6143, sections 7.6.1 and 7.7), beside
//! a session that is lent slices and asked at random.

ghost use Rattle.std.specs.Prelude.{◌≡◌, ◌<◌, IfOk, OnOk};

use super::{HANDSHAKE, answered, new_session};
use client_wire::{write_request, write_set_encodings, write_set_pixel_format};
use key_index::Stamped;
use painter::Screen;
use pixel_format::{Color, PixelFormat};
use replay::Slice;
use rfb_wire::HostMessage;
use std::alloc::Global;
use std::test::Fail;
use terms::{Area, ScreenSize};
use viewer_session::Session;

// The screen's size: of four tiles, three of which aren't whole.
const WIDTH: u16 = 20;

const HEIGHT: u16 = 18;

const SIZE: ScreenSize = ScreenSize {
    width: WIDTH,
    height: HEIGHT,
};

const BLACK: Color = Color { r: 0, g: 0, b: 0 };

// Formats that viewers send.
const FORMATS: [[u8; 16]; 6] = [
    *b"\x20\x18\0\x01\0\xff\0\xff\0\xff\x10\x08\0\0\0\0",
    *b"\x20\x18\x01\x01\0\xff\0\xff\0\xff\x10\x08\0\0\0\0",
    *b"\x10\x10\x01\x01\0\x1f\0\x3f\0\x1f\x0b\x05\0\0\0\0",
    *b"\x10\x10\0\x01\0\x1f\0\x3f\0\x1f\x0b\x05\0\0\0\0",
    *b"\x08\x08\0\x01\0\x07\0\x07\0\x03\0\x03\x06\0\0\0",
    *b"\x08\x06\0\x01\0\x01\0\x03\0\x07\x05\x03\0\0\0\0",
];

// A number below a limit.
fn below(seed: &mut u64, limit: u16) -> u16
    requires { 0 < limit }
    ensures { result < limit }
{
    *seed = seed
        .wrapping_mul(6_364_136_223_846_793_005)
        .wrapping_add(1_442_695_040_888_963_407);
    (*seed >> 48) as u16 % limit
}

// Bytes that are still to be read, with pixels in this format.
#[derive(Drop)]
struct Cursor<'a> {
    rest: &'a [u8],
    format: &'a PixelFormat,
}

fn byte(cursor: &mut Cursor) -> Option<u8> {
    let (byte, rest) = cursor.rest.split_first()?;
    cursor.rest = rest;
    Some(*byte)
}

fn number(cursor: &mut Cursor) -> Option<u16> {
    let (bytes, rest) = cursor.rest.split_first_chunk::<2>()?;
    cursor.rest = rest;
    Some(u16::from_be_bytes(*bytes))
}

fn area(cursor: &mut Cursor) -> Option<Area> {
    let (bytes, rest) = cursor.rest.split_first_chunk::<8>()?;
    cursor.rest = rest;
    let [x, x_low, y, y_low, w, w_low, h, h_low] = *bytes;
    Some(Area {
        x: u16::from_be_bytes([x, x_low]),
        y: u16::from_be_bytes([y, y_low]),
        w: u16::from_be_bytes([w, w_low]),
        h: u16::from_be_bytes([h, h_low]),
    })
}

fn color(cursor: &mut Cursor) -> Option<Color> {
    let (pixel, rest) = cursor.rest.split_at_checked(cursor.format.bytes())?;
    cursor.rest = rest;
    Some(cursor.format.pixel(pixel))
}

// A part of an area.
fn part(area: Area, x: u16, y: u16, w: u16, h: u16) -> Area {
    Area {
        x: area.x.wrapping_add(x),
        y: area.y.wrapping_add(y),
        w,
        h,
    }
}

fn index(x: u16, y: u16) -> usize {
    usize::from(y) * usize::from(WIDTH) + usize::from(x)
}

fn fill(pixels: &mut [Color], area: Area, color: Color) {
    for y in 0..area.h {
        for x in 0..area.w {
            let index = index(area.x.wrapping_add(x), area.y.wrapping_add(y));
            if index < pixels.len() {
                pixels[index] = color;
            }
        }
    }
}

fn paint_raw(cursor: &mut Cursor, area: Area, pixels: &mut [Color]) -> Option<()> {
    for y in 0..area.h {
        for x in 0..area.w {
            let color = color(cursor)?;
            fill(pixels, part(area, x, y, 1, 1), color);
        }
    }
    Some(())
}

// The pixels from here on become those of the area; from its end if they come before it.
fn copy(x: u16, y: u16, area: Area, pixels: &mut [Color]) -> Option<()> {
    let forward = y > area.y || y == area.y && x >= area.x;
    for row in 0..area.h {
        for column in 0..area.w {
            let (row, column) = if forward {
                (row, column)
            } else {
                (area.h - 1 - row, area.w - 1 - column)
            };
            let color = *pixels.get(index(x.wrapping_add(column), y.wrapping_add(row)))?;
            fill(pixels, part(area, column, row, 1, 1), color);
        }
    }
    Some(())
}

fn paint_copy(cursor: &mut Cursor, area: Area, pixels: &mut [Color]) -> Option<()> {
    let x = number(cursor)?;
    let y = number(cursor)?;
    copy(x, y, area, pixels)
}

fn paint_rre(cursor: &mut Cursor, within: Area, pixels: &mut [Color]) -> Option<()> {
    let _high = number(cursor)?;
    let count = number(cursor)?;
    fill(pixels, within, color(cursor)?);
    for _ in 0..count {
        let color = color(cursor)?;
        let Area { x, y, w, h } = area(cursor)?;
        fill(pixels, part(within, x, y, w, h), color);
    }
    Some(())
}

// The background and the foreground that were named last.
#[derive(Clone, Copy)]
struct Named {
    background: Color,
    foreground: Color,
}

fn read_named(cursor: &mut Cursor, mask: u8, named: &mut Named) -> Option<()> {
    if mask & 2 != 0 {
        named.background = color(cursor)?;
    }
    if mask & 4 != 0 {
        named.foreground = color(cursor)?;
    }
    Some(())
}

// A subrectangle, which has a colour of its own if none is given.
fn paint_part(
    cursor: &mut Cursor,
    tile: Area,
    given: Option<Color>,
    pixels: &mut [Color],
) -> Option<()> {
    let color = match given {
        Some(color) => color,
        None => color(cursor)?,
    };
    let corner = u16::from(byte(cursor)?);
    let size = u16::from(byte(cursor)?);
    let area = part(tile, corner / 16, corner % 16, size / 16 + 1, size % 16 + 1);
    fill(pixels, area, color);
    Some(())
}

fn paint_tile(
    cursor: &mut Cursor,
    tile: Area,
    named: &mut Named,
    pixels: &mut [Color],
) -> Option<()> {
    let mask = byte(cursor)?;
    if mask & 1 != 0 {
        return paint_raw(cursor, tile, pixels);
    }
    read_named(cursor, mask, named)?;
    fill(pixels, tile, named.background);
    let count = if mask & 8 != 0 { byte(cursor)? } else { 0 };
    let given = (mask & 16 == 0).then_some(named.foreground);
    for _ in 0..count {
        paint_part(cursor, tile, given, pixels)?;
    }
    Some(())
}

fn paint_hextile(cursor: &mut Cursor, area: Area, pixels: &mut [Color]) -> Option<()> {
    let mut named = Named {
        background: BLACK,
        foreground: BLACK,
    };
    for row in 0..area.h.div_ceil(16) {
        for column in 0..area.w.div_ceil(16) {
            let (x, y) = (column.wrapping_mul(16), row.wrapping_mul(16));
            let (w, h) = (area.w.wrapping_sub(x), area.h.wrapping_sub(y));
            let tile = part(area, x, y, w.min(16), h.min(16));
            paint_tile(cursor, tile, &mut named, pixels)?;
        }
    }
    Some(())
}

fn paint_rectangle(cursor: &mut Cursor, pixels: &mut [Color]) -> Option<()> {
    let area = area(cursor)?;
    let _high = number(cursor)?;
    match number(cursor)? {
        0 => paint_raw(cursor, area, pixels),
        1 => paint_copy(cursor, area, pixels),
        2 => paint_rre(cursor, area, pixels),
        5 => paint_hextile(cursor, area, pixels),
        _ => None,
    }
}

// Paints an update; nothing if it isn't one, or bytes are left.
fn paint(update: &[u8], format: &PixelFormat, pixels: &mut [Color]) -> Option<()> {
    let mut cursor = Cursor {
        rest: update.strip_prefix(&[0, 0])?,
        format,
    };
    for _ in 0..number(&mut cursor)? {
        paint_rectangle(&mut cursor, pixels)?;
    }
    cursor.rest.is_empty().then_some(())
}

// An update of one rectangle: a copy, or Raw in three colours.
fn any_update(alloc: Global, seed: &mut u64) -> Result<Vec<u8>, Fail> {
    let x = below(seed, WIDTH);
    let y = below(seed, HEIGHT);
    let w = below(seed, WIDTH - x) + 1;
    let h = below(seed, HEIGHT - y) + 1;
    let mut update = Vec::from_slice(alloc, &[0, 0, 0, 1, 0])?;
    update.extend_from_slice(&[x as u8, 0, y as u8, 0, w as u8, 0, h as u8, 0, 0, 0])?;
    if below(seed, 2) == 0 {
        let from = [
            below(seed, WIDTH - w + 1) as u8,
            below(seed, HEIGHT - h + 1) as u8,
        ];
        update.extend_from_slice(&[1, 0, from[0], 0, from[1]])?;
        return Ok(update);
    }
    update.push(0)?;
    for _ in 0..w * h {
        let color = below(seed, 3) as u8;
        update.extend_from_slice(&[color * 90, 255 - color * 60, color * 20, 0])?;
    }
    Ok(update)
}

// Paints an update on the screen, and lends it to the session: as a message, or as a start.
fn go_on(
    alloc: Global,
    seed: &mut u64,
    session: &mut Session,
    screen: &mut Screen,
) -> Result<(), Fail>
    requires width { session.old.view.screen.width ≡ WIDTH }
    requires height { session.old.view.screen.height ≡ HEIGHT }
    requires across { screen.old.width ≡ WIDTH }
    requires down { screen.old.height ≡ HEIGHT }
    ensures width { OnOk result (session.new.view.screen.width ≡ WIDTH) }
    ensures height { OnOk result (session.new.view.screen.height ≡ HEIGHT) }
    ensures across { OnOk result (screen.new.width ≡ WIDTH) }
    ensures down { OnOk result (screen.new.height ≡ HEIGHT) }
{
    let update = any_update(alloc, seed)?;
    let message = HostMessage::from_bytes(alloc, SIZE, &update)?;
    screen.paint(&message);
    if below(seed, 8) == 0 {
        let start = screen.snapshot(alloc)?;
        session.advance(&Slice {
            first: 7,
            start: Some(start),
            messages: Vec::new(alloc),
        })?;
        return Ok(());
    }
    let first = session.position();
    let mut messages = Vec::new(alloc);
    messages.push(Stamped { time: 0, message })?;
    if first < 1_000_000 {
        session.advance(&Slice {
            first,
            start: None,
            messages,
        })?;
    }
    Ok(())
}

// A request for an area that may leave the screen, and perhaps a format or encodings before it.
fn ask(
    alloc: Global,
    seed: &mut u64,
    format: &mut PixelFormat,
    asked: Area,
) -> Result<Vec<u8>, Fail> {
    let mut piece = Vec::new(alloc);
    if below(seed, 6) == 0 {
        *format = PixelFormat::read(&FORMATS[usize::from(below(seed, 6))])?;
        write_set_pixel_format(format, &mut piece)?;
    }
    if below(seed, 4) == 0 {
        let encoding = [0, 2, 5][usize::from(below(seed, 3))];
        write_set_encodings(&[-239, encoding, 1], &mut piece)?;
    }
    write_request(below(seed, 4) > 0, asked, &mut piece)?;
    Ok(piece)
}

// Whether the viewer shows the screen, in its format, in an area.
fn shows(screen: &Screen, format: &PixelFormat, pixels: &[Color], area: Area) -> bool
    requires across { screen.now.width ≡ WIDTH }
    requires down { screen.now.height ≡ HEIGHT }
{
    for y in 0..HEIGHT {
        for x in 0..WIDTH {
            let inside = x >= area.x && x - area.x < area.w && y >= area.y && y - area.y < area.h;
            let index = index(x, y);
            let shown = index < pixels.len() && pixels[index] == format.convert(screen.color(x, y));
            if inside && !shown {
                return false;
            }
        }
    }
    true
}

// What a viewer shows, and whether it was answered yet, and by a copy.
#[derive(Drop)]
struct Viewer {
    pixels: Vec<Color>,
    format: PixelFormat,
    answered: bool,
    copied: bool,
}

// Asks for an area, and paints what is answered: the area, or nothing if that isn't an update.
fn look(
    alloc: Global,
    seed: &mut u64,
    session: &mut Session,
    viewer: &mut Viewer,
) -> Result<Option<Area>, Fail>
    ensures { session.new.view.screen ≡ session.old.view.screen }
{
    let asked = Area {
        x: below(seed, 25),
        y: below(seed, 25),
        w: below(seed, 25),
        h: below(seed, 25),
    };
    let piece = ask(alloc, seed, &mut viewer.format, asked)?;
    let out = answered(alloc, session, &piece)?;
    viewer.answered |= !out.is_empty();
    viewer.copied |= out.get(12..16).unwrap_or_default() == b"\0\0\0\x01".as_slice();
    if out.is_empty() || paint(&out, &viewer.format, &mut viewer.pixels).is_some() {
        Ok(Some(asked))
    } else {
        Ok(None)
    }
}

fn begun(alloc: Global) -> Result<Box<Session>, Fail>
    ensures width { IfOk result (λ s. s.value.view.screen.width ≡ WIDTH) }
    ensures height { IfOk result (λ s. s.value.view.screen.height ≡ HEIGHT) }
{
    let mut session = new_session(alloc, SIZE, b"painted")?;
    answered(alloc, &mut session, &HANDSHAKE)?;
    Ok(session)
}

// Goes on by some updates and looks so many times: whether the viewer, once it is answered, then shows the converted
// screen in the area that it asked for.
fn look_on(
    alloc: Global,
    session: &mut Session,
    screen: &mut Screen,
    viewer: &mut Viewer,
    times: usize,
) -> Result<bool, Fail>
    requires width { session.old.view.screen.width ≡ WIDTH }
    requires height { session.old.view.screen.height ≡ HEIGHT }
    requires across { screen.old.width ≡ WIDTH }
    requires down { screen.old.height ≡ HEIGHT }
{
    let mut seed = 1;
    for _ in 0..times {
        for _ in 0..=below(&mut seed, 3) {
            go_on(alloc, &mut seed, session, screen)?;
        }
        let Some(asked) = look(alloc, &mut seed, session, viewer)? else {
            return Ok(false);
        };
        if viewer.answered && !shows(screen, &viewer.format, &viewer.pixels, asked) {
            return Ok(false);
        }
    }
    Ok(true)
}

#[test]
fn painted(rt: HostRuntime) -> Result<(), Fail> {
    let mut session = begun(rt.alloc())?;
    let mut screen = Screen::black(rt.alloc(), SIZE)?;
    let mut viewer = Viewer {
        pixels: vec![in rt.alloc(); BLACK; 360]?,
        format: PixelFormat::host(),
        answered: false,
        copied: false,
    };
    assert!(rt; look_on(rt.alloc(), &mut session, &mut screen, &mut viewer, 400)?);
    assert!(rt; viewer.copied);
    Ok(())
}
