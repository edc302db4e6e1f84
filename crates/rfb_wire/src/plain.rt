//! The grammar of messages as a plain function, which has all the bytes before it.

ghost use Rattle.std.specs.Prelude.{◌≡◌, ◌+◌, ◌*◌, ◌<◌, ◌^◌, slice_index, nat_eq, false, drop, length, IfOk, IfSome, MatchOption};
ghost use Rattle.terms.specs.Reading.{Got, More};
ghost use Rattle.rfb_wire.specs.Grammar.{rectangle_at, rectangles_at, update_at, color_map_at, text_at, other_at, message_at, message_limit, Recorded};
ghost use Rattle.rfb_wire.specs.Plain.{Says, SaysMessage, kind_of};

use crate::message::{HostMessage, Rectangle};
use crate::message_type::HostMessageType;
use crate::partial_message::message_limit;
use crate::step::{TEXT_LIMIT, judge_header};
use pixel_format::PixelFormat;
use rect_data::measure;
use std::alloc::Global;
use terms::{RecordedScreen, ScreenSize, WireFault, field, read_u16, read_u32};

/// The message that bytes begin with.
#[derive(Drop)]
pub enum Front {
    /// It is recorded.
    Recorded(HostMessage),
    /// It is read over; it has so many bytes.
    ReadOver(usize),
}

// The rectangle that the bytes begin with, at an offset of its message, and the bytes after it.
fn rectangle(
    size: ScreenSize,
    at: usize,
    bytes: &[u8],
) -> Result<Option<(Rectangle, &[u8])>, WireFault>
    requires { at + length bytes.now < 2 ^ 32 }
    ensures says { Says (λ x. x.0) (λ x. x.1.now) result (rectangle_at size.width size.height at bytes.now) }
    ensures ends { IfOk result (λ o. IfSome o (λ x.
        x.0.end + length x.1.now ≡ at + length bytes.now)) }
{
    let Some((header, rest)) = field(12, bytes) else {
        return Ok(None);
    };
    let (area, encoding) = judge_header(size, header)?;
    let start = at + 12;
    let length = match measure(&PixelFormat::host(), size, encoding, area, rest) {
        Ok(Some(length)) => length,
        Ok(None) => return Ok(None),
        Err(fault) => return Err(fault),
    };
    let rectangle = Rectangle {
        area,
        encoding,
        start,
        end: start + length,
    };
    Ok(Some((rectangle, &rest[length..])))
}

// So many rectangles after the head of an update, and the bytes after them.
fn rectangles(
    alloc: Global,
    size: ScreenSize,
    count: u16,
    bytes: &[u8],
) -> Result<Option<(Vec<Rectangle>, &[u8])>, WireFault>
    requires { 4 + length bytes.now < 2 ^ 32 }
    ensures { Says (λ x. x.0.items) (λ x. x.1.now) result
        (rectangles_at size.width size.height count 4 bytes.now) }
{
    let mut found = Vec::new(alloc);
    let mut at = 4;
    let mut rest = bytes;
    for _ in 0..count {
        let Some((next, following)) = rectangle(size, at, rest)? else {
            return Ok(None);
        };
        found.push(next)?;
        at = next.end;
        rest = following;
    }
    Ok(Some((found, rest)))
}

// The rectangles of the update that the bytes begin with, and the bytes after it.
fn update(
    alloc: Global,
    size: ScreenSize,
    bytes: &[u8],
) -> Result<Option<(Vec<Rectangle>, &[u8])>, WireFault>
    requires { length bytes.now < 2 ^ 32 }
    ensures { Says (λ x. Recorded x.0.items) (λ x. x.1.now) result
        (update_at size.width size.height bytes.now) }
{
    let Some((_, head)) = field(1, bytes) else {
        return Ok(None);
    };
    let Some((numbers, body)) = field(3, head) else {
        return Ok(None);
    };
    let count = read_u16(numbers, 1);
    rectangles(alloc, size, count, body)
}

// That a colour map is not recorded, and the bytes after it, of which these follow the type.
fn color_map(bytes: &[u8]) -> Option<(bool, &[u8])>
    ensures { MatchOption result (color_map_at bytes.now ≡ More)
        (λ x. color_map_at bytes.now ≡ Got (kind_of x.0) x.1.now) }
{
    let (head, colors) = field(5, bytes)?;
    let count = read_u16(head, 3);
    let (_, rest) = field(6 * count as usize, colors)?;
    Some((false, rest))
}

// Whether a cut text is recorded, and the bytes after it, of which these follow the type.
fn text(bytes: &[u8]) -> Option<(bool, &[u8])>
    ensures { MatchOption result (text_at bytes.now ≡ More)
        (λ x. text_at bytes.now ≡ Got (kind_of x.0) x.1.now) }
{
    let (head, body) = field(7, bytes)?;
    let count = read_u32(head, 3);
    let (_, rest) = field(count as usize, body)?;
    Some((count <= TEXT_LIMIT, rest))
}

// The update that the bytes begin with, whose type is read.
fn update_message(
    alloc: Global,
    screen: RecordedScreen,
    bytes: &[u8],
) -> Result<Option<Front>, WireFault>
    requires some { 0 < length bytes.now }
    requires kind { slice_index bytes.now 0 ≡ 0 }
    ensures { SaysMessage screen.format screen.size.width screen.size.height bytes.now result
        (message_at (message_limit screen.format) screen.size.width screen.size.height bytes.now) }
{
    let limit = message_limit(screen.format);
    let front = &bytes[..bytes.len().min(limit)];
    let Some((rectangles, rest)) = update(alloc, screen.size, front)? else {
        if bytes.len() > limit {
            return Err(WireFault::TooLong);
        }
        return Ok(None);
    };
    let whole = Vec::from_slice(alloc, &front[..front.len() - rest.len()])?;
    let message = HostMessage::from_parts(alloc, screen, whole, rectangles)?;
    Ok(Some(Front::Recorded(message)))
}

// The message that the bytes begin with, whose type is read and which is no update: whether it is
// recorded, and the bytes after it, or `None` if they are too few for it.
fn other_message(
    alloc: Global,
    screen: RecordedScreen,
    bytes: &[u8],
    other: Option<(bool, &[u8])>,
) -> Result<Option<Front>, WireFault>
    requires some { 0 < length bytes.now }
    requires kind { nat_eq (slice_index bytes.now 0) 0 ≡ false }
    requires is { MatchOption other (other_at (slice_index bytes.now 0) (drop 1 bytes.now) ≡ More)
        (λ x. other_at (slice_index bytes.now 0) (drop 1 bytes.now) ≡ Got (kind_of x.0) x.1.now) }
    ensures { SaysMessage screen.format screen.size.width screen.size.height bytes.now result
        (message_at (message_limit screen.format) screen.size.width screen.size.height bytes.now) }
{
    let Some((recorded, following)) = other else {
        return Ok(None);
    };
    let length = bytes.len() - following.len();
    if !recorded {
        return Ok(Some(Front::ReadOver(length)));
    }
    let whole = Vec::from_slice(alloc, &bytes[..length])?;
    let message = HostMessage::from_parts(alloc, screen, whole, Vec::new(alloc))?;
    Ok(Some(Front::Recorded(message)))
}

/// The message that the bytes begin with, for this screen; `None` if they are too few for it, and
/// the fault that they begin with. It reads the bytes from their front, while a `ServerReader`
/// takes them in pieces.
pub fn read_message(
    alloc: Global,
    screen: RecordedScreen,
    bytes: &[u8],
) -> Result<Option<Front>, WireFault>
    ensures { SaysMessage screen.format screen.size.width screen.size.height bytes.now result
        (message_at (message_limit screen.format) screen.size.width screen.size.height bytes.now) }
{
    let Some((first, rest)) = field(1, bytes) else {
        return Ok(None);
    };
    let Some(kind) = HostMessageType::from_number(first[0]) else {
        return Err(WireFault::UnknownType);
    };
    match kind {
        HostMessageType::FramebufferUpdate => update_message(alloc, screen, bytes),
        HostMessageType::SetColorMapEntries => {
            other_message(alloc, screen, bytes, color_map(rest))
        }
        HostMessageType::Bell => other_message(alloc, screen, bytes, Some((true, rest))),
        HostMessageType::ServerCutText => other_message(alloc, screen, bytes, text(rest)),
    }
}
