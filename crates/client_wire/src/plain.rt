//! The grammar of a viewer's messages as a plain function, which has all the bytes before it.

ghost use Rattle.client_wire.specs.Grammar.{set_pixel_format_at, set_encodings_at, request_at, input_at, cut_text_at, body_at, message_at};
ghost use Rattle.client_wire.specs.Plain.{Says};

use crate::field::{encodings_in, pixel_format_in, request_in};
use crate::message::ClientMessage;
use crate::message_type::ClientMessageType;
use std::alloc::Global;
use terms::{WireFault, field, read_u16, read_u32};

// What the bytes after the type of a SetPixelFormat begin with.
fn set_pixel_format(bytes: &[u8]) -> Result<Option<(ClientMessage, &[u8])>, WireFault>
    ensures { Says (λ x. x.0) (λ x. x.1.now) result (set_pixel_format_at bytes.now) }
{
    let Some((format, rest)) = field(19, bytes) else {
        return Ok(None);
    };
    let message = pixel_format_in(format)?;
    Ok(Some((message, rest)))
}

// The same of a SetEncodings.
fn set_encodings(alloc: Global, bytes: &[u8]) -> Result<Option<(ClientMessage, &[u8])>, WireFault>
    ensures { Says (λ x. x.0) (λ x. x.1.now) result (set_encodings_at bytes.now) }
{
    let Some((head, body)) = field(3, bytes) else {
        return Ok(None);
    };
    let count = read_u16(head, 1);
    let Some((list, rest)) = field(4 * count as usize, body) else {
        return Ok(None);
    };
    let encodings = encodings_in(alloc, list)?;
    Ok(Some((ClientMessage::SetEncodings(encodings), rest)))
}

// The same of a FramebufferUpdateRequest.
fn request(bytes: &[u8]) -> Result<Option<(ClientMessage, &[u8])>, WireFault>
    ensures { Says (λ x. x.0) (λ x. x.1.now) result (request_at bytes.now) }
{
    let Some((numbers, rest)) = field(9, bytes) else {
        return Ok(None);
    };
    Ok(Some((request_in(numbers), rest)))
}

// The same of an input message that has so many bytes left.
fn input(
    kind: ClientMessageType,
    left: usize,
    bytes: &[u8],
) -> Result<Option<(ClientMessage, &[u8])>, WireFault>
    ensures { Says (λ x. x.0) (λ x. x.1.now) result (input_at kind left bytes.now) }
{
    let Some((_, rest)) = field(left, bytes) else {
        return Ok(None);
    };
    Ok(Some((ClientMessage::Input(kind), rest)))
}

// The same of a ClientCutText.
fn cut_text(bytes: &[u8]) -> Result<Option<(ClientMessage, &[u8])>, WireFault>
    ensures { Says (λ x. x.0) (λ x. x.1.now) result (cut_text_at bytes.now) }
{
    let Some((head, text)) = field(7, bytes) else {
        return Ok(None);
    };
    let length = read_u32(head, 3);
    input(ClientMessageType::ClientCutText, length as usize, text)
}

// What the bytes after this type begin with.
fn body(
    alloc: Global,
    kind: ClientMessageType,
    bytes: &[u8],
) -> Result<Option<(ClientMessage, &[u8])>, WireFault>
    ensures { Says (λ x. x.0) (λ x. x.1.now) result (body_at kind bytes.now) }
{
    match kind {
        ClientMessageType::SetPixelFormat => set_pixel_format(bytes),
        ClientMessageType::SetEncodings => set_encodings(alloc, bytes),
        ClientMessageType::FramebufferUpdateRequest => request(bytes),
        ClientMessageType::KeyEvent => input(kind, 7, bytes),
        ClientMessageType::PointerEvent => input(kind, 5, bytes),
        ClientMessageType::ClientCutText => cut_text(bytes),
    }
}

/// The message that the bytes begin with, and the bytes after it; `None` if they are too few for
/// it, and the fault that they begin with. It reads the bytes from their front, while a
/// `ClientReader` takes them in pieces.
pub fn read_client_message(
    alloc: Global,
    bytes: &[u8],
) -> Result<Option<(ClientMessage, &[u8])>, WireFault>
    ensures { Says (λ x. x.0) (λ x. x.1.now) result (message_at bytes.now) }
{
    let Some((first, rest)) = field(1, bytes) else {
        return Ok(None);
    };
    let Some(kind) = ClientMessageType::from_number(first[0]) else {
        return Err(WireFault::UnknownType);
    };
    body(alloc, kind, rest)
}
