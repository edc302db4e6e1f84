//! Writers of messages that the recorder doesn't send. Each appends one message, or leaves the vector
//! as it was if memory runs out.

ghost use Rattle.std.specs.Prelude.{◌≡◌, ◌+◌, ◌*◌, ◌<◌, ◌≤◌, ◌^◌, ℕ, List, [], ◌++◌, Bool, take, length, OnOk, OnErr};
ghost use Rattle.terms.specs.Reading.{Got};
ghost use Rattle.pixel_format.specs.declared.Color.{Color as ColorValue};
ghost use Rattle.client_wire.specs.declared.message.ClientMessage.TheVariants as messages;
ghost use Rattle.client_wire.specs.declared.message_type.ClientMessageType.TheVariants as types;
ghost use Rattle.client_wire.specs.Grammar as viewers;
ghost use Rattle.rfb_wire.specs.Grammar.{message_at, Recorded, ReadOver, text_limit};
ghost use Rattle.rfb_wire.specs.Written.{raw_update_bytes};
ghost use Rattle.wire_tests.specs.Written.{text_bytes, color_map_bytes, color_bytes, bell_bytes, server_cut_text_bytes, key_event_bytes, pointer_event_bytes, client_cut_text_bytes};

use client_wire::{ClientMessageType, write_update_head};
use pixel_format::Color;
use rfb_wire::HostMessageType;
use terms::{Area, NoMemory, four_bytes, two_bytes, whole_or_none};

/// Appends a host's FramebufferUpdate of one Raw rectangle (RFC 6143, sections 7.6.1 and 7.7.1):
/// its area, and the pixels of the area by rows, in the viewer's format.
pub fn write_raw_update(area: Area, pixels: &[u8], out: &mut Vec<u8>) -> Result<(), NoMemory>
    ensures ok { OnOk result (out.new.items ≡ out.old.items ++ raw_update_bytes area pixels.now) }
    ensures err { OnErr result (out.new.items ≡ out.old.items) }
{
    let start = out.len();
    write_update_head(area, 0, out)?;
    let appended = out.extend_from_slice(pixels);
    whole_or_none(appended, start, out)
}

/// Appends a host's SetColorMapEntries (RFC 6143, section 7.6.2): at most 65,535 colours, for the
/// numbers from `first` on.
pub fn write_color_map(first: u16, colors: &[Color], out: &mut Vec<u8>) -> Result<(), NoMemory>
    requires { length colors.now < 2 ^ 16 }
    ensures ok { OnOk result (out.new.items ≡ out.old.items ++ color_map_bytes first colors.now) }
    ensures err { OnErr result (out.new.items ≡ out.old.items) }
{
    let start = out.len();
    let appended = append_color_map(first, colors, out);
    whole_or_none(appended, start, out)
}

// Appends the same, or a part of it.
fn append_color_map(first: u16, colors: &[Color], out: &mut Vec<u8>) -> Result<(), NoMemory>
    requires { length colors.now < 2 ^ 16 }
    ensures ok { OnOk result (out.new.items ≡ out.old.items ++ color_map_bytes first colors.now) }
    ensures part { take (length out.old.items) out.new.items ≡ out.old.items }
{
    let [number, number_low] = two_bytes(first);
    let [count, count_low] = two_bytes(colors.len() as u16);
    let kind = HostMessageType::SetColorMapEntries as u8;
    out.extend_from_slice(&[kind, 0, number, number_low, count, count_low])?;
    for color in colors {
        out.extend_from_slice(&map_entry(*color))?;
    }
    Ok(())
}

// A colour as it stands in a map.
fn map_entry(color: Color) -> [u8; 6]
    ensures { result ≡ color_bytes color }
{
    let [red, red_low] = two_bytes(color.r);
    let [green, green_low] = two_bytes(color.g);
    let [blue, blue_low] = two_bytes(color.b);
    [red, red_low, green, green_low, blue, blue_low]
}

/// Appends a host's Bell (RFC 6143, section 7.6.3).
pub fn write_bell(out: &mut Vec<u8>) -> Result<(), NoMemory>
    ensures ok { OnOk result (out.new.items ≡ out.old.items ++ bell_bytes) }
    ensures err { OnErr result (out.new.items ≡ out.old.items) }
{
    out.extend_from_slice(&[HostMessageType::Bell as u8])
}

/// Appends a host's ServerCutText (RFC 6143, section 7.6.4), with a text of at most 4,294,967,295
/// bytes.
pub fn write_server_cut_text(text: &[u8], out: &mut Vec<u8>) -> Result<(), NoMemory>
    requires { length text.now < 2 ^ 32 }
    ensures ok { OnOk result (out.new.items ≡ out.old.items ++ server_cut_text_bytes text.now) }
    ensures err { OnErr result (out.new.items ≡ out.old.items) }
{
    write_text(HostMessageType::ServerCutText as u8, text, out)
}

// Appends a cut text of either side: its type, padding, the text's length, and the text.
fn write_text(kind: u8, text: &[u8], out: &mut Vec<u8>) -> Result<(), NoMemory>
    requires { length text.now < 2 ^ 32 }
    ensures ok { OnOk result (out.new.items ≡ out.old.items ++ text_bytes kind text.now) }
    ensures err { OnErr result (out.new.items ≡ out.old.items) }
{
    let start = out.len();
    let [first, second, third, fourth] = four_bytes(text.len() as u32);
    out.extend_from_slice(&[kind, 0, 0, 0, first, second, third, fourth])?;
    let appended = out.extend_from_slice(text);
    whole_or_none(appended, start, out)
}

/// Appends a KeyEvent (RFC 6143, section 7.5.4): the key of this keysym was pressed, or released.
pub fn write_key_event(down: bool, key: u32, out: &mut Vec<u8>) -> Result<(), NoMemory>
    ensures ok { OnOk result (out.new.items ≡ out.old.items ++ key_event_bytes down key) }
    ensures err { OnErr result (out.new.items ≡ out.old.items) }
{
    let [first, second, third, fourth] = four_bytes(key);
    let kind = ClientMessageType::KeyEvent as u8;
    out.extend_from_slice(&[kind, down as u8, 0, 0, first, second, third, fourth])
}

/// Appends a PointerEvent (RFC 6143, section 7.5.5): the buttons that are pressed, as bits, and the
/// pixel that the pointer is at.
pub fn write_pointer_event(mask: u8, x: u16, y: u16, out: &mut Vec<u8>) -> Result<(), NoMemory>
    ensures ok { OnOk result (out.new.items ≡ out.old.items ++ pointer_event_bytes mask x y) }
    ensures err { OnErr result (out.new.items ≡ out.old.items) }
{
    let [x_high, x_low] = two_bytes(x);
    let [y_high, y_low] = two_bytes(y);
    let kind = ClientMessageType::PointerEvent as u8;
    out.extend_from_slice(&[kind, mask, x_high, x_low, y_high, y_low])
}

/// Appends a ClientCutText (RFC 6143, section 7.5.6), with a text of at most 4,294,967,295 bytes.
pub fn write_client_cut_text(text: &[u8], out: &mut Vec<u8>) -> Result<(), NoMemory>
    requires { length text.now < 2 ^ 32 }
    ensures ok { OnOk result (out.new.items ≡ out.old.items ++ client_cut_text_bytes text.now) }
    ensures err { OnErr result (out.new.items ≡ out.old.items) }
{
    write_text(ClientMessageType::ClientCutText as u8, text, out)
}

/// A colour map that is written is read over. (A law: it does nothing.)
pub fn written_color_map_is_read()
    ensures { (limit width height first : ℕ) → (colors : List ColorValue) → length colors < 2 ^ 16
        → message_at limit width height (color_map_bytes first colors) ≡ Got ReadOver [] }
{}

/// A bell that is written is read as a recorded message. (A law: it does nothing.)
pub fn written_bell_is_read()
    ensures { (limit width height : ℕ)
        → message_at limit width height bell_bytes ≡ Got (Recorded []) [] }
{}

/// A cut text that is written is read: as a recorded message up to 65,536 bytes, and over if it is
/// longer. (A law: it does nothing.)
pub fn written_text_is_read()
    ensures short { (limit width height : ℕ) → (text : List ℕ) → length text ≤ text_limit
        → message_at limit width height (server_cut_text_bytes text) ≡ Got (Recorded []) [] }
    ensures long { (limit width height : ℕ) → (text : List ℕ) → text_limit < length text
        → length text < 2 ^ 32
        → message_at limit width height (server_cut_text_bytes text) ≡ Got ReadOver [] }
{}

/// Input messages that are written are read. (A law: it does nothing.)
pub fn written_input_is_read()
    ensures key { (down : Bool) → (key : ℕ)
        → viewers.message_at (key_event_bytes down key) ≡ Got (messages.Input types.KeyEvent) [] }
    ensures pointer { (mask x y : ℕ)
        → viewers.message_at (pointer_event_bytes mask x y) ≡ Got (messages.Input types.PointerEvent) [] }
    ensures text { (text : List ℕ)
        → viewers.message_at (client_cut_text_bytes text) ≡ Got (messages.Input types.ClientCutText) [] }
{}
