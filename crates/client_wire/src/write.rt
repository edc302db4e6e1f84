//! Writers of a viewer's messages, and of the head of a host's update. Each appends all of it, or
//! leaves the vector as it was if memory runs out.

ghost use Rattle.std.specs.Prelude.{◌≡◌, ◌<◌, ◌^◌, ℕ, ℤ, List, [], ◌++◌, Bool, take, length, OnOk, OnErr};
ghost use Rattle.std.specs.List.{AllByRecursion};
ghost use Rattle.pixel_format.specs.Format.{Format, IsValid};
ghost use Rattle.terms.specs.Reading.{Got};
ghost use Rattle.terms.specs.declared.area.Area.{Area};
ghost use Rattle.client_wire.specs.declared.message.ClientMessage.TheVariants as messages;
ghost use Rattle.terms.specs.Number.{FitsFourBytes};
ghost use Rattle.client_wire.specs.Grammar.{message_at};
ghost use Rattle.client_wire.specs.Written.{set_pixel_format_bytes, set_encodings_bytes, request_bytes, one_rectangle_head};

use crate::message_type::ClientMessageType;
use pixel_format::PixelFormat;
use terms::{Area, NoMemory, four_bytes, two_bytes, whole_or_none};

/// Appends a SetPixelFormat message (RFC 6143, section 7.5.1).
pub fn write_set_pixel_format(format: &PixelFormat, out: &mut Vec<u8>) -> Result<(), NoMemory>
    ensures ok { OnOk result (out.new.items
        ≡ out.old.items ++ set_pixel_format_bytes format.now) }
    ensures err { OnErr result (out.new.items ≡ out.old.items) }
{
    let start = out.len();
    out.extend_from_slice(&[ClientMessageType::SetPixelFormat as u8, 0, 0, 0])?;
    let appended = out.extend_from_slice(&format.write());
    whole_or_none(appended, start, out)
}

/// Appends a SetEncodings message (RFC 6143, section 7.5.2), with the numbers of at most 65,535
/// encodings.
pub fn write_set_encodings(encodings: &[i32], out: &mut Vec<u8>) -> Result<(), NoMemory>
    requires { length encodings.now < 2 ^ 16 }
    ensures ok { OnOk result (out.new.items
        ≡ out.old.items ++ set_encodings_bytes encodings.now) }
    ensures err { OnErr result (out.new.items ≡ out.old.items) }
{
    let start = out.len();
    let appended = append_encodings(encodings, out);
    whole_or_none(appended, start, out)
}

// Appends the same, or a part of it.
fn append_encodings(encodings: &[i32], out: &mut Vec<u8>) -> Result<(), NoMemory>
    requires { length encodings.now < 2 ^ 16 }
    ensures ok { OnOk result (out.new.items
        ≡ out.old.items ++ set_encodings_bytes encodings.now) }
    ensures part { take (length out.old.items) out.new.items ≡ out.old.items }
{
    let [count, count_low] = two_bytes(encodings.len() as u16);
    out.extend_from_slice(&[ClientMessageType::SetEncodings as u8, 0, count, count_low])?;
    for number in encodings {
        out.extend_from_slice(&four_bytes(number.cast_unsigned()))?;
    }
    Ok(())
}

/// Appends a FramebufferUpdateRequest for an area (RFC 6143, section 7.5.3). An incremental one
/// asks only for what has changed.
pub fn write_request(incremental: bool, area: Area, out: &mut Vec<u8>) -> Result<(), NoMemory>
    ensures ok { OnOk result (out.new.items ≡ out.old.items ++ request_bytes incremental area) }
    ensures err { OnErr result (out.new.items ≡ out.old.items) }
{
    let [x, x_low, y, y_low, w, w_low, h, h_low] = area.bytes();
    let kind = ClientMessageType::FramebufferUpdateRequest as u8;
    out.extend_from_slice(&[
        kind,
        incremental as u8,
        x,
        x_low,
        y,
        y_low,
        w,
        w_low,
        h,
        h_low,
    ])
}

/// Appends what stands before the data of a host's update of one rectangle: type 0, padding, one
/// rectangle, its area, and the number of its encoding (RFC 6143, section 7.6.1).
pub fn write_update_head(area: Area, encoding: u32, out: &mut Vec<u8>) -> Result<(), NoMemory>
    ensures ok { OnOk result (out.new.items ≡ out.old.items ++ one_rectangle_head area encoding) }
    ensures err { OnErr result (out.new.items ≡ out.old.items) }
{
    let [x, x_low, y, y_low, w, w_low, h, h_low] = area.bytes();
    let [first, second, third, fourth] = four_bytes(encoding);
    out.extend_from_slice(&[
        0, 0, 0, 1, x, x_low, y, y_low, w, w_low, h, h_low, first, second, third, fourth,
    ])
}

/// A SetPixelFormat that is written is read. (A law: it does nothing.)
pub fn written_format_is_read()
    ensures { (f : Format) → IsValid f
        → message_at (set_pixel_format_bytes f) ≡ Got (messages.SetPixelFormat f) [] }
{}

/// A SetEncodings that is written is read. (A law: it does nothing.)
pub fn written_encodings_are_read()
    ensures { (numbers : List ℤ) → AllByRecursion FitsFourBytes numbers
        → message_at (set_encodings_bytes numbers) ≡ Got (messages.SetEncodings numbers) [] }
{}

/// A FramebufferUpdateRequest that is written is read. (A law: it does nothing.)
pub fn written_request_is_read()
    ensures { (incremental : Bool) → (a : Area) → message_at (request_bytes incremental a)
        ≡ Got (messages.Request incremental a) [] }
{}
