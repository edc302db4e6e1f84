//! What the fields of a viewer's messages say.

ghost use Rattle.std.specs.Prelude.{◌≡◌, ℕ, List, length, drop, slice_index, IfOk, MatchResult};
ghost use Rattle.terms.specs.Reading.{Got, Bad};
ghost use Rattle.pixel_format.specs.Written.{format_at, is_flag};
ghost use Rattle.terms.specs.Area.{area_at};
ghost use Rattle.client_wire.specs.Grammar.{judged, numbers_of};

use crate::message::{ClientMessage, Encodings};
use pixel_format::PixelFormat;
use std::alloc::Global;
use terms::{Area, NoMemory, WireFault, read_u32};

/// The message of the field after the type of a SetPixelFormat (RFC 6143, section 7.5.1).
pub fn pixel_format_in(field: &[u8]) -> Result<ClientMessage, WireFault>
    requires { length field.now ≡ 19 }
    ensures { MatchResult result
        (λ m. (more : List ℕ) → judged (format_at (drop 3 field.now)) more ≡ Got m more)
        (λ f. (more : List ℕ) → judged (format_at (drop 3 field.now)) more ≡ Bad f) }
{
    let Some(bytes) = field[3..].first_chunk::<16>() else {
        unreachable!();
    };
    match PixelFormat::read(bytes) {
        Ok(format) => Ok(ClientMessage::SetPixelFormat(format)),
        Err(fault) => Err(WireFault::BadFormat(fault)),
    }
}

/// The numbers of the encodings of a SetEncodings (RFC 6143, section 7.5.2).
pub fn encodings_in(alloc: Global, field: &[u8]) -> Result<Encodings, NoMemory>
    ensures { IfOk result (λ e. e ≡ numbers_of field.now) }
{
    let mut numbers = Vec::new(alloc);
    let mut rest = field;
    while let [_, _, _, _, following @ ..] = rest {
        numbers.push(read_u32(rest, 0).cast_signed())?;
        rest = following;
    }
    Ok(Encodings::from_vec(numbers))
}

/// The message of the field after the type of a FramebufferUpdateRequest (RFC 6143, section 7.5.3).
pub fn request_in(field: &[u8]) -> ClientMessage
    requires { length field.now ≡ 9 }
    ensures { result ≡ ClientMessage.Request (is_flag (slice_index field.now 0))
        (area_at field.now 1) }
{
    ClientMessage::Request {
        incremental: field[0] != 0,
        area: Area::read(field, 1),
    }
}
