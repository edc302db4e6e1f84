//! Messages of a viewer.

ghost use Rattle.std.specs.Prelude.{◌≡◌};

use crate::message_type::ClientMessageType;
use pixel_format::PixelFormat;
use std::marker::Model;
use terms::Area;

/// Numbers of encodings, in a viewer's order of preference (RFC 6143, section 7.5.2).
#[derive(Drop)]
pub struct Encodings {
    numbers: Vec<i32>,
}

impl Model for Encodings {
    ghost use Rattle.std.specs.Prelude.{List, ℤ};

    ghost Value = { List ℤ };

    ghost view = { λ e. e.numbers.items };
}

impl Encodings {
    /// These numbers, in their order.
    pub fn from_vec(numbers: Vec<i32>) -> Encodings
        ensures { result ≡ numbers.items }
    {
        Self { numbers }
    }

    /// The numbers, in their order.
    pub fn as_slice(&self) -> &[i32]
        ensures value { result.now ≡ self.now }
    {
        &self.numbers
    }
}

/// A message of a viewer (RFC 6143, section 7.5).
#[derive(Drop)]
pub enum ClientMessage {
    /// The format of the pixels that the viewer wants from now on (section 7.5.1).
    SetPixelFormat(PixelFormat),
    /// The encodings that the viewer takes (section 7.5.2).
    SetEncodings(Encodings),
    /// A request for an update of an area; an incremental one asks only for what has changed
    /// (section 7.5.3).
    Request { incremental: bool, area: Area },
    /// A KeyEvent, a PointerEvent or a ClientCutText, of which the type alone is kept (sections
    /// 7.5.4 to 7.5.6).
    Input(ClientMessageType),
}
