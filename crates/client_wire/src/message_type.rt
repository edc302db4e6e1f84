//! The types of a viewer's messages.

ghost use Rattle.std.specs.Prelude.{◌≡◌};
ghost use Rattle.client_wire.specs.MessageType.{type_of};

/// The type of a viewer's message, which begins with the type's number (RFC 6143, section 7.5).
#[derive(Clone, Copy, PartialEq, Eq)]
pub enum ClientMessageType {
    /// Section 7.5.1.
    SetPixelFormat = 0,
    /// Section 7.5.2.
    SetEncodings = 2,
    /// Section 7.5.3.
    FramebufferUpdateRequest = 3,
    /// Section 7.5.4.
    KeyEvent = 4,
    /// Section 7.5.5.
    PointerEvent = 5,
    /// Section 7.5.6.
    ClientCutText = 6,
}

impl ClientMessageType {
    /// The type that has this number; none if it isn't one of the six.
    pub fn from_number(number: u8) -> Option<ClientMessageType>
        ensures { result ≡ type_of number }
    {
        match number {
            0 => Some(ClientMessageType::SetPixelFormat),
            2 => Some(ClientMessageType::SetEncodings),
            3 => Some(ClientMessageType::FramebufferUpdateRequest),
            4 => Some(ClientMessageType::KeyEvent),
            5 => Some(ClientMessageType::PointerEvent),
            6 => Some(ClientMessageType::ClientCutText),
            _ => None,
        }
    }
}
