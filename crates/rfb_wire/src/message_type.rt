//! The types of a host's messages.

ghost use Rattle.std.specs.Prelude.{◌≡◌};
ghost use Rattle.rfb_wire.specs.MessageType.{type_of};

/// The type of a host's message, which begins with the type's number (RFC 6143, section 7.6).
#[derive(Clone, Copy, PartialEq, Eq)]
pub enum HostMessageType {
    /// Section 7.6.1.
    FramebufferUpdate = 0,
    /// Section 7.6.2.
    SetColorMapEntries = 1,
    /// Section 7.6.3.
    Bell = 2,
    /// Section 7.6.4.
    ServerCutText = 3,
}

impl HostMessageType {
    /// The type that has this number; none if it isn't one of the four.
    pub fn from_number(number: u8) -> Option<HostMessageType>
        ensures { result ≡ type_of number }
    {
        match number {
            0 => Some(HostMessageType::FramebufferUpdate),
            1 => Some(HostMessageType::SetColorMapEntries),
            2 => Some(HostMessageType::Bell),
            3 => Some(HostMessageType::ServerCutText),
            _ => None,
        }
    }
}
