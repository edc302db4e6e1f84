//! Recorded messages of a host.

ghost use Rattle.std.specs.Prelude.{◌≡◌, ◌↔◌, ◌≤◌, All, IsTrue, IfOk, length};

use crate::fault::BytesFault;
use crate::message_type::HostMessageType;
use crate::reader::ServerReader;
use rect_data::Encoding;
use std::alloc::Global;
use std::marker::Model;
use std::sync::Arc;
use terms::{Area, Format, NoMemory, RecordedScreen, ScreenSize, WireFault};

/// A rectangle of an update: its area of the screen, and the offsets in the message's bytes at
/// which its data begin and end.
#[derive(Clone, Copy, Debug, PartialEq, Eq)]
pub struct Rectangle {
    pub area: Area,
    pub encoding: Encoding,
    pub start: usize,
    pub end: usize,
}

// What a message and its copies own in common. It never changes.
#[derive(Drop)]
struct Content {
    bytes: Vec<u8>,
    rectangles: Vec<Rectangle>,
}

/// One recorded message of a host, valid in the host format for a screen of its size: its bytes as
/// they came and, for an update, the offsets of its rectangles in them. Its copies share them.
#[derive(Drop)]
pub struct HostMessage {
    screen: RecordedScreen,
    content: Arc<Content>,
}

impl Model for HostMessage {
    ghost use Rattle.std.specs.Arc.{arc_value};
    ghost use Rattle.rfb_wire.specs.Host.{Host, IsRecorded};

    ghost Value = { Host };

    ghost view = { λ m. record {
      bytes = (arc_value m.content).bytes.items;
      rectangles = (arc_value m.content).rectangles.items;
      format = m.screen.format;
      width = m.screen.size.width;
      height = m.screen.size.height;
    } };

    ghost invariant = { λ m. IsRecorded (record {
      format = m.screen.format;
      width = m.screen.size.width;
      height = m.screen.size.height;
      bytes = (arc_value m.content).bytes.items;
      rectangles = (arc_value m.content).rectangles.items;
    }) };
}

impl HostMessage {
    ghost use Rattle.terms.specs.Limits.{limits, AreLimits};
    ghost use Rattle.rfb_wire.specs.Grammar.{message_limit};
    ghost use Rattle.rfb_wire.specs.Host.{host_of, is_update, IsRecorded, IsPlaced};
    ghost use Rattle.rfb_wire.specs.Message.{IsUpdate};
    ghost use Rattle.rfb_wire.specs.Whole.{IsReadBack};

    // The message whose parts these are. It takes memory for the count of its owners.
    pub(crate) fn from_parts(
        alloc: Global,
        screen: RecordedScreen,
        bytes: Vec<u8>,
        rectangles: Vec<Rectangle>,
    ) -> Result<HostMessage, NoMemory>
        requires { IsRecorded (host_of screen.format screen.size.width screen.size.height bytes.items rectangles.items) }
        ensures { IfOk result (λ m. m ≡ host_of screen.format screen.size.width screen.size.height bytes.items rectangles.items) }
    {
        let content = Arc::new(alloc, Content { bytes, rectangles })?;
        Ok(HostMessage { screen, content })
    }

    /// The message that is all of the bytes, for a screen of this size that is recorded in
    /// format 1. If they aren't exactly one recorded message, the fault is that of a reader which
    /// is fed them, else `NotOne`.
    pub fn from_bytes(
        alloc: Global,
        size: ScreenSize,
        bytes: &[u8],
    ) -> Result<HostMessage, BytesFault>
        ensures { IsReadBack Format.One size.width size.height bytes.now result }
    {
        let screen = RecordedScreen {
            format: Format::One,
            size,
        };
        HostMessage::from_bytes_in(alloc, screen, bytes)
    }

    /// The same, for a screen that is recorded in any format.
    pub fn from_bytes_in(
        alloc: Global,
        screen: RecordedScreen,
        bytes: &[u8],
    ) -> Result<HostMessage, BytesFault>
        ensures { IsReadBack screen.format screen.size.width screen.size.height bytes.now result }
    {
        let mut reader = ServerReader::in_format(alloc, screen);
        let mut messages = Vec::new(alloc);
        if reader.reserve(bytes.len()).is_err() {
            return Err(BytesFault::Wire(WireFault::NoMemory));
        }
        if let Err(fault) = reader.feed(bytes, &mut messages) {
            return Err(BytesFault::Wire(fault));
        }
        let Some(message) = messages.pop() else {
            return Err(BytesFault::NotOne);
        };
        if message.bytes().len() != bytes.len() {
            return Err(BytesFault::NotOne);
        }
        Ok(message)
    }

    /// The message's bytes as they came.
    pub fn bytes(&self) -> &[u8]
        ensures value { result.now ≡ self.now.bytes }
    {
        &self.content.bytes
    }

    /// The size of the screen that the message is for.
    pub fn size(&self) -> ScreenSize
        ensures { result ≡ record { width = self.now.width; height = self.now.height } }
    {
        self.screen.size
    }

    /// The format of the recording that the message is for.
    pub fn format(&self) -> Format
        ensures { result ≡ self.now.format }
    {
        self.screen.format
    }

    /// Whether the message is a FramebufferUpdate (RFC 6143, section 7.6.1).
    pub fn is_update(&self) -> bool
        ensures value { result ≡ is_update self.now.bytes }
        ensures update { IsTrue result
            ↔ IsUpdate self.now.width self.now.height self.now.bytes self.now.rectangles }
    {
        match self.content.bytes.as_slice() {
            [kind, ..] => *kind == HostMessageType::FramebufferUpdate as u8,
            [] => false,
        }
    }

    /// Whether the other message is the same: its bytes are the same, for a screen of the same size
    /// that is recorded in the same format.
    pub fn same(&self, other: &HostMessage) -> bool
        ensures equal { IsTrue result ↔ (self.now ≡ other.now) }
        // Format, size and bytes determine a message.
        ensures parts { IsTrue result ↔ ((self.now.format ≡ other.now.format) × (self.now.width ≡ other.now.width)
            × (self.now.height ≡ other.now.height) × (self.now.bytes ≡ other.now.bytes)) }
    {
        self.screen == other.screen && self.content.bytes == other.content.bytes
    }

    /// Does nothing: its contract is what the type keeps.
    pub fn known(&self)
        ensures recorded { IsRecorded self.now }
        ensures short { length self.now.bytes ≤ message_limit self.now.format }
        ensures bounds { AreLimits (limits self.now.format) }
    {
        let _ = &self.screen;
    }

    /// The rectangles of an update, in their order; none of another message. Each lies within the
    /// screen.
    pub fn rectangles(&self) -> &[Rectangle]
        ensures value { result.now ≡ self.now.rectangles }
        ensures recorded { IsRecorded self.now }
        ensures placed { All (IsPlaced self.now) self.now.rectangles }
    {
        &self.content.rectangles
    }

    /// The same message again, which shares the bytes and rectangles of this one. It takes no
    /// memory, and is refused only if their owners can't be counted any more.
    pub fn copy(&self, _alloc: Global) -> Result<HostMessage, NoMemory>
        ensures { IfOk result (λ m. m ≡ self.now) }
    {
        let content = Arc::try_clone(&self.content)?;
        Ok(HostMessage {
            screen: self.screen,
            content,
        })
    }
}
