//! What readers of either side make of bytes while memory lasts.

use client_wire::{ClientMessage, ClientReader};
use host_session::{HostFault, HostSession};
use rfb_wire::{HostMessage, ServerReader};
use std::alloc::Global;
use terms::WireFault;

/// What is fed, and gives messages. `take` promises nothing, so that a test isn't proved beside all
/// that the reader does.
pub(crate) trait Reader<M, F> {
    fn take(&mut self, piece: &[u8], messages: &mut Vec<M>) -> Result<(), F>;
}

impl Reader<ClientMessage, WireFault> for ClientReader {
    fn take(&mut self, piece: &[u8], messages: &mut Vec<ClientMessage>) -> Result<(), WireFault> {
        self.feed(piece, messages)
    }
}

impl Reader<HostMessage, WireFault> for ServerReader {
    fn take(&mut self, piece: &[u8], messages: &mut Vec<HostMessage>) -> Result<(), WireFault> {
        self.feed(piece, messages)
    }
}

impl Reader<HostMessage, HostFault> for HostSession {
    fn take(&mut self, piece: &[u8], messages: &mut Vec<HostMessage>) -> Result<(), HostFault> {
        self.feed(piece, messages)
    }
}

/// What has a number that tells the messages of a test apart.
pub(crate) trait Marked {
    fn mark(&self) -> usize;
}

impl Marked for ClientMessage {
    // Its type.
    fn mark(&self) -> usize {
        match self {
            ClientMessage::SetPixelFormat(_) => 0,
            ClientMessage::SetEncodings(_) => 2,
            ClientMessage::Request { .. } => 3,
            ClientMessage::Input(kind) => *kind as usize,
        }
    }
}

impl Marked for HostMessage {
    // Its length.
    fn mark(&self) -> usize {
        self.bytes().len()
    }
}

fn have_marks<M: Marked>(messages: &[M], marks: &[usize]) -> bool {
    messages
        .iter()
        .zip(marks)
        .all(|(message, mark)| message.mark() == *mark)
}

/// Whether a reader gives the messages with these marks, of bytes that come one by one; or, if
/// memory runs out, the first of them, and that fault at each call from then on.
pub(crate) fn gives<M: Marked + Drop, R: Reader<M, WireFault>>(
    alloc: Global,
    reader: &mut R,
    bytes: &[u8],
    marks: &[usize],
) -> bool {
    let mut messages = Vec::new(alloc);
    let mut stopped = None;
    for piece in bytes.chunks(1) {
        let before = messages.len();
        let fault = reader.take(piece, &mut messages).err();
        let is_memory = fault.is_none() || fault == Some(WireFault::NoMemory);
        let goes_on = stopped.is_some() && (fault != stopped || messages.len() != before);
        if !is_memory || goes_on {
            return false;
        }
        stopped = fault;
    }
    let is_right = messages.len() <= marks.len() && have_marks(&messages, marks);
    is_right && (stopped.is_some() || messages.len() == marks.len())
}
