//! A viewer's stream.

use crate::account::Account;
use crate::readings::{Message, Reader};
use client_wire::{ClientMessage, ClientReader, read_client_message};
use std::alloc::Global;
use terms::{Area, NoMemory, WireFault};

impl Reader<ClientMessage> for ClientReader {
    fn begin(&mut self, alloc: Global) {
        *self = ClientReader::new(alloc);
    }

    fn take(&mut self, piece: &[u8], messages: &mut Vec<ClientMessage>) -> Result<(), WireFault> {
        self.feed(piece, messages)
    }

    fn take_first(
        &self,
        alloc: Global,
        bytes: &[u8],
        messages: &mut Vec<ClientMessage>,
    ) -> Result<usize, WireFault> {
        match read_client_message(alloc, bytes)? {
            Some((message, following)) => {
                messages.push(message)?;
                Ok(bytes.len().saturating_sub(following.len()))
            }
            None => Ok(0),
        }
    }
}

// A request: whether it is incremental, and its area.
fn request_of(message: &ClientMessage) -> Option<(bool, Area)> {
    match message {
        ClientMessage::Request { incremental, area } => Some((*incremental, *area)),
        _ => None,
    }
}

impl Message for ClientMessage {
    fn is_same(&self, other: &ClientMessage) -> bool {
        match (self, other) {
            (ClientMessage::SetPixelFormat(format), ClientMessage::SetPixelFormat(again)) => {
                format.write() == again.write()
            }
            (ClientMessage::SetEncodings(numbers), ClientMessage::SetEncodings(again)) => {
                numbers.as_slice() == again.as_slice()
            }
            (ClientMessage::Input(kind), ClientMessage::Input(again)) => kind == again,
            _ => request_of(self).is_some() && request_of(self) == request_of(other),
        }
    }

    fn describe(&self, account: &mut Account, _read: &[u8]) -> Result<(), NoMemory> {
        match self {
            ClientMessage::SetPixelFormat(format) => {
                account.add("format")?;
                account.add_bytes(&format.write())
            }
            ClientMessage::SetEncodings(encodings) => {
                account.add("encodings")?;
                account.add_numbers(encodings.as_slice())
            }
            ClientMessage::Input(kind) => {
                account.add("input")?;
                account.add_number(*kind as u8)
            }
            ClientMessage::Request { incremental, area } => {
                describe_request(account, *incremental, *area)
            }
        }
    }
}

fn describe_request(account: &mut Account, incremental: bool, area: Area) -> Result<(), NoMemory> {
    account.add(if incremental { "changes" } else { "request" })?;
    account.add_numbers(&[area.x, area.y, area.w, area.h])
}
