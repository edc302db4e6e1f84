//! A host's stream, and single messages of one.

use crate::account::Account;
use crate::readings::{Message, Reader, is_alike};
use rfb_wire::{Front, HostMessage, Rectangle, ServerReader, read_message};
use std::alloc::Global;
use terms::{Area, NoMemory, RecordedScreen, WireFault};

// The values that replace a byte.
const VALUES: [u8; 5] = [0, 1, 5, 0x80, 0xff];

/// What reads a host's stream, for a screen.
#[derive(Drop)]
pub(crate) struct HostReader {
    screen: RecordedScreen,
    reader: ServerReader,
}

impl HostReader {
    /// Before any byte.
    pub(crate) fn new(alloc: Global, screen: RecordedScreen) -> HostReader {
        HostReader {
            screen,
            reader: ServerReader::in_format(alloc, screen),
        }
    }
}

impl Reader<HostMessage> for HostReader {
    fn begin(&mut self, alloc: Global) {
        self.reader = ServerReader::in_format(alloc, self.screen);
    }

    fn take(&mut self, piece: &[u8], messages: &mut Vec<HostMessage>) -> Result<(), WireFault> {
        self.reader.feed(piece, messages)
    }

    fn take_first(
        &self,
        alloc: Global,
        bytes: &[u8],
        messages: &mut Vec<HostMessage>,
    ) -> Result<usize, WireFault> {
        match read_message(alloc, self.screen, bytes)? {
            Some(Front::Recorded(message)) => {
                let read = message.bytes().len();
                messages.push(message)?;
                Ok(read)
            }
            Some(Front::ReadOver(read)) => Ok(read),
            None => Ok(0),
        }
    }
}

impl Message for HostMessage {
    fn is_same(&self, other: &HostMessage) -> bool {
        self.same(other) && self.rectangles() == other.rectangles()
    }

    fn describe(&self, account: &mut Account, read: &[u8]) -> Result<(), NoMemory> {
        account.add(kind_of(self.bytes()))?;
        account.add_number(self.bytes().len())?;
        if !read.ends_with(self.bytes()) {
            account.add(" of other bytes")?;
        }
        for rectangle in self.rectangles() {
            describe_rectangle(account, rectangle)?;
        }
        Ok(())
    }
}

// What kind of message begins with these bytes.
fn kind_of(bytes: &[u8]) -> &'static str {
    match bytes.first() {
        Some(0) => "update of",
        Some(2) => "bell of",
        Some(3) => "text of",
        _ => "another of",
    }
}

// Adds a rectangle: its area, its encoding's number, and the offsets at which its data begin and
// end.
fn describe_rectangle(account: &mut Account, rectangle: &Rectangle) -> Result<(), NoMemory> {
    let Area { x, y, w, h } = rectangle.area;
    account.add(",")?;
    account.add_numbers(&[x, y, w, h])?;
    account.add(" in")?;
    account.add_number(rectangle.encoding.number())?;
    account.add(" at")?;
    account.add_number(rectangle.start)?;
    account.add(" to")?;
    account.add_number(rectangle.end)
}

// Tells how many streams give the same however they are cut in two, of those in which the byte at
// each offset is another, with five values in turn.
fn tell_changed(
    account: &mut Account,
    reader: &mut HostReader,
    bytes: &[u8],
    stream: &mut [u8],
) -> Result<(), NoMemory> {
    let mut alike = 0usize;
    for (pixel, byte) in bytes.iter().enumerate() {
        for value in &VALUES {
            if let Some(changed) = stream.get_mut(pixel) {
                *changed = *value;
            }
            if !is_alike(account.alloc, reader, stream)? {
                return account.tell_number_at(pixel, "is otherwise with", *value);
            }
            alike = alike.saturating_add(1);
        }
        if let Some(changed) = stream.get_mut(pixel) {
            *changed = *byte;
        }
    }
    account.tell_at(alike, "alike")
}

/// Tells what comes of a host's stream of which one byte is another, each in turn, and each with
/// five values: how many streams give the same however they are cut in two, up to one that doesn't.
pub(crate) fn run_changed(
    account: &mut Account,
    screen: RecordedScreen,
    bytes: &[u8],
) -> Result<(), NoMemory> {
    let mut stream = bytes.to_vec(account.alloc)?;
    let mut reader = HostReader::new(account.alloc, screen);
    tell_changed(account, &mut reader, bytes, &mut stream)
}

/// Tells what all of the bytes are as one message, or the number of the refusal.
pub(crate) fn run_message(
    account: &mut Account,
    screen: RecordedScreen,
    bytes: &[u8],
) -> Result<(), NoMemory> {
    match HostMessage::from_bytes_in(account.alloc, screen, bytes) {
        Ok(message) => message.describe(account, bytes),
        Err(fault) => {
            account.tell("refused")?;
            account.add_number(fault.number())
        }
    }
}
