//! A conversation with a host.

use crate::account::Account;
use crate::readings::Message;
use host_session::{HostFault, HostSession};
use rfb_wire::HostMessage;
use std::alloc::Global;
use terms::{Format, NoMemory, ScreenSize};

// The host that a session waits for: for a recording of which format, and of which size, if one is
// expected.
#[derive(Clone, Copy)]
struct Awaited {
    format: Format,
    size: Option<ScreenSize>,
}

// A session, and what came of what it was fed. Its calls promise nothing here.
#[derive(Drop)]
struct Talk {
    session: HostSession,
    messages: Vec<HostMessage>,
    said: Vec<u8>,
    fault: Option<HostFault>,
    // Whether anything but the same fault came after the fault.
    went_on: bool,
}

impl Talk {
    fn new(alloc: Global, awaited: Awaited) -> Talk {
        Talk {
            session: HostSession::in_format(alloc, awaited.format, awaited.size),
            messages: Vec::new(alloc),
            said: Vec::new(alloc),
            fault: None,
            went_on: false,
        }
    }

    // Feeds a piece, and puts out what is due.
    fn feed(&mut self, piece: &[u8]) -> Result<(), NoMemory> {
        let (count, length) = (self.messages.len(), self.said.len());
        let fault = self.session.feed(piece, &mut self.messages).err();
        self.session.out(&mut self.said)?;
        if self.fault.is_some() {
            let is_more = self.messages.len() > count || self.said.len() > length;
            self.went_on |= is_more || fault != self.fault;
        }
        self.fault = fault;
        Ok(())
    }

    fn is_same(&self, other: &Talk) -> bool {
        let is_known = self.session.size() == other.session.size()
            && self.session.name() == other.session.name()
            && self.session.reason() == other.session.reason();
        if !is_known || self.messages.len() != other.messages.len() {
            return false;
        }
        for (message, again) in self.messages.iter().zip(&other.messages) {
            if !message.is_same(again) {
                return false;
            }
        }
        self.said == other.said && self.fault == other.fault && !other.went_on
    }

    // Tells what the session knows in the end.
    fn tell(&self, account: &mut Account) -> Result<(), NoMemory> {
        if let Some(size) = self.session.size() {
            account.tell("size")?;
            account.add_number(size.width)?;
            account.add_number(size.height)?;
            account.tell("name")?;
            account.add_bytes(self.session.name())?;
        }
        if !self.session.reason().is_empty() {
            account.tell("reason")?;
            account.add_bytes(self.session.reason())?;
        }
        if self.went_on {
            account.tell("and it goes on")?;
        }
        Ok(())
    }

    // Whether what is fed in two pieces comes to the same.
    fn comes_to(&mut self, talk: &Talk, pieces: (&[u8], &[u8])) -> Result<bool, NoMemory> {
        self.feed(pieces.0)?;
        self.feed(pieces.1)?;
        Ok(talk.is_same(self))
    }

    // Feeds one more byte, the one of this number, and tells what it brought.
    fn tell_byte(
        &mut self,
        account: &mut Account,
        number: usize,
        byte: u8,
    ) -> Result<(), NoMemory> {
        let (count, length, fault) = (self.messages.len(), self.said.len(), self.fault);
        self.feed(&[byte])?;
        let said = self.said.get(length..).unwrap_or_default();
        if !said.is_empty() {
            account.tell_at(number, "says")?;
            account.add_bytes(said)?;
        }
        if self.messages.len() > count {
            account.tell_at(number, "message")?;
        }
        match self.fault {
            Some(new) if fault.is_none() => {
                account.tell_number_at(number, "fault", new.number())
            }
            _ => Ok(()),
        }
    }
}

// Whether what a new session is fed in two pieces comes to the same.
fn is_cut_alike(
    alloc: Global,
    awaited: Awaited,
    pieces: (&[u8], &[u8]),
    talk: &Talk,
) -> Result<bool, NoMemory> {
    let mut again = Talk::new(alloc, awaited);
    again.comes_to(talk, pieces)
}

// Tells what comes of the bytes, and what is otherwise if they are cut in two.
fn tell_all(
    account: &mut Account,
    awaited: Awaited,
    bytes: &[u8],
    talk: &mut Talk,
) -> Result<(), NoMemory> {
    for (number, byte) in (1usize..).zip(bytes) {
        talk.tell_byte(account, number, *byte)?;
    }
    talk.tell(account)?;
    for cut in 0..=bytes.len().min(100) {
        if !is_cut_alike(account.alloc, awaited, bytes.split_at(cut), talk)? {
            return account.tell_at(cut, "bytes after which it may not be cut");
        }
    }
    Ok(())
}

/// Tells what comes of what a host sends for a recording of this format, and of this size if one is
/// expected: what is said to it, its messages and the fault, after the number of bytes that had
/// come by then; and in the end the screen's size and name, or the reason.
pub(crate) fn run(
    account: &mut Account,
    format: Format,
    size: Option<ScreenSize>,
    bytes: &[u8],
) -> Result<(), NoMemory> {
    let awaited = Awaited { format, size };
    let mut talk = Talk::new(account.alloc, awaited);
    tell_all(account, awaited, bytes, &mut talk)
}
