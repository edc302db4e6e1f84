//! What readers of either side make of bytes in pieces.

ghost use Rattle.std.specs.Prelude.{◌<◌};

use crate::account::Account;
use std::alloc::Global;
use terms::{NoMemory, WireFault};

/// What reads the stream of either side. It promises nothing, so that nothing is proved beside all
/// that a reader does.
pub(crate) trait Reader<M> {
    /// Begins a new stream.
    fn begin(&mut self, alloc: Global);

    /// Reads the next piece of the stream.
    fn take(&mut self, piece: &[u8], messages: &mut Vec<M>) -> Result<(), WireFault>;

    /// Reads the first message by the plain function: how many bytes it has, 0 if there are too
    /// few.
    fn take_first(
        &self,
        alloc: Global,
        bytes: &[u8],
        messages: &mut Vec<M>,
    ) -> Result<usize, WireFault>;
}

/// A message of either side.
pub(crate) trait Message {
    fn is_same(&self, other: &Self) -> bool;

    /// Adds what it says. `read` are the bytes up to its last one.
    fn describe(&self, account: &mut Account, read: &[u8]) -> Result<(), NoMemory>;
}

/// What a reader gave, and how many bytes had come by then.
#[derive(Drop)]
pub(crate) struct Given<M> {
    messages: Vec<M>,
    ends: Vec<usize>,
    fault: Option<WireFault>,
    fault_end: usize,
    // Whether anything but the same fault came after the fault.
    went_on: bool,
}

impl<M: Message + Drop> Given<M> {
    // What is given before any byte.
    fn new(alloc: Global) -> Given<M> {
        Given {
            messages: Vec::new(alloc),
            ends: Vec::new(alloc),
            fault: None,
            fault_end: 0,
            went_on: false,
        }
    }

    // Notes the fault that is answered once so many bytes have come, if it is one.
    fn stop(&mut self, fault: Option<WireFault>, end: usize) {
        if self.fault.is_some() {
            self.went_on |= fault != self.fault;
        } else if fault.is_some() {
            self.fault = fault;
            self.fault_end = end;
        }
    }

    // Feeds a piece to a reader, and notes what comes of it.
    fn take<R: Reader<M>>(
        &mut self,
        reader: &mut R,
        piece: &[u8],
        end: usize,
    ) -> Result<(), NoMemory> {
        let fault = reader.take(piece, &mut self.messages).err();
        for _ in self.ends.len()..self.messages.len() {
            self.went_on |= self.fault.is_some();
            self.ends.push(end)?;
        }
        self.stop(fault, end);
        Ok(())
    }

    // Reads bytes, up to a cut in pieces of this length, and what is after it as one piece.
    fn read<R: Reader<M>>(
        &mut self,
        reader: &mut R,
        bytes: &[u8],
        cut: usize,
        length: usize,
    ) -> Result<(), NoMemory>
        requires { 0 < length }
    {
        let (front, following) = bytes.split_at_checked(cut).unwrap_or((bytes, &[]));
        let mut end = 0usize;
        for piece in front.chunks(length) {
            end = end.saturating_add(piece.len());
            self.take(reader, piece, end)?;
        }
        self.take(reader, following, bytes.len())
    }

    // Reads bytes by the plain function, message by message.
    fn read_plainly<R: Reader<M>>(&mut self, alloc: Global, reader: &R, bytes: &[u8]) {
        let mut rest = bytes;
        for _ in 0..bytes.len() {
            match reader.take_first(alloc, rest, &mut self.messages) {
                Ok(0) => return,
                Ok(read) => rest = rest.get(read..).unwrap_or_default(),
                Err(fault) => return self.stop(Some(fault), 0),
            }
        }
    }

    // Whether the same messages and the same fault were given, wherever the pieces ended.
    fn is_same(&self, other: &Given<M>) -> bool {
        if self.messages.len() != other.messages.len() {
            return false;
        }
        for (message, again) in self.messages.iter().zip(&other.messages) {
            if !message.is_same(again) {
                return false;
            }
        }
        self.fault == other.fault && !self.went_on && !other.went_on
    }

    // Tells what was given of the bytes, and at which of them.
    fn tell(&self, account: &mut Account, bytes: &[u8]) -> Result<(), NoMemory> {
        for (message, end) in self.messages.iter().zip(&self.ends) {
            account.tell_at(*end, "")?;
            message.describe(account, bytes.get(..*end).unwrap_or(bytes))?;
        }
        if let Some(fault) = &self.fault {
            account.tell_number_at(self.fault_end, "fault", fault.number())?;
            add_cause(account, fault)?;
        }
        if self.went_on {
            account.tell("and it goes on")?;
        }
        Ok(())
    }
}

// Adds which encoding, or what of a format, is refused.
fn add_cause(account: &mut Account, fault: &WireFault) -> Result<(), NoMemory> {
    match fault {
        WireFault::Encoding(encoding) => account.add_number(*encoding),
        WireFault::BadFormat(format) => account.add_number(format.number()),
        _ => Ok(()),
    }
}

// Whether bytes that are read in pieces of this length up to a cut give the same.
fn is_cut_alike<M: Message + Drop, R: Reader<M>>(
    alloc: Global,
    reader: &mut R,
    bytes: &[u8],
    given: &Given<M>,
    cut: usize,
    length: usize,
) -> Result<bool, NoMemory>
    requires { 0 < length }
{
    let mut again = Given::new(alloc);
    reader.begin(alloc);
    match again.read(reader, bytes, cut, length) {
        Ok(()) => Ok(given.is_same(&again)),
        Err(fault) => Err(fault),
    }
}

// Whether bytes that are read by the plain function give the same.
fn is_plainly_alike<M: Message + Drop, R: Reader<M>>(
    alloc: Global,
    reader: &R,
    bytes: &[u8],
    given: &Given<M>,
) -> bool {
    let mut again = Given::new(alloc);
    again.read_plainly(alloc, reader, bytes);
    given.is_same(&again)
}

// Tells what is given, and what is otherwise if the bytes come in longer pieces, of up to 100 bytes
// when they aren't very many, or are read by the plain function. The last byte comes alone.
fn tell_all<M: Message + Drop, R: Reader<M>>(
    account: &mut Account,
    reader: &mut R,
    bytes: &[u8],
    given: &mut Given<M>,
) -> Result<(), NoMemory> {
    let front = bytes.len().saturating_sub(1);
    let finest = finest(bytes);
    given.read(reader, bytes, front, finest)?;
    given.tell(account, bytes)?;
    let longest = if finest > 1 { 0 } else { bytes.len().min(100) };
    for length in 1..=longest {
        if !is_cut_alike(account.alloc, reader, bytes, given, front, length)? {
            account.tell("otherwise in pieces of")?;
            return account.add_number(length);
        }
    }
    if !is_plainly_alike(account.alloc, reader, bytes, given) {
        return account.tell("otherwise by the plain function");
    }
    Ok(())
}

/// Tells what comes of a stream: each message and the fault, after the number of bytes that had
/// come by then.
pub(crate) fn run<M: Message + Drop, R: Reader<M> + Drop>(
    account: &mut Account,
    mut reader: R,
    bytes: &[u8],
) -> Result<(), NoMemory> {
    let mut given = Given::new(account.alloc);
    tell_all(account, &mut reader, bytes, &mut given)
}

/// Whether a stream gives the same however it is cut in two.
pub(crate) fn is_alike<M: Message + Drop, R: Reader<M>>(
    alloc: Global,
    reader: &mut R,
    bytes: &[u8],
) -> Result<bool, NoMemory> {
    let mut given = Given::new(alloc);
    reader.begin(alloc);
    given.read(reader, bytes, bytes.len(), 1)?;
    for cut in 0..bytes.len() {
        if !is_cut_alike(alloc, reader, bytes, &given, cut, cut.max(1))? {
            return Ok(false);
        }
    }
    Ok(true)
}

// The length of the pieces by whose ends it is told when a message came: one byte, but for bytes
// that are very many.
fn finest(bytes: &[u8]) -> usize
    ensures { 0 < result }
{
    if bytes.len() > 100_000 { 65_536 } else { 1 }
}
