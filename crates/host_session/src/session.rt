//! The session with a host.

ghost use Rattle.std.specs.Prelude.{◌≡◌, ℕ, List, ◌++◌, [], IfErr, OnOk, OnErr, None, Some, Ok, Err};
ghost use Rattle.rfb_wire.specs.Host.{Host};
ghost use Rattle.host_session.specs.declared.fault.HostFault.{HostFault};
ghost use Rattle.host_session.specs.Fault.{UnlessMemory};
ghost use Rattle.host_session.specs.Conversation.{Unfinished};
ghost use Rattle.host_session.specs.Session.{IsAfter, Fed, Stopped, expected_of, told_by, size_of, name_of, reason_in, unfinished_in};

use crate::exchange::Exchange;
use crate::expected::ExpectedScreen;
use crate::fault::HostFault;
use rfb_wire::HostMessage;
use std::alloc::Global;
use std::marker::Model;
use terms::{Format, NoMemory, ScreenSize, WireFault};

// Makes due what was said in a piece, of which this came; nothing of it if memory ran out.
fn make_due(heard: Result<(), HostFault>, said: &[u8], due: &mut Vec<u8>) -> Result<(), HostFault>
    ensures ok { OnOk result ((heard ≡ Ok tt) × (due.new.items ≡ due.old.items ++ said.now)) }
    ensures err { IfErr result (λ f. UnlessMemory f
        ((heard ≡ Err f) × (due.new.items ≡ due.old.items ++ said.now))) }
    ensures memory { result ≡ Err (HostFault.Wire WireFault.NoMemory)
        → due.new.items ≡ due.old.items }
{
    if let Err(HostFault::Wire(WireFault::NoMemory)) = heard {
        return heard;
    }
    due.extend_from_slice(said)?;
    heard
}

/// The recorder's side of a connection to a VNC host (RFC 6143, sections 7.1 to 7.6), without a
/// socket. It is fed the host's bytes in pieces of any length, gives the recorded messages, and
/// puts out the bytes that are due to the host: its part of the handshake, and then a request for
/// each update. Each byte is looked at once, and memory is taken for bytes that have come alone: of
/// messages that is the reader's promise, of the handshake it stands in no contract.
#[derive(Drop)]
pub struct HostSession {
    alloc: Global,
    expected: ExpectedScreen,
    exchange: Exchange,
    due: Vec<u8>,
    fault: Option<HostFault>,
}

impl Model for HostSession {
    ghost use Rattle.host_session.specs.Session.{Session, IsSound};

    ghost Value = { Session };

    ghost view = { λ s. record {
      format = s.expected.format;
      expected = s.expected.size;
      position = s.exchange.handshake.position;
      kept = s.exchange.handshake.kept.items;
      reader = s.exchange.reader;
      due = s.due.items;
      fault = s.fault;
    } };

    ghost invariant = { λ s. IsSound s.fault s.exchange.reader
        s.exchange.handshake.position s.exchange.handshake.kept.items };
}

impl HostSession {
    /// A session at the start of a host's stream, for a recording of format 1. If a size is
    /// expected, in pixels, a host of another size is refused.
    pub fn new(alloc: Global, expected: Option<ScreenSize>) -> HostSession
        ensures after { IsAfter result [] [] [] }
        ensures due { result.due ≡ [] }
        ensures format { result.format ≡ Format.One }
        ensures expected { result.expected ≡ expected }
        ensures going { result.fault ≡ None }
    {
        HostSession::in_format(alloc, Format::One, expected)
    }

    /// The same, for a recording of any format. A host is refused if its size is outside the limits
    /// of that format, or an update has more bytes than they allow.
    pub fn in_format(alloc: Global, format: Format, expected: Option<ScreenSize>) -> HostSession
        ensures after { IsAfter result [] [] [] }
        ensures due { result.due ≡ [] }
        ensures format { result.format ≡ format }
        ensures expected { result.expected ≡ expected }
        ensures going { result.fault ≡ None }
    {
        HostSession {
            alloc,
            expected: ExpectedScreen {
                format,
                size: expected,
            },
            exchange: Exchange::new(alloc),
            due: Vec::new(alloc),
            fault: None,
        }
    }

    /// Takes the next piece of the host's stream, and appends each recorded message that is whole
    /// now. A fault is answered at the last byte of the field that holds it, once the messages
    /// before it are appended and are answered; from then on each call answers the same fault and
    /// does nothing else, also if memory ran out.
    pub fn feed(&mut self, piece: &[u8], out: &mut Vec<HostMessage>) -> Result<(), HostFault>
        // Whatever stream the session has got, it has got the piece too, and goes on: the messages
        // of all that stream are given, and what is due to it is due.
        ensures goes { OnOk result ((stream sent : List ℕ) → (messages : List Host)
            → IsAfter self.old stream messages sent
            → Fed self.new (stream ++ piece.now) messages sent out.old.items out.new.items) }
        // A fault stands in the stream, and the messages before it are given and answered.
        ensures faults { IfErr result (λ f. self.old.fault ≡ None
            → (stream sent : List ℕ) → (messages : List Host)
            → IsAfter self.old stream messages sent
            → Stopped self.new (stream ++ piece.now) messages sent f out.old.items out.new.items) }
        // If memory ran out, just what was due before is due.
        ensures memory { result ≡ Err (HostFault.Wire WireFault.NoMemory)
            → self.new.due ≡ self.old.due }
        ensures going { OnOk result (self.new.fault ≡ None) }
        ensures stopped { IfErr result (λ f. self.new.fault ≡ Some f) }
        ensures for_good { (f : HostFault) → self.old.fault ≡ Some f
            → (result ≡ Err f) × (self.new ≡ self.old) × (out.new.items ≡ out.old.items) }
        ensures format { self.new.format ≡ self.old.format }
        ensures expected { self.new.expected ≡ self.old.expected }
    {
        if let Some(fault) = self.fault {
            return Err(fault);
        }
        let mut said = Vec::new(self.alloc);
        let heard = self
            .exchange
            .feed(self.alloc, self.expected, piece, &mut said, out);
        if let Err(fault) = make_due(heard, &said, &mut self.due) {
            self.fault = Some(fault);
            return Err(fault);
        }
        Ok(())
    }

    /// Appends the bytes that are due to the host, each once. Running out of memory changes
    /// nothing. After a fault it still gives what was due.
    pub fn out(&mut self, out: &mut Vec<u8>) -> Result<(), NoMemory>
        ensures ok { OnOk result ((out.new.items ≡ out.old.items ++ self.old.due)
            × (self.new ≡ record self.old { due = [] })) }
        ensures err { OnErr result ((out.new.items ≡ out.old.items) × (self.new ≡ self.old)) }
        ensures after { OnOk result ((stream sent : List ℕ) → (messages : List Host)
            → IsAfter self.old stream messages sent
            → IsAfter self.new stream messages (sent ++ self.old.due)) }
    {
        out.extend_from_slice(&self.due)?;
        self.due.clear();
        Ok(())
    }

    /// The size of the host's screen, once its ServerInit is whole.
    pub fn size(&self) -> Option<ScreenSize>
        ensures { result ≡ size_of (told_by self.now.reader self.now.kept) }
    {
        let reader = self.exchange.reader.as_ref()?;
        Some(reader.size())
    }

    /// The host's name, once its ServerInit is whole; of a longer one the first 1,024 bytes. Before
    /// that it is empty.
    pub fn name(&self) -> &[u8]
        ensures value { result.now ≡ name_of (told_by self.now.reader self.now.kept) }
    {
        match &self.exchange.reader {
            Some(_) => &self.exchange.handshake.kept,
            None => &[],
        }
    }

    /// How many bytes have come of a message that isn't whole yet; in the handshake there are none.
    pub fn unfinished(&self) -> u64
        ensures count { result ≡ unfinished_in self.now.reader }
        // They are the bytes of the stream that are in no message.
        ensures left { (stream sent : List ℕ) → (messages : List Host)
            → IsAfter self.now stream messages sent
            → Unfinished (expected_of self.now) stream (told_by self.now.reader self.now.kept) messages result }
    {
        match &self.exchange.reader {
            Some(reader) => reader.unfinished(),
            None => 0,
        }
    }

    /// The reason that the host gave for its refusal, once `feed` has answered `Failed`; of a
    /// longer one the first 1,024 bytes. Else it is empty.
    pub fn reason(&self) -> &[u8]
        ensures value { result.now ≡ reason_in self.now.fault self.now.kept }
    {
        match self.fault {
            Some(HostFault::Failed) => &self.exchange.handshake.kept,
            _ => &[],
        }
    }
}
