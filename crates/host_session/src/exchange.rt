//! A host's stream, heard in pieces and answered.

ghost use Rattle.std.specs.Prelude.{◌≡◌, ℕ, List, ◌++◌, [], None, IfOk, IfErr, OnOk, Option};
ghost use Rattle.rfb_wire.specs.Host.{Host};
ghost use Rattle.host_session.specs.declared.expected.ExpectedScreen.{ExpectedScreen};

use crate::expected::ExpectedScreen;
use crate::fault::HostFault;
use crate::handshake::Handshake;
use crate::listening::listen;
use crate::request::write_first_requests;
use rfb_wire::{HostMessage, ServerReader};
use std::alloc::Global;
use terms::RecordedScreen;

/// How far a session is in the stream: in the handshake, or after it.
#[derive(Drop)]
pub struct Exchange {
    pub handshake: Handshake,
    pub reader: Option<ServerReader>,
}

impl Exchange {
    ghost use Rattle.host_session.specs.Exchange.{IsGoingAt, StandsAt, AdvancesTo, HaltsAt};
    ghost use Rattle.host_session.specs.TakeHandshake.{IsHandshakeTaken, IsHandshakeRefused};

    /// The start of a stream.
    pub fn new(alloc: Global) -> Exchange
        ensures going { IsGoingAt result }
        ensures stands { (expected : ExpectedScreen) → StandsAt expected result [] [] [] }
    {
        Exchange {
            handshake: Handshake::new(alloc),
            reader: None,
        }
    }

    // Takes a piece in the handshake. If that is whole now, answers how many bytes of the piece it
    // took.
    fn take_handshake(
        &mut self,
        alloc: Global,
        expected: ExpectedScreen,
        piece: &[u8],
        due: &mut Vec<u8>,
    ) -> Result<Option<usize>, HostFault>
        requires handshake { self.old.reader ≡ None }
        requires going { IsGoingAt self.old }
        ensures taken { IfOk result (λ o. IsHandshakeTaken expected self.old self.new piece.now
            due.old.items due.new.items o) }
        ensures faults { IfErr result (λ f. IsHandshakeRefused expected self.old self.new piece.now
            due.old.items due.new.items f) }
    {
        let Some(whole) = self.handshake.take(expected, piece, due)? else {
            return Ok(None);
        };
        write_first_requests(whole.size, due)?;
        let screen = RecordedScreen {
            format: expected.format,
            size: whole.size,
        };
        self.reader = Some(ServerReader::in_format(alloc, screen));
        Ok(Some(whole.taken))
    }

    /// Takes a piece of the stream, gives each message that is whole now, and appends what is due
    /// to the host.
    pub fn feed(
        &mut self,
        alloc: Global,
        expected: ExpectedScreen,
        piece: &[u8],
        due: &mut Vec<u8>,
        out: &mut Vec<HostMessage>,
    ) -> Result<(), HostFault>
        requires going { IsGoingAt self.old }
        ensures going { OnOk result (IsGoingAt self.new) }
        ensures goes { OnOk result ((stream sent : List ℕ) → (messages : List Host)
            → StandsAt expected self.old stream messages (sent ++ due.old.items)
            → AdvancesTo expected self.new (stream ++ piece.now) messages
            (sent ++ due.new.items) out.old.items out.new.items) }
        ensures faults { IfErr result (λ f. (stream sent : List ℕ) → (messages : List Host)
            → StandsAt expected self.old stream messages (sent ++ due.old.items)
            → HaltsAt expected self.new (stream ++ piece.now) messages
            (sent ++ due.new.items) f out.old.items out.new.items) }
    {
        if let Some(mut reader) = self.reader.take() {
            let heard = listen(&mut reader, piece, due, out);
            self.reader = Some(reader);
            return heard;
        }
        let Some(taken) = self.take_handshake(alloc, expected, piece, due)? else {
            return Ok(());
        };
        let Some(mut reader) = self.reader.take() else {
            return Ok(());
        };
        let heard = listen(&mut reader, &piece[taken..], due, out);
        self.reader = Some(reader);
        heard
    }
}
