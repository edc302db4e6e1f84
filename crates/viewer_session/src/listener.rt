//! A viewer's stream, heard in pieces.

ghost use Rattle.std.specs.Prelude.{◌≡◌, List, ℕ, [], ◌++◌, None, OnOk, IfErr};
ghost use Rattle.client_wire.specs.declared.message.ClientMessage.{ClientMessage as Message};
ghost use Rattle.viewer_session.specs.Listener.{IsGoing, GoesIn, StopsIn};

use crate::fault::SessionFault;
use crate::greeting::Greeting;
use client_wire::{ClientMessage, ClientReader};
use std::alloc::Global;

/// How far a session is in the stream: in the handshake, or after it.
#[derive(Drop)]
pub struct Listener {
    pub greeting: Greeting,
    pub reader: Option<ClientReader>,
}

// Takes a piece of the messages after the handshake.
fn listen(
    reader: &mut ClientReader,
    piece: &[u8],
    out: &mut Vec<ClientMessage>,
) -> Result<(), SessionFault>
    requires going { reader.old.fault ≡ None }
    requires empty { out.old.items ≡ [] }
    ensures going { OnOk result (reader.new.fault ≡ None) }
    ensures goes { OnOk result (GoesIn reader.old reader.new piece.now out.new.items) }
    ensures faults { IfErr result (StopsIn reader.old piece.now out.new.items) }
{
    if let Err(fault) = reader.feed(piece, out) {
        return Err(SessionFault::Wire(fault));
    }
    Ok(())
}

impl Listener {
    ghost use Rattle.viewer_session.specs.Greeting.{IsSoundGreeting};
    ghost use Rattle.viewer_session.specs.Listener.{StandsAt, EndsAt, TellsTheSame};

    /// Takes a piece of the stream, and gives each message that is whole now. A fault is answered
    /// at the last byte of the field that holds it.
    pub fn feed(
        &mut self,
        alloc: Global,
        piece: &[u8],
        out: &mut Vec<ClientMessage>,
    ) -> Result<(), SessionFault>
        requires sound { IsSoundGreeting self.old.greeting }
        requires going { IsGoing self.old.reader }
        requires empty { out.old.items ≡ [] }
        ensures sound { IsSoundGreeting self.new.greeting }
        ensures told { TellsTheSame self.old.greeting self.new.greeting }
        ensures going { OnOk result (IsGoing self.new.reader) }
        ensures goes { OnOk result ((stream told : List ℕ) → (messages : List Message)
            → StandsAt self.old stream messages told
            → StandsAt self.new (stream ++ piece.now) (messages ++ out.new.items) told) }
        ensures faults { IfErr result (λ f. (stream told : List ℕ) → (messages : List Message)
            → StandsAt self.old stream messages told
            → EndsAt self.new (stream ++ piece.now) (messages ++ out.new.items) told f) }
    {
        if let Some(mut reader) = self.reader.take() {
            let heard = listen(&mut reader, piece, out);
            self.reader = Some(reader);
            return heard;
        }
        let Some(taken) = self.greeting.hear(piece)? else {
            return Ok(());
        };
        let mut reader = ClientReader::new(alloc);
        let heard = listen(&mut reader, &piece[taken..], out);
        self.reader = Some(reader);
        heard
    }
}
