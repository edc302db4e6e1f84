//! The reader of a viewer's stream.

ghost use Rattle.std.specs.Prelude.{◌≡◌, ℕ, List, [], ◌+◌, ◌++◌, ◌<◌, ◌≤◌, length, max, Option, Some, None, Ok, Err, OnOk, IfErr, OnErr};
ghost use Rattle.terms.specs.declared.wire_fault.WireFault.{WireFault};
ghost use Rattle.terms.specs.Appending.{room_for};
ghost use Rattle.client_wire.specs.Grammar.{message_at};
ghost use Rattle.client_wire.specs.Reader.{kept_limit, IsHeadAlone};
ghost use Rattle.client_wire.specs.Stream.{Goes, Stops, FaultOf, StandsFor, Grows, itself};

use crate::message::ClientMessage;
use crate::partial_message::PartialMessage;
use std::alloc::Global;
use std::marker::Model;
use terms::WireFault;

/// Reads a viewer's messages from its stream, which comes in pieces of any length (RFC 6143,
/// section 7.5). Each byte is looked at once, and memory is taken for bytes that have come alone;
/// the bytes of an input message are counted and not kept.
#[derive(Drop)]
pub struct ClientReader {
    partial: PartialMessage,
    fault: Option<WireFault>,
    alloc: Global,
}

impl Model for ClientReader {
    ghost use Rattle.std.specs.Prelude.{vec_capacity};
    ghost use Rattle.client_wire.specs.Reader.{Reader};
    ghost use Rattle.client_wire.specs.PartialMessage.{IsAt, passed_in};

    ghost Value = { Reader };

    ghost view = { λ r. record {
      kept = r.partial.bytes.items;
      passed = passed_in r.partial.position;
      room = vec_capacity r.partial.bytes;
      fault = r.fault;
    } };

    ghost invariant = { λ r. IsAt r.partial };
}

impl ClientReader {
    /// A reader at the start of a stream.
    pub fn new(alloc: Global) -> ClientReader
        ensures { result ≡ record { kept = []; passed = 0; room = 0; fault = None } }
    {
        ClientReader {
            alloc,
            partial: PartialMessage::new(alloc),
            fault: None,
        }
    }

    /// Takes the next piece of the stream, and appends each message that is whole now. A fault is
    /// answered at the last byte of the field that holds it, once the messages before it are
    /// appended; from then on each call answers the same fault and does nothing else, also if
    /// memory ran out.
    pub fn feed(&mut self, piece: &[u8], out: &mut Vec<ClientMessage>) -> Result<(), WireFault>
        // The messages that are whole are given, and the reader stands for the rest.
        ensures goes { OnOk result ((rest : List ℕ) → StandsFor self.old.kept self.old.passed rest
            → Goes message_at itself self.new.kept self.new.passed
            out.old.items out.new.items (rest ++ piece.now)) }
        // It does not wait at a fault.
        ensures none { OnOk result ((rest : List ℕ) → (f : WireFault)
            → StandsFor self.old.kept self.old.passed rest
            → FaultOf message_at (rest ++ piece.now) f → ⊥) }
        // A fault stands in the stream, and the messages before it are given.
        ensures faults { IfErr result (λ f. self.old.fault ≡ None → (rest : List ℕ)
            → StandsFor self.old.kept self.old.passed rest
            → Stops message_at itself f out.old.items out.new.items (rest ++ piece.now)) }
        // What was given before stays in front.
        ensures grows { Grows out.old.items out.new.items }
        ensures going { OnOk result (self.new.fault ≡ None) }
        ensures stopped { IfErr result (λ f. self.new.fault ≡ Some f) }
        ensures for_good { (f : WireFault) → self.old.fault ≡ Some f
            → (result ≡ Err f) × (self.new ≡ self.old) × (out.new.items ≡ out.old.items) }
        ensures emptied { OnErr result (self.old.fault ≡ None
            → (self.new.kept ≡ []) × (self.new.passed ≡ 0)) }
        // Few bytes are kept, whatever comes, and of an input message its head alone.
        ensures short { length self.new.kept < kept_limit }
        ensures head { IsHeadAlone self.new.kept }
        // Room is taken for bytes that have come.
        ensures room { self.new.room
            ≤ max self.old.room (room_for (length self.old.kept + length piece.now)) }
    {
        if let Some(fault) = self.fault {
            return Err(fault);
        }
        let read = self.partial.read(self.alloc, piece, out);
        if let Err(fault) = read {
            self.fault = Some(fault);
            self.partial = PartialMessage::new(self.alloc);
            return Err(fault);
        }
        Ok(())
    }
}
