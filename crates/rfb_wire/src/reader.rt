//! The reader of a host's stream.

ghost use Rattle.std.specs.Prelude.{◌≡◌, ◌+◌, ◌≤◌, ℕ, List, [], ◌++◌, length, max, Option, Some, None, Ok, Err, OnOk, IfErr, OnErr};
ghost use Rattle.terms.specs.Appending.{room_for};
ghost use Rattle.rfb_wire.specs.Reader.{IsShort, at_start};
ghost use Rattle.terms.specs.declared.wire_fault.WireFault.{WireFault};
ghost use Rattle.client_wire.specs.Stream.{StandsFor, Goes, Stops, FaultOf, Grows};
ghost use Rattle.rfb_wire.specs.Grammar.{message_at, message_limit};
ghost use Rattle.rfb_wire.specs.Stream.{given};

use crate::message::HostMessage;
use crate::partial_message::{PartialMessage, message_limit};
use std::alloc::Global;
use std::marker::Model;
use terms::{Format, NoMemory, RecordedScreen, ScreenSize, WireFault};

/// Reads a host's messages from its stream, which comes in pieces of any length (RFC 6143, section
/// 7.6), for a screen of one size. Each byte is looked at once, and memory is taken for bytes that
/// have come alone.
#[derive(Drop)]
pub struct ServerReader {
    screen: RecordedScreen,
    alloc: Global,
    partial: PartialMessage,
    fault: Option<WireFault>,
}

impl Model for ServerReader {
    ghost use Rattle.rfb_wire.specs.Grammar.{message_limit};
    ghost use Rattle.std.specs.Prelude.{vec_capacity};
    ghost use Rattle.rfb_wire.specs.Reader.{Reader};
    ghost use Rattle.rfb_wire.specs.PartialMessage.{IsAt, passed_in};

    ghost Value = { Reader };

    ghost view = { λ r. record {
      format = r.screen.format;
      width = r.screen.size.width;
      height = r.screen.size.height;
      kept = r.partial.bytes.items;
      passed = passed_in r.partial.over;
      room = vec_capacity r.partial.bytes;
      capacities = vec_capacity r.partial.rectangles;
      fault = r.fault;
    } };

    ghost invariant = { λ r. IsAt (message_limit r.screen.format) r.screen.size.width r.screen.size.height r.partial };
}

impl ServerReader {
    /// A reader at the start of a stream, for a screen of this size that is recorded in format 1.
    pub fn new(alloc: Global, size: ScreenSize) -> ServerReader
        ensures { result ≡ at_start Format.One size.width size.height }
    {
        let screen = RecordedScreen {
            format: Format::One,
            size,
        };
        ServerReader::in_format(alloc, screen)
    }

    /// The same, for a screen that is recorded in any format.
    pub fn in_format(alloc: Global, screen: RecordedScreen) -> ServerReader
        ensures { result ≡ at_start screen.format screen.size.width screen.size.height }
    {
        ServerReader {
            screen,
            alloc,
            partial: PartialMessage::new(alloc),
            fault: None,
        }
    }

    /// The size of the screen.
    pub fn size(&self) -> ScreenSize
        ensures { result ≡ record { width = self.now.width; height = self.now.height } }
    {
        self.screen.size
    }

    // Takes room for so many bytes of the message that comes, or as many as a message may have.
    pub(crate) fn reserve(&mut self, room: usize) -> Result<(), NoMemory>
        ensures { self.new ≡ record self.old { room = self.new.room } }
    {
        self.partial
            .bytes
            .reserve_exact(room.min(message_limit(self.screen.format)))?;
        Ok(())
    }

    /// How many bytes have come of the message that isn't whole yet.
    pub fn unfinished(&self) -> u64
        ensures { result ≡ length self.now.kept + self.now.passed }
    {
        let passed = match self.partial.over {
            Some(over) => over.passed,
            None => 0,
        };
        self.partial.bytes.len() as u64 + passed
    }

    /// Takes the next piece of the stream, and appends each message that is whole now. A fault is
    /// answered at the last byte of the field that holds it, once the messages before it are
    /// appended; from then on each call answers the same fault and does nothing else, also if
    /// memory ran out.
    pub fn feed(&mut self, piece: &[u8], out: &mut Vec<HostMessage>) -> Result<(), WireFault>
        // The messages that are whole are given, and the reader stands for the rest.
        ensures goes { OnOk result ((rest : List ℕ) → StandsFor self.old.kept self.old.passed rest
            → Goes (message_at (message_limit self.old.format) self.old.width self.old.height) (given self.old.format self.old.width self.old.height) self.new.kept self.new.passed
            out.old.items out.new.items (rest ++ piece.now)) }
        // It does not wait at a fault.
        ensures none { OnOk result ((rest : List ℕ) → (f : WireFault)
            → StandsFor self.old.kept self.old.passed rest
            → FaultOf (message_at (message_limit self.old.format) self.old.width self.old.height) (rest ++ piece.now) f → ⊥) }
        // A fault stands in the stream, and the messages before it are given.
        ensures faults { IfErr result (λ f. self.old.fault ≡ None → (rest : List ℕ)
            → StandsFor self.old.kept self.old.passed rest
            → Stops (message_at (message_limit self.old.format) self.old.width self.old.height) (given self.old.format self.old.width self.old.height) f
            out.old.items out.new.items (rest ++ piece.now)) }
        // What was given before stays in front.
        ensures grows { Grows out.old.items out.new.items }
        ensures going { OnOk result (self.new.fault ≡ None) }
        ensures stopped { IfErr result (λ f. self.new.fault ≡ Some f) }
        ensures for_good { (f : WireFault) → self.old.fault ≡ Some f
            → (result ≡ Err f) × (self.new ≡ self.old) × (out.new.items ≡ out.old.items) }
        ensures emptied { OnErr result (self.old.fault ≡ None → self.new.kept ≡ []) }
        // What is read over is counted and not kept.
        ensures short { IsShort (message_limit self.new.format) self.new.width self.new.height self.new.kept }
        // Room is taken for bytes that have come, and for rectangles in them.
        ensures room { let most = room_for (length self.old.kept + length piece.now)
            in (self.new.room ≤ max self.old.room most) × (self.new.capacities ≤ max self.old.capacities most) }
        ensures screen { (self.new.format ≡ self.old.format) × (self.new.width ≡ self.old.width) × (self.new.height ≡ self.old.height) }
    {
        if let Some(fault) = self.fault {
            return Err(fault);
        }
        let read = self.partial.read(self.alloc, self.screen, piece, out);
        if let Err(fault) = read {
            self.fault = Some(fault);
            self.partial = PartialMessage::new(self.alloc);
            return Err(fault);
        }
        Ok(())
    }
}
