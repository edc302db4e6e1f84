//! How far a reader is in a message.

ghost use Rattle.std.specs.Prelude.{◌≡◌, ℕ, ◌<◌, ◌≤◌, ◌^◌, ◌+◌, ◌++◌, [], ◌∷◌, List, length, take, IfOk, OnOk, IfErr, OnErr, Ok, Err, vec_capacity};
ghost use Rattle.terms.specs.Reading.{Bad};
ghost use Rattle.terms.specs.Fault.{UnlessMemory};
ghost use Rattle.client_wire.specs.Grammar.{message_at};
ghost use Rattle.client_wire.specs.Stream.{Moves, Stops, StandsFor, itself};

use crate::message::ClientMessage;
use crate::message_type::ClientMessageType;
use crate::step::step;
use std::alloc::Global;
use terms::{WireFault, append_come};

/// The field of a message that comes next.
#[derive(Clone, Copy)]
pub enum Stage {
    /// The message's type.
    Type,
    /// After the type of a SetPixelFormat: padding, and the format.
    PixelFormat,
    /// After the type of a SetEncodings: padding, and the number of encodings.
    EncodingsHead,
    /// The numbers of so many encodings.
    Encodings { count: u16 },
    /// After the type of a FramebufferUpdateRequest: the flag and the area.
    Request,
    /// After the type of a ClientCutText: padding, and the text's length.
    TextHead,
}

/// An input message of this type: how many bytes after those that are kept have passed, and how
/// many are left.
#[derive(Clone, Copy)]
pub struct Over {
    pub kind: ClientMessageType,
    pub passed: u32,
    pub left: u32,
}

/// What comes next in a message.
#[derive(Clone, Copy)]
pub enum Position {
    /// This field, of which some bytes may have come.
    Field(Stage),
    /// Bytes that are read over, up to the message's end.
    ReadOver(Over),
}

/// What follows from a whole field.
#[derive(Drop)]
pub enum AfterField {
    /// The message goes on.
    Goes(Position),
    /// The message is whole.
    Whole(ClientMessage),
}

/// An unfinished message: its bytes so far, but for those that are read over, and what comes next.
#[derive(Drop)]
pub struct PartialMessage {
    pub bytes: Vec<u8>,
    pub position: Position,
}

impl Stage {
    ghost use Rattle.client_wire.specs.PartialMessage.{wants_of, start_of};

    /// How many bytes the field has.
    pub fn wants(self) -> usize
        ensures bound { result < 2 ^ 18 }
        ensures value { result ≡ wants_of self }
    {
        match self {
            Stage::Type => 1,
            Stage::PixelFormat => 19,
            Stage::EncodingsHead => 3,
            Stage::Encodings { count } => 4 * count as usize,
            Stage::Request => 9,
            Stage::TextHead => 7,
        }
    }

    /// The offset in the message at which the field begins.
    pub fn start(self) -> usize
        ensures value { result ≡ start_of self }
        ensures bound { result ≤ 4 }
    {
        match self {
            Stage::Type => 0,
            Stage::Encodings { .. } => 4,
            _ => 1,
        }
    }
}

impl Over {
    /// So many bytes, of which none has passed.
    pub fn new(kind: ClientMessageType, left: u32) -> Over
        ensures { result ≡ record { kind = kind; passed = 0; left = left } }
    {
        Over {
            kind,
            passed: 0,
            left,
        }
    }
}

impl PartialMessage {
    ghost use Rattle.client_wire.specs.PartialMessage.{wants_of, start_of, passed_in, IsLinked, IsInField, IsOver, IsAt, TakesFor};

    /// A reader at the start of a message.
    pub fn new(alloc: Global) -> PartialMessage
        ensures at { IsAt result }
        ensures none { result.bytes.items ≡ [] }
        ensures passed { passed_in result.position ≡ 0 }
        ensures room { vec_capacity result.bytes ≡ 0 }
    {
        PartialMessage {
            bytes: Vec::new(alloc),
            position: Position::Field(Stage::Type),
        }
    }

    // Gives a message, which is whole, and begins again.
    fn give(
        &mut self,
        message: ClientMessage,
        out: &mut Vec<ClientMessage>,
    ) -> Result<(), WireFault>
        ensures at { OnOk result (IsAt self.new) }
        ensures none { OnOk result (self.new.bytes.items ≡ []) }
        ensures passed { OnOk result (passed_in self.new.position ≡ 0) }
        ensures room { OnOk result (vec_capacity self.new.bytes ≡ vec_capacity self.old.bytes) }
        ensures ok { OnOk result (out.new.items ≡ out.old.items ++ message ∷ []) }
        ensures err { OnErr result (out.new.items ≡ out.old.items) }
        ensures only { IfErr result (λ f. f ≡ WireFault.NoMemory) }
    {
        out.push(message)?;
        self.bytes.clear();
        self.position = Position::Field(Stage::Type);
        Ok(())
    }

    // The field is whole: goes on after it, or gives the message.
    fn advance(
        &mut self,
        alloc: Global,
        stage: Stage,
        out: &mut Vec<ClientMessage>,
    ) -> Result<(), WireFault>
        requires linked { IsLinked self.old.bytes.items stage }
        requires whole { length self.old.bytes.items ≡ start_of stage + wants_of stage }
        ensures at { OnOk result (IsAt self.new) }
        ensures moves { OnOk result (Moves message_at itself self.new.bytes.items
            (passed_in self.new.position) out.old.items out.new.items self.old.bytes.items) }
        ensures takes { OnOk result (TakesFor 0 self.old self.new) }
        ensures faults { IfErr result (λ f. UnlessMemory f
            ((more : List ℕ) → message_at (self.old.bytes.items ++ more) ≡ Bad f)) }
        ensures err { OnErr result (out.new.items ≡ out.old.items) }
    {
        let field = &self.bytes[stage.start()..];
        match step(alloc, stage, field)? {
            AfterField::Goes(position) => self.position = position,
            AfterField::Whole(message) => self.give(message, out)?,
        }
        Ok(())
    }

    // Reads over bytes of a piece that has so many, and answers how many. The message is given once
    // all have passed.
    fn pass(
        &mut self,
        over: Over,
        available: usize,
        out: &mut Vec<ClientMessage>,
    ) -> Result<usize, WireFault>
        requires over { IsOver self.old.bytes.items over }
        requires some { 0 < available }
        ensures taken { IfOk result (λ n. (0 < n) × (n ≤ available)) }
        ensures at { OnOk result (IsAt self.new) }
        ensures moves { IfOk result (λ n. (rest taken : List ℕ)
            → StandsFor self.old.bytes.items over.passed rest → length taken ≡ n
            → Moves message_at itself self.new.bytes.items (passed_in self.new.position)
            out.old.items out.new.items (rest ++ taken)) }
        ensures takes { OnOk result (TakesFor 0 self.old self.new) }
        ensures err { OnErr result (out.new.items ≡ out.old.items) }
        ensures only { IfErr result (λ f. f ≡ WireFault.NoMemory) }
    {
        if available >= over.left as usize {
            self.give(ClientMessage::Input(over.kind), out)?;
            return Ok(over.left as usize);
        }
        let taken = available as u32;
        self.position = Position::ReadOver(Over {
            kind: over.kind,
            passed: over.passed + taken,
            left: over.left - taken,
        });
        Ok(available)
    }

    // Takes bytes of a piece up to the end of a field, and answers how many.
    fn take_in_field(
        &mut self,
        alloc: Global,
        stage: Stage,
        piece: &[u8],
        out: &mut Vec<ClientMessage>,
    ) -> Result<usize, WireFault>
        requires field { IsInField self.old.bytes.items stage }
        requires position { self.old.position ≡ Position.Field stage }
        requires some { 0 < length piece.now }
        ensures taken { IfOk result (λ n. (0 < n) × (n ≤ length piece.now)) }
        ensures at { OnOk result (IsAt self.new) }
        ensures moves { IfOk result (λ n. Moves message_at itself self.new.bytes.items
            (passed_in self.new.position) out.old.items out.new.items
            (self.old.bytes.items ++ take n piece.now)) }
        ensures takes { IfOk result (λ n. TakesFor n self.old self.new) }
        ensures faults { IfErr result (λ f. UnlessMemory f
            (message_at (self.old.bytes.items ++ piece.now) ≡ Bad f)) }
        ensures err { OnErr result (out.new.items ≡ out.old.items) }
    {
        let end = stage.start() + stage.wants();
        let taken = piece.len().min(end - self.bytes.len());
        append_come(&mut self.bytes, &piece[..taken])?;
        if self.bytes.len() == end {
            self.advance(alloc, stage, out)?;
        }
        Ok(taken)
    }

    // Takes bytes of a piece up to the end of a field, or of what is read over, and answers how
    // many.
    fn take_some(
        &mut self,
        alloc: Global,
        piece: &[u8],
        out: &mut Vec<ClientMessage>,
    ) -> Result<usize, WireFault>
        requires at { IsAt self.old }
        requires some { 0 < length piece.now }
        ensures taken { IfOk result (λ n. (0 < n) × (n ≤ length piece.now)) }
        ensures at { OnOk result (IsAt self.new) }
        ensures moves { IfOk result (λ n. (rest : List ℕ)
            → StandsFor self.old.bytes.items (passed_in self.old.position) rest
            → Moves message_at itself self.new.bytes.items (passed_in self.new.position)
            out.old.items out.new.items (rest ++ take n piece.now)) }
        ensures takes { IfOk result (λ n. TakesFor n self.old self.new) }
        ensures faults { IfErr result (λ f. (rest : List ℕ)
            → StandsFor self.old.bytes.items (passed_in self.old.position) rest
            → UnlessMemory f (message_at (rest ++ piece.now) ≡ Bad f)) }
        ensures err { OnErr result (out.new.items ≡ out.old.items) }
    {
        match self.position {
            Position::Field(stage) => self.take_in_field(alloc, stage, piece, out),
            Position::ReadOver(over) => self.pass(over, piece.len(), out),
        }
    }

    /// Takes a piece of the stream, and gives each message that is whole now.
    pub fn read(
        &mut self,
        alloc: Global,
        piece: &[u8],
        out: &mut Vec<ClientMessage>,
    ) -> Result<(), WireFault>
        requires { IsAt self.old }
        ensures at { OnOk result (IsAt self.new) }
        ensures moves { OnOk result ((rest : List ℕ)
            → StandsFor self.old.bytes.items (passed_in self.old.position) rest
            → Moves message_at itself self.new.bytes.items (passed_in self.new.position)
            out.old.items out.new.items (rest ++ piece.now)) }
        ensures takes { OnOk result (TakesFor (length piece.now) self.old self.new) }
        ensures faults { IfErr result (λ f. (rest : List ℕ)
            → StandsFor self.old.bytes.items (passed_in self.old.position) rest
            → Stops message_at itself f out.old.items out.new.items (rest ++ piece.now)) }
    {
        let mut rest = piece;
        while !rest.is_empty() {
            let taken = self.take_some(alloc, rest, out)?;
            rest = &rest[taken..];
        }
        Ok(())
    }
}
