//! How far a reader is in a message.

ghost use Rattle.std.specs.Prelude.{◌≡◌, ℕ, ◌<◌, ◌≤◌, ◌^◌, ◌+◌, ◌++◌, ◌⊎◌, [], ◌∷◌, List, length, take, max, vec_capacity, IfOk, OnOk, IfErr, OnErr, Ok, Err, None};
ghost use Rattle.terms.specs.Appending.{room_for};
ghost use Rattle.terms.specs.Limits.{limits, AreLimits};
ghost use Rattle.terms.specs.declared.format.Format.{Format};
ghost use Rattle.std.specs.Option.{option_to_list};
ghost use Rattle.terms.specs.Reading.{Got, Bad};
ghost use Rattle.rfb_wire.specs.Grammar.{message_at, Recorded, message_limit};
ghost use Rattle.rfb_wire.specs.Host.{Host, host_of, IsRecorded};
ghost use Rattle.rfb_wire.specs.Reader.{head_limit};
ghost use Rattle.terms.specs.Fault.{UnlessMemory};
ghost use Rattle.client_wire.specs.Stream.{StandsFor, Moves, Stops};
ghost use Rattle.rfb_wire.specs.Stream.{given};

use crate::message::{HostMessage, Rectangle};
use crate::step::{run, step};
use pixel_format::PixelFormat;
use rect_data::{Encoding, Judging};
use std::alloc::Global;
use terms::{Area, Format, RecordedScreen, WireFault, append_come};

/// The greatest number of bytes of an update that is recorded in this format.
pub fn message_limit(format: Format) -> usize
    ensures value { result ≡ message_limit format }
    ensures bounds { AreLimits (limits format) }
{
    format.limits().message
}

/// A rectangle whose header is read, and the offset in the message at which its data begin.
#[derive(Clone, Copy)]
pub struct Begun {
    pub start: usize,
    pub area: Area,
    pub encoding: Encoding,
}

/// The field of a message that comes next.
#[derive(Clone, Copy)]
pub enum Stage {
    /// The message's type.
    Type,
    /// After the type of an update: padding, and the number of rectangles.
    UpdateHead,
    /// After the type of a colour map: padding, the first colour, and the number of colours.
    ColorMapHead,
    /// After the type of a cut text: padding, and the text's length.
    TextHead,
    /// A text of so many bytes.
    TextData {
        length: u32,
    },
    /// The header of a rectangle, at this offset of the message, which others follow.
    RectangleHead {
        at: usize,
        others: u16,
    },
    /// A field of the data of a rectangle, at this offset of the message. Other rectangles follow.
    Data {
        at: usize,
        begun: Begun,
        next: Judging,
        others: u16,
    },
}

/// What comes after a whole field.
#[derive(Clone, Copy)]
pub enum Next {
    /// Another field of the message.
    Field(Stage),
    /// Nothing: the message is whole, and is recorded.
    End,
    /// So many bytes to the end of a message that is read over.
    ReadOver(u64),
}

/// What follows from a whole field: the rectangle that it ends, and what comes next.
#[derive(Clone, Copy)]
pub struct AfterField {
    pub rectangle: Option<Rectangle>,
    pub next: Next,
}

/// How far whole fields bring a message, once the reader has gone on after them.
#[derive(Clone, Copy)]
pub enum Ending {
    /// A field of the message isn't whole.
    Field,
    /// The message is whole, and is recorded.
    Whole,
    /// So many bytes are left of a message that is read over.
    ReadOver(u64),
}

/// A message that is read over: how many bytes after its head have passed, and how many are left.
#[derive(Clone, Copy)]
pub struct Over {
    pub passed: u64,
    pub left: u64,
}

/// An unfinished message: its bytes so far, those of its rectangles that are whole, the field that
/// comes next, and the offset in the message at which that ends. Of one that is read over, its head
/// is kept.
#[derive(Drop)]
pub struct PartialMessage {
    pub bytes: Vec<u8>,
    pub rectangles: Vec<Rectangle>,
    pub stage: Stage,
    pub end: usize,
    pub over: Option<Over>,
}

impl Stage {
    ghost use Rattle.rfb_wire.specs.PartialMessage.{wants_of, start_of};

    /// How many bytes the field has.
    pub fn wants(self) -> usize
        ensures value { result ≡ wants_of self }
        ensures bound { result < 2 ^ 34 }
    {
        match self {
            Stage::Type => 1,
            Stage::UpdateHead => 3,
            Stage::ColorMapHead => 5,
            Stage::TextHead => 7,
            Stage::TextData { length } => length as usize,
            Stage::RectangleHead { .. } => 12,
            Stage::Data { next, .. } => next.wants(&PixelFormat::host()),
        }
    }

    /// The offset in the message at which the field begins.
    pub fn start(self) -> usize
        ensures { result ≡ start_of self }
    {
        match self {
            Stage::Type => 0,
            Stage::UpdateHead | Stage::ColorMapHead | Stage::TextHead => 1,
            Stage::TextData { .. } => 8,
            Stage::RectangleHead { at, .. } => at,
            Stage::Data { at, .. } => at,
        }
    }
}

impl PartialMessage {
    ghost use Rattle.rfb_wire.specs.PartialMessage.{unlimited_at, Follows, IsAt, IsInField, IsOver, After, TakesFor, passed_in};
    ghost use Rattle.rfb_wire.specs.Judged.{Judged};
    ghost use Rattle.rfb_wire.specs.Grammar.{read_over};

    /// A reader at the start of a message.
    pub fn new(alloc: Global) -> PartialMessage
        ensures at { (format : Format) → (width height : ℕ) → IsAt (message_limit format) width height result }
        ensures none { result.bytes.items ≡ [] }
        ensures over { result.over ≡ None }
        ensures room { (vec_capacity result.bytes ≡ 0) × (vec_capacity result.rectangles ≡ 0) }
    {
        PartialMessage {
            bytes: Vec::new(alloc),
            rectangles: Vec::new(alloc),
            stage: Stage::Type,
            end: 1,
            over: None,
        }
    }

    // Goes on after whole fields.
    fn advance(&mut self, screen: RecordedScreen, whole: AfterField) -> Result<Ending, WireFault>
        requires { Follows (message_limit screen.format) screen.size.width screen.size.height self.old.bytes.items self.old.rectangles.items whole }
        ensures goes { IfOk result (λ e. After (message_limit screen.format) screen.size.width screen.size.height self.old.bytes.items self.new e) }
        ensures bytes { self.new.bytes ≡ self.old.bytes }
        ensures over { self.new.over ≡ self.old.over }
        ensures capacities { OnOk result (vec_capacity self.new.rectangles
            ≤ max (vec_capacity self.old.rectangles) (room_for (length self.old.bytes.items))) }
        ensures only { IfErr result (λ f. f ≡ WireFault.NoMemory) }
    {
        append(&mut self.rectangles, whole.rectangle, self.bytes.len())?;
        match whole.next {
            Next::Field(stage) => {
                self.end = stage.start() + stage.wants();
                self.stage = stage;
                Ok(Ending::Field)
            }
            Next::End => Ok(Ending::Whole),
            Next::ReadOver(left) => Ok(Ending::ReadOver(left)),
        }
    }

    // Takes bytes up to the end of a field, or up to the limit, and judges the field once it is
    // whole. Answers how many.
    fn judge_field(
        &mut self,
        screen: RecordedScreen,
        piece: &[u8],
    ) -> Result<(usize, Ending), WireFault>
        requires field { IsInField (message_limit screen.format) screen.size.width screen.size.height self.old }
        requires some { 0 < length piece.now }
        ensures ok { IfOk result (λ x. Judged (message_limit screen.format) screen.size.width screen.size.height self.old self.new piece.now x.0 x.1) }
        ensures faults { IfErr result (λ f. UnlessMemory f (message_at (message_limit screen.format) screen.size.width screen.size.height (self.old.bytes.items ++ piece.now) ≡ Bad f)) }
    {
        let taken = take(&mut self.bytes, screen.format, self.end, piece)?;
        if self.bytes.len() < self.end {
            return Ok((taken, Ending::Field));
        }
        let field = &self.bytes[self.stage.start()..];
        let whole = step(screen.size, self.stage, field)?;
        let ending = self.advance(screen, whole)?;
        Ok((taken, ending))
    }

    // Takes bytes and judges the fields that they end: of a rectangle's data all that are whole in
    // the piece, if it begins with a field, and else one. Answers how many. It stands apart, so
    // that a piece in which no field ends makes no room for what follows from one.
    #[inline(never)]
    fn judge(&mut self, screen: RecordedScreen, piece: &[u8]) -> Result<(usize, Ending), WireFault>
        requires some { 0 < length piece.now }
        requires field { IsInField (message_limit screen.format) screen.size.width screen.size.height self.old }
        ensures ok { IfOk result (λ x. Judged (message_limit screen.format) screen.size.width screen.size.height self.old self.new piece.now x.0 x.1) }
        ensures faults { IfErr result (λ f. UnlessMemory f (message_at (message_limit screen.format) screen.size.width screen.size.height (self.old.bytes.items ++ piece.now) ≡ Bad f)) }
    {
        if let Stage::Data {
            at,
            begun,
            next,
            others,
        } = self.stage
            && self.bytes.len() == at
        {
            let front = &piece[..piece.len().min(message_limit(screen.format) - at)];
            let (taken, whole) = run(screen.size, at, begun, next, others, front)?;
            if taken > 0 {
                append_come(&mut self.bytes, &front[..taken])?;
                let ending = self.advance(screen, whole)?;
                return Ok((taken, ending));
            }
        }
        self.judge_field(screen, piece)
    }

    // Begins to read over the bytes that are left of a message, if any are.
    fn read_over(&mut self, alloc: Global, screen: RecordedScreen, left: u64)
        requires bound { left < 2 ^ 32 }
        requires head { 0 < length self.old.bytes.items }
        requires short { length self.old.bytes.items ≤ head_limit }
        requires link { (more : List ℕ) → unlimited_at screen.size.width screen.size.height (self.old.bytes.items ++ more) ≡ read_over left more }
        ensures at { IsAt (message_limit screen.format) screen.size.width screen.size.height self.new }
        ensures moves { (old : List Host) → Moves (message_at (message_limit screen.format) screen.size.width screen.size.height) (given screen.format screen.size.width screen.size.height) self.new.bytes.items (passed_in self.new.over) old old self.old.bytes.items }
        ensures takes { TakesFor 0 self.old self.new }
    {
        if left == 0 {
            *self = PartialMessage::new(alloc);
        } else {
            self.over = Some(Over { passed: 0, left });
        }
    }

    // Reads over bytes of a piece that has so many, and answers how many.
    fn pass(&mut self, alloc: Global, screen: RecordedScreen, over: Over, available: usize) -> usize
        requires over { IsOver (message_limit screen.format) screen.size.width screen.size.height self.old.bytes.items over }
        requires some { 0 < available }
        ensures taken { (0 < result) × (result ≤ available) }
        ensures at { IsAt (message_limit screen.format) screen.size.width screen.size.height self.new }
        ensures moves { (old : List Host) → (rest taken : List ℕ) → StandsFor self.old.bytes.items over.passed rest → length taken ≡ result
            → Moves (message_at (message_limit screen.format) screen.size.width screen.size.height) (given screen.format screen.size.width screen.size.height) self.new.bytes.items (passed_in self.new.over) old old (rest ++ taken) }
        ensures takes { TakesFor 0 self.old self.new }
    {
        let taken = over.left.min(available as u64);
        if taken == over.left {
            *self = PartialMessage::new(alloc);
        } else {
            self.over = Some(Over {
                passed: over.passed + taken,
                left: over.left - taken,
            });
        }
        taken as usize
    }

    // Gives the message, which is whole, and begins again.
    fn give(
        &mut self,
        alloc: Global,
        screen: RecordedScreen,
        out: &mut Vec<HostMessage>,
    ) -> Result<(), WireFault>
        requires { IsRecorded
            (host_of screen.format screen.size.width screen.size.height self.old.bytes.items self.old.rectangles.items) }
        ensures ok { OnOk result (out.new.items ≡ out.old.items ++ host_of screen.format screen.size.width screen.size.height self.old.bytes.items self.old.rectangles.items ∷ []) }
        ensures at { IsAt (message_limit screen.format) screen.size.width screen.size.height self.new }
        ensures none { self.new.bytes.items ≡ [] }
        ensures over { self.new.over ≡ None }
        ensures takes { TakesFor 0 self.old self.new }
        ensures err { OnErr result (out.new.items ≡ out.old.items) }
        ensures only { IfErr result (λ f. f ≡ WireFault.NoMemory) }
    {
        let whole = std::mem::replace(self, PartialMessage::new(alloc));
        let PartialMessage {
            bytes,
            rectangles,
            stage: _,
            end: _,
            over: _,
        } = whole;
        let message = HostMessage::from_parts(alloc, screen, bytes, rectangles)?;
        out.push(message)?;
        Ok(())
    }

    // Takes bytes up to the end of a field or of several, or up to the limit, and answers how many.
    // The message is given once it is whole.
    fn take_some(
        &mut self,
        piece: &[u8],
        alloc: Global,
        screen: RecordedScreen,
        out: &mut Vec<HostMessage>,
    ) -> Result<usize, WireFault>
        requires at { IsAt (message_limit screen.format) screen.size.width screen.size.height self.old }
        requires some { 0 < length piece.now }
        ensures taken { IfOk result (λ n. (0 < n) × (n ≤ length piece.now)) }
        ensures at { OnOk result (IsAt (message_limit screen.format) screen.size.width screen.size.height self.new) }
        ensures moves { IfOk result (λ n. (rest : List ℕ) → StandsFor self.old.bytes.items (passed_in self.old.over) rest
            → Moves (message_at (message_limit screen.format) screen.size.width screen.size.height) (given screen.format screen.size.width screen.size.height) self.new.bytes.items (passed_in self.new.over) out.old.items out.new.items (rest ++ take n piece.now)) }
        ensures takes { IfOk result (λ n. TakesFor n self.old self.new) }
        ensures faults { IfErr result (λ f. (rest : List ℕ) → StandsFor self.old.bytes.items (passed_in self.old.over) rest
            → UnlessMemory f (message_at (message_limit screen.format) screen.size.width screen.size.height (rest ++ piece.now) ≡ Bad f)) }
        ensures err { OnErr result (out.new.items ≡ out.old.items) }
    {
        if let Some(over) = self.over {
            return Ok(self.pass(alloc, screen, over, piece.len()));
        }
        if piece.len() < self.end - self.bytes.len() {
            let kept = take(&mut self.bytes, screen.format, self.end, piece)?;
            return Ok(kept);
        }
        let (taken, ending) = self.judge(screen, piece)?;
        match ending {
            Ending::Field => {}
            Ending::Whole => self.give(alloc, screen, out)?,
            Ending::ReadOver(left) => self.read_over(alloc, screen, left),
        }
        Ok(taken)
    }

    /// Takes a piece of the stream, and gives each message that is whole now.
    pub fn read(
        &mut self,
        alloc: Global,
        screen: RecordedScreen,
        piece: &[u8],
        out: &mut Vec<HostMessage>,
    ) -> Result<(), WireFault>
        requires { IsAt (message_limit screen.format) screen.size.width screen.size.height self.old }
        ensures at { OnOk result (IsAt (message_limit screen.format) screen.size.width screen.size.height self.new) }
        ensures moves { OnOk result ((rest : List ℕ) → StandsFor self.old.bytes.items (passed_in self.old.over) rest
            → Moves (message_at (message_limit screen.format) screen.size.width screen.size.height) (given screen.format screen.size.width screen.size.height) self.new.bytes.items (passed_in self.new.over) out.old.items out.new.items (rest ++ piece.now)) }
        ensures takes { OnOk result (TakesFor (length piece.now) self.old self.new) }
        ensures faults { IfErr result (λ f. (rest : List ℕ) → StandsFor self.old.bytes.items (passed_in self.old.over) rest
            → Stops (message_at (message_limit screen.format) screen.size.width screen.size.height) (given screen.format screen.size.width screen.size.height) f out.old.items out.new.items (rest ++ piece.now)) }
    {
        let mut rest = piece;
        while !rest.is_empty() {
            let taken = self.take_some(rest, alloc, screen, out)?;
            rest = &rest[taken..];
        }
        Ok(())
    }
}

// Appends the rectangle that a field ends, if it ends one, once so many bytes of the message have
// come.
fn append(
    rectangles: &mut Vec<Rectangle>,
    last: Option<Rectangle>,
    come: usize,
) -> Result<(), WireFault>
    ensures room { OnOk result (vec_capacity rectangles.new
        ≤ max (vec_capacity rectangles.old) (room_for come)) }
    ensures ok { OnOk result (rectangles.new.items ≡ rectangles.old.items ++ option_to_list last) }
    ensures only { IfErr result (λ f. f ≡ WireFault.NoMemory) }
{
    if let Some(rectangle) = last {
        let twice = come.saturating_mul(2).saturating_add(8);
        let most = rectangles.capacity().max(twice);
        rectangles.push(rectangle)?;
        // Each has many bytes. The library doubles the room, but doesn't promise to take no more.
        if rectangles.capacity() > most {
            return Err(WireFault::NoMemory);
        }
    }
    Ok(())
}

// Takes bytes of the piece up to the end of a field, and up to the limit of a message. Answers how
// many.
fn take(bytes: &mut Vec<u8>, format: Format, end: usize, piece: &[u8]) -> Result<usize, WireFault>
    requires unfinished { length bytes.old.items < end }
    requires short { length bytes.old.items ≤ message_limit format }
    requires some { 0 < length piece.now }
    ensures taken { IfOk result (λ n. (0 < n) × (n ≤ length piece.now)) }
    ensures bytes { IfOk result (λ n. bytes.new.items ≡ bytes.old.items ++ take n piece.now) }
    ensures ends { OnOk result (length bytes.new.items ≤ end) }
    ensures room { IfOk result (λ n. vec_capacity bytes.new
        ≤ max (vec_capacity bytes.old) (room_for (length bytes.old.items + n))) }
    ensures short { OnOk result (length bytes.new.items ≤ message_limit format) }
    ensures long { IfErr result (λ f. (f ≡ WireFault.NoMemory)
        ⊎ ((f ≡ WireFault.TooLong) × (length bytes.old.items ≡ message_limit format))) }
{
    let room = end.min(message_limit(format)) - bytes.len();
    if room == 0 {
        return Err(WireFault::TooLong);
    }
    let taken = room.min(piece.len());
    append_come(bytes, &piece[..taken])?;
    Ok(taken)
}
