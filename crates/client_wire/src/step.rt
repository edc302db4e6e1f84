//! What follows from a whole field of a message.

ghost use Rattle.std.specs.Prelude.{◌≡◌, ℕ, ◌+◌, List, ◌++◌, length, slice_index, IfOk, IfErr};
ghost use Rattle.terms.specs.Reading.{Bad};
ghost use Rattle.terms.specs.Fault.{UnlessMemory};
ghost use Rattle.client_wire.specs.Grammar.{body_at, typed_at};
ghost use Rattle.client_wire.specs.MessageType.{type_of};
ghost use Rattle.client_wire.specs.PartialMessage.{wants_of, start_of, resume, position_at, follow, BeginsAt, StepBeginsAt};

use crate::field::{encodings_in, pixel_format_in, request_in};
use crate::message::{ClientMessage, Encodings};
use crate::message_type::ClientMessageType;
use crate::partial_message::{AfterField, Over, Position, Stage};
use std::alloc::Global;
use terms::{WireFault, read_u16, read_u32};

// What comes after this type.
#[tactic(auto, unfolding(crate::specs::PartialMessage::resume))]
fn position_after(kind: ClientMessageType) -> Position
    ensures goes { (more : List ℕ) → body_at kind more ≡ position_at result more }
    ensures begins { BeginsAt 1 result }
{
    match kind {
        ClientMessageType::SetPixelFormat => Position::Field(Stage::PixelFormat),
        ClientMessageType::SetEncodings => Position::Field(Stage::EncodingsHead),
        ClientMessageType::FramebufferUpdateRequest => Position::Field(Stage::Request),
        ClientMessageType::KeyEvent => Position::ReadOver(Over::new(kind, 7)),
        ClientMessageType::PointerEvent => Position::ReadOver(Over::new(kind, 5)),
        ClientMessageType::ClientCutText => Position::Field(Stage::TextHead),
    }
}

// After the number of a message's type.
fn after_type(number: u8) -> Result<Position, WireFault>
    ensures goes { IfOk result (λ p. (more : List ℕ) → typed_at (type_of number) more ≡ position_at p more) }
    ensures begins { IfOk result (BeginsAt 1) }
    ensures faults { IfErr result (λ f. (more : List ℕ) → typed_at (type_of number) more ≡ Bad f) }
{
    let Some(kind) = ClientMessageType::from_number(number) else {
        return Err(WireFault::UnknownType);
    };
    Ok(position_after(kind))
}

// After the head of a SetEncodings.
fn after_encodings_head(alloc: Global, field: &[u8]) -> AfterField
    requires { length field.now ≡ 3 }
    ensures goes { (more : List ℕ)
        → resume Stage.EncodingsHead (field.now ++ more) ≡ follow result more }
    ensures begins { StepBeginsAt 4 result }
{
    let count = read_u16(field, 1);
    if count == 0 {
        let none = Encodings::from_vec(Vec::new(alloc));
        return AfterField::Whole(ClientMessage::SetEncodings(none));
    }
    AfterField::Goes(Position::Field(Stage::Encodings { count }))
}

// After the head of a ClientCutText.
fn after_text_head(field: &[u8]) -> AfterField
    requires { length field.now ≡ 7 }
    ensures goes { (more : List ℕ)
        → resume Stage.TextHead (field.now ++ more) ≡ follow result more }
    ensures begins { StepBeginsAt 8 result }
{
    let length = read_u32(field, 3);
    if length == 0 {
        return AfterField::Whole(ClientMessage::Input(ClientMessageType::ClientCutText));
    }
    let left = Over::new(ClientMessageType::ClientCutText, length);
    AfterField::Goes(Position::ReadOver(left))
}

/// What follows from the whole field of a stage.
pub fn step(alloc: Global, stage: Stage, field: &[u8]) -> Result<AfterField, WireFault>
    requires { length field.now ≡ wants_of stage }
    ensures goes { IfOk result (λ s. (more : List ℕ)
        → resume stage (field.now ++ more) ≡ follow s more) }
    ensures begins { IfOk result (StepBeginsAt (start_of stage + wants_of stage)) }
    ensures faults { IfErr result (λ f. UnlessMemory f
        ((more : List ℕ) → resume stage (field.now ++ more) ≡ Bad f)) }
{
    match stage {
        Stage::Type => Ok(AfterField::Goes(after_type(field[0])?)),
        Stage::PixelFormat => Ok(AfterField::Whole(pixel_format_in(field)?)),
        Stage::EncodingsHead => Ok(after_encodings_head(alloc, field)),
        Stage::Encodings { .. } => {
            let encodings = encodings_in(alloc, field)?;
            Ok(AfterField::Whole(ClientMessage::SetEncodings(encodings)))
        }
        Stage::Request => Ok(AfterField::Whole(request_in(field))),
        Stage::TextHead => Ok(after_text_head(field)),
    }
}
