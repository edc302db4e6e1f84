//! The fields of a host's handshake.

ghost use Rattle.std.specs.Prelude.{◌≡◌, ℕ, ◌+◌, ◌<◌, ◌≤◌, ◌++◌, min, length, IfOk, IfErr, OnOk, OnErr, Option};
ghost use Rattle.host_session.specs.Handshake.{is_expected, offers_security_none, text_limit};
ghost use Rattle.host_session.specs.Stage.{wants_of, rank_of, answer_bytes, IsStep, IsFault, IsFurther};
ghost use Rattle.host_session.specs.declared.expected.ExpectedScreen.{ExpectedScreen};

use crate::expected::ExpectedScreen;
use crate::fault::HostFault;
use terms::{NoMemory, ScreenSize, read_u16, read_u32};

/// A field of the handshake.
#[derive(Clone, Copy)]
pub enum Stage {
    /// The version, 12 bytes.
    Version,
    /// How many security types there are.
    Count,
    /// So many security types.
    Types { count: u8 },
    /// SecurityResult: 0 if the host lets the recorder in.
    Outcome,
    /// The length of a reason.
    ReasonLength,
    /// A reason of so many bytes, of which the first 1,024 are kept.
    Reason { count: u32 },
    /// The screen's size.
    Size,
    /// Of a screen of this size: the host's format, and the name's length.
    Head { size: ScreenSize },
    /// A name of so many bytes, of which the first 1,024 are kept.
    Name { size: ScreenSize, count: u32 },
}

/// What a whole field is answered with.
#[derive(Clone, Copy)]
pub enum Answer {
    /// No bytes.
    Nothing,
    /// The version that is spoken.
    Version,
    /// A byte of 1: None, as the choice of a security type, or a ClientInit that shares the screen.
    One,
}

/// What comes next in the handshake.
#[derive(Clone, Copy)]
pub enum Position {
    /// This field.
    Field(Stage),
    /// Of a screen of this size, so many bytes of the name that aren't kept.
    Rest { size: ScreenSize, left: u32 },
}

/// What follows from a whole field.
#[derive(Clone, Copy)]
pub struct AfterField {
    pub answer: Answer,
    pub position: Position,
}

// Of a name or a reason, so many bytes are kept.
const TEXT_LIMIT: u32 = 1024;

// The version that is spoken, and its newline.
const VERSION: [u8; 12] = *b"RFB 003.008\n";

impl Stage {
    /// How many bytes the field has, or are kept of it.
    pub fn wants(self) -> usize
        ensures value { result ≡ wants_of self }
        ensures bound { result < 2000 }
    {
        match self {
            Stage::Version => 12,
            Stage::Count => 1,
            Stage::Types { count } => count as usize,
            Stage::Outcome => 4,
            Stage::ReasonLength => 4,
            Stage::Reason { count } => count.min(TEXT_LIMIT) as usize,
            Stage::Size => 4,
            Stage::Head { .. } => 20,
            Stage::Name { count, .. } => count.min(TEXT_LIMIT) as usize,
        }
    }
}

// Whether this is the size that is expected, if one is.
fn expects(expected: Option<ScreenSize>, size: ScreenSize) -> bool
    ensures { result ≡ is_expected expected size.width size.height }
{
    match expected {
        None => true,
        Some(wanted) => wanted == size,
    }
}

// Whether None is among the security types.
fn offers(types: &[u8]) -> bool
    ensures { result ≡ offers_security_none types.now }
{
    for kind in types {
        if *kind == 1 {
            return true;
        }
    }
    false
}

// The field of this stage comes next, and nothing is answered.
fn next(stage: Stage) -> AfterField
    ensures { result ≡ record { answer = Answer.Nothing; position = Position.Field stage } }
{
    answered(Answer::Nothing, stage)
}

// The field of this stage comes next, after an answer.
fn answered(answer: Answer, stage: Stage) -> AfterField
    ensures { result ≡ record { answer = answer; position = Position.Field stage } }
{
    AfterField {
        answer,
        position: Position::Field(stage),
    }
}

// Another version than 003.008 is refused (RFC 6143, section 7.1.1).
fn after_version(field: &[u8]) -> Result<AfterField, HostFault>
    requires { length field.now ≡ 12 }
    ensures goes { IfOk result (λ s. (expected : ExpectedScreen)
        → IsStep expected Stage.Version field.now s) }
    ensures falls { IfOk result (λ s. IsFurther 9 s.position) }
    ensures faults { IfErr result (λ f. (expected : ExpectedScreen)
        → IsFault expected Stage.Version field.now f) }
{
    if field != VERSION.as_slice() {
        return Err(HostFault::Version);
    }
    Ok(answered(Answer::Version, Stage::Count))
}

// No security types are followed by a reason (RFC 6143, section 7.1.2).
fn after_count(field: &[u8]) -> AfterField
    requires { length field.now ≡ 1 }
    ensures goes { (expected : ExpectedScreen) → IsStep expected Stage.Count field.now result }
    ensures falls { IsFurther 8 result.position }
{
    if field[0] == 0 {
        return next(Stage::ReasonLength);
    }
    next(Stage::Types { count: field[0] })
}

// Of the types None is chosen, and the others aren't looked at.
fn after_types(count: u8, field: &[u8]) -> Result<AfterField, HostFault>
    requires { length field.now ≡ count }
    ensures goes { IfOk result (λ s. (expected : ExpectedScreen)
        → IsStep expected (Stage.Types count) field.now s) }
    ensures falls { IfOk result (λ s. IsFurther 7 s.position) }
    ensures faults { IfErr result (λ f. (expected : ExpectedScreen)
        → IsFault expected (Stage.Types count) field.now f) }
{
    if !offers(field) {
        return Err(HostFault::NoneNotOffered);
    }
    Ok(answered(Answer::One, Stage::Outcome))
}

// A failure is followed by a reason (RFC 6143, section 7.1.3), and else ClientInit answers.
fn after_outcome(field: &[u8]) -> AfterField
    requires { length field.now ≡ 4 }
    ensures goes { (expected : ExpectedScreen) → IsStep expected Stage.Outcome field.now result }
    ensures falls { IsFurther 6 result.position }
{
    if read_u32(field, 0) != 0 {
        return next(Stage::ReasonLength);
    }
    answered(Answer::One, Stage::Size)
}

// The limits of the format are judged first, and then the size that is expected.
fn after_size(expected: ExpectedScreen, field: &[u8]) -> Result<AfterField, HostFault>
    requires { length field.now ≡ 4 }
    ensures goes { IfOk result (λ s. IsStep expected Stage.Size field.now s) }
    ensures falls { IfOk result (λ s. IsFurther 5 s.position) }
    ensures faults { IfErr result (λ f. IsFault expected Stage.Size field.now f) }
{
    let size = ScreenSize {
        width: read_u16(field, 0),
        height: read_u16(field, 2),
    };
    if !expected.format.limits().allow(size) {
        return Err(HostFault::TooLarge);
    }
    if !expects(expected.size, size) {
        return Err(HostFault::SizeDiffers);
    }
    Ok(next(Stage::Head { size }))
}

// What is beyond the name's first bytes is read over.
fn after_name(size: ScreenSize, count: u32, field: &[u8]) -> AfterField
    requires { length field.now ≡ min count text_limit }
    ensures goes { (expected : ExpectedScreen)
        → IsStep expected (Stage.Name size count) field.now result }
    ensures falls { IsFurther 3 result.position }
{
    AfterField {
        answer: Answer::Nothing,
        position: Position::Rest {
            size,
            left: count - count.min(TEXT_LIMIT),
        },
    }
}

/// What follows from the whole field of a stage.
pub fn following(
    expected: ExpectedScreen,
    stage: Stage,
    field: &[u8],
) -> Result<AfterField, HostFault>
    requires { length field.now ≡ wants_of stage }
    ensures goes { IfOk result (λ s. IsStep expected stage field.now s) }
    ensures falls { IfOk result (λ s. IsFurther (rank_of stage) s.position) }
    ensures faults { IfErr result (λ f. IsFault expected stage field.now f) }
{
    match stage {
        Stage::Version => after_version(field),
        Stage::Count => Ok(after_count(field)),
        Stage::Types { count } => after_types(count, field),
        Stage::Outcome => Ok(after_outcome(field)),
        Stage::ReasonLength => Ok(next(Stage::Reason {
            count: read_u32(field, 0),
        })),
        Stage::Reason { .. } => Err(HostFault::Failed),
        Stage::Size => after_size(expected, field),
        // The host's own format is read over (RFC 6143, section 7.3.2).
        Stage::Head { size } => Ok(next(Stage::Name {
            size,
            count: read_u32(field, 16),
        })),
        Stage::Name { size, count } => Ok(after_name(size, count, field)),
    }
}

impl Answer {
    /// Appends its bytes.
    pub fn write(self, out: &mut Vec<u8>) -> Result<(), NoMemory>
        ensures ok { OnOk result (out.new.items ≡ out.old.items ++ answer_bytes self) }
        ensures err { OnErr result (out.new.items ≡ out.old.items) }
    {
        match self {
            Answer::Nothing => Ok(()),
            Answer::Version => out.extend_from_slice(&VERSION),
            Answer::One => out.extend_from_slice(&[1]),
        }
    }
}
