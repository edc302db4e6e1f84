//! What follows from a whole field of a message.

ghost use Rattle.std.specs.Prelude.{◌≡◌, ℕ, ◌+◌, ◌*◌, ◌<◌, ◌^◌, ◌≤◌, List, ◌++◌, take, drop, slice_index, nat_lt, if◌then◌else◌, length, IfOk, IfErr};
ghost use Rattle.terms.specs.Reading.{Bad};
ghost use Rattle.pixel_format.specs.Format.{host_format};
ghost use Rattle.terms.specs.Number.{u16_at, u32_at};
ghost use Rattle.rect_data.specs.Judging.{HasBytes};
ghost use Rattle.rect_data.specs.Judging as judging;
ghost use Rattle.rfb_wire.specs.Grammar.{text_limit, read_over, text_data_at, area_of, encoding_number};
ghost use Rattle.rfb_wire.specs.Following.{IsAfter};
ghost use Rattle.rfb_wire.specs.Header.{Names, IsRefusedBy};
ghost use Rattle.rfb_wire.specs.PartialMessage.{wants_of, start_of, NextBegins, IsOfUpdate, IsOfKind, NextIsOfKind, resume, go_on, step_on, others_at, after_data};

use crate::message::Rectangle;
use crate::message_type::HostMessageType;
use crate::partial_message::{AfterField, Begun, Next, Stage};
use pixel_format::PixelFormat;
use rect_data::{Encoding, Judging, lies_inside};
use terms::{Area, ScreenSize, WireFault, read_u16, read_u32};

/// The greatest number of bytes of a text that is recorded.
pub const TEXT_LIMIT: u32 = 65_536;

// The number of the encoding that the header of a rectangle names, as four unsigned bytes.
#[tactic(auto, unfolding(crate::specs::Grammar::encoding_number))]
fn encoding_at(header: &[u8]) -> u32
    requires { length header.now ≡ 12 }
    ensures { result ≡ encoding_number header.now }
{
    read_u32(header, 8)
}

/// The area and the encoding that the header of a rectangle names. An area that leaves the screen is
/// refused, and then an encoding that isn't known.
pub fn judge_header(size: ScreenSize, header: &[u8]) -> Result<(Area, Encoding), WireFault>
    requires { length header.now ≡ 12 }
    ensures ok { IfOk result (λ x. Names size.width size.height header.now x.0 x.1) }
    ensures faults { IfErr result (IsRefusedBy size.width size.height header.now) }
{
    let area = Area::read(header, 0);
    if !lies_inside(area, size) {
        return Err(WireFault::OutsideScreen);
    }
    let number = encoding_at(header);
    let Some(encoding) = Encoding::from_number(number) else {
        return Err(WireFault::Encoding(number.cast_signed()));
    };
    Ok((area, encoding))
}

// The header of the next of so many rectangles.
fn next_header(at: usize, count: u16) -> Next
    ensures goes { (width height : ℕ) → (more : List ℕ)
        → go_on width height result more ≡ others_at width height count at more }
    ensures begins { NextBegins at result }
    ensures kind { (bytes : List ℕ) → IsOfUpdate bytes → NextIsOfKind result bytes }
{
    if count == 0 {
        Next::End
    } else {
        Next::Field(Stage::RectangleHead {
            at,
            others: count - 1,
        })
    }
}

// What comes after the type of a message.
fn next_of_type(number: u8) -> Result<Next, WireFault>
    ensures goes { IfOk result (λ n. (width height : ℕ) → (field more : List ℕ) → length field ≡ 1 → slice_index field 0 ≡ number
        → resume width height Stage.Type (field ++ more) ≡ go_on width height n more) }
    ensures begins { IfOk result (NextBegins 1) }
    ensures kind { IfOk result (λ n. (field : List ℕ) → length field ≡ 1 → slice_index field 0 ≡ number → NextIsOfKind n field) }
    ensures faults { IfErr result (λ f. (width height : ℕ) → (field more : List ℕ) → length field ≡ 1 → slice_index field 0 ≡ number
        → resume width height Stage.Type (field ++ more) ≡ Bad f) }
{
    let Some(kind) = HostMessageType::from_number(number) else {
        return Err(WireFault::UnknownType);
    };
    match kind {
        HostMessageType::FramebufferUpdate => Ok(Next::Field(Stage::UpdateHead)),
        HostMessageType::SetColorMapEntries => Ok(Next::Field(Stage::ColorMapHead)),
        HostMessageType::Bell => Ok(Next::End),
        HostMessageType::ServerCutText => Ok(Next::Field(Stage::TextHead)),
    }
}

// After the type of a message.
fn after_type(field: &[u8]) -> Result<AfterField, WireFault>
    requires { length field.now ≡ 1 }
    ensures goes { IfOk result (IsAfter Stage.Type field.now) }
    ensures begins { IfOk result (λ s. NextBegins 1 s.next) }
    ensures kind { IfOk result (λ s. NextIsOfKind s.next field.now) }
    ensures faults { IfErr result (λ f. (width height : ℕ) → (more : List ℕ)
        → resume width height Stage.Type (field.now ++ more) ≡ Bad f) }
{
    let next = match next_of_type(field[0]) {
        Ok(next) => next,
        Err(fault) => return Err(fault),
    };
    Ok(AfterField {
        rectangle: None,
        next,
    })
}

// After the head of a colour map: six bytes for each colour.
fn after_color_map_head(field: &[u8]) -> AfterField
    requires { length field.now ≡ 5 }
    ensures goes { IsAfter Stage.ColorMapHead field.now result }
    ensures begins { NextBegins 6 result.next }
    ensures kind { (bytes : List ℕ) → NextIsOfKind result.next bytes }
{
    let count = read_u16(field, 3);
    AfterField {
        rectangle: None,
        next: Next::ReadOver(6 * count as u64),
    }
}

// The text of so many bytes.
fn next_text(count: u32) -> Next
    ensures goes { (width height : ℕ) → (more : List ℕ) → go_on width height result more
        ≡ (if nat_lt text_limit count then read_over count more else text_data_at count more) }
    ensures begins { NextBegins 8 result }
    ensures kind { (bytes : List ℕ) → NextIsOfKind result bytes }
{
    if count > TEXT_LIMIT {
        Next::ReadOver(count as u64)
    } else if count == 0 {
        Next::End
    } else {
        Next::Field(Stage::TextData { length: count })
    }
}

// After the head of a cut text.
fn after_text_head(field: &[u8]) -> AfterField
    requires { length field.now ≡ 7 }
    ensures goes { IsAfter Stage.TextHead field.now result }
    ensures begins { NextBegins 8 result.next }
    ensures kind { (bytes : List ℕ) → NextIsOfKind result.next bytes }
{
    let count = read_u32(field, 3);
    AfterField {
        rectangle: None,
        next: next_text(count),
    }
}

// After the last byte of a text.
fn after_text(count: u32) -> AfterField
    ensures goes { (width height : ℕ) → (text more : List ℕ) → length text ≡ count
        → resume width height (Stage.TextData count) (text ++ more) ≡ step_on width height result more }
    ensures begins { NextBegins (8 + count) result.next }
    ensures kind { (bytes : List ℕ) → NextIsOfKind result.next bytes }
{
    let _ = count;
    AfterField {
        rectangle: None,
        next: Next::End,
    }
}

// After the head of an update.
fn after_update_head(field: &[u8]) -> AfterField
    requires { length field.now ≡ 3 }
    ensures goes { IsAfter Stage.UpdateHead field.now result }
    ensures begins { NextBegins 4 result.next }
    ensures kind { (bytes : List ℕ) → IsOfUpdate bytes → NextIsOfKind result.next bytes }
{
    AfterField {
        rectangle: None,
        next: next_header(4, read_u16(field, 1)),
    }
}

// After a field of a rectangle's data: the next one, or the rectangle, whose data end here.
fn next_data(at: usize, begun: Begun, next: Option<Judging>, others: u16) -> AfterField
    requires { HasBytes host_format next }
    ensures goes { (width height : ℕ) → (more : List ℕ)
        → after_data width height begun others (at + length more) (judging.go_on host_format width height next more) ≡ step_on width height result more }
    ensures begins { NextBegins at result.next }
    ensures kind { (bytes : List ℕ) → IsOfUpdate bytes → NextIsOfKind result.next bytes }
{
    let Some(next) = next else {
        let rectangle = Rectangle {
            area: begun.area,
            encoding: begun.encoding,
            start: begun.start,
            end: at,
        };
        return AfterField {
            rectangle: Some(rectangle),
            next: next_header(at, others),
        };
    };
    AfterField {
        rectangle: None,
        next: Next::Field(Stage::Data {
            at,
            begun,
            next,
            others,
        }),
    }
}

/// What follows from the whole fields of a rectangle's data that the bytes begin with, and how many
/// bytes these have.
pub fn run(
    size: ScreenSize,
    at: usize,
    begun: Begun,
    current: Judging,
    others: u16,
    bytes: &[u8],
) -> Result<(usize, AfterField), WireFault>
    requires { at + length bytes.now < 2 ^ 32 }
    ensures taken { IfOk result (λ x. x.0 ≤ length bytes.now) }
    ensures first { IfOk result (λ x. judging.wants_of host_format current ≤ length bytes.now → judging.wants_of host_format current ≤ x.0) }
    ensures goes { IfOk result (λ x. (more : List ℕ)
        → resume size.width size.height (Stage.Data at begun current others) (take x.0 bytes.now ++ more) ≡ step_on size.width size.height x.1 more) }
    ensures begins { IfOk result (λ x. NextBegins (at + x.0) x.1.next) }
    ensures kind { IfOk result (λ x. (b : List ℕ) → IsOfUpdate b → NextIsOfKind x.1.next b) }
    ensures faults { IfErr result (λ f. (more : List ℕ)
        → resume size.width size.height (Stage.Data at begun current others) (bytes.now ++ more) ≡ Bad f) }
{
    match current.run(&PixelFormat::host(), size, bytes) {
        Ok(fields) => {
            let next = next_data(at + fields.taken, begun, fields.next, others);
            Ok((fields.taken, next))
        }
        Err(fault) => Err(fault),
    }
}

// After the header of a rectangle.
fn after_header(
    size: ScreenSize,
    at: usize,
    others: u16,
    header: &[u8],
) -> Result<AfterField, WireFault>
    requires whole { length header.now ≡ 12 }
    requires short { at + 12 < 2 ^ 32 }
    ensures goes { IfOk result (λ s. (more : List ℕ)
        → resume size.width size.height (Stage.RectangleHead at others) (header.now ++ more) ≡ step_on size.width size.height s more) }
    ensures begins { IfOk result (λ s. NextBegins (at + 12) s.next) }
    ensures kind { IfOk result (λ s. (bytes : List ℕ) → IsOfUpdate bytes → NextIsOfKind s.next bytes) }
    ensures faults { IfErr result (λ f. (more : List ℕ)
        → resume size.width size.height (Stage.RectangleHead at others) (header.now ++ more) ≡ Bad f) }
{
    let (area, encoding) = judge_header(size, header)?;
    let begun = Begun {
        start: at + 12,
        area,
        encoding,
    };
    let next = Judging::start(&PixelFormat::host(), encoding, area);
    Ok(next_data(at + 12, begun, next, others))
}

/// What follows from the whole field of a stage.
pub fn step(size: ScreenSize, stage: Stage, field: &[u8]) -> Result<AfterField, WireFault>
    requires whole { length field.now ≡ wants_of stage }
    requires short { start_of stage + length field.now < 2 ^ 32 }
    ensures goes { IfOk result (λ s. (more : List ℕ)
        → resume size.width size.height stage (field.now ++ more) ≡ step_on size.width size.height s more) }
    ensures begins { IfOk result (λ s. NextBegins (start_of stage + length field.now) s.next) }
    ensures kind { IfOk result (λ s. (bytes : List ℕ) → drop (start_of stage) bytes ≡ field.now → IsOfKind stage bytes → NextIsOfKind s.next bytes) }
    ensures faults { IfErr result (λ f. (more : List ℕ) → resume size.width size.height stage (field.now ++ more) ≡ Bad f) }
{
    match stage {
        Stage::Type => after_type(field),
        Stage::UpdateHead => Ok(after_update_head(field)),
        Stage::ColorMapHead => Ok(after_color_map_head(field)),
        Stage::TextHead => Ok(after_text_head(field)),
        Stage::TextData { length } => Ok(after_text(length)),
        Stage::RectangleHead { at, others } => after_header(size, at, others, field),
        Stage::Data {
            at,
            begun,
            next,
            others,
        } => {
            let (_, whole) = run(size, at, begun, next, others, field)?;
            Ok(whole)
        }
    }
}
