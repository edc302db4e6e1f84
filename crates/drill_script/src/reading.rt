//! Reading one line.

ghost use Rattle.std.specs.Prelude.{◌≡◌, ◌==◌, ◌^◌, ℕ, List, IfOk};
ghost use Rattle.std.specs.List.{list_any};
ghost use Rattle.hex.specs.Hex.{decode_sized};
ghost use Rattle.drill_script.specs.Grammar.{Command, command_of, Spells, TakesMemory};
ghost use Rattle.drill_script.specs.Reading.{parts, Reads, ReadsInMemory, GivesLine, KindTakesMemory, command_at, number_at, name_at, joined_at, hex_at, new_at, host_at, pixel_at, byte_told, fill_of, start_of, read_at, rest_at};

use crate::fault::LineFault;
use crate::line::{DeskLine, Fill, Line, Start};
use crate::words::{Kind, Words, kind_of};
use std::alloc::Global;
use terms::{Format, ScreenSize, decimal_number};

#[tactic(auto, unfolding(crate::specs::Reading::read_at))]
fn u64_word(words: &mut Words) -> Result<u64, LineFault>
    ensures { Reads (λ n. n) result words.new (number_at (2 ^ 64) words.old) }
{
    decimal_number(words.word()?).ok_or(LineFault::Bad)
}

#[tactic(auto, unfolding(crate::specs::Reading::read_at))]
fn u32_word(words: &mut Words) -> Result<u32, LineFault>
    ensures { Reads (λ n. n) result words.new (number_at (2 ^ 32) words.old) }
{
    u32::try_from(u64_word(words)?).map_err(|_| LineFault::Bad)
}

#[tactic(auto, unfolding(crate::specs::Reading::read_at))]
fn u16_word(words: &mut Words) -> Result<u16, LineFault>
    ensures { Reads (λ n. n) result words.new (number_at (2 ^ 16) words.old) }
{
    u16::try_from(u64_word(words)?).map_err(|_| LineFault::Bad)
}

fn has_newline(word: &[u8]) -> bool
    ensures { result ≡ list_any (λ byte. byte == 10) word.now }
{
    word.iter().any(|byte| *byte == b'\n')
}

#[tactic(auto, unfolding(crate::specs::Reading::name_at))]
fn name_word(alloc: Global, words: &mut Words) -> Result<Vec<u8>, LineFault>
    ensures { ReadsInMemory (λ name. name.items) result words.new (name_at words.old) }
{
    let name = words.word()?;
    if has_newline(name) {
        return Err(LineFault::Bad);
    }
    Ok(Vec::from_slice(alloc, name)?)
}

// The words that are left, joined.
fn joined_words(alloc: Global, words: &mut Words) -> Result<Vec<u8>, LineFault>
    ensures { ReadsInMemory (λ joined. joined.items) result words.new (joined_at words.old) }
{
    let mut joined = Vec::new(alloc);
    while !words.is_over() {
        joined.extend_from_slice(words.word()?)?;
    }
    Ok(joined)
}

// The bytes that the words left spell.
#[tactic(auto, unfolding(crate::specs::Reading::hex_at))]
fn hex_words(alloc: Global, words: &mut Words) -> Result<Vec<u8>, LineFault>
    ensures { ReadsInMemory (λ bytes. bytes.items) result words.new (hex_at words.old) }
{
    let digits = joined_words(alloc, words)?;
    if digits.is_empty() {
        return Err(LineFault::Bad);
    }
    Ok(hex::decode(alloc, digits.as_slice())?)
}

#[tactic(auto, unfolding(crate::specs::Reading::new_at))]
fn new_line(alloc: Global, format: Format, words: &mut Words) -> Result<Line, LineFault>
    ensures { ReadsInMemory command_of result words.new (new_at format words.old) }
{
    let width = u16_word(words)?;
    let height = u16_word(words)?;
    let key_interval = u16_word(words)?;
    let name = name_word(alloc, words)?;
    Ok(Line::New {
        format,
        size: ScreenSize { width, height },
        key_interval,
        name,
    })
}

#[tactic(auto, unfolding(crate::specs::Reading::host_at))]
fn host_line(alloc: Global, words: &mut Words) -> Result<Line, LineFault>
    ensures { ReadsInMemory command_of result words.new (host_at words.old) }
{
    let time = u32_word(words)?;
    let bytes = hex_words(alloc, words)?;
    Ok(Line::OnDesk(DeskLine::Host { time, bytes }))
}

#[tactic(auto, unfolding(crate::specs::Reading::pixel_at))]
fn pixel_line(words: &mut Words) -> Result<Line, LineFault>
    ensures { Reads command_of result words.new (pixel_at words.old) }
{
    let count = u64_word(words)?;
    let x = u16_word(words)?;
    let y = u16_word(words)?;
    Ok(Line::OnDesk(DeskLine::Pixel { count, x, y }))
}

// The byte that two hexadecimal digits spell.
fn fill_byte(word: &[u8]) -> Option<Fill>
    ensures { result ≡ byte_told (decode_sized word.now 1) }
{
    let mut byte = [0; 1];
    match hex::decode_to_slice(word, &mut byte) {
        Ok(()) => Some(Fill::Byte(byte[0])),
        Err(_) => None,
    }
}

// The fill that a word names.
#[tactic(auto, unfolding(crate::specs::Reading::fill_of))]
fn named_fill(word: &[u8]) -> Option<Fill>
    ensures { result ≡ fill_of word.now }
{
    match word {
        b"held" => Some(Fill::Held),
        b"now" => Some(Fill::Now),
        _ => fill_byte(word),
    }
}

#[tactic(auto, unfolding(crate::specs::Reading::read_at))]
fn fill_word(words: &mut Words) -> Result<Fill, LineFault>
    ensures { Reads (λ fill. fill) result words.new (read_at fill_of words.old) }
{
    named_fill(words.word()?).ok_or(LineFault::Bad)
}

// The start that a word names.
#[tactic(auto, unfolding(crate::specs::Reading::start_of))]
fn named_start(word: &[u8]) -> Option<Start>
    ensures { result ≡ start_of word.now }
{
    match word {
        b"live" => Some(Start::Live),
        _ => decimal_number(word).map(Start::At),
    }
}

#[tactic(auto, unfolding(crate::specs::Reading::read_at))]
fn start_word(words: &mut Words) -> Result<Start, LineFault>
    ensures { Reads (λ start. start) result words.new (read_at start_of words.old) }
{
    named_start(words.word()?).ok_or(LineFault::Bad)
}

#[tactic(auto, unfolding(crate::specs::Reading::one_at, crate::specs::Reading::two_at))]
fn rest_of_line(alloc: Global, kind: Kind, words: &mut Words) -> Result<Line, LineFault>
    ensures read { ReadsInMemory command_of result words.new (rest_at kind words.old) }
    ensures memory { result ≡ Err LineFault.NoMemory → KindTakesMemory kind }
{
    match kind {
        Kind::New => new_line(alloc, Format::One, words),
        Kind::NewChained => new_line(alloc, Format::Two, words),
        Kind::Host => host_line(alloc, words),
        Kind::Take => Ok(Line::OnDesk(DeskLine::Take)),
        Kind::Body => Ok(Line::OnDesk(DeskLine::Body)),
        Kind::Gate => Ok(Line::OnDesk(DeskLine::Gate)),
        Kind::Open => Ok(Line::Open),
        Kind::Pixel => pixel_line(words),
        Kind::Fail => {
            let calls = u64_word(words)?;
            Ok(Line::OnDesk(DeskLine::Fail { calls }))
        }
        Kind::Stop => {
            let calls = u64_word(words)?;
            let fill = fill_word(words)?;
            Ok(Line::OnDesk(DeskLine::Stop { calls, fill }))
        }
        Kind::Join => {
            let start = start_word(words)?;
            Ok(Line::OnDesk(DeskLine::Join { start }))
        }
        Kind::Next => {
            let seat = u32_word(words)?;
            let limit = u32_word(words)?;
            Ok(Line::OnDesk(DeskLine::Next { seat, limit }))
        }
        Kind::Seek => {
            let seat = u32_word(words)?;
            let count = u64_word(words)?;
            Ok(Line::OnDesk(DeskLine::Seek { seat, count }))
        }
        Kind::Leave => {
            let seat = u32_word(words)?;
            Ok(Line::OnDesk(DeskLine::Leave { seat }))
        }
    }
}

#[tactic(auto, unfolding(crate::specs::Reading::command_at))]
fn line(alloc: Global, text: &[u8]) -> Result<Line, LineFault>
    ensures read { GivesLine result (command_at (parts text.now)) }
    ensures memory { result ≡ Err LineFault.NoMemory → TakesMemory text.now }
{
    let mut words = Words::of(text);
    let kind = kind_of(words.word()?).ok_or(LineFault::Bad)?;
    let line = rest_of_line(alloc, kind, &mut words)?;
    if !words.is_over() {
        return Err(LineFault::Bad);
    }
    Ok(line)
}

/// Reads one line, without its newline.
///
/// A line is words with single spaces between them: a space at either end, or two together, make it
/// bad. Numbers are decimal digits alone and fit their type. HEX is one word of hexadecimal digits
/// or more, joined before they are judged. A name is one word of any bytes. What follows the first
/// word is as the variants of [`Line`] say.
///
/// Only a text that begins with `new`, `new2` or `host` takes memory.
pub fn read_line(alloc: Global, text: &[u8]) -> Result<Line, LineFault>
    // What is read is what the text spells.
    ensures spelled { IfOk result (λ line. Spells text.now (command_of line)) }
    ensures only { (command : Command) → Spells text.now command → IfOk result (λ line. command_of line ≡ command) }

    // A text that spells a line is not bad, and memory is wanted only for bytes.
    ensures bad { (command : Command) → result ≡ Err LineFault.Bad → Spells text.now command → ⊥ }
    ensures memory { result ≡ Err LineFault.NoMemory → TakesMemory text.now }
{
    line(alloc, text)
}

/// A text spells one line at most.
pub fn spells_one_line()
    ensures { (text : List ℕ) (a b : Command) → Spells text a → Spells text b → a ≡ b }
{}
