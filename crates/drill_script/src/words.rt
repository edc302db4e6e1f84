//! The words of a line, one after the other.

ghost use Rattle.std.specs.Prelude.{◌≡◌, ◌==◌, ◌↔◌, ◌∷◌, [], IsTrue, Some, position};
ghost use Rattle.std.specs.Option.{option_map_or};
ghost use Rattle.drill_script.specs.Reading.{parts, Reads, word_at, kind_by};

use crate::fault::LineFault;
use std::marker::Model;

/// What kind of line it is, as its first word says.
#[derive(Clone, Copy)]
pub(crate) enum Kind {
    New,
    NewChained,
    Host,
    Take,
    Body,
    Gate,
    Open,
    Pixel,
    Fail,
    Stop,
    Join,
    Next,
    Seek,
    Leave,
}

/// The kinds of lines.
const KINDS: [Kind; 14] = [
    Kind::New,
    Kind::NewChained,
    Kind::Host,
    Kind::Take,
    Kind::Body,
    Kind::Gate,
    Kind::Open,
    Kind::Pixel,
    Kind::Fail,
    Kind::Stop,
    Kind::Join,
    Kind::Next,
    Kind::Seek,
    Kind::Leave,
];

impl Kind {
    ghost use Rattle.drill_script.specs.Reading.{keyword};

    // The word that a line of this kind begins with.
    fn keyword(self) -> &'static [u8]
        ensures { result.now ≡ keyword self }
    {
        match self {
            Kind::New => b"new",
            Kind::NewChained => b"new2",
            Kind::Host => b"host",
            Kind::Take => b"take",
            Kind::Body => b"body",
            Kind::Gate => b"gate",
            Kind::Open => b"open",
            Kind::Pixel => b"pixel",
            Kind::Fail => b"fail",
            Kind::Stop => b"stop",
            Kind::Join => b"join",
            Kind::Next => b"next",
            Kind::Seek => b"seek",
            Kind::Leave => b"leave",
        }
    }
}

// The kind of line that begins with a word.
pub(crate) fn kind_of(word: &[u8]) -> Option<Kind>
    ensures { result ≡ kind_by word.now }
{
    for kind in KINDS {
        if word == kind.keyword() {
            return Some(kind);
        }
    }
    None
}

fn first_space(text: &[u8]) -> Option<usize>
    ensures { result ≡ position (λ byte. byte == 32) text.now }
{
    text.iter().position(|byte| *byte == b' ')
}

// The part before the first space, and the text after it.
fn split_part(text: &[u8]) -> (&[u8], Option<&[u8]>)
    ensures { parts text.now ≡ result.0.now ∷ option_map_or (λ rest. parts rest.now) result.1 [] }
{
    match first_space(text) {
        None => (text, None),
        Some(end) => (&text[..end], Some(&text[end + 1..])),
    }
}

/// The words of a line that are still to be read.
#[derive(Drop)]
pub(crate) struct Words<'a> {
    rest: Option<&'a [u8]>,
}

impl<'a> Model for Words<'a> {
    ghost use Rattle.std.specs.Prelude.{ℕ, List, []};
    ghost use Rattle.std.specs.Option.{option_map_or};
    ghost use Rattle.drill_script.specs.Reading.{parts};

    ghost Value = { List (List ℕ) };

    ghost view = { λ words. option_map_or (λ rest. parts rest.now) words.rest [] };
}

impl<'a> Words<'a> {
    /// The words of a line's text.
    pub(crate) fn of(text: &'a [u8]) -> Self
        ensures { result ≡ parts text.now }
    {
        Words { rest: Some(text) }
    }

    /// Whether no word is left.
    pub(crate) fn is_over(&self) -> bool
        ensures { IsTrue result ↔ (self.now ≡ []) }
    {
        self.rest.is_none()
    }

    /// The next word. It's bad if none is left, or two spaces meet.
    pub(crate) fn word(&mut self) -> Result<&'a [u8], LineFault>
        ensures { Reads (λ word. word.now) result self.new (word_at self.old) }
    {
        let text = self.rest.ok_or(LineFault::Bad)?;
        let (word, rest) = split_part(text);
        self.rest = rest;
        if word.is_empty() {
            return Err(LineFault::Bad);
        }
        Ok(word)
    }
}
