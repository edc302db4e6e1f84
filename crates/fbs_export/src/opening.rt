//! The opening of a stream, read in pieces.

ghost use Rattle.std.specs.Prelude.{◌≡◌, ◌≤◌, ◌<◌, ◌++◌, [], ℕ, List, length, take, drop, None, IfOk, IfErr, IfSome, MatchOption};
ghost use Rattle.terms.specs.Reading.{More};
ghost use Rattle.fbs_export.specs.Opening.{opening_at, named};
ghost use Rattle.fbs_export.specs.Reader.{IsDataFault, IsInHead, IsInName, IsInOpening, IsOpened, name_in};

use crate::fault::FbsFault;
use crate::judge::{Announced, judge};
use std::alloc::Global;
use terms::{NoMemory, ScreenSize};

// Of a longer name the first bytes are kept.
const NAME_LIMIT: usize = 1_024;

/// A name that comes: what stood in front of it, how many of its bytes are to come, and those that
/// are kept of it.
#[derive(Drop)]
pub struct Name {
    pub announced: Announced,
    pub left: u32,
    pub kept: Vec<u8>,
}

/// How much of the opening a stream has brought: the bytes in front of the name, and once these are
/// whole, the name.
#[derive(Drop)]
pub struct OpeningReader {
    pub alloc: Global,
    pub head: Vec<u8>,
    pub name: Option<Name>,
}

/// What stands in front of the name is whole after so many bytes of a piece.
#[derive(Clone, Copy)]
pub struct Begun {
    pub taken: usize,
    pub announced: Announced,
}

/// The opening is whole after so many bytes of a piece, for a screen of this size.
#[derive(Clone, Copy)]
pub struct Whole {
    pub taken: usize,
    pub size: ScreenSize,
}

impl Name {
    fn new(alloc: Global, announced: Announced) -> Name
        ensures announced { result.announced ≡ announced }
        ensures left { result.left ≡ announced.count }
        ensures none { result.kept.items ≡ [] }
    {
        Name {
            announced,
            left: announced.count,
            kept: Vec::new(alloc),
        }
    }

    // Takes bytes of a piece up to the name's end.
    fn take(&mut self, piece: &[u8]) -> Result<Option<Whole>, NoMemory>
        ensures goes { IfOk result (λ o. (s : List ℕ) → IsInName self.old s → MatchOption o
            (IsInName self.new (s ++ piece.now) × (0 < self.new.left))
            (λ w. IsOpened w.size.width w.size.height self.new.kept.items (s ++ take w.taken piece.now))) }
        ensures within { IfOk result (λ o. IfSome o (λ w. w.taken ≤ length piece.now)) }
    {
        let came = piece.len().min(self.left as usize);
        let kept = came.min(NAME_LIMIT.saturating_sub(self.kept.len()));
        self.kept.extend_from_slice(&piece[..kept])?;
        self.left -= came as u32;
        if self.left > 0 {
            return Ok(None);
        }
        Ok(Some(Whole {
            taken: came,
            size: self.announced.size,
        }))
    }
}

// Takes bytes of a piece up to the name.
fn take_head(head: &mut Vec<u8>, piece: &[u8]) -> Result<Option<Begun>, FbsFault>
    ensures goes { IfOk result (λ o. (s : List ℕ) → IsInHead head.old.items s → MatchOption o
        (IsInHead head.new.items (s ++ piece.now))
        (λ b. (more : List ℕ) → opening_at ((s ++ take b.taken piece.now) ++ more)
        ≡ named b.announced.size.width b.announced.size.height b.announced.count more)) }
    ensures within { IfOk result (λ o. IfSome o (λ b. b.taken ≤ length piece.now)) }
    ensures fault { IfErr result (λ f. (s : List ℕ) → IsInHead head.old.items s → IsDataFault (s ++ piece.now) f) }
{
    for taken in 0..piece.len() {
        head.extend_from_slice(&piece[taken..taken + 1])?;
        if let Some(announced) = judge(head)? {
            return Ok(Some(Begun {
                taken: taken + 1,
                announced,
            }));
        }
    }
    Ok(None)
}

impl OpeningReader {
    /// The start of a stream.
    pub fn new(alloc: Global) -> OpeningReader
        ensures start { IsInOpening result [] }
        ensures name { result.name ≡ None }
    {
        OpeningReader {
            alloc,
            head: Vec::new(alloc),
            name: None,
        }
    }

    /// Takes a piece, up to the end of the opening.
    pub fn take(&mut self, piece: &[u8]) -> Result<Option<Whole>, FbsFault>
        ensures goes { IfOk result (λ o. (s : List ℕ) → IsInOpening self.old s → MatchOption o
            (IsInOpening self.new (s ++ piece.now))
            (λ w. IsOpened w.size.width w.size.height (name_in self.new.name) (s ++ take w.taken piece.now))) }
        ensures within { IfOk result (λ o. IfSome o (λ w. w.taken ≤ length piece.now)) }
        ensures fault { IfErr result (λ f. (s : List ℕ) → IsInOpening self.old s → IsDataFault (s ++ piece.now) f) }
    {
        if let Some(name) = &mut self.name {
            let whole = name.take(piece)?;
            return Ok(whole);
        }
        let Some(begun) = take_head(&mut self.head, piece)? else {
            return Ok(None);
        };
        let mut name = Name::new(self.alloc, begun.announced);
        let whole = name.take(&piece[begun.taken..])?;
        self.name = Some(name);
        let Some(whole) = whole else {
            return Ok(None);
        };
        Ok(Some(Whole {
            taken: begun.taken + whole.taken,
            size: whole.size,
        }))
    }

    /// The name, as far as it is kept.
    pub fn into_name(self, alloc: Global) -> Vec<u8>
        ensures { result.items ≡ name_in self.name }
    {
        let OpeningReader {
            alloc: _,
            head: _,
            name,
        } = self;
        let Some(name) = name else {
            return Vec::new(alloc);
        };
        let Name {
            announced: _,
            left: _,
            kept,
        } = name;
        kept
    }
}
