//! A host's handshake, heard in pieces.

ghost use Rattle.std.specs.Prelude.{◌≡◌, ℕ, ◌≤◌, List, [], length, IfOk, IfErr, Option};
ghost use Rattle.host_session.specs.Stage.{wants_of, IsWithin};
ghost use Rattle.host_session.specs.Take.{IsTaking, IsTaken, IsRefused};
ghost use Rattle.host_session.specs.declared.expected.ExpectedScreen.{ExpectedScreen};

use crate::expected::ExpectedScreen;
use crate::fault::HostFault;
use crate::stage::{Position, Stage, following};
use std::alloc::Global;
use terms::ScreenSize;

/// How far the session is in the handshake: what comes next, and the bytes that are kept of it.
#[derive(Drop)]
pub struct Handshake {
    pub position: Position,
    pub kept: Vec<u8>,
}

/// What came of some bytes of a piece.
#[derive(Clone, Copy)]
pub enum Taking {
    /// The piece is used up.
    Waits,
    /// So many bytes are taken.
    Goes(usize),
    /// The handshake is whole after so many bytes, for a screen of this size.
    Whole { taken: usize, size: ScreenSize },
}

/// A handshake that is whole after so many bytes of a piece, for a screen of this size.
#[derive(Clone, Copy)]
pub struct Whole {
    pub taken: usize,
    pub size: ScreenSize,
}

impl Handshake {
    /// The start of a stream.
    pub fn new(alloc: Global) -> Handshake
        ensures position { result.position ≡ Position.Field Stage.Version }
        ensures none { result.kept.items ≡ [] }
    {
        Handshake {
            position: Position::Field(Stage::Version),
            kept: Vec::new(alloc),
        }
    }

    // Takes bytes of a piece up to the end of a field.
    fn take_in_field(
        &mut self,
        expected: ExpectedScreen,
        stage: Stage,
        piece: &[u8],
        due: &mut Vec<u8>,
    ) -> Result<Taking, HostFault>
        requires position { self.old.position ≡ Position.Field stage }
        requires within { length self.old.kept.items ≤ wants_of stage }
        ensures taking { IfOk result (λ t. IsTaking expected self.old self.new piece.now
            due.old.items due.new.items t) }
        ensures faults { IfErr result (λ f. IsRefused expected self.old self.new piece.now
            due.old.items due.new.items f) }
    {
        let taken = piece.len().min(stage.wants() - self.kept.len());
        self.kept.extend_from_slice(&piece[..taken])?;
        if self.kept.len() < stage.wants() {
            return Ok(Taking::Waits);
        }
        let step = following(expected, stage, &self.kept)?;
        step.answer.write(due)?;
        if let Position::Field(_) = step.position {
            self.kept.clear();
        }
        self.position = step.position;
        Ok(Taking::Goes(taken))
    }

    // Takes bytes of a piece up to the name's end.
    fn take_in_rest(&mut self, size: ScreenSize, left: u32, piece: &[u8]) -> Taking
        requires position { self.old.position ≡ Position.Rest size left }
        ensures taking { (expected : ExpectedScreen) → (due : List ℕ)
            → IsTaking expected self.old self.new piece.now due due result }
    {
        if piece.len() < left as usize {
            self.position = Position::Rest {
                size,
                left: left - piece.len() as u32,
            };
            return Taking::Waits;
        }
        Taking::Whole {
            taken: left as usize,
            size,
        }
    }

    // Takes bytes of a piece up to the end of what comes next.
    fn take_some(
        &mut self,
        expected: ExpectedScreen,
        piece: &[u8],
        due: &mut Vec<u8>,
    ) -> Result<Taking, HostFault>
        requires { IsWithin self.old.position self.old.kept.items }
        ensures taking { IfOk result (λ t. IsTaking expected self.old self.new piece.now
            due.old.items due.new.items t) }
        ensures faults { IfErr result (λ f. IsRefused expected self.old self.new piece.now
            due.old.items due.new.items f) }
    {
        match self.position {
            Position::Field(stage) => self.take_in_field(expected, stage, piece, due),
            Position::Rest { size, left } => Ok(self.take_in_rest(size, left, piece)),
        }
    }

    /// Takes a piece, up to the handshake's end.
    pub fn take(
        &mut self,
        expected: ExpectedScreen,
        piece: &[u8],
        due: &mut Vec<u8>,
    ) -> Result<Option<Whole>, HostFault>
        requires { IsWithin self.old.position self.old.kept.items }
        ensures taken { IfOk result (λ o. IsTaken expected self.old self.new piece.now
            due.old.items due.new.items o) }
        ensures faults { IfErr result (λ f. IsRefused expected self.old self.new piece.now
            due.old.items due.new.items f) }
    {
        let mut rest = piece;
        'turns: loop {
            match self.take_some(expected, rest, due)? {
                Taking::Waits => return Ok(None),
                Taking::Goes(taken) => rest = &rest[taken..],
                Taking::Whole { taken, size } => {
                    return Ok(Some(Whole {
                        taken: piece.len() - rest.len() + taken,
                        size,
                    }));
                }
            }
        }
    }
}
