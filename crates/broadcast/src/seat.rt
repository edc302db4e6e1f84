//! A viewer's position in the recording.

ghost use Rattle.std.specs.Prelude.{◌≡◌};
ghost use Rattle.broadcast.specs.Seats.{SeatState};

use std::marker::Model;

/// The position at which a viewer begins.
#[derive(Clone, Copy, Debug, PartialEq, Eq)]
pub enum Start {
    /// After the committed messages: what is committed from now on.
    Live,
    /// After so many committed messages.
    At(u64),
}

/// What a desk keeps of a seat: how many messages stand before the next one that it is handed, and
/// whether that comes with the screen there.
#[derive(Clone, Copy, Debug, PartialEq, Eq)]
pub struct Cursor {
    pub position: u64,
    pub fresh: bool,
}

/// A seat that was just taken: its number, from 0, and its position, the number of messages before
/// the next one.
#[derive(Clone, Copy, Debug, PartialEq, Eq)]
pub struct Seated {
    pub number: u32,
    pub position: u64,
}

/// A viewer's seat at a desk: its number, its position, and whether it is fresh. It is made by
/// `join` alone, and given back by `leave`. Contracts see the three.
#[derive(Debug, Drop)]
pub struct Seat {
    number: u32,
    cursor: Cursor,
}

impl Model for Seat {
    ghost Value = { SeatState };

    ghost view = { λ s. record { number = s.number; position = s.cursor.position; fresh = s.cursor.fresh } };
}

impl Seat {
    /// A seat of this number, at this position.
    pub(crate) fn new(number: u32, cursor: Cursor) -> Seat
        ensures { result ≡ record { number = number; position = cursor.position; fresh = cursor.fresh } }
    {
        Seat { number, cursor }
    }

    /// The seat's number, from 0.
    pub fn number(&self) -> u32
        ensures { result ≡ self.now.number }
    {
        self.number
    }

    /// How many messages stand before the next one that it is handed.
    pub fn position(&self) -> u64
        ensures { result ≡ self.now.position }
    {
        self.cursor.position
    }

    /// Whether the next slice comes with the screen before it.
    pub fn is_fresh(&self) -> bool
        ensures { result ≡ self.now.fresh }
    {
        self.cursor.fresh
    }

    /// Its position, and whether it is fresh.
    pub(crate) fn cursor(&self) -> Cursor
        ensures { result ≡ record { position = self.now.position; fresh = self.now.fresh } }
    {
        self.cursor
    }

    /// Moves it.
    pub(crate) fn stand(&mut self, cursor: Cursor)
        ensures { self.new ≡ record { number = self.old.number; position = cursor.position; fresh = cursor.fresh } }
    {
        self.cursor = cursor;
    }
}
