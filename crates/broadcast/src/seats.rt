//! The seats of a desk.

ghost use Rattle.std.specs.Prelude.{◌≡◌, ◌<◌, List, Option, IfSome, MatchOption, Some, None, length};
ghost use Rattle.terms.specs.Limits.{limits};

use crate::seat::Cursor;
use arrayvec::ArrayVec;
use std::marker::Model;
use terms::Format;

// The most seats that any format allows: written out, since a type's length takes no call.
const MOST_SEATS: usize = 256;

/// The seats of a desk, by their numbers. Contracts see the list of what is kept of each.
#[derive(Drop)]
pub struct Seats {
    cursors: ArrayVec<Option<Cursor>, MOST_SEATS>,
}

impl Model for Seats {
    ghost use Rattle.std.specs.Prelude.{List, Option};
    ghost use Rattle.broadcast.specs.declared.seat.Cursor.{Cursor};

    ghost Value = { List (Option Cursor) };

    ghost view = { λ s. s.cursors.items };
}

impl Seats {
    ghost use Rattle.broadcast.specs.Seats.{seat_at, with_seat, first_free, AreFree};

    /// As many as a recording of this format allows, all free.
    pub fn new(format: Format) -> Seats
        ensures free { AreFree result }
        ensures all { length result ≡ (limits format).seats }
    {
        let mut cursors = ArrayVec::new();
        for _ in 0..format.limits().seats {
            cursors.push(None);
        }
        Seats { cursors }
    }

    /// What is kept of a seat.
    pub fn at(&self, number: u32) -> Option<Cursor>
        ensures { result ≡ seat_at self.now number }
    {
        let number = number as usize;
        if number < self.cursors.len() {
            self.cursors[number]
        } else {
            None
        }
    }

    /// The number of the first free seat.
    pub fn first_free(&self) -> Option<u32>
        ensures free { result ≡ first_free self.now }
        ensures within { IfSome result (λ n. n < length self.now) }
    {
        for number in 0..self.cursors.len() {
            if self.cursors[number].is_none() {
                return Some(number as u32);
            }
        }
        None
    }

    /// Keeps this of a seat.
    pub fn set(&mut self, number: u32, cursor: Option<Cursor>)
        requires { number < length self.old }
        ensures { self.new ≡ with_seat self.old number cursor }
    {
        self.cursors[number as usize] = cursor;
    }
}
