//! Which connections are served: few at a time.

ghost use Rattle.std.specs.Prelude.{◌≡◌, ◌≤◌, ◌+◌, ◌<◌, ◌^◌, ◌++◌, ◌∷◌, [], ℕ, List, None, Some, false, length, position, remove, slice_get, slice_set};
ghost use Rattle.web_lobby.specs.Guests.{gives_way, has_number, most};
ghost use Rattle.web_lobby.specs.declared.guests.Guest.{Guest as GuestValue};

use arrayvec::ArrayVec;
use std::marker::Model;

/// How many connections are served at a time.
const MOST: usize = 128;

/// For how many milliseconds a connection may say nothing before it gives way to another.
const PATIENCE: u64 = 1000;

/// How far a connection has come.
#[derive(Clone, Copy, Debug, Default, PartialEq, Eq)]
pub enum Progress {
    /// Its request isn't whole yet.
    #[default]
    Asking,
    /// Its request is whole, and it is answered.
    Answered,
    /// Its answer is written; only its end is waited for.
    Over,
}

/// A connection that is served.
#[derive(Clone, Copy, Debug, Default, PartialEq, Eq)]
pub struct Guest {
    /// Its number. Each connection of a server has another one.
    pub number: u64,
    /// When something came from it last, or it came itself, in milliseconds of the server.
    pub heard: u64,
    pub progress: Progress,
}

/// How a new connection is received.
#[derive(Clone, Copy, Debug, PartialEq, Eq)]
pub enum Entrance {
    /// It is served.
    Free,
    /// It is served, and the one of this number no more.
    InPlaceOf(u64),
    /// It isn't served.
    Full,
}

/// The connections that are served, in the order in which they came. Contracts see their list.
#[derive(Drop)]
pub struct Guests {
    guests: ArrayVec<Guest, MOST>,
}

impl Model for Guests {
    ghost use Rattle.std.specs.Prelude.{List};
    ghost use Rattle.web_lobby.specs.declared.guests.Guest.{Guest};

    ghost Value = { List Guest };

    ghost view = { λ g. g.guests.items };
}

// Whether a connection gives way to another at this time.
fn gives_way(guest: &Guest, now: u64) -> bool
    ensures { result ≡ gives_way now guest.now }
{
    match guest.progress {
        Progress::Asking => now.saturating_sub(guest.heard) >= PATIENCE,
        Progress::Answered => false,
        Progress::Over => true,
    }
}

impl Guests {
    /// Nobody is served.
    pub fn new() -> Guests
        ensures { result ≡ [] }
    {
        Guests {
            guests: ArrayVec::new(),
        }
    }

    // The index of the connection of this number.
    fn position_of(&self, number: u64) -> Option<usize>
        ensures { result ≡ position (has_number number) self.now }
    {
        self.guests.iter().position(|guest| guest.number == number)
    }

    // The index of the first connection that gives way at this time.
    fn first_to_go(&self, now: u64) -> Option<usize>
        ensures { result ≡ position (gives_way now) self.now }
    {
        self.guests.iter().position(|guest| gives_way(guest, now))
    }

    /// Receives a connection of this number at this time. If as many as may be are served, it
    /// replaces the first whose answer is written, or that has said nothing for a second, without a
    /// whole request.
    pub fn enter(&mut self, number: u64, now: u64) -> Entrance
        ensures free { length self.old < most → (result ≡ Entrance.Free)
            × (self.new ≡ self.old ++ record { number = number; heard = now; progress = Progress.Asking } ∷ []) }
        ensures in_place { (i : ℕ) (gone : GuestValue) → most ≤ length self.old → position (gives_way now) self.old ≡ Some i
            → slice_get self.old i ≡ Some gone → (result ≡ Entrance.InPlaceOf gone.number)
            × (self.new ≡ remove self.old i ++ record { number = number; heard = now; progress = Progress.Asking } ∷ []) }
        ensures full { most ≤ length self.old → position (gives_way now) self.old ≡ None → (result ≡ Entrance.Full) × (self.new ≡ self.old) }
    {
        let guest = Guest {
            number,
            heard: now,
            progress: Progress::Asking,
        };
        if !self.guests.is_full() {
            self.guests.push(guest);
            return Entrance::Free;
        }
        match self.first_to_go(now) {
            Some(index) => {
                let gone = self.guests[index].number;
                self.guests.remove(index);
                self.guests.push(guest);
                Entrance::InPlaceOf(gone)
            }
            None => Entrance::Full,
        }
    }

    /// Notes that the connection of this number has come so far at this time. One that isn't served
    /// any more is passed over.
    pub fn note(&mut self, number: u64, now: u64, progress: Progress)
        ensures noted { (i : ℕ) → position (has_number number) self.old ≡ Some i
            → self.new ≡ slice_set self.old i (record { number = number; heard = now; progress = progress }) }
        ensures gone { position (has_number number) self.old ≡ None → self.new ≡ self.old }
    {
        if let Some(position) = self.position_of(number) {
            self.guests[position] = Guest {
                number,
                heard: now,
                progress,
            };
        }
    }

    /// Ends the service of the connection of this number, if it is served still.
    pub fn leave(&mut self, number: u64)
        ensures left { (i : ℕ) → position (has_number number) self.old ≡ Some i → self.new ≡ remove self.old i }
        ensures gone { position (has_number number) self.old ≡ None → self.new ≡ self.old }
    {
        if let Some(position) = self.position_of(number) {
            self.guests.remove(position);
        }
    }
}
