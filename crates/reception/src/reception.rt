//! Who may watch, and when a recorder is done.

ghost use Rattle.std.specs.Prelude.{◌≡◌, ◌↔◌, ◌≤◌, ◌<◌, ◌+◌, ◌-◌, ◌^◌, ℕ, true, false, Some, IfErr, IsOk, OnErr, OnOk};
ghost use Rattle.reception.specs.State.{viewers_of, free_seats, missing, is_closing, is_done, arrival_at, takes_seat, reason_at};

use crate::term::{Arrival, Reason, Term};
use std::marker::Model;

/// Counts those who come to watch a recorder, and knows when it has nothing left to wait for.
/// Contracts see the counts.
#[derive(Drop)]
pub struct Reception {
    term: Term,
    seats: u32,
    greeting: u32,
    watching: u32,
    gone: u64,
    has_ended: bool,
    is_stopped: bool,
}

impl Model for Reception {
    ghost use Rattle.std.specs.Prelude.{◌≡◌, ◌≤◌, ◌+◌, ℕ, Some};
    ghost use Rattle.reception.specs.State.{State, viewers_of};

    ghost Value = { State };

    ghost view = { λ r. record {
      term = r.term;
      seats = r.seats;
      greeting = r.greeting;
      watching = r.watching;
      gone = r.gone;
      ended = r.has_ended;
      stopped = r.is_stopped;
    } };

    ghost invariant = { λ r. (r.greeting ≤ r.seats) × (r.watching ≤ r.seats)
        × ((n : ℕ) → viewers_of r.term ≡ Some n → r.watching + r.gone ≤ n) };
}

impl Reception {
    /// One that nobody came to yet, of a recorder that goes on for so long and has so many seats: as
    /// many viewers may watch at a time, and as many handshakes be under way.
    pub fn new(term: Term, seats: u32) -> Reception
        ensures { result ≡ record { term = term; seats = seats; greeting = 0; watching = 0; gone = 0; ended = false; stopped = false } }
    {
        Reception {
            term,
            seats,
            greeting: 0,
            watching: 0,
            gone: 0,
            has_ended: false,
            is_stopped: false,
        }
    }

    /// Does nothing: its contract is what always holds. No more handshakes are under way, and no
    /// more viewers are there, than there are seats; and if a recorder serves so many viewers, no
    /// more ever had a seat.
    pub fn known(&self)
        ensures greeting { self.now.greeting ≤ self.now.seats }
        ensures watching { self.now.watching ≤ self.now.seats }
        ensures all { (n : ℕ) → viewers_of self.now.term ≡ Some n → self.now.watching + self.now.gone ≤ n }
    {
        let _watching = self.watching;
    }

    /// How many viewers are still to come, of those that are waited for.
    pub fn missing(&self) -> u32
        ensures { result ≡ missing self.now }
    {
        match self.term {
            Term::Viewers(all) => all - (self.watching + self.gone as u32),
            Term::Recording | Term::Stop => 0,
        }
    }

    // How many viewers may still take a seat.
    fn free_seats(&self) -> u32
        ensures { result ≡ free_seats self.now }
    {
        let empty = self.seats - self.watching;
        match self.term {
            Term::Viewers(_) => empty.min(self.missing()),
            Term::Recording | Term::Stop => empty,
        }
    }

    // Whether a viewer takes a seat now; else why it doesn't.
    fn has_seat(&self) -> Result<(), Reason>
        ensures has_seat { IsOk result ↔ (takes_seat self.now ≡ true) }
        ensures reason { IfErr result (λ reason. reason ≡ reason_at self.now) }
    {
        if self.is_closing() {
            return Err(Reason::Closing);
        }
        if self.free_seats() > 0 {
            return Ok(());
        }
        match self.term {
            Term::Viewers(_) if self.missing() == 0 => Err(Reason::Enough),
            _ => Err(Reason::Full),
        }
    }

    /// Whether no more viewers are taken, and those who are there are only shown the rest.
    pub fn is_closing(&self) -> bool
        ensures { result ≡ is_closing self.now }
    {
        self.is_stopped || (self.has_ended && self.term == Term::Recording)
    }

    /// Whether nothing is left to wait for: nothing more is recorded, nobody watches, and no viewer
    /// is to come.
    pub fn is_done(&self) -> bool
        ensures { result ≡ is_done self.now }
    {
        if !self.has_ended || self.watching != 0 {
            return false;
        }
        match self.term {
            Term::Viewers(all) => self.is_closing() || self.gone == u64::from(all),
            Term::Recording | Term::Stop => self.is_closing(),
        }
    }

    /// Receives a connection. Unless it is dropped its handshake is under way then.
    pub fn arrive(&mut self) -> Arrival
        ensures result { result ≡ arrival_at self.old }
        ensures dropped { result ≡ Arrival.Dropped → self.new ≡ self.old }
        ensures received { self.old.greeting < self.old.seats → self.new ≡ record self.old { greeting = self.old.greeting + 1 } }
    {
        if self.greeting == self.seats {
            return Arrival::Dropped;
        }
        self.greeting += 1;
        match self.has_seat() {
            Ok(()) => Arrival::Greeted,
            Err(reason) => Arrival::TurnedAway(reason),
        }
    }

    /// Ends a handshake without a viewer, which takes up nothing. If none is under way it does
    /// nothing.
    pub fn give_up(&mut self)
        ensures { self.new ≡ record self.old { greeting = self.old.greeting - 1 } }
    {
        self.greeting = self.greeting.saturating_sub(1);
    }

    /// Ends a handshake that is whole: the viewer takes a seat if one is free, also when others
    /// came first since it arrived; else this is why not.
    pub fn seat(&mut self) -> Result<(), Reason>
        ensures taken { IsOk result ↔ (takes_seat self.old ≡ true) }
        ensures reason { IfErr result (λ reason. reason ≡ reason_at self.old) }
        ensures seated { OnOk result (self.new ≡ record self.old { greeting = self.old.greeting - 1; watching = self.old.watching + 1 }) }
        ensures refused { OnErr result (self.new ≡ record self.old { greeting = self.old.greeting - 1 }) }
    {
        self.give_up();
        self.has_seat()?;
        self.watching += 1;
        Ok(())
    }

    /// Frees the seat of a viewer who left. If nobody watches it does nothing. More than 2^64 - 1
    /// who left aren't counted.
    pub fn leave(&mut self)
        ensures nobody { self.old.watching ≡ 0 → self.new ≡ self.old }
        ensures left { 0 < self.old.watching → self.old.gone + 1 < 2 ^ 64
            → self.new ≡ record self.old { watching = self.old.watching - 1; gone = self.old.gone + 1 } }
        ensures uncounted { 0 < self.old.watching → self.old.gone + 1 ≡ 2 ^ 64
            → self.new ≡ record self.old { watching = self.old.watching - 1 } }
    {
        if self.watching == 0 {
            return;
        }
        self.watching -= 1;
        self.gone = self.gone.saturating_add(1);
    }

    /// Says that nothing more is recorded.
    pub fn end(&mut self)
        ensures { self.new ≡ record self.old { ended = true } }
    {
        self.has_ended = true;
    }

    /// Asks the recorder to end.
    pub fn stop(&mut self)
        ensures { self.new ≡ record self.old { stopped = true } }
    {
        self.is_stopped = true;
    }
}
