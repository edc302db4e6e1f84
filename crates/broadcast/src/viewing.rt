//! The four steps of a viewer: it takes a seat, is handed slices, moves, and leaves.

ghost use Rattle.std.specs.Prelude.{◌≡◌, ◌≢◌, ◌↔◌, ◌+◌, ◌-◌, ◌<◌, ◌≤◌, length, take, drop, min, IsTrue, IfOk, IfSome, OnOk, OnErr, Err, Some, None, true, false};
ghost use Rattle.disk.specs.History.{LeavesNow};

use crate::desk::Desk;
use crate::refusal::{JoinRefusal, LeaveRefusal, NextRefusal, SeekRefusal, next_refusal};
use crate::seat::{Cursor, Seat, Start};
use disk::Disk;
use replay::Slice;

impl<D: Disk> Desk<D> {
    ghost use Rattle.flusher_core.specs.State.{committed_of};
    ghost use Rattle.flusher_core.specs.Book.{OnlyReads};
    ghost use Rattle.replay.specs.Slices.{IsSized, Stands, KeepsSlice};
    ghost use Rattle.broadcast.specs.declared.step.Step.TheVariants as step;
    ghost use Rattle.broadcast.specs.declared.step.Reply.TheVariants as reply;
    ghost use Rattle.broadcast.specs.Headline.{GoesOn};
    ghost use Rattle.broadcast.specs.Seats.{IsHeld, book_of, seat_at, seated_of};
    ghost use Rattle.keyed_entries.specs.Entry.{body_size};
    ghost use Rattle.key_index.specs.Parts.{IsPortion};
    ghost use Rattle.broadcast.specs.Steps.{handed_in, IsNext, IsSeek, IsLeave, IsStep, start_at};

    /// Takes the lowest free seat, fresh, at the committed messages' end or after so many of them.
    /// The first refusal that holds is answered: `NoSeat` if all are taken, `NotCommitted` if fewer
    /// messages are committed; all stays as it was.
    pub fn join(&mut self, start: Start) -> Result<Seat, JoinRefusal>
        ensures step { IsStep self.old.head self.old.state (step.Join start) (reply.Join (seated_of result)) self.new.state }
        ensures goes_on { GoesOn D.is_modelled D.history self.old self.new }
        ensures held { IfOk result (λ seat. IsHeld self.new.state.seats seat × IsTrue seat.fresh) }
        ensures position { IfOk result (λ seat. seat.position ≡ start_at self.old.state.book.committed start) }
        ensures disk { self.new.disk ≡ self.old.disk }
        ensures refused { OnErr result (self.new ≡ self.old) }
    {
        self.known();
        let Some(number) = self.seats.first_free() else {
            return Err(JoinRefusal::NoSeat);
        };
        let committed = self.book.committed();
        let position = match start {
            Start::Live => committed,
            Start::At(n) => n,
        };
        if position > committed {
            return Err(JoinRefusal::NotCommitted);
        }
        let cursor = Cursor {
            position,
            fresh: true,
        };
        self.seats.set(number, Some(cursor));
        Ok(Seat::new(number, cursor))
    }

    // Whether the desk keeps just what the seat carries.
    pub(crate) fn keeps(&self, seat: &Seat) -> bool
        ensures { IsTrue result ↔ IsHeld self.now.state.seats seat.now }
    {
        match self.seats.at(seat.number()) {
            None => false,
            Some(cursor) => cursor.position == seat.position() && cursor.fresh == seat.is_fresh(),
        }
    }

    // The slice of a seat that is kept; of no more messages than take so many bytes, if there is a
    // bound.
    pub(crate) fn hand(
        &mut self,
        number: u32,
        cursor: Cursor,
        limit: u32,
        bytes: Option<u32>,
    ) -> Result<Slice, NextRefusal>
        requires { seat_at self.old.state.seats number ≡ Some cursor }
        ensures step { D.is_modelled → IsNext self.old.head self.old.state number (handed_in limit result) result self.new.state }
        ensures portion { D.is_modelled → IfOk result (λ slice. IsPortion bytes (take limit (drop cursor.position (committed_of self.old.state.book))) (length slice.messages.items)) }
        ensures goes_on { GoesOn D.is_modelled D.history self.old self.new }
        ensures sized { IfOk result (λ slice. IsSized self.old.head cursor.position (length slice.messages.items) cursor.fresh self.old.state.book.committed slice) }
        ensures few { IfOk result (λ slice. length slice.messages.items ≤ min limit (self.old.state.book.committed - cursor.position)) }
        ensures some { IfOk result (λ slice. 0 < min limit (self.old.state.book.committed - cursor.position) → 1 ≤ length slice.messages.items) }
        ensures whole { bytes ≡ None → IfOk result (λ slice. length slice.messages.items ≡ min limit (self.old.state.book.committed - cursor.position)) }
        ensures fits { IfSome bytes (λ bytes. IfOk result (λ slice. 1 < length slice.messages.items → body_size slice.messages.items ≤ bytes)) }
        ensures within { IfOk result (λ slice. slice.first + length slice.messages.items ≤ self.old.state.book.committed) }
        ensures stands { D.is_modelled → IfOk result (λ slice. Stands self.old.head (committed_of self.old.state.book) slice) }
        ensures handed { D.is_modelled → IfOk result (λ slice. LeavesNow (D.history self.new.disk) (KeepsSlice self.old.head slice)) }
        ensures moved { IfOk result (λ slice. seat_at self.new.state.seats number ≡ Some (record { position = slice.first + length slice.messages.items; fresh = false })) }
        ensures only { OnlyReads D.is_modelled D.history (book_of self.old) (book_of self.new) }
        ensures seated { result ≢ Err NextRefusal.NotSeated }
        ensures refused { OnErr result (self.new.state.seats ≡ self.old.state.seats) }
    {
        self.known();
        match self
            .book
            .portion(cursor.position, limit, bytes, cursor.fresh)
        {
            Ok(slice) => {
                let position = slice.end();
                self.seats.set(
                    number,
                    Some(Cursor {
                        position,
                        fresh: false,
                    }),
                );
                Ok(slice)
            }
            Err(fault) => Err(next_refusal(fault)),
        }
    }

    /// The committed messages from the seat's position on, `limit` of them at most, and to a fresh
    /// seat the screen before them; the seat is then at their end, and fresh no more. The first
    /// refusal that holds is answered: `NotSeated` if the desk doesn't keep just what the seat
    /// carries, `NoMemory`, `Device`; each leaves the seat and all else as it was.
    pub fn next(&mut self, seat: &mut Seat, limit: u32) -> Result<Slice, NextRefusal>
        ensures step { D.is_modelled → IsHeld self.old.state.seats seat.old → IsStep self.old.head self.old.state (step.Next seat.old.number limit) (reply.Next result) self.new.state }
        ensures goes_on { GoesOn D.is_modelled D.history self.old self.new }
        ensures sized { IfOk result (λ slice. IsSized self.old.head seat.old.position limit seat.old.fresh self.old.state.book.committed slice) }
        ensures within { IfOk result (λ slice. slice.first + length slice.messages.items ≤ self.old.state.book.committed) }
        ensures stands { D.is_modelled → IfOk result (λ slice. Stands self.old.head (committed_of self.old.state.book) slice) }
        ensures handed { D.is_modelled → IfOk result (λ slice. LeavesNow (D.history self.new.disk) (KeepsSlice self.old.head slice)) }
        ensures moved { IfOk result (λ slice. seat.new ≡ record { number = seat.old.number; position = slice.first + length slice.messages.items; fresh = false }) }
        ensures held { OnOk result (IsHeld self.new.state.seats seat.new) }
        ensures number { seat.new.number ≡ seat.old.number }
        ensures was_held { OnOk result (IsHeld self.old.state.seats seat.old) }
        ensures only { OnlyReads D.is_modelled D.history (book_of self.old) (book_of self.new) }
        ensures not_seated { (result ≡ Err NextRefusal.NotSeated) ↔ (IsHeld self.old.state.seats seat.old → ⊥) }
        ensures unheld { result ≡ Err NextRefusal.NotSeated → self.new ≡ self.old }
        ensures refused { OnErr result ((self.new.state.seats ≡ self.old.state.seats) × (seat.new ≡ seat.old)) }
    {
        self.known();
        if !self.keeps(seat) {
            return Err(NextRefusal::NotSeated);
        }
        let slice = self.hand(seat.number(), seat.cursor(), limit, None)?;
        seat.stand(Cursor {
            position: slice.end(),
            fresh: false,
        });
        Ok(slice)
    }

    // The same by a seat's number, from the position that the desk keeps.
    pub(crate) fn next_at(&mut self, number: u32, limit: u32) -> Result<Slice, NextRefusal>
        ensures step { D.is_modelled → IsNext self.old.head self.old.state number limit result self.new.state }
        ensures goes_on { GoesOn D.is_modelled D.history self.old self.new }
        ensures stands { D.is_modelled → IfOk result (λ slice. Stands self.old.head (committed_of self.old.state.book) slice) }
    {
        self.known();
        match self.seats.at(number) {
            None => Err(NextRefusal::NotSeated),
            Some(cursor) => self.hand(number, cursor, limit, None),
        }
    }

    /// Moves a seat to position `n` in the committed messages, and makes it fresh. The first
    /// refusal that holds is answered: `NotSeated` if the desk doesn't keep just what the seat
    /// carries, `NotCommitted` if fewer are committed; each leaves the seat and all else as it was.
    pub fn seek(&mut self, seat: &mut Seat, n: u64) -> Result<(), SeekRefusal>
        ensures step { IsHeld self.old.state.seats seat.old → IsStep self.old.head self.old.state (step.Seek seat.old.number n) (reply.Seek result) self.new.state }
        ensures goes_on { GoesOn D.is_modelled D.history self.old self.new }
        ensures moved { OnOk result (seat.new ≡ record { number = seat.old.number; position = n; fresh = true }) }
        ensures held { OnOk result (IsHeld self.new.state.seats seat.new) }
        ensures number { seat.new.number ≡ seat.old.number }
        ensures was_held { OnOk result (IsHeld self.old.state.seats seat.old) }
        ensures disk { self.new.disk ≡ self.old.disk }
        ensures not_seated { (result ≡ Err SeekRefusal.NotSeated) ↔ (IsHeld self.old.state.seats seat.old → ⊥) }
        ensures refused { OnErr result ((self.new ≡ self.old) × (seat.new ≡ seat.old)) }
    {
        self.known();
        if !self.keeps(seat) {
            return Err(SeekRefusal::NotSeated);
        }
        self.seek_at(seat.number(), n)?;
        seat.stand(Cursor {
            position: n,
            fresh: true,
        });
        Ok(())
    }

    // The same by a seat's number.
    pub(crate) fn seek_at(&mut self, number: u32, n: u64) -> Result<(), SeekRefusal>
        ensures step { IsSeek self.old.state number n result self.new.state }
        ensures goes_on { GoesOn D.is_modelled D.history self.old self.new }
        ensures moved { OnOk result (seat_at self.new.state.seats number ≡ Some (record { position = n; fresh = true })) }
        ensures disk { self.new.disk ≡ self.old.disk }
        ensures refused { OnErr result (self.new ≡ self.old) }
    {
        self.known();
        if self.seats.at(number).is_none() {
            return Err(SeekRefusal::NotSeated);
        }
        if n > self.book.committed() {
            return Err(SeekRefusal::NotCommitted);
        }
        self.seats.set(
            number,
            Some(Cursor {
                position: n,
                fresh: true,
            }),
        );
        Ok(())
    }

    /// Gives a seat back, which is free then. `NotSeated` is answered if the desk doesn't keep just
    /// what the seat carries: the desk's seats stay as they were, and the seat handed in is used
    /// up.
    pub fn leave(&mut self, seat: Seat) -> Result<(), LeaveRefusal>
        ensures step { IsHeld self.old.state.seats seat → IsStep self.old.head self.old.state (step.Leave seat.number) (reply.Leave result) self.new.state }
        ensures goes_on { GoesOn D.is_modelled D.history self.old self.new }
        ensures was_held { OnOk result (IsHeld self.old.state.seats seat) }
        ensures disk { self.new.disk ≡ self.old.disk }
        ensures not_seated { (result ≡ Err LeaveRefusal.NotSeated) ↔ (IsHeld self.old.state.seats seat → ⊥) }
        ensures refused { OnErr result (self.new ≡ self.old) }
    {
        self.known();
        if !self.keeps(&seat) {
            return Err(LeaveRefusal::NotSeated);
        }
        self.leave_at(seat.number())
    }

    // The same by a seat's number.
    pub(crate) fn leave_at(&mut self, number: u32) -> Result<(), LeaveRefusal>
        ensures step { IsLeave self.old.state number result self.new.state }
        ensures goes_on { GoesOn D.is_modelled D.history self.old self.new }
        ensures disk { self.new.disk ≡ self.old.disk }
        ensures refused { OnErr result (self.new ≡ self.old) }
    {
        self.known();
        if self.seats.at(number).is_none() {
            return Err(LeaveRefusal::NotSeated);
        }
        self.seats.set(number, None);
        Ok(())
    }
}
