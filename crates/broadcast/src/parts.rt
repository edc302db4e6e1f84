//! What a viewer is handed at a time.

ghost use Rattle.std.specs.Prelude.{◌≡◌, ◌↔◌, ◌-◌, ◌<◌, ◌≤◌, length, take, drop, min, IfOk, IfSome, OnOk, OnErr, Err, false};
ghost use Rattle.disk.specs.History.{LeavesNow};

use crate::desk::Desk;
use crate::handed::Handed;
use crate::refusal::NextRefusal;
use crate::seat::{Cursor, Seat};
use disk::Disk;
use painter::Snapshot;

impl<D: Disk> Desk<D> {
    ghost use Rattle.keyed_entries.specs.Entry.{body_size};
    ghost use Rattle.key_index.specs.Parts.{IsPart};
    ghost use Rattle.flusher_core.specs.State.{committed_of};
    ghost use Rattle.flusher_core.specs.Book.{OnlyReads};
    ghost use Rattle.replay.specs.Slices.{IsSized, Stands, KeepsSlice};
    ghost use Rattle.broadcast.specs.declared.step.Step.TheVariants as step;
    ghost use Rattle.broadcast.specs.declared.step.Reply.TheVariants as reply;
    ghost use Rattle.broadcast.specs.Headline.{GoesOn};
    ghost use Rattle.broadcast.specs.Seats.{IsHeld, book_of};
    ghost use Rattle.replay.specs.Screens.{IsScreenAt};
    ghost use Rattle.broadcast.specs.Handing.{IsSnapshotSized, ShowsEnd, end_of};
    ghost use Rattle.broadcast.specs.Steps.{handed_in, IsStep, slice_of};

    // A snapshot of the screen after so many messages, if just so many are committed, and there is
    // memory for it.
    fn newest_at(&mut self, n: u64) -> Option<Snapshot>
        ensures screen { D.is_modelled → IfSome result (IsScreenAt self.old.head (committed_of self.old.state.book) n) }
        ensures size { IsSnapshotSized self.old.head result }
        ensures newest { IfSome result (λ _. n ≡ self.old.state.book.committed) }
        ensures same { self.new ≡ self.old }
    {
        if n != self.book.committed() {
            return None;
        }
        match self.book.snapshot() {
            Ok(snapshot) => Some(snapshot),
            Err(_) => None,
        }
    }

    /// The same as [`next`](Desk::next), but of these messages only as many as take no more than so
    /// many bytes together in the bodies of blocks; one in any case, if there is one. With them comes
    /// a snapshot of the screen after them, if no more are committed; if memory for it is refused,
    /// none does, which is no refusal of the step.
    pub fn next_part(
        &mut self,
        seat: &mut Seat,
        limit: u32,
        bytes: u32,
    ) -> Result<Handed, NextRefusal>
        ensures step { D.is_modelled → IsHeld self.old.state.seats seat.old → IsStep self.old.head self.old.state (step.Next seat.old.number (handed_in limit (slice_of result))) (reply.Next (slice_of result)) self.new.state }
        ensures part { D.is_modelled → IfOk result (λ handed. IsPart bytes (take limit (drop seat.old.position (committed_of self.old.state.book))) (length handed.slice.messages.items)) }
        ensures goes_on { GoesOn D.is_modelled D.history self.old self.new }
        ensures sized { IfOk result (λ handed. IsSized self.old.head seat.old.position (length handed.slice.messages.items) seat.old.fresh self.old.state.book.committed handed.slice) }
        ensures few { IfOk result (λ handed. length handed.slice.messages.items ≤ min limit (self.old.state.book.committed - seat.old.position)) }
        ensures some { IfOk result (λ handed. 0 < min limit (self.old.state.book.committed - seat.old.position) → 1 ≤ length handed.slice.messages.items) }
        ensures fits { IfOk result (λ handed. 1 < length handed.slice.messages.items → body_size handed.slice.messages.items ≤ bytes) }
        ensures within { IfOk result (λ handed. end_of handed.slice ≤ self.old.state.book.committed) }
        ensures stands { D.is_modelled → IfOk result (λ handed. Stands self.old.head (committed_of self.old.state.book) handed.slice) }
        ensures handed { D.is_modelled → IfOk result (λ handed. LeavesNow (D.history self.new.disk) (KeepsSlice self.old.head handed.slice)) }
        ensures shown { D.is_modelled → IfOk result (λ handed. ShowsEnd self.old.head (committed_of self.old.state.book) handed.slice handed.snapshot) }
        ensures newest { IfOk result (λ handed. IfSome handed.snapshot (λ _. end_of handed.slice ≡ self.old.state.book.committed)) }
        ensures shown_size { IfOk result (λ handed. IsSnapshotSized self.old.head handed.snapshot) }
        ensures moved { IfOk result (λ handed. seat.new ≡ record { number = seat.old.number; position = end_of handed.slice; fresh = false }) }
        ensures held { OnOk result (IsHeld self.new.state.seats seat.new) }
        ensures number { seat.new.number ≡ seat.old.number }
        ensures was_held { OnOk result (IsHeld self.old.state.seats seat.old) }
        ensures only { OnlyReads D.is_modelled D.history (book_of self.old) (book_of self.new) }
        ensures not_seated { (result ≡ Err NextRefusal.NotSeated) ↔ (IsHeld self.old.state.seats seat.old → ⊥) }
        ensures unheld { result ≡ Err NextRefusal.NotSeated → self.new ≡ self.old }
        ensures refused { OnErr result ((self.new.state.seats ≡ self.old.state.seats) × (seat.new ≡ seat.old)) }
    {
        self.known();
        if !self.keeps(seat) {
            return Err(NextRefusal::NotSeated);
        }
        let slice = self.hand(seat.number(), seat.cursor(), limit, Some(bytes))?;
        let position = slice.end();
        seat.stand(Cursor {
            position,
            fresh: false,
        });
        let snapshot = self.newest_at(position);
        Ok(Handed { slice, snapshot })
    }
}
