//! Reading what a desk has committed, for no seat.

ghost use Rattle.std.specs.Prelude.{◌≡◌, ◌↔◌, ◌<◌, ◌≤◌, IfOk, IsErrOf, Err};
ghost use Rattle.disk.specs.Failures.{HasCause};

use crate::desk::Desk;
use disk::Disk;
use gated_journal::ReadFault;
use painter::Screen;
use replay::ReplayFault;

impl<D: Disk> Desk<D> {
    ghost use Rattle.flusher_core.specs.State.{committed_of};
    ghost use Rattle.flusher_core.specs.Book.{OnlyReads};
    ghost use Rattle.replay.specs.Screens.{IsScreenAt};
    ghost use Rattle.replay.specs.Moments.{IsShownAt};
    ghost use Rattle.broadcast.specs.Seats.{book_of};

    /// How many committed messages a viewer has been shown at this time, in milliseconds: those whose
    /// time isn't later. A refusal, as all else, leaves all as it was; `Device` is answered exactly
    /// when the device failed in this call.
    pub fn count_at(&mut self, time: u32) -> Result<u64, ReadFault>
        ensures shown { D.is_modelled → IfOk result (IsShownAt time (committed_of self.old.state.book)) }
        ensures within { IfOk result (λ n. n ≤ self.old.state.book.committed) }
        ensures only { OnlyReads D.is_modelled D.history (book_of self.old) (book_of self.new) }
        ensures seats { self.new.state.seats ≡ self.old.state.seats }
        ensures cause { D.is_modelled → HasCause self.old.state.book.failures self.new.state.book.failures (IsErrOf result ReadFault.Device) }
    {
        self.book.count_at(time)
    }

    /// The screen that the first `n` committed messages paint from black: `NotCommitted` is
    /// answered exactly when fewer are committed, `Device` exactly when the device failed in this
    /// call. All else stays as it was.
    pub fn screen_at(&mut self, n: u64) -> Result<Screen, ReplayFault>
        ensures screen { D.is_modelled → IfOk result (λ screen. IsScreenAt self.old.head (committed_of self.old.state.book) n screen) }
        ensures size { IfOk result (λ screen. (screen.width ≡ self.old.head.width) × (screen.height ≡ self.old.head.height)) }
        ensures not_committed { (result ≡ Err ReplayFault.NotCommitted) ↔ (self.old.state.book.committed < n) }
        ensures only { OnlyReads D.is_modelled D.history (book_of self.old) (book_of self.new) }
        ensures seats { self.new.state.seats ≡ self.old.state.seats }
        ensures cause { D.is_modelled → HasCause self.old.state.book.failures self.new.state.book.failures (IsErrOf result ReplayFault.Device) }
    {
        self.book.screen_at(n)
    }
}
