//! Those that the workers work for: what gives a host's messages, and what takes receipts.

ghost use Rattle.std.specs.Prelude.{◌≡◌, ◌<◌, ◌≤◌, ◌^◌, ◌+◌, IfSome, length, true, false};
ghost use Rattle.keyed_entries.specs.Entry.{body_size};
ghost use Rattle.shared_book.specs.Receipts.{IsOfScreen, IsOfSize, IsScreenSized, has_start};
ghost use Rattle.book_workers.specs.Accounts.{IsSettled, after_next, after_ticket};
ghost use Rattle.book_workers.specs.Wishes.{fresh_after, position_after};

use replay::key_index::Stamped;

/// A point of a worker's work at which a test may hold it.
#[derive(Clone, Copy, Debug, PartialEq, Eq)]
pub enum Point {
    /// The message of this number was accepted.
    HostAccepted(u64),
    /// So many messages are committed.
    Committed(u64),
    /// So many messages, from this number on, are about to be handed to a viewer's sink.
    Sending { first: u64, count: u64 },
}

/// What the workers pass at each [`Point`], outside the lock. In a program it does nothing.
pub trait Turnstile {
    /// Returns once the worker may go on.
    fn pass(&self, point: Point);
}

/// What gives a host's messages, each with its time in milliseconds, and takes their tickets. One in
/// memory may keep account of both, and is modelled then; what stands over a socket isn't.
pub trait HostSource<T>: Drop {
    ghost use Rattle.terms.specs.declared.format.RecordedScreen.{RecordedScreen};
    ghost use Rattle.shared_book.specs.Receipts.{Accepted};
    ghost use Rattle.book_workers.specs.Accounts.{Account};

    ghost screen: { Self → RecordedScreen };

    ghost is_modelled: { Type 0 };

    ghost account: { Self → Account };

    ghost ticket_of: { T → Accepted };

    /// The next message, of the source's size and format; `None` ends the host. It isn't asked for
    /// before the ticket of each message that was given is told.
    fn next(&mut self) -> Option<Stamped>
        requires settled { is_modelled → IsSettled (account self.old) }
        ensures sized { IfSome result (λ r. IsOfScreen (screen self.old) r.message) }
        ensures stays { screen self.new ≡ screen self.old }
        ensures given { is_modelled → account self.new ≡ after_next result (account self.old) };

    /// Takes the ticket of the message that was given last.
    fn accepted(&mut self, ticket: T)
        requires settled { is_modelled → IsSettled (after_ticket (ticket_of ticket) (account self.old)) }
        ensures stays { screen self.new ≡ screen self.old }
        ensures told { is_modelled → account self.new ≡ after_ticket (ticket_of ticket) (account self.old) };
}

/// What takes the flusher's receipts, one for each commit, in their order. One that is modelled keeps
/// account of how many messages they are of.
pub trait ReceiptSink<T>: Drop {
    ghost use Rattle.std.specs.Prelude.{ℕ};
    ghost use Rattle.replay.specs.declared.slice.Slice.{Slice};

    ghost is_modelled: { Type 0 };

    ghost committed: { Self → ℕ };

    ghost slice_of: { T → Slice };

    /// Takes word that a block is written now. What comes of it is its receipt, or the flusher's end.
    fn writing(&mut self)
        ensures { is_modelled → committed self.new ≡ committed self.old }
    {}

    /// Takes the receipt of what was committed after the receipt before.
    fn receipt(&mut self, receipt: T)
        requires next { is_modelled → (slice_of receipt).first ≡ committed self.old }
        ensures taken { is_modelled → committed self.new ≡ committed self.old + length (slice_of receipt).messages.items };

    /// Takes word that memory ran out, so that nothing was taken; it is tried again a little
    /// later. It is told so at each try that fails.
    fn shortage(&mut self)
        ensures { is_modelled → committed self.new ≡ committed self.old }
    {}

    /// Takes word that there is memory again, after one such try or more.
    fn relief(&mut self)
        ensures { is_modelled → committed self.new ≡ committed self.old }
    {}
}

/// What a viewer wants next.
#[derive(Clone, Copy, Debug, PartialEq, Eq)]
pub enum ViewerWish {
    /// The messages after its position, so many at most.
    Want(u32),
    /// To wait until there are some, host and flusher have ended, or the viewer has left.
    Wait,
    /// To go on after the first so many messages, with the screen there.
    Seek(u64),
    /// To go on after all that are committed, with the screen there.
    Newest,
    /// To end.
    Stop,
}

/// What takes a viewer's receipts, each with a snapshot of the screen at its end or without one. It
/// is of the sink's size and begins at the position of the
/// sink: that of its seat, of which it is told, that after the receipt before, or that at which it
/// asked to go on. It has a start in the first and the last of these cases, and in no other. An
/// ending says that the sink has all.
pub trait ViewerSink<T, E>: Drop {
    ghost use Rattle.std.specs.Prelude.{ℕ, Bool, Option};
    ghost use Rattle.keyed_entries.specs.Framebuffer.{Framebuffer};
    ghost use Rattle.terms.specs.declared.screen_size.ScreenSize.{ScreenSize};
    ghost use Rattle.replay.specs.declared.slice.Slice.{Slice};

    ghost is_modelled: { Type 0 };

    ghost size: { Self → ScreenSize };

    ghost position: { Self → ℕ };

    ghost fresh: { Self → Bool };

    ghost slice_of: { T → Slice };

    ghost snapshot_of: { T → Option Framebuffer };

    ghost count_of: { E → ℕ };

    /// Whether the viewer has gone, so that nothing is waited for any more. It is asked under the
    /// lock, and so waits for nobody; who makes it true calls `wake` of [`Shared`](shared_book::Shared).
    fn has_left(&self) -> bool {
        false
    }

    /// Takes word of its seat, at first and at each `Newest`: it stands after so many messages
    /// then, without a screen.
    fn seated(&mut self, count: u64)
        ensures size { size self.new ≡ size self.old }
        ensures moved { position self.new ≡ count }
        ensures bare { fresh self.new ≡ true };

    /// What it wants. At `Seek` it stands after so many messages from then on, without a screen.
    fn wish(&mut self) -> ViewerWish
        ensures size { size self.new ≡ size self.old }
        ensures moved { position self.new ≡ position_after result (position self.old) }
        ensures bare { fresh self.new ≡ fresh_after result (fresh self.old) };

    /// Takes a receipt, and stands at its end then, with a screen. If it has more than one
    /// message, they take 8 MiB at most in the bodies of blocks. If a snapshot comes with it, the sink
    /// need not paint.
    fn slice(&mut self, receipt: T)
        requires bounded { is_modelled → 1 < length (slice_of receipt).messages.items → body_size (slice_of receipt).messages.items ≤ 2 ^ 23 }
        requires sized { IsOfSize (size self.old) (slice_of receipt) }
        requires snapshot { IsScreenSized (size self.old) (snapshot_of receipt) }
        requires stands { (slice_of receipt).first ≡ position self.old }
        requires start { has_start (slice_of receipt) ≡ fresh self.old }
        requires room { (slice_of receipt).first + length (slice_of receipt).messages.items < 2 ^ 64 }
        ensures size { size self.new ≡ size self.old }
        ensures moved { position self.new ≡ (slice_of receipt).first + length (slice_of receipt).messages.items }
        ensures shown { fresh self.new ≡ false };

    /// Takes word that it was handed all: host and flusher have ended, and it stands after the last
    /// committed message, with a screen. It is told so at each `Wait` there, which doesn't sleep: a
    /// sink that stays waits for its viewer by itself.
    fn end(&mut self, ending: E)
        requires all { count_of ending ≡ position self.old }
        requires shown { fresh self.old ≡ false }
        ensures size { size self.new ≡ size self.old }
        ensures stays { (position self.new ≡ position self.old) × (fresh self.new ≡ fresh self.old) };

    /// Takes word that memory ran out, so that nothing is handed to it; it is asked again a
    /// little later.
    fn shortage(&mut self)
        ensures size { size self.new ≡ size self.old }
        ensures stays { (position self.new ≡ position self.old) × (fresh self.new ≡ fresh self.old) }
    {}

    /// Takes word that the device failed, so that nothing is handed to it: whether it is asked
    /// again. Its worker ends if it isn't.
    fn device_failed(&mut self) -> bool
        ensures size { size self.new ≡ size self.old }
        ensures stays { (position self.new ≡ position self.old) × (fresh self.new ≡ fresh self.old) }
    {
        false
    }
}
