//! Receipts, deliveries, tickets and endings: what a thread was told, which holds for good.

ghost use Rattle.std.specs.Prelude.{◌≡◌, ◌+◌, ◌<◌, ◌^◌, None, length};

use book_tokens::{Accepting, Committing, Front, Mark, NumberProof, Pen};
use painter::Snapshot;
use replay::Slice;
use std::marker::Model;

/// The one right to hand in a host's messages. Contracts see how many were accepted in all.
pub type HostPen<M> = Pen<M, Accepting>;

/// The one right to commit messages. Contracts see how many were committed in all.
pub type FlusherPen<M> = Pen<M, Committing>;

/// A slice that `gate` or `next` answered, or that was delivered, of [`Shared`](crate::Shared). It is
/// made by these alone, and its type keeps that it stands in the recording that threads share, from
/// then on. Contracts see the slice.
#[derive(Drop)]
pub struct Receipt<M: Mark> {
    pub(crate) slice: Slice,
    pub(crate) front: Front<M>,
}

impl<M: Mark> Model for Receipt<M> {
    ghost use Rattle.std.specs.Prelude.{◌<◌, ◌^◌, length};
    ghost use Rattle.replay.specs.declared.slice.Slice.{Slice};
    ghost use Rattle.replay.specs.Slices.{Stands};

    ghost Value = { Slice };

    ghost view = { λ r. r.slice };

    ghost invariant = { λ r. (length r.slice.messages.items < 2 ^ 32) × (M.is_modelled → Stands M.head r.front.committed r.slice) };
}

impl<M: Mark> Receipt<M> {
    /// The slice that was answered.
    pub fn slice(&self) -> &Slice
        ensures { result.now ≡ self.now }
    {
        &self.slice
    }
}

/// A receipt and, if there is one, a snapshot of the screen at its end, that `next_part` or `newest`
/// answered, of [`Shared`](crate::Shared). One with a snapshot is made by these alone, and its type
/// keeps that this is the screen there of the recording that threads share, from then on. Contracts
/// see the slice, and what the snapshot shows.
#[derive(Drop)]
pub struct Delivery<M: Mark> {
    pub(crate) receipt: Receipt<M>,
    pub(crate) snapshot: Option<Snapshot>,
    pub(crate) front: Front<M>,
}

impl<M: Mark> Model for Delivery<M> {
    ghost use Rattle.broadcast.specs.declared.handed.Handed.{Handed};
    ghost use Rattle.shared_book.specs.Receipts.{IsShownIn};

    ghost Value = { Handed };

    ghost view = { λ d. record { slice = d.receipt; snapshot = d.snapshot } };

    ghost invariant = { λ d. M.is_modelled → IsShownIn M.head d.front.committed d.receipt d.snapshot };
}

impl<M: Mark> Delivery<M> {
    /// The slice that was answered.
    pub fn slice(&self) -> &Slice
        ensures { result.now ≡ self.now.slice }
    {
        self.receipt.slice()
    }

    /// A receipt, and no snapshot.
    pub fn without_snapshot(receipt: Receipt<M>) -> Delivery<M>
        ensures slice { result.slice ≡ receipt }
        ensures none { result.snapshot ≡ None }
    {
        let front = receipt.front.again();
        Delivery {
            receipt,
            snapshot: None,
            front,
        }
    }

    /// Its receipt, and its snapshot.
    pub fn split(self) -> (Receipt<M>, Option<Snapshot>)
        ensures receipt { result.0 ≡ self.slice }
        ensures snapshot { result.1 ≡ self.snapshot }
    {
        let Delivery {
            receipt,
            snapshot,
            ..
        } = self;
        (receipt, snapshot)
    }
}

/// The number of a message that `host` of [`Shared`](crate::Shared) accepted. It is made by that
/// alone. Contracts see the number, the message that was accepted there with its time, and the time of
/// the one before it.
#[derive(Drop)]
pub struct Ticket<M: Mark> {
    pub(crate) number: u64,
    pub(crate) front: Front<M>,
    pub(crate) proof: NumberProof<M>,
}

impl<M: Mark> Model for Ticket<M> {
    ghost use Rattle.std.specs.Prelude.{◌≡◌, ◌+◌, ◌<◌, length, slice_get, take};
    ghost use Rattle.keyed_entries.specs.Entry.{last_time};
    ghost use Rattle.shared_book.specs.Receipts.{Accepted};

    ghost Value = { Accepted };

    ghost view = { λ t. record {
      number = t.number;
      stamped = slice_get t.front.accepted t.number;
      earlier = last_time 0 (take t.number t.front.accepted);
    } };

    ghost invariant = { λ t. M.is_modelled → (M.first + t.proof ≡ t.number) × (t.number < length t.front.accepted) };
}

impl<M: Mark> Ticket<M> {
    /// The number of the message, counted from 0 over the whole recording.
    pub fn number(&self) -> u64
        ensures { result ≡ self.now.number }
    {
        self.number
    }
}

/// Word that host and flusher have ended. It is made by [`Shared`](crate::Shared) alone, under the
/// lock, once both have. Contracts see how many messages were committed then, and which: the
/// recording ends there, unless a thread goes on that said it had ended.
#[derive(Drop)]
pub struct Ending<M: Mark> {
    pub(crate) count: u64,
    pub(crate) front: Front<M>,
}

impl<M: Mark> Model for Ending<M> {
    ghost use Rattle.std.specs.Prelude.{◌≡◌, length};
    ghost use Rattle.shared_book.specs.Receipts.{Ended};

    ghost Value = { Ended };

    ghost view = { λ e. record { count = e.count; committed = e.front.committed } };

    ghost invariant = { λ e. M.is_modelled → e.count ≡ length e.front.committed };
}

impl<M: Mark> Ending<M> {
    /// How many messages were committed.
    pub fn count(&self) -> u64
        ensures count { result ≡ self.now.count }
        ensures committed { M.is_modelled → result ≡ length self.now.committed }
    {
        self.count
    }
}
