//! The right to have messages accepted, that to commit them, and the counts of both.

ghost use Rattle.std.specs.Prelude.{◌≡◌, ◌+◌};

use crate::mark::Mark;
use std::marker::{Model, PhantomData};
use tally::{Counterpart, Halves, Tally};

/// What a pen is the right to. Its ghost member says which of a token's names is that of the count.
pub trait Right {
    ghost use Rattle.atomic_table.specs.Seated.{TableId};
    ghost use Rattle.book_tokens.specs.Names.{Names};

    ghost table: { Names → TableId };
}

/// To have messages accepted.
pub struct Accepting;

impl Right for Accepting {
    ghost table = { λ names. names.accepted };
}

/// To have messages committed.
pub struct Committing;

impl Right for Committing {
    ghost table = { λ names. names.committed };
}

/// The one right of its kind of a mark. Contracts see how many messages were accepted or committed,
/// in all: as many as whoever has the pen knows of.
#[derive(Drop)]
pub struct Pen<M: Mark, K: Right> {
    half: Counterpart,
    of: PhantomData<M>,
    right: PhantomData<K>,
}

impl<M: Mark, K: Right> Model for Pen<M, K> {
    ghost use Rattle.std.specs.Prelude.{◌≡◌, ℕ};

    ghost Value = { ℕ };

    ghost view = { λ p. p.half.number };

    ghost invariant = { λ p. p.half.table ≡ K.table M.names };
}

/// The count that a pen changes, for the lock. Contracts see it.
#[derive(Drop)]
pub struct Count<M: Mark, K: Right> {
    half: Tally,
    of: PhantomData<M>,
    right: PhantomData<K>,
}

impl<M: Mark, K: Right> Model for Count<M, K> {
    ghost use Rattle.std.specs.Prelude.{◌≡◌, ℕ};

    ghost Value = { ℕ };

    ghost view = { λ c. c.half.number };

    ghost invariant = { λ c. c.half.table ≡ K.table M.names };
}

/// A count, and the pen that changes it.
#[derive(Drop)]
pub struct Counting<M: Mark, K: Right> {
    pub count: Count<M, K>,
    pub pen: Pen<M, K>,
}

impl<M: Mark, K: Right> Counting<M, K> {
    /// The halves of a number, under a mark that names it.
    pub(crate) fn of(halves: Halves) -> Counting<M, K>
        requires name { halves.tally.table ≡ K.table M.names }
        requires alike { halves.counterpart ≡ halves.tally }
        ensures count { result.count ≡ halves.tally.number }
        ensures pen { result.pen ≡ halves.tally.number }
    {
        let Halves { tally, counterpart } = halves;
        Counting {
            count: Count {
                half: tally,
                of: PhantomData,
                right: PhantomData,
            },
            pen: Pen {
                half: counterpart,
                of: PhantomData,
                right: PhantomData,
            },
        }
    }
}

impl<M: Mark, K: Right> Count<M, K> {
    /// So many more, by the pen, which knew how many there were.
    pub fn add(&mut self, pen: &mut Pen<M, K>, count: u64)
        ensures known { pen.old ≡ self.old }
        ensures count { self.new ≡ self.old + count }
        ensures pen { pen.new ≡ self.old + count }
    {
        self.half.add(&mut pen.half, count);
    }

    /// Does nothing: its contract is that the pen knows the count.
    pub fn agrees(&mut self, pen: &mut Pen<M, K>)
        ensures known { pen.old ≡ self.old }
        ensures count { self.new ≡ self.old }
        ensures pen { pen.new ≡ pen.old }
    {
        self.half.agrees(&mut pen.half);
    }
}
