//! What ties receipts and tickets to the desk that they came from.

ghost use Rattle.std.specs.Prelude.{◌≡◌, []};
ghost use Rattle.book_tokens.specs.History.{total};

use crate::history::{History, Opened};
use crate::numbers::{Counter, NumberSource};
use crate::pens::{Accepting, Committing, Counting};
use std::alloc::Global;
use std::marker::{Brand, Model};
use std::sync::Wait;
use tally::{Halves, Tally};
use terms::NoMemory;

/// Marks a desk that threads share, and all that comes from it: a receipt of one mark is known to
/// stand in the recording of that mark. A program has no such type of its own. It is generic over
/// the mark, and is called with [`Brand`], for which each call picks what the members are: the
/// header of the recording, whether its disk is one that may crash, how many messages were accepted
/// when it was shared, and what the [`Token`] names.
pub trait Mark {
    ghost use Rattle.std.specs.Prelude.{ℕ};
    ghost use Rattle.gated_journal.specs.Recording.{Head};
    ghost use Rattle.book_tokens.specs.Names.{Names};

    ghost head: { Head };

    ghost is_modelled: { Type 0 };

    ghost first: { ℕ };

    ghost names: { Names };
}

impl Mark for Brand {
    ghost use Rattle.std.specs.Prelude.{[]};
    ghost use Rattle.terms.specs.declared.format.Format.TheVariants.{One};
    ghost use Rattle.book_tokens.specs.History.{no_book};
    ghost use Rattle.book_tokens.specs.Numbers.{no_table};

    ghost head = { record { format = One; width = 0; height = 0; key_interval = 0; name = [] } };

    ghost is_modelled = { Unit {0} };

    ghost first = { 0 };

    ghost names = { record { book = no_book; table = no_table; accepted = no_table; committed = no_table } };
}

/// What a token names, under a mark: what is for the lock, and the two pens.
#[derive(Drop)]
pub struct Named<M: Mark> {
    pub history: History<M>,
    pub numbers: NumberSource<M>,
    pub accepted: Counting<M, Accepting>,
    pub committed: Counting<M, Committing>,
}

/// What names one desk that threads are to share. Contracts see the names.
#[derive(Drop)]
pub struct Token {
    opened: Opened,
    counter: Counter,
    accepted: Halves,
    committed: Halves,
    ghost accepted_halves: { accepted.counterpart ≡ accepted.tally },
    ghost committed_halves: { committed.counterpart ≡ committed.tally },
    ghost none: { (accepted.tally.number ≡ 0) × (committed.tally.number ≡ 0) },
}

impl Model for Token {
    ghost use Rattle.book_tokens.specs.Names.{Names};

    ghost Value = { Names };

    ghost view = { λ t. record {
      book = t.opened.seen.book;
      table = t.counter.table.shared.table_id;
      accepted = t.accepted.tally.table;
      committed = t.committed.tally.table;
    } };
}

impl Token {
    /// A new one; `NoMemory` if its three words find no room.
    pub fn new(alloc: Global) -> Result<Token, NoMemory> {
        let counter = Counter::new(alloc)?;
        let accepted = Tally::halves(alloc)?;
        let committed = Tally::halves(alloc)?;
        Ok(Token {
            opened: Opened::new(),
            counter,
            accepted,
            committed,
        })
    }

    /// What it names, under a mark that fits it. The counts are 0.
    pub fn named<M: Mark, R: Wait>(self, rt: &R) -> Named<M>
        requires { self ≡ M.names }
        ensures history { result.history ≡ total [] }
        ensures numbers { result.numbers ≡ 0 }
        ensures accepted { (result.accepted.count ≡ 0) × (result.accepted.pen ≡ 0) }
        ensures committed { (result.committed.count ≡ 0) × (result.committed.pen ≡ 0) }
    {
        let Token {
            opened,
            counter,
            accepted,
            committed,
        } = self;
        Named {
            history: opened.named::<M, R>(rt),
            numbers: counter.named::<M>(),
            accepted: Counting::of(accepted),
            committed: Counting::of(committed),
        }
    }
}
