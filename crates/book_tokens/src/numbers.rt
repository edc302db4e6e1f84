//! Numbers that are given once each.

ghost use Rattle.std.specs.Prelude.{◌≡◌, ◌≢◌, ◌+◌, ◌<◌, ◌≤◌, ℕ, [], ◌∷◌};
ghost use Rattle.book_tokens.specs.Numbers.{giver, holder, times, IsHolder, both_of, first_of, others_of};

use crate::mark::Mark;
use atomic_table::{Join, Play, Seat, Split, Table, TableRule};
use std::alloc::Global;
use std::collections::LinkedList;
use std::marker::{Model, PhantomData};
use terms::NoMemory;

/// What a seat knows: whether it gives numbers, the next one, and those that it holds. No value of it
/// is made.
pub struct Hand {
    pub gives: bool,
    pub next: u64,
    pub numbers: LinkedList<u64>,
}

/// The rule of the numbers: each is held once. The table's one word plays no part.
pub struct Once;

impl TableRule<(), Hand, ()> for Once {
    ghost use Rattle.book_tokens.specs.Numbers.{giver, AreOnce};

    ghost holds = { λ key table. AreOnce table.views };

    ghost first = { λ key. giver 0 };
}

/// The giver gives its next number.
pub struct Gives;

impl Split<Hand> for Gives {
    ghost use Rattle.book_tokens.specs.Numbers.{giver_next, given};

    ghost left = { giver_next };

    ghost right = { given };
}

/// A hand gives all that it holds, or takes in all that another holds.
pub struct All;

impl Split<Hand> for All {
    ghost use Rattle.book_tokens.specs.Numbers.{none_of, all_of};

    ghost left = { none_of };

    ghost right = { all_of };
}

impl Join<Hand> for All {
    ghost use Rattle.std.specs.Prelude.{[]};
    ghost use Rattle.book_tokens.specs.Numbers.{both_of, holder};

    ghost both = { both_of };

    ghost spent = { holder [] };
}

/// A hand gives all that it holds but the first.
pub struct Rest;

impl Split<Hand> for Rest {
    ghost use Rattle.book_tokens.specs.Numbers.{first_of, others_of};

    ghost left = { first_of };

    ghost right = { others_of };
}

/// The step that only looks.
pub struct Looks;

impl Play<(), Hand> for Looks {
    ghost use Rattle.book_tokens.specs.Numbers.{Learns};

    ghost then = { λ s before found after. Learns before after };
}

type NumberTable = Table<(), Hand, (), Once, Global>;

type NumberSeat = Seat<(), Hand>;

/// A new counter, which has no mark yet.
#[derive(Drop)]
pub struct Counter {
    table: NumberTable,
    seat: NumberSeat,
    pub ghost same: { seat.table_id ≡ table.shared.table_id },
    pub ghost word: { table.shared.table_id.words ≡ 1 },
    pub ghost all: { seat.me.0 ≡ giver 0 },
}

impl Counter {
    /// One that gives 0 first; its one word takes memory.
    pub fn new(alloc: Global) -> Result<Counter, NoMemory> {
        let (table, seat) = Table::of_words(alloc, &[0], &())?;
        Ok(Counter { table, seat })
    }

    /// The counter under a mark.
    pub fn named<M: Mark>(self) -> NumberSource<M>
        requires { self.table.shared.table_id ≡ M.names.table }
        ensures { result ≡ 0 }
    {
        let Counter { table, seat } = self;
        NumberSource {
            table,
            seat,
            of: PhantomData,
        }
    }
}

/// Gives numbers. Contracts see the next one.
#[derive(Drop)]
pub struct NumberSource<M: Mark> {
    table: NumberTable,
    seat: NumberSeat,
    of: PhantomData<M>,
}

impl<M: Mark> Model for NumberSource<M> {
    ghost use Rattle.std.specs.Prelude.{◌≡◌, ℕ};
    ghost use Rattle.book_tokens.specs.Numbers.{giver};

    ghost Value = { ℕ };

    ghost view = { λ g. g.seat.me.0.next };

    ghost invariant = { λ g. (g.table.shared.table_id ≡ M.names.table) × (g.table.shared.table_id.words ≡ 1)
        × (g.seat.table_id ≡ M.names.table) × (g.seat.me.0 ≡ giver g.seat.me.0.next) };
}

/// The one holder of a number. Contracts see the number.
#[derive(Drop)]
pub struct NumberProof<M: Mark> {
    seat: NumberSeat,
    of: PhantomData<M>,
}

impl<M: Mark> Model for NumberProof<M> {
    ghost use Rattle.std.specs.Prelude.{◌≡◌, [], ◌∷◌, ℕ, slice_index};
    ghost use Rattle.book_tokens.specs.Numbers.{holder};

    ghost Value = { ℕ };

    ghost view = { λ s. slice_index s.seat.me.0.numbers 0 };

    ghost invariant = { λ s. (s.seat.table_id ≡ M.names.table) × (s.seat.me.0 ≡ holder (slice_index s.seat.me.0.numbers 0 ∷ [])) };
}

impl<M: Mark> NumberSource<M> {
    /// The next number.
    pub fn give(&mut self) -> NumberProof<M>
        ensures given { result ≡ self.old }
        ensures next { self.new ≡ self.old + 1 }
    {
        let table = &self.table;
        let seat = table.shared.split_seat::<Gives>(&mut self.seat);
        NumberProof {
            seat,
            of: PhantomData,
        }
    }

    /// Does nothing: its contract is that two holders have different numbers.
    pub fn apart(&self, one: &mut NumberProof<M>, other: &mut NumberProof<M>)
        ensures apart { one.old ≢ other.old }
        ensures one { one.new ≡ one.old }
        ensures other { other.new ≡ other.old }
    {
        gather(&self.table, &mut one.seat, &mut other.seat);
        look(&self.table, &mut one.seat);
        give_back(&self.table, &mut one.seat, &mut other.seat);
    }
}

// Has a seat hold what the other holds, too.
fn gather(table: &NumberTable, one: &mut NumberSeat, other: &mut NumberSeat)
    requires word { table.now.shared.table_id.words ≡ 1 }
    requires table { one.old.table_id ≡ table.now.shared.table_id }
    requires same { other.old.table_id ≡ one.old.table_id }
    requires held { IsHolder one.old.me.0 × IsHolder other.old.me.0 }
    ensures table { (one.new.table_id ≡ one.old.table_id) × (other.new.table_id ≡ other.old.table_id) }
    ensures both { one.new.me.0 ≡ both_of one.old.me.0 other.old.me.0 }
{
    let taken = table.shared.split_seat::<All>(other);
    table.shared.join_seat::<All>(one, taken);
}

// Does nothing: its contract is that no number is held twice by one seat.
fn look(table: &NumberTable, one: &mut NumberSeat)
    requires word { table.now.shared.table_id.words ≡ 1 }
    requires table { one.old.table_id ≡ table.now.shared.table_id }
    ensures table { one.new.table_id ≡ one.old.table_id }
    ensures held { one.new.me.0 ≡ one.old.me.0 }
    ensures once { (x : ℕ) → times x one.old.me.0.numbers ≤ 1 }
{
    let _word = table.shared.load::<Looks>(one, 0);
}

// Has the other hold all but a seat's first number.
fn give_back(table: &NumberTable, one: &mut NumberSeat, other: &mut NumberSeat)
    requires word { table.now.shared.table_id.words ≡ 1 }
    requires table { one.old.table_id ≡ table.now.shared.table_id }
    requires held { IsHolder one.old.me.0 }
    ensures table { (one.new.table_id ≡ one.old.table_id) × (other.new.table_id ≡ one.old.table_id) }
    ensures first { one.new.me.0 ≡ first_of one.old.me.0 }
    ensures others { other.new.me.0 ≡ others_of one.old.me.0 }
{
    *other = table.shared.split_seat::<Rest>(one);
}
