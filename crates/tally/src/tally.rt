//! The two halves of a number.

ghost use Rattle.std.specs.Prelude.{◌≡◌, IfOk, length};
ghost use Rattle.tally.specs.Copies.{IsHolder, Raised, both_of, first_of, others_of};
ghost use Rattle.tally.specs.Tallied.{raised_by};

use atomic_table::{Join, Play, Seat, Split, Table, TableRule};
use std::alloc::{AllocError, Global};
use std::collections::LinkedList;
use std::marker::Model;

/// What a seat knows: the number, as often as it holds it. No value of it is made.
pub struct Copies {
    pub numbers: LinkedList<u64>,
}

/// The rule of the copies: there are two at most, and they are alike. The table's one word plays no
/// part.
pub struct Alike;

impl TableRule<(), Copies, ()> for Alike {
    ghost use Rattle.tally.specs.Copies.{twice, AreAlike};

    ghost holds = { λ key table. AreAlike table.views };

    ghost first = { λ key. twice 0 };
}

/// A seat gives all copies that it holds, or takes in all that another holds.
pub struct All;

impl Split<Copies> for All {
    ghost use Rattle.tally.specs.Copies.{none_of, all_of};

    ghost left = { none_of };

    ghost right = { all_of };
}

impl Join<Copies> for All {
    ghost use Rattle.std.specs.Prelude.{[]};
    ghost use Rattle.tally.specs.Copies.{both_of, holder};

    ghost both = { both_of };

    ghost spent = { holder [] };
}

/// A seat gives all copies that it holds but the first.
pub struct Rest;

impl Split<Copies> for Rest {
    ghost use Rattle.tally.specs.Copies.{first_of, others_of};

    ghost left = { first_of };

    ghost right = { others_of };
}

/// The step that adds to each copy, of a seat that holds both.
pub struct Raises;

impl Play<(), Copies> for Raises {
    ghost use Rattle.tally.specs.Copies.{Raised};

    ghost then = { λ s before found after. Raised s.first before after };
}

type Numbers = Table<(), Copies, (), Alike, Global>;

type Holder = Seat<(), Copies>;

/// One half of a number, which is kept beside what the number counts, under a lock mostly. Contracts
/// see which number it is, by the name of its table, and what it is.
#[derive(Drop)]
pub struct Tally {
    table: Numbers,
    seat: Holder,
}

impl Model for Tally {
    ghost use Rattle.std.specs.Prelude.{◌≡◌, [], ◌∷◌, slice_index};
    ghost use Rattle.tally.specs.Copies.{holder};
    ghost use Rattle.tally.specs.Tallied.{Tallied};

    ghost Value = { Tallied };

    ghost view = { λ t. record {
      table = t.table.shared.table_id;
      number = slice_index t.seat.me.0.numbers 0;
    } };

    ghost invariant = { λ t. (t.table.shared.table_id.words ≡ 1) × (t.seat.table_id ≡ t.table.shared.table_id)
        × (t.seat.me.0 ≡ holder (slice_index t.seat.me.0.numbers 0 ∷ [])) };
}

/// The other half, of which there is one: whoever has it knows the number exactly, since it doesn't
/// change without it. Contracts see what they see of the [`Tally`].
#[derive(Drop)]
pub struct Counterpart {
    seat: Holder,
}

impl Model for Counterpart {
    ghost use Rattle.std.specs.Prelude.{◌≡◌, [], ◌∷◌, slice_index};
    ghost use Rattle.tally.specs.Copies.{holder};
    ghost use Rattle.tally.specs.Tallied.{Tallied};

    ghost Value = { Tallied };

    ghost view = { λ c. record {
      table = c.seat.table_id;
      number = slice_index c.seat.me.0.numbers 0;
    } };

    ghost invariant = { λ c. c.seat.me.0 ≡ holder (slice_index c.seat.me.0.numbers 0 ∷ []) };
}

/// Both halves of a new number.
#[derive(Drop)]
pub struct Halves {
    pub tally: Tally,
    pub counterpart: Counterpart,
}

impl Tally {
    /// A new number, 0, in its halves; their table's one word takes memory.
    pub fn halves(alloc: Global) -> Result<Halves, AllocError>
        ensures zero { IfOk result (λ halves. halves.tally.number ≡ 0) }
        ensures alike { IfOk result (λ halves. halves.counterpart ≡ halves.tally) }
    {
        let (table, mut seat) = Numbers::of_words(alloc, &[0], &())?;
        let other = table.shared.split_seat::<Rest>(&mut seat);
        Ok(Halves {
            tally: Tally { table, seat },
            counterpart: Counterpart { seat: other },
        })
    }

    /// Adds to both halves.
    pub fn add(&mut self, other: &mut Counterpart, count: u64)
        requires halves { other.old.table ≡ self.old.table }
        ensures alike { other.old.number ≡ self.old.number }
        ensures tally { self.new ≡ raised_by count self.old }
        ensures counterpart { other.new ≡ raised_by count self.old }
    {
        let table = &self.table;
        gather(table, &mut self.seat, &mut other.seat);
        raise(table, &mut self.seat, count);
        give_back(table, &mut self.seat, &mut other.seat);
    }

    /// Does nothing: its contract is that both halves are the same number.
    pub fn agrees(&mut self, other: &mut Counterpart)
        requires halves { other.old.table ≡ self.old.table }
        ensures alike { other.old.number ≡ self.old.number }
        ensures tally { self.new ≡ self.old }
        ensures counterpart { other.new ≡ other.old }
    {
        self.add(other, 0);
    }
}

// Has a seat hold what the other holds, too.
fn gather(table: &Numbers, one: &mut Holder, other: &mut Holder)
    requires word { table.now.shared.table_id.words ≡ 1 }
    requires table { one.old.table_id ≡ table.now.shared.table_id }
    requires same { other.old.table_id ≡ one.old.table_id }
    requires held { IsHolder one.old.me.0 × IsHolder other.old.me.0 }
    ensures table { (one.new.table_id ≡ one.old.table_id) × (other.new.table_id ≡ other.old.table_id) }
    ensures both { one.new.me.0 ≡ both_of one.old.me.0 other.old.me.0 }
{
    let taken = table.shared.split_seat::<All>(other);
    table.shared.join_seat::<All>(one, taken);
}

// Adds to both copies, which one seat holds.
fn raise(table: &Numbers, one: &mut Holder, count: u64)
    requires word { table.now.shared.table_id.words ≡ 1 }
    requires table { one.old.table_id ≡ table.now.shared.table_id }
    requires both { length one.old.me.0.numbers ≡ 2 }
    ensures table { one.new.table_id ≡ one.old.table_id }
    ensures raised { Raised count one.old.me one.new.me }
{
    let _word = table.shared.fetch_add::<Raises>(one, 0, count);
}

// Has the other hold all but a seat's first copy.
fn give_back(table: &Numbers, one: &mut Holder, other: &mut Holder)
    requires word { table.now.shared.table_id.words ≡ 1 }
    requires table { one.old.table_id ≡ table.now.shared.table_id }
    requires held { IsHolder one.old.me.0 }
    ensures table { (one.new.table_id ≡ one.old.table_id) × (other.new.table_id ≡ one.old.table_id) }
    ensures first { one.new.me.0 ≡ first_of one.old.me.0 }
    ensures others { other.new.me.0 ≡ others_of one.old.me.0 }
{
    *other = table.shared.split_seat::<Rest>(one);
}
