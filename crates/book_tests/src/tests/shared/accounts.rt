//! A source and a sink in memory that keep account: what the workers' contracts say of accounts is
//! said of these.

ghost use Rattle.std.specs.Prelude.{◌≡◌, ◌+◌, [], IfOk, IfSome, OnErr, OnOk, true};
ghost use Rattle.terms.specs.declared.format.Format.TheVariants.{One};
ghost use Rattle.flusher_core.specs.State.{accepted_count};
ghost use Rattle.book_workers.specs.Accounts.{IsSettled, LacksLast, accepted_in};
ghost use Rattle.book_tests.specs.OnePixel.{IsOfOnePixel};

use super::UPDATE;
use crate::{ONE_PIXEL, desk_of_one_pixel};
use book_workers::shared_book::{
    Delivery, Ending, FlusherPen, HostPen, Mark, Receipt, Shared, Sharing, Ticket, Token,
};
use book_workers::{
    FlusherEnd, HostSource, Point, ReceiptSink, Turnstile, ViewerSink, ViewerWish, run_flusher,
    run_host, run_viewer,
};
use broadcast::{Desk, Start};
use disk::{Disk, MemoryDisk};
use flusher_core::HostRefusal;
use key_index::Stamped;
use rfb_wire::HostMessage;
use std::alloc::{AllocError, Global};
use std::marker::{Brand, Model};
use std::process::Abort;
use std::sync::Wait;
use std::test::Fail;
use std::time::Clock;

/// Holds nobody.
#[derive(Drop)]
struct Open;

impl Turnstile for Open {
    fn pass(&self, _point: Point) {}
}

/// Gives as many updates as it has room for tickets, and keeps a copy of each, and its ticket.
/// Contracts see its account.
#[derive(Drop)]
struct Script<M: Mark> {
    alloc: Global,
    first: u64,
    given: Vec<Stamped>,
    told: Vec<Ticket<M>>,
    has_ended: bool,
}

impl<M: Mark> Model for Script<M> {
    ghost use Rattle.std.specs.Prelude.{◌≤◌, length, vec_capacity};
    ghost use Rattle.book_workers.specs.Accounts.{Account};

    ghost Value = { Account };

    ghost view = { λ s. record {
      first = s.first;
      given = s.given.items;
      told = s.told.items;
      has_ended = s.has_ended;
    } };

    ghost invariant = { λ s. (length s.given.items ≤ vec_capacity s.told) × (vec_capacity s.told ≤ vec_capacity s.given) };
}

impl<M: Mark> Script<M> {
    /// One of so many updates, the first of which is accepted under this number.
    fn new(alloc: Global, first: u64, count: usize) -> Result<Script<M>, AllocError>
        ensures first { IfOk result (λ s. s.first ≡ first) }
        ensures nothing { IfOk result (λ s. (s.given ≡ []) × (s.told ≡ [])) }
    {
        let given = Vec::with_capacity(alloc, count)?;
        let told = Vec::with_capacity(alloc, count)?;
        Ok(Script {
            alloc,
            first,
            given,
            told,
            has_ended: false,
        })
    }
}

// The update of this number, so many milliseconds after the start; `None` if memory runs out.
fn update(alloc: Global, number: usize) -> Option<Stamped>
    ensures { IfSome result (λ s. (s.message.format ≡ One) × (s.message.width ≡ 1) × (s.message.height ≡ 1)) }
{
    let Ok(message) = HostMessage::from_bytes(alloc, ONE_PIXEL, &UPDATE) else {
        return None;
    };
    let time = u32::try_from(number).unwrap_or(u32::MAX);
    Some(Stamped { time, message })
}

impl<M: Mark> HostSource<Ticket<M>> for Script<M> {
    ghost use Rattle.terms.specs.declared.format.Format.TheVariants.{One};

    ghost screen = { λ s. record { format = One; size = record { width = 1; height = 1 } } };

    ghost is_modelled = { Unit {0} };

    ghost account = { λ s. s };

    ghost ticket_of = { λ t. t };

    fn next(&mut self) -> Option<Stamped> {
        let number = self.given.len();
        if number < self.told.capacity()
            && let Some(stamped) = update(self.alloc, number)
            && let Ok(copy) = stamped.copy(self.alloc)
        {
            self.given.push_reserved(copy);
            return Some(stamped);
        }
        self.has_ended = true;
        None
    }

    fn accepted(&mut self, ticket: Ticket<M>) {
        self.told.push_reserved(ticket);
    }
}

/// Stands after the last receipt that it was handed, and keeps those for which there is memory.
#[derive(Drop)]
struct Pile<M: Mark> {
    first: u64,
    count: u64,
    receipts: Vec<Receipt<M>>,
}

impl<M: Mark> ReceiptSink<Receipt<M>> for Pile<M> {
    ghost use Rattle.std.specs.Prelude.{◌+◌};

    ghost is_modelled = { Unit {0} };

    ghost committed = { λ p. p.first + p.count };

    ghost slice_of = { λ r. r };

    fn receipt(&mut self, receipt: Receipt<M>) {
        let slice = receipt.slice();
        self.first = slice.first;
        self.count = slice.messages.len() as u64;
        let _kept = self.receipts.push(receipt);
    }
}

/// What a viewer was handed last: how many messages, and whether the screen came with them.
#[derive(Clone, Copy, PartialEq, Eq)]
struct Seen {
    messages: u64,
    has_screen: bool,
}

/// Takes what there is from its seat on, and keeps account of it, until it is told the end.
#[derive(Drop)]
struct Onlooker<'a> {
    position: u64,
    is_fresh: bool,
    seen: &'a mut Seen,
    has_all: bool,
}

impl<'a, M: Mark> ViewerSink<Delivery<M>, Ending<M>> for Onlooker<'a> {
    ghost is_modelled = { Unit {0} };

    ghost size = { λ o. record { width = 1; height = 1 } };

    ghost position = { λ o. o.position };

    ghost fresh = { λ o. o.is_fresh };

    ghost slice_of = { λ d. d.slice };

    ghost snapshot_of = { λ d. d.snapshot };

    ghost count_of = { λ e. e.count };

    fn seated(&mut self, count: u64) {
        self.position = count;
        self.is_fresh = true;
    }

    fn wish(&mut self) -> ViewerWish {
        if self.has_all {
            ViewerWish::Stop
        } else if self.is_fresh {
            ViewerWish::Want(8)
        } else {
            ViewerWish::Wait
        }
    }

    fn slice(&mut self, delivery: Delivery<M>) {
        let (receipt, snapshot) = delivery.split();
        let slice = receipt.slice();
        *self.seen = Seen {
            messages: slice.messages.len() as u64,
            has_screen: snapshot.is_some(),
        };
        self.position = slice.end();
        self.is_fresh = false;
    }

    fn end(&mut self, _ending: Ending<M>) {
        self.has_all = true;
    }
}

// The host's worker. Each message that the source gave was accepted, in its order, and each ticket
// told; if a message was refused, each but that one.
fn give<D: Disk, M: Mark, R: Wait>(
    rt: &R,
    shared: &Shared<D, M>,
    pen: &mut HostPen<M>,
    source: &mut Script<M>,
) -> Result<(), HostRefusal>
    requires sized { IsOfOnePixel M.head }
    requires modelled { D.is_modelled }
    requires first { source.old.first ≡ pen.old }
    requires nothing { (source.old.given ≡ []) × (source.old.told ≡ []) }
    ensures all { OnOk result (IsSettled source.new × (source.new.has_ended ≡ true)) }
    ensures but_one { OnErr result (LacksLast source.new) }
    ensures accepted { accepted_in source.new ≡ pen.new }
{
    run_host(rt, shared, pen, source, &Open)
}

// The flusher's worker. The sink stands after all that was committed.
fn take<D: Disk, M: Mark, R: Wait + Clock>(
    rt: &R,
    shared: &Shared<D, M>,
    pen: &mut FlusherPen<M>,
    sink: &mut Pile<M>,
) -> Result<(), FlusherEnd>
    requires modelled { D.is_modelled }
    requires first { sink.old.first + sink.old.count ≡ pen.old }
    ensures { sink.new.first + sink.new.count ≡ pen.new }
{
    run_flusher(rt, shared, pen, sink, &Open)
}

// A viewer's worker, from the first message on: what its sink was handed last.
fn look<D: Disk, M: Mark, R: Wait + Clock>(rt: &R, shared: &Shared<D, M>) -> Option<Seen>
    requires sized { IsOfOnePixel M.head }
    requires modelled { D.is_modelled }
{
    let mut seen = Seen {
        messages: 0,
        has_screen: false,
    };
    let onlooker = Onlooker {
        position: 0,
        is_fresh: true,
        seen: &mut seen,
        has_all: false,
    };
    run_viewer(rt, shared, Start::At(0), onlooker, &Open).ok()?;
    Some(seen)
}

// Three updates are given, accepted and committed in one block, and shown.
fn keep_accounts<D: Disk + Drop, M: Mark, R: Wait + Clock + Abort>(
    rt: &R,
    alloc: Global,
    token: Token,
    desk: Box<Desk<D>>,
) -> Result<(), AllocError>
    requires head { desk.value.head ≡ M.head }
    requires modelled { D.is_modelled × M.is_modelled }
    requires first { accepted_count desk.value.state.book ≡ M.first }
    requires names { token ≡ M.names }
    requires sized { IsOfOnePixel M.head }
{
    let mut source = Script::<M>::new(alloc, desk.accepted(), 3)?;
    let mut sink = Pile {
        first: desk.committed(),
        count: 0,
        receipts: Vec::new(alloc),
    };
    let Sharing {
        shared,
        mut host,
        mut flusher,
    } = Shared::<D, M>::new(rt, token, desk);
    assert!(rt; give(rt, &shared, &mut host, &mut source).is_ok());
    assert!(rt; take(rt, &shared, &mut flusher, &mut sink).is_ok());
    assert!(rt; source.has_ended);
    assert!(rt; source.given.len() == 3 && source.told.len() == 3);
    for (number, ticket) in source.told.iter().enumerate() {
        assert!(rt; ticket.number() == number as u64);
    }
    assert!(rt; sink.first == 0 && sink.count == 3 && sink.receipts.len() == 1);
    let all = Seen {
        messages: 3,
        has_screen: true,
    };
    assert!(rt; look(rt, &shared) == Some(all));
    Ok(())
}

#[test]
fn a_source_and_a_sink_keep_account(rt: HostRuntime) -> Result<(), Fail> {
    let alloc = rt.alloc();
    let desk = desk_of_one_pixel(alloc, MemoryDisk::new(alloc)).ok_or("no desk")?;
    let token = Token::new(alloc)?;
    keep_accounts::<MemoryDisk, Brand, _>(&rt, alloc, token, desk)?;
    Ok(())
}
