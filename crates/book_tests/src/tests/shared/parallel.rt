//! Workers in threads of their own.

ghost use Rattle.std.specs.Prelude.{◌≡◌, IfSome};
ghost use Rattle.flusher_core.specs.State.{accepted_count};
ghost use Rattle.book_tests.specs.OnePixel.{IsOfOnePixel};

use super::{UPDATE, confirm, find};
use crate::{ONE_PIXEL, desk_of_one_pixel};
use book_workers::shared_book::{
    Closed, Delivery, Ending, FlusherPen, HostPen, Mark, Receipt, Shared, Sharing, Ticket, Token,
};
use book_workers::{
    FlusherEnd, HostSource, Point, ReceiptSink, Turnstile, ViewerEnd, ViewerSink, ViewerWish,
    run_flusher, run_host, run_viewer,
};
use broadcast::{Desk, NextRefusal, Start};
use disk::{Disk, FailingDisk, MemoryDisk, Switch};
use flusher_core::{FlushRefusal, HostRefusal};
use gated_journal::ReadFault;
use key_index::Stamped;
use rfb_wire::HostMessage;
use std::alloc::Global;
use std::marker::Brand;
use std::process::Abort;
use std::sync::Wait;
use std::sync::atomic::{AtomicBool, AtomicU64, Ordering};
use std::test::Fail;
use std::thread::{self, Threads, join, map_indices};
use std::time::{Clock, Duration};
use terms::NoMemory;

/// How the workers come one after another.
#[derive(Clone, Copy, PartialEq, Eq)]
enum Order {
    /// All beside each other.
    Free,
    /// A viewer's first sending of a message is held until two messages are accepted, and the
    /// host's second message until that sending has begun.
    Meeting,
    /// The flusher begins once the host has ended and a viewer waits.
    HostFirst,
    /// The flusher begins once as many messages are accepted as may wait.
    Backlogged,
    /// The flusher has ended before the host begins.
    NoFlusher,
    /// The device fails once, after so many calls.
    FailsAfter(u64),
    /// The device fails at the first block, once the host waits for room.
    FailsAtBacklog,
}

/// Holds workers. Who is held longer than 10,000 turns goes on, and is counted. It is also told
/// when memory ran out, so that nobody waits for what won't come.
#[derive(Drop)]
struct Gates<'a, R: Clock> {
    rt: &'a R,
    order: Order,
    accepted: AtomicU64,
    sending: AtomicU64,
    waiting: AtomicU64,
    missed: AtomicU64,
    lacked: AtomicBool,
    // Whom the device that failed has ended: 1 for a viewer, 2 for the flusher, 4 for the host.
    failed: AtomicU64,
}

impl<'a, R: Clock> Gates<'a, R> {
    fn new(rt: &'a R, order: Order) -> Gates<'a, R> {
        Gates {
            rt,
            order,
            accepted: AtomicU64::new(0),
            sending: AtomicU64::new(0),
            waiting: AtomicU64::new(0),
            missed: AtomicU64::new(0),
            lacked: AtomicBool::new(false),
            failed: AtomicU64::new(0),
        }
    }

    fn misses(&self) {
        self.missed.fetch_add(1, Ordering::SeqCst);
    }

    fn lacks(&self) {
        self.lacked.store(true, Ordering::SeqCst);
    }

    fn has_lacked(&self) -> bool {
        self.lacked.load(Ordering::SeqCst)
    }

    fn hold_until(&self, order: Order, count: &AtomicU64, least: u64) {
        if self.order != order {
            return;
        }
        for _ in 0..10_000 {
            if count.load(Ordering::SeqCst) >= least || self.has_lacked() {
                return;
            }
            let _ = thread::sleep(self.rt, Duration::from_millis(1));
        }
        self.misses();
    }
}

impl<'a, R: Clock> Turnstile for Gates<'a, R> {
    fn pass(&self, point: Point) {
        match point {
            Point::HostAccepted(_) => {
                self.accepted.fetch_add(1, Ordering::SeqCst);
            }
            Point::Sending { count, .. } => {
                if count > 0 {
                    self.sending.fetch_add(1, Ordering::SeqCst);
                    self.hold_until(Order::Meeting, &self.accepted, 2);
                }
            }
            Point::Committed(_) => {}
        }
    }
}

/// So many updates.
#[derive(Drop)]
struct Updates<'a, M: Mark, R: Clock> {
    alloc: Global,
    gates: &'a Gates<'a, R>,
    given: u64,
    count: u64,
    tickets: &'a mut Vec<Ticket<M>>,
}

impl<'a, M: Mark, R: Clock> HostSource<Ticket<M>> for Updates<'a, M, R> {
    ghost use Rattle.std.specs.Prelude.{[], false};
    ghost use Rattle.terms.specs.declared.format.Format.TheVariants.{One};

    ghost screen = { λ u. record { format = One; size = record { width = 1; height = 1 } } };

    ghost is_modelled = { ⊥ };

    ghost account = { λ u. record { first = 0; given = []; told = []; has_ended = false } };

    ghost ticket_of = { λ t. t };

    fn next(&mut self) -> Option<Stamped> {
        if self.given >= self.count {
            return None;
        }
        if self.given == 1 {
            let sending = &self.gates.sending;
            self.gates.hold_until(Order::Meeting, sending, 1);
        }
        self.given += 1;
        match HostMessage::from_bytes(self.alloc, ONE_PIXEL, &UPDATE) {
            Ok(message) => Some(Stamped { time: 0, message }),
            Err(_) => {
                self.gates.lacks();
                None
            }
        }
    }

    fn accepted(&mut self, ticket: Ticket<M>) {
        if self.tickets.push(ticket).is_err() {
            self.gates.lacks();
        }
    }
}

/// Keeps its receipts.
#[derive(Drop)]
struct Kept<'a, M: Mark, R: Clock> {
    gates: &'a Gates<'a, R>,
    receipts: &'a mut Vec<Receipt<M>>,
}

impl<'a, M: Mark, R: Clock> ReceiptSink<Receipt<M>> for Kept<'a, M, R> {
    ghost is_modelled = { ⊥ };

    ghost committed = { λ k. 0 };

    ghost slice_of = { λ r. r };

    fn writing(&mut self) {
        if self.gates.order == Order::FailsAtBacklog {
            // The block that was taken made room for 256 more.
            let accepted = &self.gates.accepted;
            self.gates
                .hold_until(Order::FailsAtBacklog, accepted, 1_280);
            let _ = thread::sleep(self.gates.rt, Duration::from_millis(100));
        }
    }

    fn receipt(&mut self, receipt: Receipt<M>) {
        if self.receipts.push(receipt).is_err() {
            self.gates.lacks();
        }
    }
}

/// What a viewer was told.
#[derive(Drop)]
struct Seen<M: Mark> {
    receipts: Vec<Receipt<M>>,
    ending: Option<Ending<M>>,
}

/// A viewer that waits and takes what there is, until it is told the end.
#[derive(Drop)]
struct Viewer<'a, M: Mark, R: Clock> {
    gates: &'a Gates<'a, R>,
    position: u64,
    is_fresh: bool,
    waits: bool,
    seen: &'a mut Seen<M>,
}

impl<'a, M: Mark, R: Clock> ViewerSink<Delivery<M>, Ending<M>> for Viewer<'a, M, R> {
    ghost is_modelled = { ⊥ };

    ghost size = { λ v. record { width = 1; height = 1 } };

    ghost position = { λ v. v.position };

    ghost fresh = { λ v. v.is_fresh };

    ghost slice_of = { λ d. d.slice };

    ghost snapshot_of = { λ d. d.snapshot };

    ghost count_of = { λ e. e.count };

    fn has_left(&self) -> bool {
        self.gates.waiting.fetch_add(1, Ordering::SeqCst);
        false
    }

    fn seated(&mut self, count: u64) {
        self.position = count;
        self.is_fresh = true;
    }

    fn wish(&mut self) -> ViewerWish {
        self.waits = !self.waits;
        if self.seen.ending.is_some() {
            ViewerWish::Stop
        } else if self.waits {
            ViewerWish::Wait
        } else {
            ViewerWish::Want(100)
        }
    }

    fn slice(&mut self, delivery: Delivery<M>) {
        let (receipt, _snapshot) = delivery.split();
        self.position = receipt.slice().end();
        self.is_fresh = false;
        if self.seen.receipts.push(receipt).is_err() {
            self.gates.lacks();
        }
    }

    fn end(&mut self, ending: Ending<M>) {
        self.seen.ending = Some(ending);
    }
}

/// What the workers of a test share: a host of so many updates, a flusher, and so many viewers.
#[derive(Drop)]
struct Workers<'a, D: Disk, M: Mark, R: Clock> {
    rt: &'a R,
    alloc: Global,
    shared: &'a Shared<D, M>,
    gates: &'a Gates<'a, R>,
    count: u64,
    viewers: usize,
}

/// What the workers were told.
#[derive(Drop)]
struct Told<M: Mark> {
    tickets: Vec<Ticket<M>>,
    committed: Vec<Receipt<M>>,
    seen: Vec<Seen<M>>,
}

impl<'a, D: Disk, M: Mark, R: Wait + Clock> Workers<'a, D, M, R> {
    fn host(&self, pen: &mut HostPen<M>) -> Vec<Ticket<M>>
        requires { IsOfOnePixel M.head }
    {
        let gates = self.gates;
        let mut tickets = Vec::new(self.alloc);
        let mut source = Updates {
            alloc: self.alloc,
            gates: &*gates,
            given: 0,
            count: self.count,
            tickets: &mut tickets,
        };
        let end = run_host(self.rt, self.shared, pen, &mut source, gates);
        drop(source);
        match (end, gates.order) {
            (Err(HostRefusal::NoMemory), _) => gates.lacks(),
            (Err(HostRefusal::Broken), Order::FailsAfter(_) | Order::FailsAtBacklog) => {
                gates.failed.fetch_add(4, Ordering::SeqCst);
            }
            (Ok(()), _) => {}
            _ => gates.misses(),
        }
        tickets
    }

    fn flush(&self, pen: &mut FlusherPen<M>) -> Vec<Receipt<M>> {
        let gates = self.gates;
        for order in [Order::Backlogged, Order::FailsAtBacklog] {
            gates.hold_until(order, &gates.accepted, 1_024);
        }
        let mut receipts = Vec::new(self.alloc);
        let mut kept = Kept {
            gates: &*gates,
            receipts: &mut receipts,
        };
        let end = run_flusher(self.rt, self.shared, pen, &mut kept, gates);
        drop(kept);
        match (end, gates.order) {
            (
                Err(FlusherEnd::Flush(FlushRefusal::Device)),
                Order::FailsAfter(_) | Order::FailsAtBacklog,
            ) => {
                gates.failed.fetch_add(2, Ordering::SeqCst);
            }
            (Ok(()), _) => {}
            (Err(_), _) => gates.lacks(),
        }
        receipts
    }

    fn view(&self) -> Seen<M>
        requires { IsOfOnePixel M.head }
    {
        let gates = self.gates;
        let mut seen = Seen {
            receipts: Vec::new(self.alloc),
            ending: None,
        };
        let viewer = Viewer {
            gates: &*gates,
            position: 0,
            is_fresh: true,
            waits: false,
            seen: &mut seen,
        };
        let end = run_viewer(self.rt, self.shared, Start::At(0), viewer, gates);
        match (end, gates.order) {
            (Ok(()), _) => {}
            (Err(ViewerEnd::Join(_)), _) => gates.misses(),
            (Err(ViewerEnd::Next(NextRefusal::Device)), Order::FailsAfter(_)) => {
                gates.failed.fetch_add(1, Ordering::SeqCst);
            }
            (Err(_), _) => gates.lacks(),
        }
        seen
    }
}

impl<'a, D: Disk + Send, M: Mark + Send + Sync, R: Threads + Wait + Clock + Sync> Workers<
    'a,
    D,
    M,
    R,
> {
    fn view_all(&self) -> Result<Vec<Seen<M>>, NoMemory>
        requires { IsOfOnePixel M.head }
    {
        let seen = map_indices(
            self.rt,
            self.alloc,
            self.viewers,
            &|_| -> Seen<M>
                requires { IsOfOnePixel M.head }
            { self.view() },
        );
        if seen.is_err() {
            self.gates.lacks();
        }
        seen
    }

    // The host and the flusher, each in a thread of its own if the order allows. If no thread can
    // be made, `join` calls its second closure and then its first: the host comes first, as the
    // flusher waits for its end, and it waits for nobody while there is room.
    fn record(
        &self,
        host: &mut HostPen<M>,
        flusher: &mut FlusherPen<M>,
    ) -> (Vec<Ticket<M>>, Vec<Receipt<M>>)
        requires { IsOfOnePixel M.head }
    {
        match self.gates.order {
            Order::Free
            | Order::Meeting
            | Order::Backlogged
            | Order::FailsAfter(_)
            | Order::FailsAtBacklog => {
                let (committed, tickets) = join(
                    self.rt,
                    move || self.flush(flusher),
                    move || -> Vec<Ticket<M>>
                        requires { IsOfOnePixel M.head }
                    { self.host(host) },
                );
                (tickets, committed)
            }
            Order::HostFirst => {
                let tickets = self.host(host);
                self.gates.waiting.store(0, Ordering::SeqCst);
                self.shared.wake(self.rt);
                let waiting = &self.gates.waiting;
                self.gates.hold_until(Order::HostFirst, waiting, 1);
                (tickets, self.flush(flusher))
            }
            Order::NoFlusher => {
                self.shared.end_flusher(self.rt);
                (self.host(host), Vec::new(self.alloc))
            }
        }
    }

    // All workers. The viewers wait for the end of both others, and so come last if no thread can
    // be made.
    fn work(&self, host: &mut HostPen<M>, flusher: &mut FlusherPen<M>) -> Result<Told<M>, NoMemory>
        requires { IsOfOnePixel M.head }
    {
        let (seen, (tickets, committed)) = join(
            self.rt,
            move || -> Result<Vec<Seen<M>>, NoMemory>
                requires { IsOfOnePixel M.head }
            { self.view_all() },
            move || -> (Vec<Ticket<M>>, Vec<Receipt<M>>)
                requires { IsOfOnePixel M.head }
            { self.record(host, flusher) },
        );
        let mut seen = seen?;
        if self.gates.order == Order::NoFlusher {
            // One after the other, more than there are seats.
            for _ in 0..65 {
                seen.push(self.view())?;
            }
        }
        Ok(Told {
            tickets,
            committed,
            seen,
        })
    }
}

// All receipts are confirmed, all tickets found, and the recording ended at the count at which
// viewers were told the end. If memory was ample, so many messages are committed, and handed to
// each viewer.
fn settle<D: Disk + Drop, M: Mark, R: Abort>(
    rt: &R,
    closed: &mut Closed<D, M>,
    told: &mut Told<M>,
    due: Option<u64>,
) -> Result<(), ReadFault> {
    find(rt, closed, &told.tickets)?;
    confirm(rt, closed, &told.committed)?;
    assert!(rt; due.unwrap_or(closed.committed()) == closed.committed());
    for seen in &told.seen {
        let handed = confirm(rt, closed, &seen.receipts)?;
        assert!(rt; due.unwrap_or(handed) == handed);
        match &seen.ending {
            Some(ending) => {
                closed.ended(ending);
                assert!(rt; ending.count() == closed.committed());
            }
            None => assert!(rt; due.is_none()),
        }
    }
    if let [.., one, other] = told.tickets.as_mut_slice() {
        closed.apart(one, other);
        assert!(rt; one.number() != other.number());
    }
    Ok(())
}

// How many messages are to be committed; `None` if memory ran out.
fn due_in<R: Clock>(gates: &Gates<R>, count: u64) -> Option<u64> {
    match gates.order {
        _ if gates.has_lacked() => None,
        Order::NoFlusher | Order::FailsAtBacklog => Some(0),
        // A block is committed by four calls.
        Order::FailsAfter(calls) => (calls < 4).then_some(0),
        Order::Free | Order::Meeting | Order::HostFirst | Order::Backlogged => Some(count),
    }
}

// The workers share a desk. All receipts are then confirmed, and all tickets found; if memory is
// ample, each message is committed and handed to each viewer.
fn share<
    'a,
    D: Disk + Send + Drop,
    M: Mark + Send + Sync,
    R: Threads + Wait + Clock + Abort + Sync,
>(
    rt: &'a R,
    alloc: Global,
    token: Token,
    desk: Box<Desk<D>>,
    gates: &'a Gates<'a, R>,
    count: u64,
    viewers: usize,
) -> Result<(), ReadFault>
    requires head { desk.value.head ≡ M.head }
    requires modelled { (D.is_modelled → M.is_modelled) × (M.is_modelled → D.is_modelled) }
    requires first { accepted_count desk.value.state.book ≡ M.first }
    requires names { token ≡ M.names }
    requires sized { IsOfOnePixel M.head }
{
    let Sharing {
        shared,
        mut host,
        mut flusher,
    } = Shared::<D, M>::new(rt, token, desk);
    let workers = Workers {
        rt: &*rt,
        alloc,
        shared: &shared,
        gates: &*gates,
        count,
        viewers,
    };
    let told = workers.work(&mut host, &mut flusher);
    drop(workers);
    let mut closed = shared.finish();
    closed.counted(&mut host, &mut flusher);
    match told {
        Ok(mut told) => settle(rt, &mut closed, &mut told, due_in(gates, count)),
        Err(NoMemory) => Ok(()),
    }
}

// What workers begin with; `None` if memory ran out.
fn begun(alloc: Global, order: Order) -> Option<(Token, Box<Desk<FailingDisk<MemoryDisk>>>)>
    ensures { IfSome result (λ b. IsOfOnePixel b.1.value.head) }
{
    let switch = Switch::new(alloc).ok()?;
    let disk = FailingDisk::new(MemoryDisk::new(alloc), switch.clone().ok()?);
    let desk = desk_of_one_pixel(alloc, disk)?;
    match order {
        Order::FailsAfter(calls) => switch.fail_after(calls),
        Order::FailsAtBacklog => switch.fail_after(0),
        _ => {}
    }
    Some((Token::new(alloc).ok()?, desk))
}

// Workers that come in this order. How many messages were accepted; `None` if memory ran out.
fn shared_by_workers<R: Threads + Wait + Clock + Abort + Sync>(
    rt: &R,
    alloc: Global,
    order: Order,
    count: u64,
    viewers: usize,
) -> Result<Option<u64>, ReadFault> {
    let gates = Gates::new(rt, order);
    let Some((token, desk)) = begun(alloc, order) else {
        return Ok(None);
    };
    share::<FailingDisk<MemoryDisk>, Brand, R>(rt, alloc, token, desk, &gates, count, viewers)?;
    if gates.has_lacked() {
        return Ok(None);
    }
    assert!(rt; gates.missed.load(Ordering::SeqCst) == 0);
    if let Order::FailsAfter(_) | Order::FailsAtBacklog = order {
        // A viewer, or the flusher and by it the host.
        assert!(rt; matches!(gates.failed.load(Ordering::SeqCst), 1 | 6));
    }
    Ok(Some(gates.accepted.load(Ordering::SeqCst)))
}

// The host goes on while a viewer is served; a viewer is told the end after the last commit; a host
// waits at a backlog; viewers are told the end if nothing is committed.
#[test]
fn workers_come_in_each_order(rt: HostRuntime) -> Result<(), Fail> {
    for (order, count, viewers, due) in [
        (Order::Meeting, 2, 1, 2),
        (Order::HostFirst, 300, 2, 300),
        (Order::Backlogged, 1_030, 1, 1_030),
        (Order::NoFlusher, 3, 1, 3),
    ] {
        let accepted = shared_by_workers(&rt, rt.alloc(), order, count, viewers)?;
        assert!(rt; accepted.unwrap_or(due) == due);
    }
    Ok(())
}

#[test]
fn eight_viewers_are_handed_ten_thousand_messages(rt: HostRuntime) -> Result<(), Fail> {
    shared_by_workers(&rt, rt.alloc(), Order::Free, 10_000, 8)?;
    Ok(())
}

// Each of the first calls in turn, as the flusher makes them alone and beside a viewer that reads. The
// host has more messages than three blocks and those that may wait.
#[test]
fn a_device_that_fails_ends_its_callers(rt: HostRuntime) -> Result<(), Fail> {
    for viewers in [0, 1] {
        for calls in 0..12 {
            shared_by_workers(&rt, rt.alloc(), Order::FailsAfter(calls), 2_000, viewers)?;
        }
    }
    Ok(())
}

// A host that sleeps at a backlog is woken by the device's failure, and ends.
#[test]
fn a_device_that_fails_wakes_a_host_that_waits(rt: HostRuntime) -> Result<(), Fail> {
    let accepted = shared_by_workers(&rt, rt.alloc(), Order::FailsAtBacklog, 2_000, 0)?;
    assert!(rt; accepted.unwrap_or(1_280) == 1_280);
    Ok(())
}

#[test]
fn workers_share_while_memory_lasts(rt: HostRuntime) -> Result<(), Fail> {
    shared_by_workers(&rt, rt.alloc(), Order::Free, 3, 1)?;
    Ok(())
}
