//! The same lines through the lock and at a desk.

ghost use Rattle.std.specs.Prelude.{◌≡◌, IfSome};
ghost use Rattle.flusher_core.specs.State.{accepted_count};
ghost use Rattle.book_tests.specs.OnePixel.{IsOfOnePixel};

use super::{UPDATE, confirm, find};
use crate::{ONE_PIXEL, desk_of_one_pixel};
use Line::{At, Bell, Body, Foreign, Gate, Key, Leave, Live, Newest, Next, Seek, Take, Update};
use book_workers::shared_book::{Closed, Mark, Receipt, Shared, Sharing, Ticket, Token};
use broadcast::{Desk, Seat, Start};
use disk::{Disk, FailingDisk, MemoryDisk, Switch};
use gated_journal::ReadFault;
use replay::Slice;
use rfb_wire::HostMessage;
use std::alloc::Global;
use std::marker::Brand;
use std::process::Abort;
use std::sync::Wait;
use std::test::Fail;

/// A bell: it paints nothing.
const BELL: [u8; 1] = [2];

/// A call. Seats are a stack: the seat of `Next`, `Seek`, `Newest` and `Leave` is the last one that
/// joined.
#[derive(Clone, Copy)]
enum Line {
    Update,
    Bell,
    Take,
    Body,
    Gate,
    Live,
    At(u64),
    /// A seat of another desk, which stands before all messages there.
    Foreign,
    /// Of eight messages at most.
    Next,
    Seek(u64),
    /// At the desk `Seek` to the committed messages' end, and `Next` of none.
    Newest,
    Leave,
    /// The committed count, and the last key screen at so many messages or before.
    Key(u64),
}

/// Seats that read before, between and after the steps of a commit, and are moved, one that isn't
/// held before anything is read back. The last two lines have slices of two blocks.
const READING: [&[Line]; 5] = [
    &[
        Live,
        Update,
        Bell,
        Take,
        Body,
        Next,
        Gate,
        Foreign,
        Next,
        Seek(0),
        Leave,
        Live,
        Next,
        At(1),
        Next,
    ],
    &[
        Update,
        Take,
        Body,
        Live,
        Next,
        Gate,
        Newest,
        Next,
        Key(3),
        Leave,
    ],
    &[At(0), Seek(3), Next, Next, Seek(4)],
    &[At(4), Live, Next],
    &[At(0), Next, Next, Seek(1), Next],
];

/// A seat that is taken while a block is written, and another after its commit.
const SEATS: [&[Line]; 1] = [&[
    Update,
    Take,
    Body,
    Live,
    Next,
    Gate,
    Next,
    Leave,
    At(0),
    Next,
    Seek(1),
    Next,
    Seek(2),
]];

/// After 300 bells: the second block begins with a key screen.
const KEYS: [&[Line]; 1] = [&[Take, Body, Gate, Take, Body, Gate, Key(255), Key(1_000)]];

/// After one bell more than may wait.
const ROOM: [&[Line]; 1] = [&[Take, Body, Gate, Bell]];

/// What is kept of the calls: each seat at the desk and its twin, and what the lock gave.
#[derive(Drop)]
struct Kept<M: Mark> {
    seats: Vec<(Seat, Seat)>,
    receipts: Vec<Receipt<M>>,
    tickets: Vec<Ticket<M>>,
}

// Each of these makes one call at a desk, and the one of its name through the lock: whether both
// answer the same; `None` if memory ran out, or if a call's seat isn't there.
fn host<D: Disk, M: Mark, R: Wait>(
    rt: &R,
    alloc: Global,
    desk: &mut Desk<D>,
    sharing: &mut Sharing<D, M>,
    tickets: &mut Vec<Ticket<M>>,
    bytes: &[u8],
) -> Option<bool>
    requires pixel { IsOfOnePixel desk.old.head }
    requires sized { IsOfOnePixel M.head }
    ensures head { desk.new.head ≡ desk.old.head }
{
    let message = HostMessage::from_bytes(alloc, ONE_PIXEL, bytes).ok()?;
    let again = HostMessage::from_bytes(alloc, ONE_PIXEL, bytes).ok()?;
    let Sharing { shared, host, .. } = sharing;
    match (desk.host(0, message), shared.host(rt, host, 0, again)) {
        (Ok(number), Ok(ticket)) => {
            let is_same = number == ticket.number();
            tickets.push(ticket).ok()?;
            Some(is_same)
        }
        (Err(refused), Err(twin)) => Some(refused.why == twin.why),
        _ => Some(false),
    }
}

fn join<D: Disk, M: Mark, R: Wait>(
    rt: &R,
    desk: &mut Desk<D>,
    shared: &Shared<D, M>,
    seats: &mut Vec<(Seat, Seat)>,
    start: Start,
) -> Option<bool>
    ensures head { desk.new.head ≡ desk.old.head }
{
    match (desk.join(start), shared.join(rt, start)) {
        (Ok(seat), Ok(twin)) => {
            let is_same = seat.number() == twin.number() && seat.position() == twin.position();
            seats.push((seat, twin)).ok()?;
            Some(is_same)
        }
        (Err(refusal), Err(twin)) => Some(refusal == twin),
        _ => Some(false),
    }
}

// A seat of another desk of this kind.
fn foreign(alloc: Global) -> Option<Seat> {
    let mut desk = desk_of_one_pixel(alloc, MemoryDisk::new(alloc))?;
    desk.join(Start::Live).ok()
}

// Whether both hand out the same, or refuse it for the same.
fn hand_out<M: Mark, E: PartialEq + Drop>(
    receipts: &mut Vec<Receipt<M>>,
    answer: Result<Slice, E>,
    twin: Result<Receipt<M>, E>,
) -> Option<bool> {
    match (answer, twin) {
        (Ok(slice), Ok(receipt)) => {
            let is_same = slice.same(receipt.slice());
            receipts.push(receipt).ok()?;
            Some(is_same)
        }
        (Err(refusal), Err(twin)) => Some(refusal == twin),
        _ => Some(false),
    }
}

fn both<D: Disk, M: Mark, R: Wait>(
    rt: &R,
    alloc: Global,
    desk: &mut Desk<D>,
    sharing: &mut Sharing<D, M>,
    kept: &mut Kept<M>,
    line: Line,
) -> Option<bool>
    requires pixel { IsOfOnePixel desk.old.head }
    requires sized { IsOfOnePixel M.head }
    ensures head { desk.new.head ≡ desk.old.head }
{
    let shared = &sharing.shared;
    match line {
        Update => host(rt, alloc, desk, sharing, &mut kept.tickets, &UPDATE),
        Bell => host(rt, alloc, desk, sharing, &mut kept.tickets, &BELL),
        Take => Some(desk.take() == shared.take(rt)),
        Body => Some(desk.body() == shared.body(rt)),
        Gate => {
            let twin = shared.gate(rt, &mut sharing.flusher);
            hand_out(&mut kept.receipts, desk.gate(), twin)
        }
        Live => join(rt, desk, shared, &mut kept.seats, Start::Live),
        At(n) => join(rt, desk, shared, &mut kept.seats, Start::At(n)),
        Foreign => {
            kept.seats.push((foreign(alloc)?, foreign(alloc)?)).ok()?;
            Some(true)
        }
        Next => {
            let (seat, twin) = kept.seats.last_mut()?;
            let answer = desk.next(seat, 8);
            hand_out(&mut kept.receipts, answer, shared.next(rt, twin, 8))
        }
        Seek(n) => {
            let (seat, twin) = kept.seats.last_mut()?;
            Some(desk.seek(seat, n) == shared.seek(rt, twin, n))
        }
        Newest => {
            let (seat, twin) = kept.seats.last_mut()?;
            let newest = desk.committed();
            desk.seek(seat, newest).ok()?;
            let answer = desk.next(seat, 0);
            let delivered = shared.newest(rt, twin).map(|delivery| delivery.split().0);
            hand_out(&mut kept.receipts, answer, delivered)
        }
        Leave => {
            let (seat, twin) = kept.seats.pop()?;
            Some(desk.leave(seat) == shared.leave(rt, twin))
        }
        Key(n) => Some(
            desk.committed() == shared.committed(rt)
                && desk.key_before(n) == shared.key_before(rt, n),
        ),
    }
}

// Each line is answered by both as by the other.
fn run_lines<D: Disk, M: Mark, R: Wait + Abort>(
    rt: &R,
    alloc: Global,
    desk: &mut Desk<D>,
    sharing: &mut Sharing<D, M>,
    kept: &mut Kept<M>,
    lines: &[Line],
)
    requires pixel { IsOfOnePixel desk.old.head }
    requires sized { IsOfOnePixel M.head }
{
    for line in lines {
        let are_same = both(rt, alloc, desk, sharing, kept, *line);
        assert!(rt; are_same == Some(true));
    }
}

// All receipts are confirmed, and all tickets found that are below the closed count.
fn confirm_all<D: Disk, M: Mark, R: Abort>(
    rt: &R,
    closed: &mut Closed<D, M>,
    kept: &Kept<M>,
) -> Result<(), ReadFault> {
    confirm(rt, closed, &kept.receipts)?;
    find(rt, closed, &kept.tickets)
}

// Runs the lines at a desk, and at its twin through the lock.
fn run_both<D: Disk + Drop, M: Mark, R: Wait + Abort>(
    rt: &R,
    alloc: Global,
    token: Token,
    desk: &mut Desk<D>,
    twin: Box<Desk<D>>,
    lines: &[Line],
) -> Result<(), ReadFault>
    requires pixel { IsOfOnePixel desk.old.head }
    requires head { twin.value.head ≡ M.head }
    requires modelled { (D.is_modelled → M.is_modelled) × (M.is_modelled → D.is_modelled) }
    requires first { accepted_count twin.value.state.book ≡ M.first }
    requires names { token ≡ M.names }
    requires sized { IsOfOnePixel M.head }
{
    let mut sharing = Shared::<D, M>::new(rt, token, twin);
    let mut kept = Kept {
        seats: Vec::new(alloc),
        receipts: Vec::new(alloc),
        tickets: Vec::new(alloc),
    };
    run_lines(rt, alloc, desk, &mut sharing, &mut kept, lines);
    let Sharing {
        shared,
        mut host,
        mut flusher,
    } = sharing;
    let mut closed = shared.finish();
    closed.counted(&mut host, &mut flusher);
    confirm_all(rt, &mut closed, &kept)
}

// A desk whose disk fails once, after so many calls.
fn failing_desk(alloc: Global, calls: u64) -> Option<Box<Desk<FailingDisk<MemoryDisk>>>>
    ensures pixel { IfSome result (λ desk. IsOfOnePixel desk.value.head) }
{
    let switch = Switch::new(alloc).ok()?;
    let disk = FailingDisk::new(MemoryDisk::new(alloc), switch.clone().ok()?);
    let desk = desk_of_one_pixel(alloc, disk)?;
    switch.fail_after(calls);
    Some(desk)
}

// Two disks that fail at the same call.
fn run_twins<R: Wait + Abort>(
    rt: &R,
    alloc: Global,
    lines: &[Line],
    calls: u64,
) -> Result<(), Fail> {
    let mut desk = failing_desk(alloc, calls).ok_or("no desk")?;
    let twin = failing_desk(alloc, calls).ok_or("no twin")?;
    let token = Token::new(alloc)?;
    let ran = run_both::<FailingDisk<MemoryDisk>, Brand, R>(
        rt, alloc, token, &mut desk, twin, lines,
    );
    Ok(ran?)
}

// One line so many times, and then these lines, with each device call failing in turn: no run makes
// as many as 24.
#[test]
fn a_call_through_the_lock_answers_as_the_desk(rt: HostRuntime) -> Result<(), Fail> {
    let alloc = rt.alloc();
    for (count, line, then) in [
        (0, Bell, &READING[..]),
        (0, Bell, &SEATS),
        (300, Bell, &KEYS),
        (1_025, Bell, &ROOM),
        (65, Live, &[]),
    ] {
        let mut lines = Vec::new(alloc);
        for _ in 0..count {
            lines.push(line)?;
        }
        for row in then {
            lines.extend_from_slice(row)?;
        }
        for calls in 0..=24 {
            run_twins(&rt, alloc, &lines, calls)?;
        }
    }
    Ok(())
}
