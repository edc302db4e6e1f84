//! What the threads of a recorder share beside its book.

ghost use Rattle.std.specs.Prelude.{◌≡◌, ◌<◌, ◌^◌, ◌↔◌, IsTrue, length};
ghost use Rattle.book_workers.specs.Receipts.{IsOfRecording, screen_of, size_of};

use crate::facts::Facts;
use crate::guest::Guest;
use book_workers::broadcast::Start;
use book_workers::shared_book::Mark;
use file_disk::LastError;
use playing::Program;
use reception::{Arrival, Backlog, Reason, Reception, Term};
use rfb_wire::HostMessage;
use serve_plan::Plan;
use sockets::{Bell, Connection};
use std::alloc::Global;
use std::marker::PhantomData;
use std::sync::atomic::{AtomicBool, AtomicU64, Ordering};
use std::sync::{Condvar, Mutex, Wait};
use std::time::{Clock, Duration, Instant};
use telling::{Answering, Event, Silence, Telling};
use terms::RecordedScreen;
use viewer_session::shared_updates::Shelf;

/// The position at which viewers begin in a recording that is open, and how it is played.
#[derive(Clone, Copy, Debug, PartialEq, Eq)]
pub struct Beginning {
    pub start: Start,
    /// `None` if it is shown as it grows.
    pub program: Option<Program>,
}

/// Who watches, under a lock. Whoever waits here waits for the recorder to close or to be done, or
/// for a viewer to have left, and is woken at each of them.
#[derive(Drop)]
pub struct Hall {
    reception: Mutex<Reception>,
    changed: Condvar,
}

impl Hall {
    /// One that nobody came to yet, with so many seats.
    pub fn new(term: Term, seats: u32) -> Hall {
        Hall {
            reception: Mutex::new(Reception::new(term, seats)),
            changed: Condvar::new(),
        }
    }

    /// Receives a connection.
    pub fn arrive<R: Wait>(&self, rt: &R) -> Arrival {
        self.reception.lock(rt).arrive()
    }

    /// Ends a handshake without a viewer.
    pub fn give_up<R: Wait>(&self, rt: &R) {
        self.reception.lock(rt).give_up();
    }

    /// Ends a handshake that is whole: the viewer takes a seat, or this is why not.
    pub fn seat<R: Wait>(&self, rt: &R) -> Result<(), Reason> {
        self.reception.lock(rt).seat()
    }

    /// How many viewers are still to come, of those that are waited for.
    pub fn missing<R: Wait>(&self, rt: &R) -> u32 {
        self.reception.lock(rt).missing()
    }

    /// Frees a viewer's seat.
    pub fn leave<R: Wait>(&self, rt: &R) {
        self.reception.lock(rt).leave();
        self.changed.notify_all();
    }

    /// Says that nothing more is recorded.
    pub fn end<R: Wait>(&self, rt: &R) {
        self.reception.lock(rt).end();
        self.changed.notify_all();
    }

    /// Asks the recorder to end.
    pub fn stop<R: Wait>(&self, rt: &R) {
        self.reception.lock(rt).stop();
        self.changed.notify_all();
    }

    /// Whether those who are there are only shown the rest.
    pub fn is_closing<R: Wait>(&self, rt: &R) -> bool {
        self.reception.lock(rt).is_closing()
    }

    /// Wakes those who wait here for a viewer to have left.
    pub fn wake<R: Wait>(&self, rt: &R) {
        // Who looked before is asleep once the lock is free, and is woken.
        drop(self.reception.lock(rt));
        self.changed.notify_all();
    }

    /// Waits until nothing is left to wait for.
    pub fn wait_until_done<R: Wait>(&self, rt: &R) {
        let _done = self.changed.wait_while(
            rt,
            self.reception.lock(rt),
            |reception| !reception.is_done(),
        );
    }

    /// Waits until the recorder is closing, or a viewer has left.
    pub fn wait_until_closing<R: Wait, F: Fn() -> bool>(&self, rt: &R, has_left: F)
        requires { F.IsAlwaysCallable has_left }
    {
        let _closing = self.changed.wait_while(
            rt,
            self.reception.lock(rt),
            |reception| !reception.is_closing() && !has_left(),
        );
    }

    /// Waits for so long at most, until the recorder is closing, or a viewer has left.
    pub fn wait_for<R: Clock + Wait, F: Fn() -> bool>(&self, rt: &R, limit: Duration, has_left: F)
        requires { F.IsAlwaysCallable has_left }
    {
        let _over = self.changed.wait_timeout_while(
            rt,
            self.reception.lock(rt),
            limit,
            |reception| !reception.is_closing() && !has_left(),
        );
    }
}

/// How much waits to be committed, under a lock. The host's worker waits here for room.
#[derive(Drop)]
pub struct Intake {
    state: Mutex<IntakeState>,
    changed: Condvar,
}

#[derive(Drop)]
struct IntakeState {
    backlog: Backlog,
    is_over: bool,
}

impl Intake {
    /// Nothing waits.
    pub fn new() -> Intake {
        Intake {
            state: Mutex::new(IntakeState {
                backlog: Backlog::new(),
                is_over: false,
            }),
            changed: Condvar::new(),
        }
    }

    /// A message of so many bytes was accepted.
    pub fn accept<R: Wait>(&self, rt: &R, bytes: u64) {
        self.state.lock(rt).backlog.accept(bytes);
    }

    /// Messages of so many bytes were committed.
    pub fn commit<R: Wait>(&self, rt: &R, bytes: u64) {
        self.state.lock(rt).backlog.commit(bytes);
        self.changed.notify_all();
    }

    /// Says that nothing more is committed, so that nobody waits for it.
    pub fn end<R: Wait>(&self, rt: &R) {
        self.state.lock(rt).is_over = true;
        self.changed.notify_all();
    }

    /// Waits until the host may be asked for more, or nothing more is committed.
    pub fn wait_for_room<R: Wait>(&self, rt: &R) {
        let _room = self.changed.wait_while(rt, self.state.lock(rt), |state| {
            !state.backlog.has_room() && !state.is_over
        });
    }
}

/// Since when a block is being written, for who looks whether the device answers.
#[derive(Drop)]
pub struct Device {
    started: Option<Instant>,
    // In milliseconds from the start on, or the greatest number if none is written.
    since: AtomicU64,
}

impl Device {
    /// Nothing is written.
    pub fn new<R: Clock>(rt: &R) -> Device {
        Device {
            started: Instant::now(rt).ok(),
            since: AtomicU64::new(u64::MAX),
        }
    }

    // How many milliseconds have passed; `None` if the clock can't be read.
    fn now<R: Clock>(&self, rt: &R) -> Option<u64> {
        let passed = self.started?.elapsed(rt).ok()?;
        u64::try_from(passed.as_millis()).ok()
    }

    /// A block is written now.
    pub fn begin<R: Clock>(&self, rt: &R) {
        let now = self.now(rt).unwrap_or(u64::MAX);
        self.since.store(now, Ordering::SeqCst);
    }

    /// No block is written.
    pub fn end(&self) {
        self.since.store(u64::MAX, Ordering::SeqCst);
    }

    /// What is told of the device now, by who tells of it.
    pub fn look<R: Clock>(&self, rt: &R, silence: &mut Silence) -> Option<Answering> {
        let call = Some(self.since.load(Ordering::SeqCst)).filter(|since| *since != u64::MAX);
        silence.look(self.now(rt)?, call)
    }
}

/// What all threads of a recorder share: the recording's screen and name, the position at which
/// viewers begin, who watches, what waits, how far the recording is committed, what the system said
/// of its file, and whether a block is being written.
#[derive(Drop)]
pub struct Room<M: Mark> {
    pub alloc: Global,
    pub screen: RecordedScreen,
    pub name: Vec<u8>,
    pub from: Start,
    /// How the recording is played, if it is in its own time.
    pub program: Option<Program>,
    /// Whether there is no host: nothing is recorded.
    pub is_alone: bool,
    pub hall: Hall,
    pub intake: Intake,
    pub bell: Bell,
    pub telling: Telling,
    pub last_error: LastError,
    pub device: Device,
    pub facts: Facts,
    /// The updates that viewers were sent last.
    pub shelf: Mutex<Shelf>,
    /// Whether viewers stay once the recording has ended, until the recorder is stopped.
    pub stays: bool,
    committed: AtomicU64,
    is_unreadable: AtomicBool,
    is_stopped: AtomicBool,
    is_broken_off: AtomicBool,
    of: PhantomData<M>,
    ghost sized: { screen ≡ screen_of M.head },
    ghost named: { length name.items < 2 ^ 32 },
}

impl<M: Mark> Room<M> {
    /// The room of a recording of this screen and name, of which so much is committed, and whose hall
    /// people may have come to already.
    pub fn new(
        alloc: Global,
        screen: RecordedScreen,
        name: Vec<u8>,
        plan: &Plan<'_>,
        beginning: Beginning,
        hall: Hall,
        bell: Bell,
        telling: Telling,
        last_error: LastError,
        device: Device,
        committed: u64,
        last_time: u32,
    ) -> Room<M>
        requires sized { screen ≡ screen_of M.head }
        requires named { length name.items < 2 ^ 32 }
    {
        Room {
            alloc,
            screen,
            name,
            from: beginning.start,
            program: beginning.program,
            is_alone: plan.host.is_none(),
            hall,
            intake: Intake::new(),
            bell,
            telling,
            last_error,
            device,
            facts: Facts::new(last_time),
            shelf: Mutex::new(Shelf::new(alloc)),
            stays: plan.keeps_viewers(),
            committed: AtomicU64::new(committed),
            is_unreadable: AtomicBool::new(false),
            is_stopped: AtomicBool::new(false),
            is_broken_off: AtomicBool::new(false),
            of: PhantomData,
        }
    }

    /// Whether a message is for this recording: of its size and format.
    pub fn is_for(&self, message: &HostMessage) -> bool
        ensures { IsTrue result ↔ IsOfRecording M.head message.now }
    {
        message.size() == self.screen.size && message.format() == self.screen.format
    }

    /// Whether a guest was told of the recording's size.
    pub fn fits<C: Connection>(&self, guest: &Guest<C>) -> bool
        ensures { IsTrue result → guest.now.size ≡ size_of M.head }
    {
        guest.size == self.screen.size
    }

    /// Asks the recorder to end.
    pub fn stop<R: Wait>(&self, rt: &R) {
        self.is_stopped.store(true, Ordering::SeqCst);
        self.hall.stop(rt);
    }

    /// Whether the recorder was asked to end.
    pub fn is_stopped(&self) -> bool {
        self.is_stopped.load(Ordering::SeqCst)
    }

    /// Says that nothing more can be committed, so that the host is hung up on.
    pub fn break_off(&self) {
        self.is_broken_off.store(true, Ordering::SeqCst);
    }

    /// Whether the recorder hung up on the host: it was asked to end, or can commit nothing more.
    pub fn has_hung_up(&self) -> bool {
        self.is_stopped() || self.is_broken_off.load(Ordering::SeqCst)
    }

    /// How many messages are committed, as far as viewers were told.
    pub fn committed(&self) -> u64 {
        self.committed.load(Ordering::SeqCst)
    }

    /// Tells viewers that so many messages are committed.
    pub fn set_committed(&self, count: u64) {
        self.committed.store(count, Ordering::SeqCst);
    }

    /// Notes that the device failed when a viewer was to be shown what is recorded, and tells so
    /// the first time.
    pub fn note_unreadable<R: Wait>(&self, rt: &R) {
        if !self.is_unreadable.swap(true, Ordering::SeqCst) {
            let error = self.last_error.get();
            self.telling.tell(rt, Event::Unreadable(error.as_ref()));
        }
    }

    /// Whether the device failed so.
    pub fn is_unreadable(&self) -> bool {
        self.is_unreadable.load(Ordering::SeqCst)
    }
}
