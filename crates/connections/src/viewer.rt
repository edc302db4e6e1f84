//! A viewer, which two threads share.

ghost use Rattle.std.specs.Prelude.{◌≡◌, ◌<◌, ◌≤◌, ◌^◌, ◌+◌, ◌-◌, IfSome, IsTrue, false, length, min, true};
ghost use Rattle.book_workers.specs.Receipts.{IsOfSize, IsScreenSized, size_of};

use crate::facts::Facts;
use crate::guest::{Guest, VERSION, hear_version, say};
use crate::limits::{ANSWER, BETWEEN_ORDERS, FAREWELL, HANDSHAKE, PARTING, PULSE};
use crate::room::Room;
use book_workers::replay::Slice;
use book_workers::shared_book::{Delivery, Mark, Shared};
use carriage::{Carriage, Ending, Status};
use disk::Disk;
use painter::Snapshot;
use rect_data::Encoding;
use rfb_wire::HostMessage;
use sockets::{Bell, Connection, Woken};
use std::alloc::{AllocError, Global};
use std::io;
use std::marker::PhantomData;
use std::sync::atomic::{AtomicBool, AtomicU64, Ordering};
use std::sync::{Condvar, Mutex, Wait};
use std::time::{Clock, Duration, Instant};
use steering::{Course, Stage, Steering};
use terms::four_bytes;
use viewer_session::Session;
use viewer_session::shared_updates::CommonShelf;
use web_frames::{END_OF_TEXT, Heard};
use web_target::order_of;

/// How many bytes are read at a time.
const PIECE: usize = 4096;

/// What a viewer was shown and asks for, as it stands at a moment.
#[derive(Clone, Copy, Debug, PartialEq, Eq)]
pub struct Standing {
    /// Whether it asks for what changes next, and isn't answered yet.
    pub has_asked: bool,
    /// Whether it was sent an update since it was handed anything.
    pub is_answered: bool,
    /// Whether all of its screen changed since it was sent an update.
    pub is_stale: bool,
}

/// How a viewer goes on after what it has sent.
#[derive(Clone, Copy, PartialEq, Eq)]
enum Heeded {
    /// As before.
    Same,
    /// It asks to be shown something else.
    Steered,
    /// It has ended, or has to.
    Over,
}

/// A viewer's session of the recording's size, and what carries it.
#[derive(Drop)]
struct Talk<M: Mark> {
    session: Session,
    carriage: Carriage,
    /// What came last; what it is to be answered waits here.
    heard: Heard,
    /// What a viewer in a browser has asked for; `None` for any other.
    course: Option<Course>,
    /// What it was told last.
    told: Option<Status>,
    /// The first message count that the viewer is shown.
    shows_from: u64,
    /// Whether the whole screen has changed since the viewer was sent an update: it is sent all of
    /// it next, whatever comes.
    lacks_all: bool,
    /// Whether it was sent an update since it was handed anything.
    is_answered: bool,
    /// When it said anything last, or was begun to be shown anything, if the clock could be read.
    heard_at: Option<Instant>,
    of: PhantomData<M>,
    ghost sized: { (session.view.screen.width ≡ M.head.width) × (session.view.screen.height ≡ M.head.height) },
}

// Whether the rectangles of a message have as many pixels as the screen, as those of an update of
// the whole screen have. Those that copy don't count: the viewer copies, too.
fn is_of_whole_screen(message: &HostMessage) -> bool {
    let size = message.size();
    let mut left = u64::from(size.width) * u64::from(size.height);
    for rectangle in message.rectangles() {
        if rectangle.encoding != Encoding::CopyRect {
            let area = rectangle.area;
            left = left.saturating_sub(u64::from(area.w) * u64::from(area.h));
        }
    }
    left == 0
}

// Goes on by what a viewer was handed.
fn follow(course: &mut Course, slice: &Slice, facts: &Facts) {
    if slice.start.is_some() {
        course.hand_screen(facts.length());
    }
    if let Some(last) = slice.messages.last() {
        course.hand_message(last.time);
    }
}

// Waits until so much has passed since an order that the next may be obeyed.
fn wait_after<M: Mark, R: Clock>(rt: &R, room: &Room<M>, order: Option<Instant>) {
    let passed = order.and_then(|order| order.elapsed(rt).ok());
    let pause = Duration::from_millis(BETWEEN_ORDERS);
    if let Some(left) = passed.and_then(|passed| pause.checked_sub(passed)) {
        let _rung = room.bell.wait(None, Some(left));
    }
}

// Writes an answer within the time that one may take. Once the recorder is closing, a viewer that takes
// nothing of it for as long as it might take to ask for the rest is given up.
fn write_answer<M: Mark, C: Connection, R: Clock + Wait>(
    rt: &R,
    connection: &C,
    room: &Room<M>,
    answer: &[u8],
) -> io::Result<()> {
    let waited = AtomicU64::new(0);
    connection.write_while(rt, answer, ANSWER, || {
        !room.hall.is_closing(rt) || waited.fetch_add(1, Ordering::SeqCst) < FAREWELL
    })
}

impl<M: Mark> Talk<M> {
    // Takes the orders that came: whether there were some; `None` if one asks for what there isn't.
    fn heed(&mut self, facts: &Facts) -> Option<bool> {
        let Some(texts) = self.heard.words.strip_suffix(&[END_OF_TEXT]) else {
            return Some(false);
        };
        for text in texts.split(|byte| *byte == END_OF_TEXT) {
            let order = order_of(text)?;
            self.course.as_mut()?.take(order, facts.length());
        }
        Some(true)
    }

    // Takes a piece of what the viewer sends.
    fn feed(&mut self, piece: &[u8], facts: &Facts) -> Heeded {
        self.heard.payload.clear();
        self.heard.words.clear();
        let is_carried = self.carriage.take(piece, &mut self.heard);
        let is_heard = self.session.feed(&self.heard.payload).is_ok();
        match self.heed(facts) {
            Some(is_steered) if is_carried && is_heard => {
                if is_steered {
                    Heeded::Steered
                } else {
                    Heeded::Same
                }
            }
            Some(_) => Heeded::Over,
            None => {
                let _told = self.carriage.end(Ending::Unknown, &mut self.heard.replies);
                Heeded::Over
            }
        }
    }

    // Goes on by a slice that begins at the session's position, or has a start, to a snapshot of the
    // screen at its end, or by painting it if there is none: whether it does. There may be no memory
    // to paint.
    fn advance(&mut self, slice: &Slice, snapshot: Option<Snapshot>, facts: &Facts) -> bool
        requires sized { IsOfSize (size_of M.head) slice.now }
        requires snapshot { IsScreenSized (size_of M.head) snapshot }
        requires room { slice.now.first + length slice.now.messages.items < 2 ^ 64 }
    {
        if slice.start.is_none() && slice.first != self.session.position() {
            return false;
        }
        match snapshot {
            Some(snapshot) => self.session.advance_to(slice, snapshot),
            None => {
                if self.session.advance(slice).is_err() {
                    return false;
                }
            }
        }
        if let Some(course) = &mut self.course {
            follow(course, slice, facts);
        }
        self.is_answered = self.is_answered && slice.start.is_none() && slice.messages.is_empty();
        self.lacks_all = self.lacks_all || slice.start.is_some();
        for stamped in &slice.messages {
            self.lacks_all = self.lacks_all || is_of_whole_screen(&stamped.message);
        }
        true
    }

    // Whether it may be answered: it has come to the position at which it begins, by a screen that
    // obeys all its orders.
    fn is_there(&self) -> bool
        ensures there { IsTrue result → self.now.shows_from ≤ self.now.session.view.position }
        ensures obeyed { IsTrue result → IfSome self.now.course (λ course. course.stage ≡ Stage.Obeyed) }
    {
        let is_obeyed = match &self.course {
            Some(course) => course.is_obeyed(),
            None => true,
        };
        is_obeyed && self.shows_from <= self.session.position()
    }

    // Writes what is due, with an update if one is and the viewer goes on, within the time that an
    // answer may take.
    fn answer<C: Connection, R: Clock + Wait>(
        &mut self,
        rt: &R,
        connection: &C,
        room: &Room<M>,
        goes_on: bool,
    ) -> io::Result<()>
        ensures not_yet { self.old.session.view.position < self.old.shows_from → self.new.session ≡ self.old.session }
        ensures not_obeyed { (IfSome self.old.course (λ course. course.stage ≡ Stage.Obeyed) → ⊥) → self.new.session ≡ self.old.session }
    {
        let mut out = Vec::new(room.alloc);
        out.append(&mut self.heard.replies)?;
        if goes_on && self.is_there() {
            let mut due = Vec::new(room.alloc);
            let is_asked = self.session.wants();
            let status = room.facts.status(self.session.position(), self.course);
            let updates = CommonShelf {
                rt,
                alloc: room.alloc,
                shelf: &room.shelf,
                are_several: status.watching > 1,
            };
            self.session.answer(&updates, &mut due)?;
            if is_asked && !self.session.wants() {
                self.lacks_all = false; // an update is among what is due
                self.is_answered = true;
                self.tell(&room.facts, &mut out)?;
            }
            self.carriage.wrap(&mut due, &mut out)?;
        }
        write_answer(rt, connection, room, &out)
    }

    // Appends what the viewer is shown, and how the session stands.
    fn tell(&mut self, facts: &Facts, out: &mut Vec<u8>) -> Result<(), AllocError> {
        let status = facts.status(self.session.position(), self.course);
        self.told = Some(status);
        self.carriage.tell(status, out)
    }

    // Tells how the session stands if that is news, or a sign of life is due.
    fn tell_news<C: Connection, R: Clock + Wait>(
        &mut self,
        rt: &R,
        connection: &C,
        room: &Room<M>,
        is_due: bool,
    ) -> io::Result<()> {
        let status = room.facts.status(self.session.position(), self.course);
        let is_news = self.told.is_some_and(|told| status.is_news_after(told));
        if !is_news && !is_due {
            return Ok(());
        }
        let mut out = Vec::new(room.alloc);
        self.tell(&room.facts, &mut out)?;
        write_answer(rt, connection, room, &out)
    }

    // Tells why the connection ends; what doesn't go out soon is left.
    fn part<C: Connection, R: Clock>(
        &mut self,
        rt: &R,
        alloc: Global,
        connection: &C,
        ending: Ending,
    ) {
        let mut out = Vec::new(alloc);
        if self.carriage.end(ending, &mut out).is_ok() {
            let _told = connection.write_within(rt, &out, PARTING);
        }
    }

    // Has the viewer answered only once it stands further on, if it is sent the whole screen next,
    // whatever comes: whether it is.
    fn hold_back(&mut self) -> bool
        ensures held { self.old.lacks_all ≡ true → self.new.shows_from ≡ min (self.old.session.view.position + 1) (2 ^ 64 - 1) }
        ensures as_before { self.old.lacks_all ≡ false → self.new.shows_from ≡ self.old.shows_from }
        ensures lacks_all { result ≡ self.old.lacks_all }
    {
        if self.lacks_all {
            self.shows_from = self.session.position().saturating_add(1);
        }
        self.lacks_all
    }

    // Whether the viewer was shown what it has: it was sent that, or asks for what changes next.
    fn was_shown(&self) -> bool {
        self.is_answered || self.session.wants()
    }

    // What is to be known of the viewer to decide what it is shown next.
    fn standing(&self) -> Standing {
        Standing {
            has_asked: self.session.wants(),
            is_answered: self.is_answered,
            is_stale: self.lacks_all,
        }
    }
}

/// A viewer: its connection, its session under a lock, and whether it has gone. Bytes are
/// written under the lock, so that they keep their order. A viewer that doesn't read holds up its
/// own two threads alone.
#[derive(Drop)]
pub struct Viewer<M: Mark, C: Connection> {
    alloc: Global,
    connection: C,
    talk: Mutex<Talk<M>>,
    changed: Condvar,
    has_left: AtomicBool,
    is_steered: AtomicBool,
}

impl<M: Mark, C: Connection> Viewer<M, C> {
    /// The viewer that a guest becomes, whose handshake is whole, and who was told of the recording's
    /// size; with what it has asked for if it is one in a browser.
    pub fn of(guest: Guest<C>, course: Option<Course>) -> Viewer<M, C>
        requires size { guest.size ≡ size_of M.head }
    {
        let Guest {
            alloc,
            connection,
            session,
            carriage,
            heard,
            ..
        } = guest;
        Viewer {
            alloc,
            connection,
            talk: Mutex::new(Talk {
                session,
                carriage,
                heard,
                course,
                told: None,
                shows_from: 0,
                lacks_all: false,
                is_answered: false,
                heard_at: None,
                of: PhantomData,
            }),
            changed: Condvar::new(),
            has_left: AtomicBool::new(false),
            is_steered: AtomicBool::new(false),
        }
    }

    /// Whether the viewer has gone.
    pub fn has_left(&self) -> bool {
        self.has_left.load(Ordering::SeqCst)
    }

    /// Whether what it is shown now is over: it has gone, or asks for something else.
    pub fn is_over(&self) -> bool {
        self.has_left() || self.is_steered.load(Ordering::SeqCst)
    }

    /// What a viewer in a browser is to be shown from now on, which it has asked for last.
    pub fn begin<R: Wait>(&self, rt: &R) -> Option<Steering> {
        let mut talk = self.talk.lock(rt);
        self.is_steered.store(false, Ordering::SeqCst);
        Some(talk.course.as_mut()?.begin())
    }

    // Says that it asks for something else, to who waits for it.
    fn steer<R: Wait>(&self, rt: &R) {
        self.is_steered.store(true, Ordering::SeqCst);
        // Who looked before is asleep once the lock is free, and is woken.
        drop(self.talk.lock(rt));
        self.changed.notify_all();
    }

    /// Ends the connection. A write that waits for the viewer fails then.
    pub fn leave<R: Wait>(&self, rt: &R) {
        self.has_left.store(true, Ordering::SeqCst);
        self.connection.shut();
        // Who looked before is asleep once the lock is free, and is woken.
        drop(self.talk.lock(rt));
        self.changed.notify_all();
    }

    /// Tells why its connection ends, unless it has gone.
    pub fn part<R: Clock + Wait>(&self, rt: &R, ending: Ending) {
        if !self.has_left() {
            self.talk
                .lock(rt)
                .part(rt, self.alloc, &self.connection, ending);
        }
    }

    // Tells how the session stands, if it has come further since the viewer was told, or that is due.
    fn tell_news<R: Clock + Wait>(&self, rt: &R, room: &Room<M>, is_due: bool) {
        let is_told = self
            .talk
            .lock(rt)
            .tell_news(rt, &self.connection, room, is_due)
            .is_ok();
        if !is_told {
            self.leave(rt);
        }
    }

    /// Says that the viewer is shown nothing before it stands at this count. Its handshake is over.
    pub fn show_from<R: Clock + Wait>(&self, rt: &R, count: u64) {
        let mut talk = self.talk.lock(rt);
        talk.shows_from = count;
        talk.heard_at = Instant::now(rt).ok();
    }

    /// Holds back the next update until the viewer stands further on, if it is one of the whole
    /// screen whatever comes. Whether it does.
    pub fn hold_back<R: Wait>(&self, rt: &R) -> bool {
        self.talk.lock(rt).hold_back()
    }

    /// Goes on by what was delivered, and answers what is due.
    pub fn show<R: Clock + Wait>(&self, rt: &R, delivery: Delivery<M>, room: &Room<M>)
        requires sized { IsOfSize (size_of M.head) delivery.slice }
        requires snapshot { IsScreenSized (size_of M.head) delivery.snapshot }
        requires room { delivery.slice.first + length delivery.slice.messages.items < 2 ^ 64 }
    {
        let (receipt, snapshot) = delivery.split();
        let mut talk = self.talk.lock(rt);
        let is_shown = talk.advance(receipt.slice(), snapshot, &room.facts)
            && talk.answer(rt, &self.connection, room, true).is_ok();
        drop(talk);
        if !is_shown {
            self.leave(rt);
        }
    }

    /// Waits until the viewer was shown all that there is, or it is over, or it doesn't ask for a
    /// while.
    pub fn wait_until_shown<R: Clock + Wait>(&self, rt: &R) {
        let _shown = self.changed.wait_timeout_while(
            rt,
            self.talk.lock(rt),
            Duration::from_secs(FAREWELL),
            |talk| !talk.session.wants() && !self.is_over(),
        );
    }

    /// What the viewer was shown and asks for.
    pub fn standing<R: Wait>(&self, rt: &R) -> Standing {
        self.talk.lock(rt).standing()
    }

    /// Waits until the viewer was shown what it has, or it is over, of which whatever else ends it is
    /// looked at each second. It was shown that if it was sent an update since it was handed
    /// anything, or asks for what changes next.
    pub fn wait_until_asked<R: Clock + Wait, F: Fn() -> bool>(&self, rt: &R, is_over: F)
        requires { F.IsAlwaysCallable is_over }
    {
        for _ in rt.forever() {
            drop(
                self.changed.wait_timeout_while(
                    rt,
                    self.talk.lock(rt),
                    Duration::from_secs(1),
                    |talk| !talk.was_shown() && !self.is_over(),
                ),
            );
            if self.is_over() || is_over() || self.talk.lock(rt).was_shown() {
                return;
            }
        }
    }

    /// Whether the viewer has said nothing for as long as it is waited for at the end, since it was
    /// begun to be shown what it is.
    pub fn is_silent<R: Clock + Wait>(&self, rt: &R) -> bool {
        let heard_at = self.talk.lock(rt).heard_at;
        let passed = heard_at.and_then(|moment| moment.elapsed(rt).ok());
        passed.is_none_or(|passed| passed.as_secs() >= FAREWELL)
    }

    // Takes a piece of what the viewer sends, and answers what is due: how the viewer goes on.
    fn hear<R: Clock + Wait>(&self, rt: &R, piece: &[u8], room: &Room<M>) -> Heeded {
        let mut talk = self.talk.lock(rt);
        talk.heard_at = Instant::now(rt).ok();
        let heeded = talk.feed(piece, &room.facts);
        // Who has ended, or has to, is told that, and nothing after it.
        let goes_on = heeded != Heeded::Over;
        let is_answered = talk.answer(rt, &self.connection, room, goes_on).is_ok();
        drop(talk);
        self.changed.notify_all();
        if is_answered { heeded } else { Heeded::Over }
    }

    // Waits until something comes from a viewer in a browser, who is told each second meanwhile what
    // is new, and now and then that the connection is there. Any other is waited for in the read.
    fn wait_for_more<R: Clock + Wait>(&self, rt: &R, room: &Room<M>) {
        let mut quiet = 0u64;
        for _ in rt.forever() {
            match self.connection.wait(&room.bell, Duration::from_secs(1)) {
                Woken::TimedOut => {
                    quiet = quiet.saturating_add(1) % PULSE;
                    self.tell_news(rt, room, quiet == 0);
                }
                Woken::Ready | Woken::Rung => return,
            }
        }
    }

    // Reads what the viewer sends, until it ends, or the socket fails.
    fn hear_all<D: Disk, R: Clock + Wait>(
        &self,
        rt: &R,
        shared: &Shared<D, M>,
        room: &Room<M>,
    ) -> io::Result<()> {
        let mut buffer = Vec::new(self.alloc);
        buffer.resize(PIECE, 0)?;
        let is_in_browser = self.talk.lock(rt).course.is_some();
        let mut steered = None;
        for _ in 0..u64::MAX {
            if is_in_browser {
                self.wait_for_more(rt, room);
            }
            let count = self.connection.read(&mut buffer)?;
            if count == 0 {
                return Ok(());
            }
            match self.hear(rt, &buffer[..count], room) {
                Heeded::Same => {}
                Heeded::Steered => {
                    wait_after(rt, room, steered);
                    steered = Instant::now(rt).ok();
                    self.steer(rt);
                    shared.wake(rt);
                    room.hall.wake(rt);
                }
                Heeded::Over => return Ok(()),
            }
        }
        Ok(())
    }

    /// Hears a viewer that has a seat to its end, and has that noticed, and what it asks for.
    pub fn listen<D: Disk, R: Clock + Wait>(&self, rt: &R, shared: &Shared<D, M>, room: &Room<M>) {
        let _heard = self.hear_all(rt, shared, room);
        self.leave(rt);
        shared.wake(rt);
        room.hall.wake(rt);
    }
}

/// Tells a connection why it is turned away, by no security type and a reason: RFC 6143, section
/// 7.1.2; and by its carriage. It may take 30 seconds, or until the bell rings.
pub fn turn_away<C: Connection, R: Clock>(
    rt: &R,
    alloc: Global,
    connection: &C,
    bell: &Bell,
    ending: Ending,
) -> io::Result<()> {
    let reason = ending.reason();
    let Ok(count) = u32::try_from(reason.len()) else {
        return Err(io::ErrorKind::InvalidInput.into());
    };
    let mut carriage = connection.carriage(alloc);
    say(rt, alloc, connection, &mut carriage, &VERSION)?;
    if !hear_version(rt, alloc, connection, &mut carriage, bell)? {
        return Ok(());
    }
    let mut refusal = Vec::new(alloc);
    refusal.extend_from_slice(&[0])?;
    refusal.extend_from_slice(&four_bytes(count))?;
    refusal.extend_from_slice(reason.as_bytes())?;
    say(rt, alloc, connection, &mut carriage, &refusal)?;
    let mut out = Vec::new(alloc);
    carriage.end(ending, &mut out)?;
    connection.write_within(rt, &out, HANDSHAKE)
}
