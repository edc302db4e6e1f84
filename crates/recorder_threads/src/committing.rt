//! What the flusher works for.

ghost use Rattle.std.specs.Prelude.{◌≡◌};

use std::mem;
use std::sync::Wait;
use std::time::{Clock, Instant};
use telling::{Event, TimesWatch};
use watching::book_workers::ReceiptSink;
use watching::connections::Room;
use watching::shared_book::{Mark, Receipt};

/// After how many seconds what was recorded is told of.
const MINUTE: u64 = 60;

/// Tells the host's worker and the viewers what was committed, and each minute in which something
/// came, how much.
#[derive(Drop)]
pub struct Committing<'a, M: Mark, R: Clock + Wait> {
    rt: &'a R,
    room: &'a Room<M>,
    since: Option<Instant>,
    is_short: bool,
    times: TimesWatch,
    // What was recorded since it was last told of.
    messages: u64,
    bytes: u64,
}

impl<'a, M: Mark, R: Clock + Wait> Committing<'a, M, R> {
    /// Before the first commit.
    pub fn new(rt: &'a R, room: &'a Room<M>) -> Committing<'a, M, R> {
        Committing {
            rt,
            room,
            since: Instant::now(rt).ok(),
            is_short: false,
            times: TimesWatch::new(),
            messages: 0,
            bytes: 0,
        }
    }

    /// Tells what was recorded since it was last told of, if anything was.
    pub fn tell_recorded(&mut self)
        ensures { (self.new.messages ≡ 0) × (self.new.bytes ≡ 0) }
    {
        let messages = mem::replace(&mut self.messages, 0);
        let bytes = mem::replace(&mut self.bytes, 0);
        if messages > 0 {
            self.room
                .telling
                .tell(self.rt, Event::Recorded { messages, bytes });
        }
    }

    // Tells of what came in the minute that has passed.
    fn tell(&mut self) {
        let Some(since) = self.since else {
            return;
        };
        match since.elapsed(self.rt) {
            Ok(passed) if passed.as_secs() >= MINUTE => {}
            _ => return,
        }
        self.tell_recorded();
        self.since = Instant::now(self.rt).ok();
    }
}

impl<'a, M: Mark, R: Clock + Wait> ReceiptSink<Receipt<M>> for Committing<'a, M, R> {
    ghost is_modelled = { ⊥ };

    ghost committed = { λ c. 0 };

    ghost slice_of = { λ r. r };

    fn writing(&mut self) {
        self.room.device.begin(self.rt);
    }

    fn receipt(&mut self, receipt: Receipt<M>) {
        self.room.device.end();
        let slice = receipt.slice();
        let count = slice.messages.len() as u64;
        let mut bytes = 0u64;
        for stamped in &slice.messages {
            bytes = bytes.saturating_add(stamped.message.bytes().len() as u64);
        }
        if let Some(last) = slice.messages.last() {
            self.room.facts.commit(last.time);
            if let Some(left) = self.times.look(last.time) {
                self.room.telling.tell(self.rt, Event::Times(left));
            }
        }
        self.room.set_committed(slice.first.saturating_add(count));
        self.room.intake.commit(self.rt, bytes);
        self.messages = self.messages.saturating_add(count);
        self.bytes = self.bytes.saturating_add(bytes);
        self.tell();
    }

    fn shortage(&mut self) {
        if !self.is_short {
            self.room.telling.tell(self.rt, Event::Shortage);
        }
        self.is_short = true;
    }

    fn relief(&mut self) {
        self.room.telling.tell(self.rt, Event::Relief);
        self.is_short = false;
    }
}
