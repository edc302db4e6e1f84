//! A viewer's worker's sink, whatever decides what is shown when.

ghost use Rattle.std.specs.Prelude.{◌≡◌, true};
ghost use Rattle.connections.specs.Receipts.{size_of};
ghost use Rattle.connections.specs.Wishes.{fresh_after, position_after};

use crate::viewing::Viewing;
use connections::book_workers::{ViewerSink, ViewerWish};
use connections::replay::Slice;
use connections::shared_book::{Delivery, Ending, Mark};
use connections::{Room, Viewer};
use showing::Next;
use sockets::Connection;
use std::sync::Wait;
use std::time::Clock;

/// Decides what is done for a viewer next, and keeps what that depends on.
pub trait Guide<M: Mark, C: Connection, R: Clock + Wait>: Drop {
    /// What is done next for the viewer as it stands now, which has a message in hand that is due
    /// then, if there is one.
    fn decide(&self, viewing: &Viewing<'_, M, C, R>, due: Option<u64>) -> Next;

    /// Whether the viewer is shown what is newest, and not each message.
    fn is_live(&self, viewing: &Viewing<'_, M, C, R>) -> bool;

    /// When the next message is due, of this time; none if that is at once.
    fn due(&mut self, time: u32) -> Option<u64>;

    /// Takes note of what was done.
    fn note(&mut self, rt: &R, done: Next);
}

/// Shows a viewer the recording as its guide decides.
#[derive(Drop)]
pub struct Watching<'a, M: Mark, C: Connection, R: Clock + Wait, G: Guide<M, C, R>> {
    viewing: Viewing<'a, M, C, R>,
    guide: G,
}

impl<'a, M: Mark, C: Connection, R: Clock + Wait, G: Guide<M, C, R>> Watching<'a, M, C, R, G> {
    /// At the start of a viewer's seat.
    pub fn new(
        rt: &'a R,
        viewer: &'a Viewer<M, C>,
        room: &'a Room<M>,
        guide: G,
    ) -> Watching<'a, M, C, R, G> {
        Watching {
            viewing: Viewing::new(rt, viewer, room),
            guide,
        }
    }
}

// What is wished for once all is done that comes before.
fn next_wish<M: Mark, C: Connection, R: Clock + Wait, G: Guide<M, C, R>>(
    viewing: &Viewing<'_, M, C, R>,
    guide: &mut G,
) -> ViewerWish {
    for _ in viewing.rt.forever() {
        let next = guide.decide(viewing, None);
        let wish = viewing.carry_out(next);
        guide.note(viewing.rt, next);
        if let Some(wish) = wish {
            return wish;
        }
    }
    unreachable!()
}

// Waits until a message in hand is due: whether it is to be shown then.
fn wait_for_one<M: Mark, C: Connection, R: Clock + Wait, G: Guide<M, C, R>>(
    viewing: &Viewing<'_, M, C, R>,
    guide: &G,
    due: u64,
) -> bool {
    for _ in viewing.rt.forever() {
        let next = guide.decide(viewing, Some(due));
        if next == Next::Show {
            return true;
        }
        if viewing.carry_out(next).is_some() {
            return false;
        }
    }
    unreachable!()
}

// Waits until each of these messages is due: whether they are to be shown then.
fn wait_until_due<M: Mark, C: Connection, R: Clock + Wait, G: Guide<M, C, R>>(
    viewing: &Viewing<'_, M, C, R>,
    guide: &mut G,
    slice: &Slice,
) -> bool {
    for stamped in &slice.messages {
        if let Some(due) = guide.due(stamped.time)
            && !wait_for_one(viewing, &*guide, due)
        {
            return false;
        }
    }
    true
}

impl<'a, M: Mark, C: Connection, R: Clock + Wait, G: Guide<M, C, R>> ViewerSink<
    Delivery<M>,
    Ending<M>,
> for Watching<'a, M, C, R, G> {
    ghost use Rattle.connections.specs.Receipts.{size_of};

    ghost is_modelled = { ⊥ };

    ghost size = { λ w. size_of M.head };

    ghost position = { λ w. w.viewing.position };

    ghost fresh = { λ w. w.viewing.is_fresh };

    ghost slice_of = { λ d. d.slice };

    ghost snapshot_of = { λ d. d.snapshot };

    ghost count_of = { λ e. e.count };

    fn has_left(&self) -> bool {
        self.viewing.viewer.is_over()
    }

    fn seated(&mut self, count: u64) {
        self.viewing.go_to(count);
    }

    fn wish(&mut self) -> ViewerWish
        ensures size { size_of M.head ≡ size_of M.head }
        ensures moved { self.new.viewing.position ≡ position_after result self.old.viewing.position }
        ensures bare { self.new.viewing.is_fresh ≡ fresh_after result self.old.viewing.is_fresh }
        ensures noted { result ≡ ViewerWish.Wait → self.new.viewing.has_waited ≡ true }
    {
        let wish = next_wish(&self.viewing, &mut self.guide);
        self.viewing.has_waited = self.viewing.has_waited || wish == ViewerWish::Wait;
        if let ViewerWish::Seek(count) = wish {
            self.viewing.go_to(count);
        }
        wish
    }

    fn slice(&mut self, delivery: Delivery<M>) {
        let slice = delivery.slice();
        let is_due = wait_until_due(&self.viewing, &mut self.guide, slice);
        self.viewing.position = slice.end();
        self.viewing.is_fresh = false;
        self.viewing.show(delivery, is_due);
    }

    fn end(&mut self, _ending: Ending<M>)
        ensures size { size_of M.head ≡ size_of M.head }
        ensures stays { (self.new.viewing.position ≡ self.old.viewing.position) × (self.new.viewing.is_fresh ≡ self.old.viewing.is_fresh) }
        ensures noted { self.new.viewing.is_at_end ≡ true }
    {
        self.viewing.is_at_end = true;
    }

    fn shortage(&mut self)
        ensures size { size_of M.head ≡ size_of M.head }
        ensures stays { (self.new.viewing.position ≡ self.old.viewing.position) × (self.new.viewing.is_fresh ≡ self.old.viewing.is_fresh) }
        ensures noted { self.new.viewing.is_short ≡ true }
    {
        self.viewing.tell_shortage();
    }

    fn device_failed(&mut self) -> bool
        ensures size { size_of M.head ≡ size_of M.head }
        ensures stays { (self.new.viewing.position ≡ self.old.viewing.position) × (self.new.viewing.is_fresh ≡ self.old.viewing.is_fresh) }
        ensures noted { self.new.viewing.has_failed ≡ true }
    {
        let is_live = self.guide.is_live(&self.viewing);
        self.viewing.goes_on_after_failure(is_live)
    }
}
