//! A viewer's position in a recording.

ghost use Rattle.std.specs.Prelude.{◌≡◌, ◌↔◌, ◌<◌, ◌^◌, ◌+◌, IsTrue, length, false, true};
ghost use Rattle.connections.specs.Receipts.{IsOfSize, IsScreenSized, size_of};

use crate::failure::{AfterFailure, after_failure};
use connections::book_workers::ViewerWish;
use connections::shared_book::{Delivery, Mark};
use connections::{Room, Viewer};
use showing::Next;
use sockets::Connection;
use std::sync::Wait;
use std::time::{Clock, Duration};
use telling::Event;

/// A viewer, the room that it is in, and its position in the recording.
#[derive(Drop)]
pub struct Viewing<'a, M: Mark, C: Connection, R: Clock + Wait> {
    pub rt: &'a R,
    pub viewer: &'a Viewer<M, C>,
    pub room: &'a Room<M>,
    /// How many messages stand before it.
    pub position: u64,
    /// Whether it is handed a screen next, to go on from.
    pub is_fresh: bool,
    /// Whether it was woken from a wait for more since it was handed something.
    pub has_waited: bool,
    /// Whether it was handed all that there is, and nothing more comes.
    pub is_at_end: bool,
    /// Whether memory was short, which is told once, since it was handed something.
    pub is_short: bool,
    /// Whether the device failed since it was handed something.
    pub has_failed: bool,
}

impl<'a, M: Mark, C: Connection, R: Clock + Wait> Viewing<'a, M, C, R> {
    /// Before it has a seat.
    pub fn new(rt: &'a R, viewer: &'a Viewer<M, C>, room: &'a Room<M>) -> Viewing<'a, M, C, R> {
        Viewing {
            rt,
            viewer,
            room,
            position: 0,
            is_fresh: true,
            has_waited: false,
            is_at_end: false,
            is_short: false,
            has_failed: false,
        }
    }

    /// Goes on after so many messages, with the screen there.
    pub fn go_to(&mut self, count: u64)
        ensures moved { self.new.position ≡ count }
        ensures bare { self.new.is_fresh ≡ true }
        ensures goes_on { self.new.is_at_end ≡ false }
    {
        self.position = count;
        self.is_fresh = true;
        self.is_at_end = false;
    }

    /// Shows the viewer what was delivered, if it is due, and the viewer hasn't left.
    pub fn show(&mut self, delivery: Delivery<M>, is_due: bool)
        requires sized { IsOfSize (size_of M.head) delivery.slice }
        requires snapshot { IsScreenSized (size_of M.head) delivery.snapshot }
        requires room { delivery.slice.first + length delivery.slice.messages.items < 2 ^ 64 }
        ensures position { self.new.position ≡ self.old.position }
        ensures fresh { self.new.is_fresh ≡ self.old.is_fresh }
        ensures handed { (self.new.has_waited ≡ false) × ((self.new.is_short ≡ false) × (self.new.has_failed ≡ false)) }
    {
        self.has_waited = false;
        self.is_short = false;
        self.has_failed = false;
        if is_due && !self.viewer.is_over() {
            self.viewer.show(self.rt, delivery, self.room);
        }
    }

    /// Tells that memory ran out, once until something is shown.
    pub fn tell_shortage(&mut self)
        ensures noted { self.new.is_short ≡ true }
        ensures position { self.new.position ≡ self.old.position }
        ensures fresh { self.new.is_fresh ≡ self.old.is_fresh }
    {
        if !self.is_short {
            self.room.telling.tell(self.rt, Event::Shortage);
        }
        self.is_short = true;
    }

    /// Notes that the device failed: whether a viewer goes on that is a live one, or isn't.
    pub fn goes_on_after_failure(&mut self, is_live: bool) -> bool
        ensures goes_on { IsTrue result ↔ (is_live ≡ true) × (self.old.has_failed ≡ false) }
        ensures noted { self.new.has_failed ≡ true }
        ensures position { self.new.position ≡ self.old.position }
        ensures fresh { self.new.is_fresh ≡ self.old.is_fresh }
    {
        self.room.note_unreadable(self.rt);
        let next = after_failure(is_live, self.has_failed);
        self.has_failed = true;
        next == AfterFailure::Newest
    }

    /// Does what comes next, if that is to wait: it returns once that is over. Else this is what is
    /// wished for.
    pub fn carry_out(&self, next: Next) -> Option<ViewerWish> {
        match next {
            Next::Want(limit) => Some(ViewerWish::Want(limit)),
            Next::Wait => Some(ViewerWish::Wait),
            Next::Newest => Some(ViewerWish::Newest),
            Next::Seek(count) => Some(ViewerWish::Seek(count)),
            Next::Stop => Some(ViewerWish::Stop),
            Next::Rest => {
                self.rest();
                Some(ViewerWish::Stop)
            }
            Next::WaitUntilAsked => {
                self.wait_until_asked();
                None
            }
            Next::HoldBack => {
                self.hold_back();
                None
            }
            Next::Sleep(time) => {
                self.sleep(Duration::from_millis(time));
                None
            }
            Next::Begin | Next::Show => None,
        }
    }

    // At the end of the recording: stays until the viewer was shown the rest, or it is over; if
    // viewers stay, first until the recorder is closing.
    fn rest(&self) {
        let viewer = self.viewer;
        if self.room.stays {
            self.room
                .hall
                .wait_until_closing(self.rt, || viewer.is_over());
        }
        viewer.wait_until_shown(self.rt);
    }

    // Waits until the viewer was shown what it has; until it has left, or the recorder is closing,
    // too.
    fn wait_until_asked(&self) {
        self.viewer.wait_until_asked(self.rt, || self.is_closing());
    }

    // Holds the viewer back until it stands further on, and waits until it asks, unless it was sent
    // the whole screen meanwhile.
    fn hold_back(&self) {
        if self.viewer.hold_back(self.rt) {
            self.wait_until_asked();
        }
    }

    // Sleeps, but no longer than until the viewer has left, or the recorder is closing.
    fn sleep(&self, time: Duration) {
        let viewer = self.viewer;
        self.room.hall.wait_for(self.rt, time, || viewer.is_over());
    }

    /// Whether the recorder is closing.
    pub fn is_closing(&self) -> bool {
        self.room.hall.is_closing(self.rt)
    }
}
