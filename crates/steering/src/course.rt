//! How far a viewer's orders are obeyed.

ghost use Rattle.std.specs.Prelude.{◌≡◌, ◌≢◌, ◌↔◌, ◌+◌, ◌-◌, ◌^◌, IsTrue, min};
ghost use Rattle.steering.specs.Steering.{after_order, begins_at, time_of_screen};

use crate::steering::{Showing, Steering};
use web_target::Order;

/// How far what a viewer has asked for last is obeyed.
#[derive(Clone, Copy, Debug, PartialEq, Eq)]
pub enum Stage {
    /// Nobody has begun to show it that.
    Ordered,
    /// The first screen of it is to come.
    Begun,
    /// It was handed a screen of it.
    Obeyed,
}

/// What a viewer in a browser has asked for, and how far that is obeyed. It is answered only if it
/// is.
#[derive(Clone, Copy, Debug, PartialEq, Eq)]
pub struct Course {
    pub steering: Steering,
    pub stage: Stage,
    /// How many orders it has given.
    pub orders: u64,
    /// The time, in milliseconds, at which what it has asked for begins; then that of the message that
    /// it was handed last.
    pub time: u32,
}

// The time at which this begins, in a session that is so long, for who is at that time.
fn beginning(showing: Showing, length: u32, now: u32) -> u32
    ensures { result ≡ begins_at length now showing }
{
    match showing {
        Showing::Live => length,
        Showing::After(_) => now,
        Showing::Played(playback) => playback.time.min(length),
        Showing::Still(time) => time.min(length),
    }
}

impl Course {
    /// That of a viewer who begins so, in a session of this length in milliseconds.
    pub fn of(steering: Steering, length: u32) -> Course
        ensures steering { result.steering ≡ steering }
        ensures stage { result.stage ≡ Stage.Ordered }
        ensures orders { result.orders ≡ 0 }
        ensures time { result.time ≡ begins_at length 0 steering.showing }
    {
        Course {
            steering,
            stage: Stage::Ordered,
            orders: 0,
            time: beginning(steering.showing, length, 0),
        }
    }

    /// Takes an order, in a session of this length in milliseconds. It is about the time that the
    /// viewer is at, also if what it asked for before isn't shown yet.
    pub fn take(&mut self, order: Order, length: u32)
        ensures steering { self.new.steering ≡ after_order order self.old.time self.old.steering }
        ensures stage { self.new.stage ≡ Stage.Ordered }
        ensures orders { self.new.orders ≡ min (self.old.orders + 1) (2 ^ 64 - 1) }
        ensures time { self.new.time ≡ begins_at length self.old.time self.new.steering.showing }
    {
        let now = self.time;
        self.steering.take(order, now);
        self.stage = Stage::Ordered;
        self.orders = self.orders.saturating_add(1);
        self.time = beginning(self.steering.showing, length, now);
    }

    /// Begins to show it what it has asked for last: that.
    pub fn begin(&mut self) -> Steering
        ensures steering { result ≡ self.old.steering }
        ensures begun { self.new ≡ record self.old { stage = Stage.Begun } }
    {
        self.stage = Stage::Begun;
        self.steering
    }

    /// Hands it a screen of what was begun last, unless it has asked for something else: that is obeyed.
    /// The newest screen, in a session of this length in milliseconds, is of its end: each of a live
    /// viewer, and each but the first of one that is shown each message, since it has fallen behind.
    pub fn hand_screen(&mut self, length: u32)
        ensures obeyed { self.old.stage ≢ Stage.Ordered → self.new ≡ record self.old { stage = Stage.Obeyed; time = time_of_screen self.old.stage length self.old.time self.old.steering.showing } }
        ensures other { self.old.stage ≡ Stage.Ordered → self.new ≡ self.old }
    {
        if self.stage == Stage::Ordered {
            return;
        }
        let is_newest = match self.steering.showing {
            Showing::Live => true,
            Showing::After(_) => self.stage == Stage::Obeyed,
            Showing::Played(_) | Showing::Still(_) => false,
        };
        self.stage = Stage::Obeyed;
        if is_newest {
            self.time = length;
        }
    }

    /// Hands it a message of this time, unless it has asked for something else.
    pub fn hand_message(&mut self, time: u32)
        ensures moved { self.old.stage ≢ Stage.Ordered → self.new ≡ record self.old { time = time } }
        ensures other { self.old.stage ≡ Stage.Ordered → self.new ≡ self.old }
    {
        if self.stage != Stage::Ordered {
            self.time = time;
        }
    }

    /// Whether all its orders are obeyed.
    pub fn is_obeyed(&self) -> bool
        ensures { IsTrue result ↔ (self.now.stage ≡ Stage.Obeyed) }
    {
        self.stage == Stage::Obeyed
    }
}
