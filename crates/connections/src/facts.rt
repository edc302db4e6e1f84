//! How a session stands, for who is shown it.

ghost use Rattle.std.specs.Prelude.{◌≡◌, ◌≤◌, IfNone, IfSome};

use carriage::Status;
use std::sync::atomic::{AtomicBool, AtomicU32, Ordering};
use steering::Course;

/// How a session stands: how long it is, how many watch, and whether it has ended.
#[derive(Drop)]
pub struct Facts {
    length: AtomicU32,
    watching: AtomicU32,
    has_ended: AtomicBool,
}

impl Facts {
    /// Of a recording whose last message has this time.
    pub fn new(length: u32) -> Facts {
        Facts {
            length: AtomicU32::new(length),
            watching: AtomicU32::new(0),
            has_ended: AtomicBool::new(false),
        }
    }

    /// The time of the last message that is committed, in milliseconds.
    pub fn length(&self) -> u32 {
        self.length.load(Ordering::SeqCst)
    }

    /// Notes a commit, whose last message has this time.
    pub fn commit(&self, time: u32) {
        self.length.store(time, Ordering::SeqCst);
    }

    /// Notes that a viewer took a seat.
    pub fn come(&self) {
        self.watching.fetch_add(1, Ordering::SeqCst);
    }

    /// Notes that a viewer gave its seat back.
    pub fn leave(&self) {
        self.watching.fetch_sub(1, Ordering::SeqCst);
    }

    /// Notes that nothing more is recorded.
    pub fn end(&self) {
        self.has_ended.store(true, Ordering::SeqCst);
    }

    /// What is told to a viewer who is shown so many messages, on this course.
    pub fn status(&self, message: u64, course: Option<Course>) -> Status
        ensures message { result.message ≡ message }
        ensures course { IfSome course (λ course. (result.time ≡ course.time) × (result.orders ≡ course.orders)) }
        ensures no_course { IfNone course ((result.time ≡ 0) × (result.orders ≡ 0)) }
        ensures length { result.time ≤ result.length }
    {
        let (time, orders) = match course {
            Some(Course { time, orders, .. }) => (time, orders),
            None => (0, 0),
        };
        Status {
            message,
            time,
            // Whoever is handed a message may be told of it before all others are.
            length: self.length().max(time),
            watching: self.watching.load(Ordering::SeqCst),
            orders,
            has_ended: self.has_ended.load(Ordering::SeqCst),
        }
    }
}
