//! How far a long opening has come, told every ten seconds.

use file_disk::Tally;
use std::alloc::{AllocError, Global};
use std::sync::atomic::{AtomicU64, Ordering};
use std::sync::{Condvar, Mutex, Wait};
use std::time::{Clock, Duration};
use telling::{Event, Telling};

/// How often it is told how far it is, in seconds.
const EVERY: u64 = 10;

/// The reading of a recording that is opened: how many bytes are read, of how many.
#[derive(Drop)]
pub struct Reading {
    /// How many bytes are read.
    pub tally: Tally,
    // Of how many; 0 until it begins.
    all: AtomicU64,
    is_over: Mutex<bool>,
    ended: Condvar,
}

impl Reading {
    /// Nothing is read.
    pub fn new(alloc: Global) -> Result<Reading, AllocError> {
        Ok(Reading {
            tally: Tally::new(alloc)?,
            all: AtomicU64::new(0),
            is_over: Mutex::new(false),
            ended: Condvar::new(),
        })
    }

    /// It begins, and goes over so many bytes.
    pub fn begin(&self, all: u64) {
        self.all.store(all, Ordering::SeqCst);
    }

    /// It is over.
    pub fn end<R: Wait>(&self, rt: &R) {
        *self.is_over.lock(rt) = true;
        self.ended.notify_all();
    }

    // Tells how far it is, once it has begun.
    fn tell<R: Wait>(&self, rt: &R, telling: &Telling, path: &str) {
        let all = self.all.load(Ordering::SeqCst);
        if all > 0 {
            let read = self.tally.bytes().min(all);
            telling.tell(rt, Event::Opening { path, read, all });
        }
    }

    /// Tells every ten seconds how far it is, until it is over.
    pub fn watch<R: Clock + Wait>(&self, rt: &R, telling: &Telling, path: &str) {
        for _ in rt.forever() {
            let (is_over, _) = self.ended.wait_timeout_while(
                rt,
                self.is_over.lock(rt),
                Duration::from_secs(EVERY),
                |is_over| !*is_over,
            );
            if *is_over {
                return;
            }
            drop(is_over);
            self.tell(rt, telling, path);
        }
    }
}
