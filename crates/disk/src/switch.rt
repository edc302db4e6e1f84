//! When the disks of a drill fail.

use std::alloc::{AllocError, Global};
use std::sync::Arc;
use std::sync::atomic::{AtomicBool, AtomicU64, Ordering};

/// Says when a `FailingDisk` and a `FusedDisk` fail. It is handed to them as they are made, and
/// what holds a clone of it arms them also while something else has the disk. Each disk counts
/// every call made to it, `len` and `read_at` too. An arming replaces the last one of its kind.
///
/// A word in memory that threads share tells a contract nothing: that calls fail when they should
/// is tested.
#[derive(Clone, Drop)]
pub struct Switch {
    arms: Arc<Arms>,
}

#[derive(Drop)]
struct Arms {
    /// How many calls of a `FailingDisk` there are up to the one that fails; 0 when none is to
    /// fail.
    calls_to_failure: AtomicU64,
    /// The same up to the first call that a `FusedDisk` stops; 1 from then on.
    calls_to_stop: AtomicU64,
    /// Whether the last stop has met a write.
    has_stopped_write: AtomicBool,
}

impl Switch {
    /// A switch that is off. `AllocError`: there is no memory for its words.
    pub fn new(alloc: Global) -> Result<Switch, AllocError> {
        let arms = Arms {
            calls_to_failure: AtomicU64::new(0),
            calls_to_stop: AtomicU64::new(0),
            has_stopped_write: AtomicBool::new(false),
        };
        Ok(Switch {
            arms: Arc::new(alloc, arms)?,
        })
    }

    /// After this many more calls, one call fails. (The largest number counts as one less: no run
    /// gets there.)
    pub fn fail_after(&self, calls: u64) {
        let failing = calls.saturating_add(1);
        self.arms.calls_to_failure.store(failing, Ordering::SeqCst);
    }

    /// After this many more calls, each call fails. A write that an earlier stop met is forgotten.
    /// (The largest number counts as one less: no run gets there.)
    pub fn stop_after(&self, calls: u64) {
        let stopping = calls.saturating_add(1);
        self.arms.has_stopped_write.store(false, Ordering::SeqCst);
        self.arms.calls_to_stop.store(stopping, Ordering::SeqCst);
    }

    /// From now on no call fails.
    pub fn disarm(&self) {
        self.arms.calls_to_failure.store(0, Ordering::SeqCst);
        self.arms.calls_to_stop.store(0, Ordering::SeqCst);
    }

    // Counts a call of a `FailingDisk`: is it the one to fail?
    pub(crate) fn fails_call(&self) -> bool {
        let calls = &self.arms.calls_to_failure;
        calls.fetch_update(
            Ordering::SeqCst,
            Ordering::SeqCst,
            |left| left.checked_sub(1),
        ) == Ok(1)
    }

    // Counts a call of a `FusedDisk`: is it stopped?
    pub(crate) fn stops_call(&self) -> bool {
        let calls = &self.arms.calls_to_stop;
        calls.fetch_update(Ordering::SeqCst, Ordering::SeqCst, |left| match left {
            0 => None,
            1 => Some(1),
            more => Some(more - 1),
        }) == Ok(1)
    }

    // Notes a write that the stop has met: is it the first one?
    pub(crate) fn stops_first_write(&self) -> bool {
        !self.arms.has_stopped_write.swap(true, Ordering::SeqCst)
    }

    // Whether the last stop has met a write.
    pub(crate) fn has_stopped_write(&self) -> bool {
        self.arms.has_stopped_write.load(Ordering::SeqCst)
    }
}
