//! The times of messages.

ghost use Rattle.std.specs.Prelude.{◌≡◌, ◌≤◌, ◌<◌, ◌+◌, ◌-◌, ◌^◌, ℕ, IfOk};

use std::io;
use std::marker::Model;
use std::time::{Clock, Instant};

/// The time of a message that comes so many milliseconds after the start of a recorder which goes
/// on from this time. It is held at the latest time that a recording has, 2^32 - 1.
pub fn time_after(base: u32, milliseconds: u64) -> u32
    ensures exact { base + milliseconds < 2 ^ 32 → result ≡ base + milliseconds }
    ensures held { 2 ^ 32 ≤ base + milliseconds → result ≡ 2 ^ 32 - 1 }
    ensures later { base ≤ result }
{
    let time = milliseconds.saturating_add(u64::from(base));
    u32::try_from(time).unwrap_or(u32::MAX)
}

/// Tells the times of messages, in milliseconds from the recording's last time on. Contracts see the
/// time that was told last.
#[derive(Drop)]
pub struct Stopwatch {
    base: u32,
    started: Instant,
    last: u32,
}

impl Model for Stopwatch {
    ghost Value = { ℕ };

    ghost view = { λ s. s.last };
}

impl Stopwatch {
    /// One that starts now, at this time.
    pub fn start<R: Clock>(rt: &R, base: u32) -> io::Result<Stopwatch>
        ensures { IfOk result (λ s. s ≡ base) }
    {
        Ok(Stopwatch {
            base,
            started: Instant::now(rt)?,
            last: base,
        })
    }

    /// The time now, never below one that was told before. If the clock can't be read, it is the
    /// one that was told last.
    pub fn now<R: Clock>(&mut self, rt: &R) -> u32
        ensures later { self.old ≤ result }
        ensures told { self.new ≡ result }
    {
        let Ok(elapsed) = self.started.elapsed(rt) else {
            return self.last;
        };
        let milliseconds = u64::try_from(elapsed.as_millis()).unwrap_or(u64::MAX);
        self.last = self.last.max(time_after(self.base, milliseconds));
        self.last
    }
}
