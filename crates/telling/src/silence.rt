//! When it is told that a device doesn't answer.

ghost use Rattle.std.specs.Prelude.{◌≡◌, ◌≢◌, ℕ, ◌+◌, ◌-◌, ◌*◌, ◌/◌, ◌<◌, ◌≤◌, None, Option, Some};

use std::marker::Model;

/// After how many seconds without an answer that is told.
pub const SILENT_AFTER: u64 = 10;

/// What is told of a device.
#[derive(Clone, Copy)]
pub enum Answering {
    /// It has not answered for ten seconds.
    Silent,
    /// It goes on, after so many seconds.
    GoesOn(u64),
}

/// Tells that a device doesn't answer, and that it goes on, once each. Times are in milliseconds, from
/// any moment on. Contracts see when the call began of which it was told, until it is over.
#[derive(Drop)]
pub struct Silence {
    told: Option<u64>,
}

impl Model for Silence {
    ghost use Rattle.std.specs.Prelude.{ℕ, Option};

    ghost Value = { Option ℕ };

    ghost view = { λ s. s.told };
}

impl Silence {
    /// Nothing was told.
    pub fn new() -> Silence
        ensures { result ≡ None }
    {
        Silence { told: None }
    }

    /// Looks at the device at time `now`, given the time at which the call that it is to answer
    /// began, if there is one: what is told.
    pub fn look(&mut self, now: u64, call: Option<u64>) -> Option<Answering>
        // A call that lasts ten seconds is told of,
        ensures silent { self.old ≡ None → (began : ℕ) → call ≡ Some began
            → began + SILENT_AFTER * 1000 ≤ now
            → (result ≡ Some Answering.Silent) × (self.new ≡ Some began) }
        ensures early { self.old ≡ None → (began : ℕ) → call ≡ Some began
            → now < began + SILENT_AFTER * 1000 → (result ≡ None) × (self.new ≡ None) }
        ensures idle { self.old ≡ None → call ≡ None → (result ≡ None) × (self.new ≡ None) }
        // once while it lasts,
        ensures once { (began : ℕ) → self.old ≡ Some began → call ≡ Some began
            → (result ≡ None) × (self.new ≡ self.old) }
        // and its end is told.
        ensures goes_on { (began : ℕ) → self.old ≡ Some began → call ≢ Some began
            → (result ≡ Some (Answering.GoesOn ((now - began) / 1000))) × (self.new ≡ None) }
    {
        if let Some(began) = self.told {
            if call == Some(began) {
                return None;
            }
            self.told = None;
            return Some(Answering::GoesOn(now.saturating_sub(began) / 1000));
        }
        let began = call?;
        if now.saturating_sub(began) < SILENT_AFTER * 1000 {
            return None;
        }
        self.told = call;
        Some(Answering::Silent)
    }
}
