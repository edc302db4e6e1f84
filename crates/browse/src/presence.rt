//! Until when an opening of the recording is kept, and when there may be another.

ghost use Rattle.std.specs.Prelude.{◌≡◌, ◌⊎◌, ◌+◌, ◌-◌, ◌^◌, ◌↔◌, IsTrue, false, min, true};
ghost use Rattle.browse.specs.Keeping.{IsDue, is_over};

use std::marker::Model;

/// Whether a recording that has grown may be opened anew, if that took so long the last time, and so
/// much time has passed since, both in milliseconds: at most a tenth of the time goes into it.
pub fn is_due(took: u64, passed: u64) -> bool
    ensures { IsTrue result ↔ IsDue took passed }
{
    took <= passed / 10
}

/// Whether a recording is to be opened anew for a viewer who comes: what was opened last is kept no
/// more, or the recording has grown and may be opened anew by [`is_due`].
pub fn is_to_be_opened(is_over: bool, has_grown: bool, took: u64, passed: u64) -> bool
    ensures { IsTrue result ↔ (is_over ≡ true) ⊎ ((has_grown ≡ true) × IsDue took passed) }
{
    is_over || (has_grown && is_due(took, passed))
}

/// How many of those who were handed in haven't ended, and whether others may come. Contracts see the
/// count and both flags.
#[derive(Drop)]
pub struct Presence {
    present: u64,
    is_outdated: bool,
    is_stopped: bool,
}

impl Model for Presence {
    ghost use Rattle.browse.specs.Keeping.{State};

    ghost Value = { State };

    ghost view = { λ p. record { present = p.present; outdated = p.is_outdated; stopped = p.is_stopped } };
}

impl Presence {
    /// Nobody is there yet.
    pub fn new() -> Presence
        ensures { result ≡ record { present = 0; outdated = false; stopped = false } }
    {
        Presence {
            present: 0,
            is_outdated: false,
            is_stopped: false,
        }
    }

    /// Whether it is over: nobody comes any more and nobody is there, or the server is to end.
    pub fn is_over(&self) -> bool
        ensures { result ≡ is_over self.now }
    {
        self.is_stopped || (self.is_outdated && self.present == 0)
    }

    /// A visit is handed in. The count is held at 2^64 - 1.
    pub fn come(&mut self)
        ensures { self.new ≡ record self.old { present = min (self.old.present + 1) (2 ^ 64 - 1) } }
    {
        self.present = self.present.saturating_add(1);
    }

    /// A visit has ended.
    pub fn leave(&mut self)
        ensures { self.new ≡ record self.old { present = self.old.present - 1 } }
    {
        self.present = self.present.saturating_sub(1);
    }

    /// Nobody comes any more, since there is a newer opening.
    pub fn outdate(&mut self)
        ensures { self.new ≡ record self.old { outdated = true } }
    {
        self.is_outdated = true;
    }

    /// The server is to end.
    pub fn stop(&mut self)
        ensures { self.new ≡ record self.old { stopped = true } }
    {
        self.is_stopped = true;
    }
}
