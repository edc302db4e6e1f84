//! When it is told that a recording's times come to their end.

ghost use Rattle.std.specs.Prelude.{◌≡◌, ◌<◌, ◌≤◌, ◌-◌, ◌^◌, None, Option, Some};
ghost use Rattle.telling.specs.TimesLeft.{left_at};

use std::marker::Model;

/// How many milliseconds a day has.
pub const DAY: u32 = 86_400_000;

/// What is told of the times that a recording has left: they are milliseconds, of 32 bits.
#[derive(Clone, Copy, Debug, PartialEq, Eq)]
pub enum TimesLeft {
    /// A day's, at most.
    Day,
    /// None: what comes from then on has the last time.
    Nothing,
}

// What is left at this time, if that is told.
fn left_at(time: u32) -> Option<TimesLeft>
    ensures { result ≡ left_at time }
{
    if time == u32::MAX {
        Some(TimesLeft::Nothing)
    } else if time >= u32::MAX - DAY {
        Some(TimesLeft::Day)
    } else {
        None
    }
}

/// Tells that a recording's times come to their end, and that they have, once each. Contracts see
/// what was told last.
#[derive(Drop)]
pub struct TimesWatch {
    told: Option<TimesLeft>,
}

impl Model for TimesWatch {
    ghost use Rattle.std.specs.Prelude.{Option};
    ghost use Rattle.telling.specs.declared.times_left.TimesLeft.{TimesLeft};

    ghost Value = { Option TimesLeft };

    ghost view = { λ w. w.told };
}

impl TimesWatch {
    /// Nothing was told.
    pub fn new() -> TimesWatch
        ensures { result ≡ None }
    {
        TimesWatch { told: None }
    }

    /// Looks at the time of the last message, in milliseconds: what is told now.
    pub fn look(&mut self, time: u32) -> Option<TimesLeft>
        ensures again { left_at time ≡ self.old → (result ≡ None) × (self.new ≡ self.old) }
        ensures told { (left_at time ≡ self.old → ⊥) → (result ≡ left_at time) × (self.new ≡ left_at time) }
    {
        let left = left_at(time);
        if left == self.told {
            return None;
        }
        self.told = left;
        left
    }
}
