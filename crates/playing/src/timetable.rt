//! When each message of a recording is due.

ghost use Rattle.std.specs.Prelude.{◌≡◌, ◌+◌, ◌-◌, ◌≤◌, ◌<◌, ◌^◌};
ghost use Rattle.playing.specs.Playing.{IsPace, IsDue, shortened};

use crate::pace::Pace;
use std::marker::Model;

/// When the messages of a recording are due to one who watches it, from a time of the recording on.
/// Contracts see its pace, the longest pause, the time of the message before, and how many
/// milliseconds of the recording are played until that.
#[derive(Clone, Copy, Debug)]
pub struct Timetable {
    pace: Pace,
    longest: Option<u32>,
    last: u32,
    played: u64,
}

impl Model for Timetable {
    ghost use Rattle.std.specs.Prelude.{◌≤◌};
    ghost use Rattle.playing.specs.Playing.{Timetable as Table};

    ghost Value = { Table };

    ghost view = { λ t. record { pace = t.pace; longest = t.longest; last = t.last; played = t.played } };

    ghost inverse = { λ t. record { pace = t.pace; longest = t.longest; last = t.last; played = t.played } };

    ghost invariant = { λ t. t.played ≤ t.last };
}

impl Timetable {
    /// From this time of the recording on, in milliseconds. Pauses between messages that are longer
    /// than the longest one, if there is one, are shortened to it.
    pub fn new(pace: Pace, longest: Option<u32>, from: u32) -> Timetable
        ensures { result ≡ record { pace = pace; longest = longest; last = from; played = 0 } }
    {
        Timetable {
            pace,
            longest,
            last: from,
            played: 0,
        }
    }

    // How much of a pause counts.
    fn shortened(&self, pause: u32) -> u32
        ensures value { result ≡ shortened self.now.longest pause }
        ensures within { result ≤ pause }
    {
        match self.longest {
            Some(longest) => pause.min(longest),
            None => pause,
        }
    }

    /// After how many milliseconds of playing the next message, of this time, is due: in the first
    /// one in which what lies before it is played. A time below that of the message before stands
    /// for that one.
    pub fn due(&mut self, time: u32) -> u64
        ensures due { IsDue self.old.pace self.new.played result }
        ensures played { self.new.played ≡ self.old.played + shortened self.old.longest (time - self.old.last) }
        ensures last { self.old.last ≤ time → self.new.last ≡ time }
        ensures program { (self.new.pace ≡ self.old.pace) × (self.new.longest ≡ self.old.longest) }
    {
        let pause = time.saturating_sub(self.last);
        self.played += u64::from(self.shortened(pause));
        self.last = self.last.max(time);
        let pace = u64::from(self.pace.thousandths());
        (self.played * 1000 + (pace - 1)) / pace
    }
}
