//! What is played, and how.

ghost use Rattle.std.specs.Prelude.{◌≡◌};

use crate::pace::Pace;
use crate::timetable::Timetable;

/// How a recording is played to each viewer.
#[derive(Clone, Copy, Debug, PartialEq, Eq)]
pub struct Program {
    pub pace: Pace,
    /// The longest pause between two messages, in milliseconds of the recording; longer ones are
    /// shortened to it.
    pub longest_pause: Option<u32>,
    /// Whether it begins again at its end.
    pub repeats: bool,
    /// How many messages stand before the first one that is played.
    pub from: u64,
    /// From which time of the recording on it is played, in milliseconds.
    pub from_time: u32,
}

impl Program {
    /// The timetable of a viewer that begins.
    pub fn timetable(&self) -> Timetable
        ensures { result ≡ record {
          pace = self.now.pace;
          longest = self.now.longest_pause;
          last = self.now.from_time;
          played = 0;
        } }
    {
        Timetable::new(self.pace, self.longest_pause, self.from_time)
    }
}
