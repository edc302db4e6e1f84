//! Orders, taken one after another.

ghost use Rattle.std.specs.Prelude.{◌≡◌, Some, None};
ghost use Rattle.steering.specs.Steering.{first_of, after_order, played_on};

use playing::Pace;
use std::marker::Model;
use web_target::{Beginning, Order, Playback};

/// What a viewer is shown.
#[derive(Clone, Copy, Debug, PartialEq, Eq)]
pub enum Showing {
    /// The newest screen, live.
    Live,
    /// Each message after so many.
    After(u64),
    /// The recording from a moment on, in its own time.
    Played(Playback),
    /// The screen at this time, in milliseconds, and nothing else.
    Still(u32),
}

/// What a viewer has asked to be shown, and how it is played once it is.
#[derive(Clone, Copy, Debug, PartialEq, Eq)]
pub struct Steering {
    pub showing: Showing,
    pub pace: Pace,
    /// The longest pause between two messages, in milliseconds of the recording.
    pub longest_pause: Option<u32>,
}

impl Steering {
    /// That of a viewer who begins so: at this pace if nothing else is asked for.
    pub fn of(beginning: Beginning, pace: Pace) -> Steering
        ensures { result ≡ first_of beginning pace }
    {
        match beginning {
            Beginning::Live => Steering {
                showing: Showing::Live,
                pace,
                longest_pause: None,
            },
            Beginning::After(count) => Steering {
                showing: Showing::After(count),
                pace,
                longest_pause: None,
            },
            Beginning::Still(time) => Steering {
                showing: Showing::Still(time),
                pace,
                longest_pause: None,
            },
            Beginning::Played(playback) => {
                let (pace, longest_pause) = (playback.pace, playback.longest_pause);
                Steering {
                    showing: Showing::Played(playback),
                    pace,
                    longest_pause,
                }
            }
        }
    }

    // The recording from this time on.
    fn playback(&self, time: u32) -> Showing
        ensures { result ≡ Showing.Played (record { time = time; pace = self.now.pace; longest_pause = self.now.longest_pause }) }
    {
        Showing::Played(Playback {
            time,
            pace: self.pace,
            longest_pause: self.longest_pause,
        })
    }

    // Goes on from this time as it was, if it is played.
    fn play_on(&mut self, now: u32)
        ensures { self.new ≡ record self.old { showing = played_on now self.old.pace self.old.longest_pause self.old.showing } }
    {
        if let Showing::Played(_) = self.showing {
            self.showing = self.playback(now);
        }
    }

    /// Takes an order of a viewer who is shown the screen at a time.
    pub fn take(&mut self, order: Order, now: u32)
        ensures { self.new ≡ after_order order now self.old }
    {
        match order {
            Order::At(time) => {
                self.showing = match self.showing {
                    Showing::Still(_) => Showing::Still(time),
                    _ => self.playback(time),
                };
            }
            Order::After(count) => self.showing = Showing::After(count),
            Order::Pace(pace) => {
                self.pace = pace;
                self.play_on(now);
            }
            Order::LongestPause(longest) => {
                self.longest_pause = longest;
                self.play_on(now);
            }
            Order::Pause(true) => self.showing = Showing::Still(now),
            Order::Pause(false) => {
                if let Showing::Still(time) = self.showing {
                    self.showing = self.playback(time);
                }
            }
            Order::Live => self.showing = Showing::Live,
        }
    }
}
