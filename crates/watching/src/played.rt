//! A recording that is shown in its own time.

use crate::viewing::Viewing;
use crate::watching::Guide;
use connections::book_workers::ViewerWish;
use connections::shared_book::Mark;
use playing::{Program, Timetable};
use showing::{Next, Playback};
use sockets::Connection;
use std::sync::Wait;
use std::time::{Clock, Instant};

/// Shows a recording in its own time, as [`Playback::decide`] says: each message once its time has
/// come. At the end the viewer sees the last screen, or the playing begins again.
#[derive(Drop)]
pub struct Played {
    program: Program,
    timetable: Timetable,
    /// Whether the playing has begun, and when; none if the clock couldn't be read.
    has_begun: bool,
    begun: Option<Instant>,
    /// Whether the last screen has stood for its time.
    has_stood: bool,
}

impl Played {
    /// Before it has begun.
    pub fn new(program: Program) -> Played {
        Played {
            program,
            timetable: program.timetable(),
            has_begun: false,
            begun: None,
            has_stood: false,
        }
    }

    // For how many milliseconds it was played; none if the clock can't be read.
    fn played<R: Clock>(&self, rt: &R) -> Option<u64> {
        let played = self.begun?.elapsed(rt).ok()?;
        u64::try_from(played.as_millis()).ok()
    }
}

impl<M: Mark, C: Connection, R: Clock + Wait> Guide<M, C, R> for Played {
    fn decide(&self, viewing: &Viewing<'_, M, C, R>, due: Option<u64>) -> Next {
        let playback = Playback {
            from: self.program.from,
            repeats: self.program.repeats,
            position: viewing.position,
            committed: viewing.room.committed(),
            is_fresh: viewing.is_fresh,
            has_begun: self.has_begun,
            due,
            played: self.played(viewing.rt),
            is_at_end: viewing.is_at_end,
            has_stood: self.has_stood,
            has_left: viewing.viewer.is_over(),
            is_closing: viewing.is_closing(),
        };
        playback.decide()
    }

    fn is_live(&self, _viewing: &Viewing<'_, M, C, R>) -> bool {
        false
    }

    // What comes before the playing is due at once.
    fn due(&mut self, time: u32) -> Option<u64> {
        if self.has_begun {
            Some(self.timetable.due(time))
        } else {
            None
        }
    }

    fn note(&mut self, rt: &R, done: Next) {
        match done {
            Next::Begin => {
                self.has_begun = true;
                self.begun = Instant::now(rt).ok();
            }
            Next::Sleep(_) => self.has_stood = true,
            Next::Seek(_) => {
                self.timetable = self.program.timetable();
                self.has_begun = false;
                self.begun = None;
                self.has_stood = false;
            }
            _ => {}
        }
    }
}
