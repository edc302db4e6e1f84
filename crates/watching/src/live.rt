//! A recording that is shown as it grows.

use crate::viewing::Viewing;
use crate::watching::Guide;
use connections::Room;
use connections::book_workers::ViewerWish;
use connections::broadcast::Start;
use connections::shared_book::Mark;
use showing::{Begins, Next, Situation};
use sockets::Connection;
use std::sync::Wait;
use std::time::Clock;

/// Shows the recording as it grows, as [`Situation::decide`] says.
#[derive(Drop)]
pub struct Live {
    begins: Begins,
}

impl Live {
    /// Of a viewer that begins so in this room now.
    pub fn new<M: Mark>(room: &Room<M>, start: Start) -> Live {
        Live {
            begins: match start {
                Start::Live => Begins::Live,
                Start::At(count) => Begins::after(count, room.committed()),
            },
        }
    }

    // What is looked at, of the viewer as it stands now.
    fn situation<M: Mark, C: Connection, R: Clock + Wait>(
        &self,
        viewing: &Viewing<'_, M, C, R>,
    ) -> Situation {
        let standing = viewing.viewer.standing(viewing.rt);
        let is_closing = viewing.is_closing();
        let is_silent = is_closing && viewing.viewer.is_silent(viewing.rt);
        Situation {
            begins: self.begins.at_the_end(is_closing, is_silent),
            position: viewing.position,
            committed: viewing.room.committed(),
            is_fresh: viewing.is_fresh,
            has_asked: standing.has_asked,
            is_answered: standing.is_answered,
            is_stale: standing.is_stale,
            has_waited: viewing.has_waited,
            is_at_end: viewing.is_at_end,
            is_short: viewing.is_short,
            has_failed: viewing.has_failed,
            has_left: viewing.viewer.is_over(),
            is_closing,
            is_alone: viewing.room.is_alone,
        }
    }
}

impl<M: Mark, C: Connection, R: Clock + Wait> Guide<M, C, R> for Live {
    fn decide(&self, viewing: &Viewing<'_, M, C, R>, _due: Option<u64>) -> Next {
        self.situation(viewing).decide()
    }

    fn is_live(&self, viewing: &Viewing<'_, M, C, R>) -> bool {
        self.situation(viewing).is_live()
    }

    fn due(&mut self, _time: u32) -> Option<u64> {
        None
    }

    fn note(&mut self, _rt: &R, _done: Next) {}
}
