//! A moment of a recording that a viewer stands still at.

use crate::viewing::Viewing;
use crate::watching::Guide;
use connections::shared_book::Mark;
use showing::{Next, Stillness};
use sockets::Connection;
use std::sync::Wait;
use std::time::Clock;

/// Shows the screen after so many messages, as [`Stillness::decide`] says.
#[derive(Drop)]
pub struct Still {
    at: u64,
}

impl Still {
    /// After so many messages.
    pub fn new(at: u64) -> Still {
        Still { at }
    }
}

impl<M: Mark, C: Connection, R: Clock + Wait> Guide<M, C, R> for Still {
    fn decide(&self, viewing: &Viewing<'_, M, C, R>, _due: Option<u64>) -> Next {
        let stillness = Stillness {
            at: self.at,
            position: viewing.position,
            is_fresh: viewing.is_fresh,
            is_over: viewing.viewer.is_over(),
            is_closing: viewing.is_closing(),
        };
        stillness.decide()
    }

    fn is_live(&self, _viewing: &Viewing<'_, M, C, R>) -> bool {
        false
    }

    fn due(&mut self, _time: u32) -> Option<u64> {
        None
    }

    fn note(&mut self, _rt: &R, _done: Next) {}
}
