//! What the threads of a recorder begin with.

use crate::comer::Comer;
use reception::Stop;
use watching::connections::HostOnClock;
use watching::shared_book::{FlusherPen, HostPen, Mark};

/// What is there once a recording is open: the host, if there is one, the rights to hand in messages
/// and to commit them, those who came already, and what ends the recorder.
#[derive(Drop)]
pub struct Work<M: Mark> {
    pub host: Option<HostOnClock>,
    pub host_pen: HostPen<M>,
    pub flusher_pen: FlusherPen<M>,
    pub comers: Vec<Comer>,
    pub stop: Stop,
}
