//! Steps of a desk, and its replies.

use crate::refusal::{JoinRefusal, LeaveRefusal, NextRefusal, SeekRefusal};
use crate::seat::{Seated, Start};
use flusher_core::{FlushRefusal, HostRefused, TakeRefusal, Taken};
use replay::Slice;
use rfb_wire::HostMessage;

/// A step of a desk. Seats are named by their numbers.
#[derive(Drop)]
pub enum Step {
    /// A message of the book's size, with its time in milliseconds since the recording began.
    Host(u32, HostMessage),
    Take,
    Body,
    Gate,
    Join(Start),
    /// A seat, and the most messages that it is to be handed.
    Next(u32, u32),
    /// A seat, and how many messages are to stand before its next one.
    Seek(u32, u64),
    Leave(u32),
}

/// What a step is answered.
#[derive(Drop)]
pub enum Reply {
    /// The message's number, from 0.
    Host(Result<u64, HostRefused>),
    Take(Result<Taken, TakeRefusal>),
    Body(Result<(), FlushRefusal>),
    /// The messages that are now committed.
    Gate(Result<Slice, FlushRefusal>),
    Join(Result<Seated, JoinRefusal>),
    /// The messages that the seat is handed.
    Next(Result<Slice, NextRefusal>),
    Seek(Result<(), SeekRefusal>),
    Leave(Result<(), LeaveRefusal>),
}
