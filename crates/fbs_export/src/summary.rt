//! What a file says.

use replay::key_index::Stamped;
use std::marker::Model;
use terms::ScreenSize;

/// What a file says: the size of the screen in pixels, the name, of a longer one its first 1,024
/// bytes, the recorded messages, which are of format 2, with their times in milliseconds, and the
/// number of bytes of an unfinished last message.
#[derive(Drop)]
pub struct Summary {
    pub size: ScreenSize,
    pub name: Vec<u8>,
    pub messages: Vec<Stamped>,
    pub rest: u64,
}

impl Model for Summary {
    ghost use Rattle.fbs_export.specs.Summary.{Said};

    ghost Value = { Said };

    ghost view = { λ s. record {
      opening = record { width = s.size.width; height = s.size.height; name = s.name.items };
      messages = s.messages.items;
      rest = s.rest;
    } };
}

/// What a file says, its messages counted: the size of the screen in pixels, the number of recorded
/// messages, and the number of bytes of an unfinished last message.
#[derive(Clone, Copy, Debug, PartialEq, Eq)]
pub struct Counted {
    pub size: ScreenSize,
    pub messages: u64,
    pub rest: u64,
}
