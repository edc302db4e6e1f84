//! What the host may be asked for.

ghost use Rattle.std.specs.Prelude.{◌≡◌, ◌<◌, ◌↔◌, IsTrue};
ghost use Rattle.reception.specs.Backlog.{more, room, waiting};

use std::marker::Model;

/// How many bytes of accepted messages may wait to be committed before the host isn't read from any
/// more.
const ROOM: u64 = 1 << 26;

/// How many bytes of messages were accepted, and how many were committed. The host is read from, and
/// asked for its next update, only while fewer than 2^26 wait: so what waits is that, and what one
/// piece of the host's stream ends, at most. Both are counted from the start, since who commits a
/// message may say so before who had it accepted does: what waits then doesn't depend on the order.
/// Contracts see both counts.
#[derive(Drop)]
pub struct Backlog {
    accepted: u64,
    committed: u64,
}

impl Model for Backlog {
    ghost use Rattle.reception.specs.Backlog.{Told};

    ghost Value = { Told };

    ghost view = { λ b. record { accepted = b.accepted; committed = b.committed } };
}

impl Backlog {
    /// Nothing was accepted.
    pub fn new() -> Backlog
        ensures { result ≡ record { accepted = 0; committed = 0 } }
    {
        Backlog {
            accepted: 0,
            committed: 0,
        }
    }

    /// Whether the host may be asked for more.
    pub fn has_room(&self) -> bool
        ensures { IsTrue result ↔ (waiting self.now < room) }
    {
        self.accepted.saturating_sub(self.committed) < ROOM
    }

    /// Messages of so many bytes were accepted.
    pub fn accept(&mut self, bytes: u64)
        ensures { self.new ≡ record { accepted = more self.old.accepted bytes; committed = self.old.committed } }
    {
        self.accepted = self.accepted.saturating_add(bytes);
    }

    /// Messages of so many bytes were committed.
    pub fn commit(&mut self, bytes: u64)
        ensures { self.new ≡ record { accepted = self.old.accepted; committed = more self.old.committed bytes } }
    {
        self.committed = self.committed.saturating_add(bytes);
    }
}
