//! What is told beside updates.

ghost use Rattle.std.specs.Prelude.{◌≡◌, ◌↔◌, IsFalse};

use std::alloc::{AllocError, Global};

/// What a viewer is shown, and how the session stands. It is told before each update, of which it is
/// said then, and by itself if the session has come further.
#[derive(Clone, Copy, Debug, PartialEq, Eq)]
pub struct Status {
    /// How many messages the screen is painted from.
    pub message: u64,
    /// The time of the last of them, in milliseconds.
    pub time: u32,
    /// The time of the last message that is committed.
    pub length: u32,
    /// How many viewers watch.
    pub watching: u32,
    /// How many of the viewer's orders the screen obeys.
    pub orders: u64,
    /// Whether nothing more is recorded.
    pub has_ended: bool,
}

impl Status {
    /// Whether the session has come further than as it stood `before`.
    pub fn is_news_after(self, before: Status) -> bool
        ensures { IsFalse result ↔ ((self.length ≡ before.length) × ((self.watching ≡ before.watching) × (self.has_ended ≡ before.has_ended))) }
    {
        self.length != before.length
            || self.watching != before.watching
            || self.has_ended != before.has_ended
    }

    /// As a JSON object (RFC 8259).
    pub fn text(self, alloc: Global) -> Result<String, AllocError> {
        let Status {
            message,
            time,
            length,
            watching,
            orders,
            has_ended,
        } = self;
        format!(in alloc;
            "{{\"message\":{message},\"time\":{time},\"length\":{length},\"watching\":{watching},\"orders\":{orders},\"ended\":{has_ended}}}"
        )
    }
}
