//! How long a recorder goes on, and how a connection is received.

/// What a recorder waits for before it ends.
#[derive(Clone, Copy, Debug, PartialEq, Eq)]
pub enum Term {
    /// The end of its recording, and so many viewers who came and went.
    Viewers(u32),
    /// The end of its recording. Viewers come and go; those who are there then are shown the rest.
    Recording,
    /// Being stopped.
    Stop,
}

/// When a server is stopped from outside.
#[derive(Clone, Copy, Debug, PartialEq, Eq)]
pub struct Stop {
    /// Once standard input has ended.
    pub at_end_of_input: bool,
    /// After so many seconds.
    pub after: Option<u64>,
}

impl Stop {
    /// Never.
    pub fn never() -> Stop {
        Stop {
            at_end_of_input: false,
            after: None,
        }
    }

    /// Whether it may ever come.
    pub fn may_come(self) -> bool {
        self.at_end_of_input || self.after.is_some()
    }
}

/// Why a connection is turned away.
#[derive(Clone, Copy, Debug, PartialEq, Eq)]
pub enum Reason {
    /// No seat is free.
    Full,
    /// As many viewers have come as are served in all.
    Enough,
    /// No more viewers are taken: the recorder is about to end.
    Closing,
}

impl Reason {
    /// What a viewer is told.
    pub fn text(self) -> &'static str {
        match self {
            Reason::Full => "all seats are taken",
            Reason::Enough => "as many viewers have come as are served",
            Reason::Closing => "the recording has ended",
        }
    }
}

/// How a connection is received.
#[derive(Clone, Copy, Debug, PartialEq, Eq)]
pub enum Arrival {
    /// Its handshake begins.
    Greeted,
    /// It is told why it is turned away.
    TurnedAway(Reason),
    /// It is closed at once: as many handshakes as may be are under way.
    Dropped,
}
