//! What may be asked for.

use playing::Pace;

/// A recording in its own time.
#[derive(Clone, Copy, Debug, PartialEq, Eq)]
pub struct Playback {
    /// From which time of the recording on, in milliseconds.
    pub time: u32,
    pub pace: Pace,
    /// The longest pause between two messages, in milliseconds of the recording; longer ones are
    /// shortened to it.
    pub longest_pause: Option<u32>,
}

/// At which position a viewer begins, and how it goes on.
#[derive(Clone, Copy, Debug, PartialEq, Eq)]
pub enum Beginning {
    /// At the newest screen, and live.
    Live,
    /// After so many messages, and message by message.
    After(u64),
    /// At a moment, and in the recording's own time.
    Played(Playback),
    /// Still, at this time, in milliseconds.
    Still(u32),
}

/// Of which blocks is told what came when.
#[derive(Clone, Copy, Debug, PartialEq, Eq)]
pub struct Survey {
    /// The number of the first one.
    pub from: u64,
    /// Those whose times lie in the same window of so many milliseconds of the recording are told
    /// together. `None` if each is told by itself.
    pub every: Option<u32>,
}

/// What is asked for by a request's target.
#[derive(Clone, Copy, Debug, PartialEq, Eq)]
pub enum Asked {
    /// `/`, the page.
    Page,
    /// `/painter.js`, the part of its script that paints.
    Painter,
    /// `/live.js`, the rest of its script.
    Script,
    /// `/live.css`, its style.
    Style,
    /// `/times?from=BLOCK`, or `/times?from=BLOCK&every=TIME`: what came when, from a block on.
    Times(Survey),
    /// `/watch`, `/watch?message=COUNT`, `/watch?at=TIME`, or `/watch?at=TIME&pace=PACE`, which may
    /// end in `&longest-pause=TIME`: a viewer's connection, over a WebSocket. Times are in
    /// milliseconds, a pace is in thousandths.
    Watch(Beginning),
}

/// What a viewer asks for by a text on its connection.
#[derive(Clone, Copy, Debug, PartialEq, Eq)]
pub enum Order {
    /// `{"at":TIME}`: to go on at this time, in milliseconds.
    At(u32),
    /// `{"message":COUNT}`: to go on after so many messages.
    After(u64),
    /// `{"pace":PACE}`: to be played at this pace, in thousandths.
    Pace(Pace),
    /// `{"longest-pause":TIME}`, or `null` for none.
    LongestPause(Option<u32>),
    /// `{"pause":true}`, or `false`: to stand still, or to go on.
    Pause(bool),
    /// `{"live":true}`: to go on at the newest screen, live.
    Live,
}
