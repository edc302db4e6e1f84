//! What is to be served, and for how long.

ghost use Rattle.std.specs.Prelude.{◌≡◌, ℕ, not, false, true};
ghost use Rattle.serve_plan.specs.Terms.{is_over_with_host};

use playing::Pace;
use reception::{Stop, Term};
use telling::Told;
use terms::Format;

/// How many viewers are served.
#[derive(Clone, Copy, Debug, PartialEq, Eq)]
pub enum Audience {
    /// So many, 1 to 256, each of which is waited for.
    Count(u32),
    /// Whoever comes, as many at a time as there are seats. Nobody is waited for.
    Any,
}

/// The position at which viewers begin, as it is asked for.
#[derive(Clone, Copy, Debug, PartialEq, Eq)]
pub enum Origin {
    /// At the newest screen.
    Live,
    /// After so many messages.
    Count(u64),
    /// At this moment of the recording, in milliseconds.
    Time(u32),
}

/// How a recording is to be played in its own time.
#[derive(Clone, Copy, Debug, PartialEq, Eq)]
pub struct Playing {
    pub pace: Pace,
    /// The longest pause between two messages, in milliseconds of the recording.
    pub longest_pause: Option<u32>,
    /// Whether it begins again at its end.
    pub repeats: bool,
}

/// What is to be served.
#[derive(Clone, Copy)]
pub struct Plan<'a> {
    /// The recording's file.
    pub file: &'a str,
    /// The address that viewers connect to; without one only browsers watch.
    pub listen: Option<&'a str>,
    /// The address that browsers connect to; without one only viewers watch.
    pub web: Option<&'a str>,
    /// By which names browsers may ask, besides addresses and `localhost`, with a comma between two.
    pub web_names: Option<&'a str>,
    /// The host's address; without one the recording is served alone.
    pub host: Option<&'a str>,
    /// The format of a new recording.
    pub format: Format,
    /// After how many messages a new recording has a key screen.
    pub key_interval: u16,
    /// How many viewers are served.
    pub audience: Audience,
    /// Whether the end of the host is that of a recorder to which whoever likes comes, also with
    /// browsers.
    pub ends_with_host: bool,
    /// Whether what follows the end of the recording is written over, whatever it is.
    pub overwrites: bool,
    /// The position at which each viewer begins.
    pub from: Origin,
    /// How the recording is played, if it is in its own time. There is no host then.
    pub playing: Option<Playing>,
    /// What ends it beside the host, which isn't read from any more then; what it sent is committed
    /// and shown to the viewers who are there.
    pub stop: Stop,
    /// How much of what happens is told on standard error.
    pub told: Told,
}

impl Plan<'_> {
    // Whether there is a host, whose end is the recorder's.
    fn is_over_with_host(&self) -> bool
        ensures { result ≡ is_over_with_host self.now }
    {
        self.host.is_some() && (self.ends_with_host || self.web.is_none())
    }

    /// What the recorder waits for before it ends.
    pub fn term(&self) -> Term
        ensures viewers { (all : ℕ) → self.now.audience ≡ Audience.Count all → result ≡ Term.Viewers all }
        ensures recording { self.now.audience ≡ Audience.Any → is_over_with_host self.now ≡ true → result ≡ Term.Recording }
        ensures stop { self.now.audience ≡ Audience.Any → is_over_with_host self.now ≡ false → result ≡ Term.Stop }
    {
        match self.audience {
            Audience::Count(all) => Term::Viewers(all),
            Audience::Any if self.is_over_with_host() => Term::Recording,
            Audience::Any => Term::Stop,
        }
    }

    /// Whether viewers stay once nothing more is recorded, until the recorder is stopped.
    pub fn keeps_viewers(&self) -> bool
        ensures { result ≡ not (is_over_with_host self.now) }
    {
        !self.is_over_with_host()
    }
}
