//! A viewer of a recording that is shown in its own time.

ghost use Rattle.std.specs.Prelude.{◌≡◌, IsTrue, true, false};
ghost use Rattle.showing.specs.Playing.{time_left, begins_again, is_there, has_more, is_cut_off, is_early, is_due, has_played, stands_still, plays_again, needs_screen, comes_on, begins_now, takes_one, waits, coming_by, last_screen, next_of};

use crate::next::Next;
use crate::situation::AT_A_TIME;

/// For how many milliseconds the last screen stands before the playing begins again.
const LAST_SCREEN: u64 = 1000;

/// What is looked at to decide what a viewer of a recording that is played is shown next. Times are
/// in milliseconds since its playing began.
#[derive(Clone, Copy, Debug, PartialEq, Eq)]
pub struct Playback {
    /// After how many messages the playing begins.
    pub from: u64,
    /// Whether it begins again at the end.
    pub repeats: bool,
    /// How many messages stand before the viewer.
    pub position: u64,
    /// How many are committed.
    pub committed: u64,
    /// Whether the viewer has no screen yet, to go on from.
    pub is_fresh: bool,
    /// Whether its playing has begun.
    pub has_begun: bool,
    /// When the message is due that it was handed and isn't shown yet, if there is one.
    pub due: Option<u64>,
    /// How long it was played so far; none if the clock can't be read.
    pub played: Option<u64>,
    /// Whether it was handed all that there is, and nothing more comes.
    pub is_at_end: bool,
    /// Whether the last screen has stood for its time.
    pub has_stood: bool,
    /// Whether the viewer has left.
    pub has_left: bool,
    /// Whether the recorder is closing.
    pub is_closing: bool,
}

impl Playback {
    // How long it is until the message in hand is due.
    fn time_left(&self) -> u64
        ensures { result ≡ time_left self.now.due self.now.played }
    {
        match (self.due, self.played) {
            (Some(due), Some(played)) => due.saturating_sub(played),
            _ => 0,
        }
    }

    // Whether the playing begins again at the end: it is to, and there is something to be played.
    fn begins_again(&self) -> bool
        ensures { result ≡ begins_again self.now }
    {
        self.repeats && self.from < self.position
    }

    // What is done at the end.
    fn at_end(&self) -> Next
        ensures rests { begins_again self.now ≡ false → result ≡ Next.Rest }
        ensures stands { begins_again self.now ≡ true → self.now.has_stood ≡ false → result ≡ Next.Sleep last_screen }
        ensures again { begins_again self.now ≡ true → self.now.has_stood ≡ true → result ≡ Next.Seek self.now.from }
    {
        if !self.begins_again() {
            Next::Rest
        } else if !self.has_stood {
            Next::Sleep(LAST_SCREEN)
        } else {
            Next::Seek(self.from)
        }
    }

    // What is done for one that has a screen and nothing in hand.
    fn goes_on(&self) -> Next
        ensures begins { is_there self.now ≡ true → self.now.has_begun ≡ false → result ≡ Next.Begin }
        ensures one { is_there self.now ≡ true → self.now.has_begun ≡ true → has_more self.now ≡ true → result ≡ Next.Want 1 }
        ensures comes { is_there self.now ≡ false → has_more self.now ≡ true → result ≡ Next.Want (coming_by self.now) }
        ensures lacks { is_there self.now ≡ false → has_more self.now ≡ false → result ≡ Next.Wait }
        ensures waits { has_more self.now ≡ false → self.now.has_begun ≡ true → result ≡ Next.Wait }
    {
        if self.from <= self.position && !self.has_begun {
            return Next::Begin;
        }
        if self.committed <= self.position {
            return Next::Wait;
        }
        if self.from <= self.position {
            return Next::Want(1);
        }
        let left = self.from - self.position;
        Next::Want(u32::try_from(left).map_or(AT_A_TIME, |left| left.min(AT_A_TIME)))
    }

    /// What is done for the viewer next.
    pub fn decide(&self) -> Next
        ensures table { result ≡ next_of self.now }
        ensures is_cut_off { IsTrue (is_cut_off self.now) → result ≡ Next.Stop }
        ensures is_early { IsTrue (is_early self.now) → result ≡ Next.Sleep (time_left self.now.due self.now.played) }
        ensures is_due { IsTrue (is_due self.now) → result ≡ Next.Show }
        ensures has_played { IsTrue (has_played self.now) → result ≡ Next.Rest }
        ensures stands_still { IsTrue (stands_still self.now) → result ≡ Next.Sleep last_screen }
        ensures plays_again { IsTrue (plays_again self.now) → result ≡ Next.Seek self.now.from }
        ensures needs_screen { IsTrue (needs_screen self.now) → result ≡ Next.Want 0 }
        ensures comes_on { IsTrue (comes_on self.now) → result ≡ Next.Want (coming_by self.now) }
        ensures begins_now { IsTrue (begins_now self.now) → result ≡ Next.Begin }
        ensures takes_one { IsTrue (takes_one self.now) → result ≡ Next.Want 1 }
        ensures waits { IsTrue (waits self.now) → result ≡ Next.Wait }
    {
        if self.has_left || self.is_closing {
            return Next::Stop;
        }
        if self.due.is_some() {
            return match self.time_left() {
                0 => Next::Show,
                left => Next::Sleep(left),
            };
        }
        if self.is_at_end {
            return self.at_end();
        }
        if self.is_fresh {
            return Next::Want(0);
        }
        self.goes_on()
    }
}
