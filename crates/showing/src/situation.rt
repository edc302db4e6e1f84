//! A viewer of a recording that is shown as it grows.

ghost use Rattle.std.specs.Prelude.{◌≡◌, IsTrue, true, false};
ghost use Rattle.showing.specs.Table.{is_over, is_owed, may_go_on, is_live, is_far, leaps, has_more, stands_before_start, is_coming, is_shown_each, coming_by, most, next_of, has_all, is_stopped, is_unread, starts_at_newest, starts_at_position, is_awaited, leaps_now, is_held_back, comes_on, takes_one, keeps_up, lacks_none};

use crate::begins::Begins;
use crate::next::Next;

/// How many messages a viewer is handed at a time: all that a block has, so that a block is read
/// once.
pub const AT_A_TIME: u32 = 256;

/// A live viewer that lags by more messages than this goes on at the newest screen.
const FAR: u64 = 64;

/// What is looked at to decide what a viewer of a recording that grows is shown next.
#[derive(Clone, Copy, Debug, PartialEq, Eq)]
pub struct Situation {
    pub begins: Begins,
    /// How many messages stand before the viewer.
    pub position: u64,
    /// How many are known to be committed. There may be more by now.
    pub committed: u64,
    /// Whether the viewer has no screen yet, to go on from.
    pub is_fresh: bool,
    /// Whether it asks for what changes next, and isn't answered yet.
    pub has_asked: bool,
    /// Whether it was sent an update since it was handed anything.
    pub is_answered: bool,
    /// Whether all of its screen changed since it was shown anything.
    pub is_stale: bool,
    /// Whether it was woken from a wait for more since it was handed something.
    pub has_waited: bool,
    /// Whether it was handed all that there is, and nothing more comes.
    pub is_at_end: bool,
    /// Whether memory was short since it was handed something.
    pub is_short: bool,
    /// Whether the device failed since it was handed something, in reading for it.
    pub has_failed: bool,
    /// Whether the viewer has left.
    pub has_left: bool,
    /// Whether the recorder is closing.
    pub is_closing: bool,
    /// Whether there is no host, so that nothing new comes.
    pub is_alone: bool,
}

impl Situation {
    // Whether it isn't served any more.
    fn is_over(&self) -> bool
        ensures { result ≡ is_over self.now }
    {
        self.has_left || (self.is_closing && (self.is_alone || self.is_short))
    }

    // Whether what it has is to be shown to it before it is handed more.
    fn is_owed(&self) -> bool
        ensures { result ≡ is_owed self.now }
    {
        match self.begins {
            Begins::Live => false,
            Begins::After { from, each_until } => {
                from <= self.position && self.position <= each_until
            }
        }
    }

    // Whether it isn't waited for: it was shown what it has, or the recorder is closing.
    fn may_go_on(&self) -> bool
        ensures { result ≡ may_go_on self.now }
    {
        self.has_asked || self.is_answered || self.is_closing
    }

    /// Whether it is a live one: shown what is newest, and not each message.
    pub fn is_live(&self) -> bool
        ensures { result ≡ is_live self.now }
    {
        match self.begins {
            Begins::Live => true,
            Begins::After { from, each_until } => {
                from <= self.position && each_until <= self.position
            }
        }
    }

    // Whether it lags by far.
    fn is_far(&self) -> bool
        ensures { result ≡ is_far self.now }
    {
        FAR < self.committed.saturating_sub(self.position)
    }

    // Whether it is a live one that goes on at the newest screen.
    fn leaps(&self) -> bool
        ensures { result ≡ leaps self.now }
    {
        let lags = self.position < self.committed;
        self.is_live() && (self.is_far() || (lags && self.is_stale))
    }

    // Whether there is more for it.
    fn has_more(&self) -> bool
        ensures { result ≡ has_more self.now }
    {
        self.position < self.committed || self.has_waited
    }

    // The screen that it is handed first.
    fn first_screen(&self) -> Next
        ensures there { stands_before_start self.now ≡ true → result ≡ Next.Want 0 }
        ensures newest { stands_before_start self.now ≡ false → result ≡ Next.Newest }
    {
        match self.begins {
            Begins::After { from, .. } if self.position <= from => Next::Want(0),
            _ => Next::Newest,
        }
    }

    // How many messages it is handed.
    fn limit(&self) -> u32
        ensures coming { is_coming self.now ≡ true → result ≡ coming_by self.now }
        ensures each { is_shown_each self.now ≡ true → result ≡ 1 }
        ensures live { is_live self.now ≡ true → result ≡ most }
    {
        match self.begins {
            Begins::After { from, .. } if self.position < from => {
                u32::try_from(from - self.position).map_or(AT_A_TIME, |left| left.min(AT_A_TIME))
            }
            Begins::After { each_until, .. } if self.position < each_until => 1,
            _ => AT_A_TIME,
        }
    }

    /// What is done for the viewer next.
    pub fn decide(&self) -> Next
        ensures table { result ≡ next_of self.now }
        ensures has_all { IsTrue (has_all self.now) → result ≡ Next.Rest }
        ensures is_stopped { IsTrue (is_stopped self.now) → result ≡ Next.Stop }
        ensures is_unread { IsTrue (is_unread self.now) → result ≡ Next.Newest }
        ensures starts_at_newest { IsTrue (starts_at_newest self.now) → result ≡ Next.Newest }
        ensures starts_at_position { IsTrue (starts_at_position self.now) → result ≡ Next.Want 0 }
        ensures is_awaited { IsTrue (is_awaited self.now) → result ≡ Next.WaitUntilAsked }
        ensures leaps_now { IsTrue (leaps_now self.now) → result ≡ Next.Newest }
        ensures is_held_back { IsTrue (is_held_back self.now) → result ≡ Next.HoldBack }
        ensures comes_on { IsTrue (comes_on self.now) → result ≡ Next.Want (coming_by self.now) }
        ensures takes_one { IsTrue (takes_one self.now) → result ≡ Next.Want 1 }
        ensures keeps_up { IsTrue (keeps_up self.now) → result ≡ Next.Want most }
        ensures lacks_none { IsTrue (lacks_none self.now) → result ≡ Next.Wait }
    {
        if self.is_at_end {
            return Next::Rest;
        }
        if self.is_over() {
            return Next::Stop;
        }
        if self.has_failed {
            return Next::Newest;
        }
        if self.is_fresh {
            return self.first_screen();
        }
        if self.is_owed() && !self.may_go_on() {
            return Next::WaitUntilAsked;
        }
        if self.leaps() && (self.is_far() || self.may_go_on()) {
            return Next::Newest;
        }
        if self.leaps() {
            return Next::HoldBack;
        }
        if self.has_more() {
            Next::Want(self.limit())
        } else {
            Next::Wait
        }
    }
}
