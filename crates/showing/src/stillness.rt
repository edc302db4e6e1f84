//! A viewer that is shown one moment of a recording.

ghost use Rattle.std.specs.Prelude.{◌≡◌};
ghost use Rattle.showing.specs.Standing.{next_of};

use crate::next::Next;
use crate::situation::AT_A_TIME;

/// For how many milliseconds it is left alone at a time.
const ALONE: u64 = 60_000;

/// What is looked at to decide what a viewer is shown next that stands still at one position.
#[derive(Clone, Copy, Debug, PartialEq, Eq)]
pub struct Stillness {
    /// After how many messages it stands.
    pub at: u64,
    /// How many messages stand before the viewer.
    pub position: u64,
    /// Whether the viewer has no screen yet, to go on from.
    pub is_fresh: bool,
    /// Whether what it is shown is over: it has left, or asks for something else.
    pub is_over: bool,
    /// Whether the recorder is closing.
    pub is_closing: bool,
}

impl Stillness {
    /// What is done for the viewer next.
    pub fn decide(&self) -> Next
        ensures { result ≡ next_of self.now }
    {
        if self.is_over || self.is_closing {
            return Next::Stop;
        }
        if self.is_fresh {
            return Next::Want(0);
        }
        if self.at <= self.position {
            return Next::Sleep(ALONE);
        }
        let left = self.at - self.position;
        Next::Want(u32::try_from(left).map_or(AT_A_TIME, |left| left.min(AT_A_TIME)))
    }
}
