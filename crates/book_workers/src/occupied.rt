//! The seat of a viewer's worker, which is given back at each of its ends.

ghost use Rattle.std.specs.Prelude.{◌≡◌, IfOk, true};

use disk::Disk;
use shared_book::broadcast::{JoinRefusal, Seat, Start};
use shared_book::{Mark, Shared};
use std::sync::Wait;

/// A seat that is taken. It isn't `Drop`, so that no worker compiles that lets it go: `leave` uses
/// it up.
pub struct Occupied {
    pub seat: Seat,
}

impl Occupied {
    /// Takes a seat, fresh, after all committed messages or after so many of them.
    pub fn join<D: Disk, M: Mark, R: Wait>(
        rt: &R,
        shared: &Shared<D, M>,
        start: Start,
    ) -> Result<Occupied, JoinRefusal>
        ensures { IfOk result (λ occupied. occupied.seat.fresh ≡ true) }
    {
        let seat = shared.join(rt, start)?;
        Ok(Occupied { seat })
    }

    /// Gives it back.
    pub fn leave<D: Disk, M: Mark, R: Wait>(self, rt: &R, shared: &Shared<D, M>) {
        let Occupied { seat } = self;
        let _left = shared.leave(rt, seat);
    }
}
