//! How fast a recording is played.

ghost use Rattle.std.specs.Prelude.{◌≡◌, ◌↔◌, IfSome, IsSome};
ghost use Rattle.playing.specs.Playing.{IsPace};

use std::marker::Model;

/// How fast a recording is played, from a tenth to a hundred times as fast as it happened. Contracts
/// see thousandths.
#[derive(Clone, Copy, Debug, PartialEq, Eq)]
pub struct Pace {
    thousandths: u32,
}

impl Model for Pace {
    ghost use Rattle.std.specs.Prelude.{ℕ};
    ghost use Rattle.playing.specs.Playing.{IsPace};

    ghost Value = { ℕ };

    ghost view = { λ p. p.thousandths };

    ghost inverse = { λ n. record { thousandths = n } };

    ghost invariant = { λ p. IsPace p.thousandths };
}

impl Pace {
    /// So many thousandths, from 100 to 100,000; 1,000 is as it happened.
    pub fn from_thousandths(thousandths: u32) -> Option<Pace>
        ensures value { IfSome result (λ pace. pace ≡ thousandths) }
        ensures some { IsSome result ↔ IsPace thousandths }
    {
        if 100 <= thousandths && thousandths <= 100_000 {
            Some(Pace { thousandths })
        } else {
            None
        }
    }

    /// The thousandths.
    pub fn thousandths(self) -> u32
        ensures value { result ≡ self }
        ensures limits { IsPace result }
    {
        self.thousandths
    }
}
