//! Tests of viewers' sessions.
#![tactic(auto)]

ghost use Rattle.std.specs.Prelude.{◌≡◌};

use terms::ScreenSize;

#[cfg(test)]
mod tests;

/// The size of a screen of one row.
pub fn row(width: u16) -> ScreenSize
    ensures { result ≡ record { width = width; height = 1 } }
{
    ScreenSize { width, height: 1 }
}
