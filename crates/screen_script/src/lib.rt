//! The script of every page that shows a screen.
#![tactic(auto)]

mod painter;

pub use painter::PAINTER;
