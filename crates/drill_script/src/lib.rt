//! The lines of a drill script: one step of a recorder each, written as words.
//!
//! Words are separated by single spaces. Numbers are decimal digits, bytes hexadecimal ones.
#![tactic(auto)]

mod fault;
mod line;
mod reading;
mod words;

pub use fault::LineFault;
pub use line::{DeskLine, Fill, Line, Start};
pub use reading::{read_line, spells_one_line};
