//! The command line of `recorderd`: its words, and what is done by them.
#![tactic(auto)]

mod advice;
mod files;
mod numbers;
mod running;
mod servers;
mod table;
mod words;
mod wrong;

pub use running::{Terminals, command, no_words};
