//! What is told of a recorder, a line each: the words, the queue in which lines wait to be written,
//! and who puts them there and writes them.
#![tactic(auto)]

mod output;
mod queue;
mod silence;
mod telling;
mod times_left;
mod words;

pub use queue::{Item, Queue};
pub use silence::{Answering, Silence};
pub use telling::{Telling, Told};
pub use times_left::{TimesLeft, TimesWatch};
pub use words::Event;
