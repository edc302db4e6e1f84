//! The own time of a recording that viewers watch: how fast it is played, and when each message is
//! due.
#![tactic(auto)]

mod pace;
mod program;
mod timetable;

pub use pace::Pace;
pub use program::Program;
pub use timetable::Timetable;
