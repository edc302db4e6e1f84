//! The desk: a book with seats for its viewers, and whole runs of steps.
#![tactic(auto)]

mod asking;
mod desk;
mod handed;
mod laws;
mod parts;
mod reading;
mod refusal;
mod runs;
mod seat;
mod seats;
mod step;
mod steps;
mod viewing;

pub use desk::Desk;
pub use handed::Handed;
pub use key_index;
pub use laws::{any_number_of_runs_and_crashes, runs_go_on, steps_only_append};
pub use refusal::{JoinRefusal, LeaveRefusal, NextRefusal, SeekRefusal, StepRefusal};
pub use seat::{Seat, Seated, Start};
pub use step::{Reply, Step};
