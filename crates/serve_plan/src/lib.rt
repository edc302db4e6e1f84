//! What `recorderd serve` is asked for: values, without a socket or a thread.
#![tactic(auto)]

mod names;
mod plan;

pub use names::names_of;
pub use plan::{Audience, Origin, Plan, Playing};
