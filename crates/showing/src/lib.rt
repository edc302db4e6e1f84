//! What a viewer is shown next, decided by values alone: no socket, no thread, no clock.
#![tactic(auto)]

mod begins;
mod laws;
mod next;
mod playback;
mod situation;
mod stillness;

pub use begins::Begins;
pub use laws::{
    a_failing_device_ends_no_live_one, a_live_one_keeps_up, all_is_shown_at_the_end,
    each_is_shown_in_order, just_one_row, messages_are_passed_over_for_a_reason,
    nobody_waits_in_vain, nothing_is_early, nothing_is_passed_over_for_want_of_memory,
    only_something_is_played_again,
};
pub use next::Next;
pub use playback::Playback;
pub use situation::Situation;
pub use stillness::Stillness;
