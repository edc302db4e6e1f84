//! What becomes of a viewer for whom the device failed.

ghost use Rattle.std.specs.Prelude.{◌≡◌, false, true};

/// What a viewer's worker does once the device failed in reading for it.
#[derive(Clone, Copy, PartialEq)]
pub enum AfterFailure {
    /// It goes on at the newest screen, which is in memory.
    Newest,
    /// It ends.
    End,
}

/// What follows when the device failed for a viewer: one that is shown the recording as it grows
/// goes on at the newest screen, unless that was tried since it was last handed something.
pub fn after_failure(is_live: bool, was_tried: bool) -> AfterFailure
    ensures newest { is_live ≡ true → was_tried ≡ false → result ≡ AfterFailure.Newest }
    ensures not_live { is_live ≡ false → result ≡ AfterFailure.End }
    ensures tried { was_tried ≡ true → result ≡ AfterFailure.End }
{
    if is_live && !was_tried {
        AfterFailure::Newest
    } else {
        AfterFailure::End
    }
}
