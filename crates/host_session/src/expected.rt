//! The screen that a host is to have.

use terms::{Format, ScreenSize};

/// What is expected of a host's screen.
#[derive(Clone, Copy)]
pub struct ExpectedScreen {
    /// The format of the recording, by whose limits the screen and its messages are judged.
    pub format: Format,
    /// The size of the screen, if one is expected.
    pub size: Option<ScreenSize>,
}
