//! The size of a screen.

/// How many pixels a screen has in a row, and how many rows, as both peers of a session tell it in
/// 16 bits (RFC 6143, section 7.3.2).
#[derive(Clone, Copy, Debug, PartialEq, Eq)]
pub struct ScreenSize {
    pub width: u16,
    pub height: u16,
}
