//! Framebuffer updates as they are written: rectangles in encodings that the viewer takes (RFC 6143,
//! sections 7.6.1 and 7.7).
#![tactic(auto)]

mod encoding;
mod laws;
mod numbers;
mod parts;
mod update;

pub use encoding::pick;
pub use laws::{written_parts_are_read, written_update_is_read};
pub use numbers::append_numbers;
pub use parts::{Part, append_copy, write_parts};
pub use rect_data::Encoding;
pub use update::{append_head, write_update};
