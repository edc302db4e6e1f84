//! Pictures of a recording: a screen as a picture file, and the frames of a video.
#![tactic(auto)]

mod checksum;
mod chunk;
mod frames;
mod laws;
mod picture;
mod plain;
mod png;

pub use frames::{Film, video_end, write_frames};
pub use laws::{png_is_by_rules, published_checksums};
pub use picture::{PictureFormat, write_picture};
pub use png::png_length;
