//! The Hextile encoding of rectangles (RFC 6143, section 7.7.4). A rectangle is cut into tiles of
//! 16 by 16 pixels. The data of a tile are its pixels, or a background and subrectangles over it.
#![tactic(auto)]

mod cover;
mod encoding;
mod fields;
mod laws;
mod measuring;
mod painting;
mod position;
mod writing;

pub use encoding::{encode, encode_numbers_below};
pub use fields::{Mask, Named, Subrectangle};
pub use laws::{grammar_reads_data, no_data_begin_others, one_reading_of_data};
pub use measuring::{Measuring, measure};
pub use painting::paint;
pub use position::{Position, TileHead};
pub use terms::NoLength;
