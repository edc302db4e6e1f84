//! The RRE encoding of rectangles: rise-and-run-length encoding (RFC 6143, section 7.7.3). The data
//! of a rectangle are a background, and subrectangles of one colour each which are painted over it.
#![tactic(auto)]

mod append;
mod cover;
mod data;
mod encoding;
mod laws;
mod measuring;
mod painting;

pub use data::Subrectangle;
pub use encoding::{encode, encode_numbers_below};
pub use laws::{grammar_reads_data, no_data_begin_others, one_reading_of_data};
pub use measuring::{Measuring, measure};
pub use painting::paint;
pub use terms::NoLength;
