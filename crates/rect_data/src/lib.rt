//! The data of a rectangle of an update, in one of four encodings (RFC 6143, section 7.7).
#![tactic(auto)]

mod encoding;
mod fields;
mod judging;
mod laws;
mod measuring;

pub use encoding::Encoding;
pub use fields::{lies_inside, source_at};
pub use judging::Judging;
pub use laws::{grammar_reads_data, no_data_begin_others};
pub use measuring::measure;
