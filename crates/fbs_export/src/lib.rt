//! FBS files: a part of a recording as such a file, and what such a file says.
#![tactic(auto)]

mod checking;
mod exporting;
mod fault;
mod judge;
mod laws;
mod opening;
mod stream;
mod summary;
mod tally;
mod writing;

pub use checking::{check, count};
pub use exporting::{export, first_exported};
pub use fault::{ExportFault, FbsFault};
pub use laws::{exported_is_read, no_fault_beside_a_summary, one_summary_of_a_file};
pub use summary::{Counted, Summary};
