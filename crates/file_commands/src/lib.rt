//! The commands on recordings and FBS files in files of the operating system.
#![tactic(auto)]

mod after_end;
mod chaining;
mod checking;
mod command;
mod exporting;
mod file_fault;
mod framing;
mod informing;
mod keeping;
mod listing;
mod migrating;
mod out_file;
mod picturing;
mod recording;
mod refusing;
mod salvaging;
mod source_file;
mod surveying;
mod timing;

pub use chaining::Chaining;
pub use command::{FileCommand, run};
pub use exporting::Extract;
pub use file_fault::FileFault;
pub use framing::Filming;
pub use keeping::{create_new, keep};
pub use migrating::Migration;
pub use picturing::{Moment, Scene};
pub use refusing::{Ended, LeftOut, Refused, answer, refuse};
pub use salvaging::Salvaging;
pub use source_file::open_source;
pub use timing::Timing;
