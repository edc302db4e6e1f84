//! A file of the operating system as a disk, its folder, and what is told of long work on one.
#![tactic(auto)]

mod disk_of_file;
mod folder;
mod last_error;
mod medium;
mod os_file;
mod os_folder;
mod progress;
mod scripted_file;
mod shown_file;
mod system_error;
mod system_file;
mod tally;
mod whole;
mod written;

pub use disk_of_file::{DiskOfFile, FileDisk};
pub use folder::{create_exclusively, sync_folder};
pub use last_error::LastError;
pub use os_file::OsFile;
pub use os_folder::{LockedFile, OsFolder};
pub use progress::{Progress, Watched};
pub use scripted_file::{ScriptedFile, Turn};
pub use shown_file::ShownFile;
pub use system_error::SystemError;
pub use system_file::{CallFault, SystemFile};
pub use tally::Tally;
pub use written::Written;

#[cfg(test)]
mod tests;
