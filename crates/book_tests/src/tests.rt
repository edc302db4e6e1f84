//! What no clause says: devices, readers and writers that fail, and workers beside each other.

mod fbs_files;
mod growing;
mod recordings;
mod shared;
