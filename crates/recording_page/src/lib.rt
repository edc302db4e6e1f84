//! A page that has a recording in it, and plays it in any browser, without a network.
#![tactic(auto)]

mod exporting;
mod page;
mod writing;

pub use exporting::{WrittenPage, export_page};
