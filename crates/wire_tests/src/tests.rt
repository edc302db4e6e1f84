//! What no clause and no vector says: data that are made at random, what is written, and what
//! happens when memory runs out.

mod client_messages;
mod hextile_data;
mod host_messages;
mod host_sessions;
mod laws;
mod readers;
mod rre_data;
mod samples;
mod screens;
mod snapshots;
mod updates;
