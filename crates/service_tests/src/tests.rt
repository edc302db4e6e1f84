//! What no clause says: what is served over sockets.

mod serving;
mod told;
mod writing;
