//! Updates of a picture (RFC 6143, section 7.6.1) that are written once for all who want the same,
//! and the copies with which they begin.
#![tactic(auto)]

mod copies;
mod copy;
mod joining;
mod shared_update;
mod shelf;
mod updates;
mod wanted;

pub use copies::Copies;
pub use copy::KeptCopy;
pub use joining::lies_in;
pub use shared_update::SharedUpdate;
pub use shelf::Shelf;
pub use updates::{CommonShelf, Unshared, Updates};
pub use wanted::Wanted;
