//! Where updates that were written for others are found.

use crate::shared_update::SharedUpdate;
use crate::shelf::Shelf;
use crate::wanted::Wanted;
use std::alloc::Global;
use std::sync::{Arc, Mutex, Wait};

/// Where updates that were written for others are found, and left for others.
pub trait Updates {
    /// Whether there are others.
    fn are_shared(&self) -> bool;

    /// One that was written for one who wanted the same, if there is one at hand.
    fn find(&self, wanted: Wanted<'_>) -> Option<Arc<SharedUpdate>>;

    /// Leaves one for others.
    fn leave(&self, update: SharedUpdate);
}

/// For one who shares none.
#[derive(Clone, Copy, Debug, PartialEq, Eq)]
pub struct Unshared;

impl Updates for Unshared {
    fn are_shared(&self) -> bool {
        false
    }

    fn find(&self, _wanted: Wanted<'_>) -> Option<Arc<SharedUpdate>> {
        None
    }

    fn leave(&self, update: SharedUpdate) {
        drop(update);
    }
}

/// A shelf that the threads of several viewers share. The lock is held while one is looked for or put
/// there, not while one is written or compared.
#[derive(Drop)]
pub struct CommonShelf<'a, R> {
    pub rt: &'a R,
    pub alloc: Global,
    pub shelf: &'a Mutex<Shelf>,
    /// Whether there are several viewers.
    pub are_several: bool,
}

impl<R: Wait> Updates for CommonShelf<'_, R> {
    fn are_shared(&self) -> bool {
        self.are_several
    }

    fn find(&self, wanted: Wanted<'_>) -> Option<Arc<SharedUpdate>> {
        self.shelf.lock(self.rt).find(wanted)
    }

    fn leave(&self, update: SharedUpdate) {
        if let Ok(update) = Arc::new(self.alloc, update) {
            let _put = self.shelf.lock(self.rt).put(update);
        }
    }
}
