//! The updates that were written last.

ghost use Rattle.std.specs.Prelude.{◌≡◌, ◌-◌, ◌≤◌, ◌<◌, ◌++◌, ◌∷◌, [], IfSome, IsOk, OnOk, OnErr, drop, length};
ghost use Rattle.std.specs.Arc.{arc_value};
ghost use Rattle.shared_updates.specs.Known.{IsFor};

use crate::shared_update::SharedUpdate;
use crate::wanted::Wanted;
use std::alloc::Global;
use std::marker::Model;
use std::sync::Arc;
use terms::NoMemory;

/// How many are kept: viewers in step want what few formats and encodings there are among them.
const MOST: usize = 4;

/// How many bytes one of them has at most.
const MOST_BYTES: usize = 16 << 20;

/// The updates that were written last, four at most, each of 16 MiB at most, for whoever wants the
/// same. Contracts see them, the oldest first.
#[derive(Drop)]
pub struct Shelf {
    updates: Vec<Arc<SharedUpdate>>,
}

impl Model for Shelf {
    ghost use Rattle.std.specs.Prelude.{◌≤◌, List, map, vec_len};
    ghost use Rattle.std.specs.Arc.{arc_value};
    ghost use Rattle.shared_updates.specs.Known.{Known};

    ghost Value = { List Known };

    ghost view = { λ s. map arc_value s.updates.items };

    ghost invariant = { λ s. vec_len s.updates ≤ 4 };
}

impl Shelf {
    /// One on which there are none.
    pub fn new(alloc: Global) -> Shelf
        ensures { result ≡ [] }
    {
        Shelf {
            updates: Vec::new(alloc),
        }
    }

    /// The newest that was written for one who wanted the same, if there is one.
    pub fn find(&self, wanted: Wanted<'_>) -> Option<Arc<SharedUpdate>>
        ensures { IfSome result (λ u. IsFor (arc_value u) wanted.entry) }
    {
        for update in self.updates.as_slice().iter().rev() {
            if update.is_for(wanted) {
                return Arc::try_clone(update).ok();
            }
        }
        None
    }

    /// Puts one here, unless it is too long. If there are four, the oldest gives way. If memory is
    /// refused, it isn't put here.
    pub fn put(&mut self, update: Arc<SharedUpdate>) -> Result<(), NoMemory>
        ensures room { OnOk result (length (arc_value update).bytes ≤ 16777216 → length self.old < 4 → self.new ≡ self.old ++ arc_value update ∷ []) }
        ensures full { OnOk result (length (arc_value update).bytes ≤ 16777216 → length self.old ≡ 4 → self.new ≡ drop 1 self.old ++ arc_value update ∷ []) }
        ensures long { 16777216 < length (arc_value update).bytes → IsOk result × (self.new ≡ self.old) }
        ensures err { OnErr result (self.new ≡ drop (length self.old - 3) self.old) }
    {
        if update.bytes().len() > MOST_BYTES {
            return Ok(());
        }
        if self.updates.len() >= MOST {
            self.updates.remove(0);
        }
        self.updates.push(update)?;
        Ok(())
    }
}
