//! A timeline, to which block after block is added.

ghost use Rattle.std.specs.Prelude.{◌≡◌, ◌≤◌, ◌<◌, ◌++◌, ◌∷◌, [], ℕ, List, IsTrue, IfOk, OnErr, false, length};
ghost use Rattle.timeline.specs.declared.stretch.Block.{Block as BlockValue};
ghost use Rattle.timeline.specs.Timeline.{BeginsAnother, TellsOf};

use crate::stretch::{Block, Stretch, follow};
use std::alloc::{AllocError, Global};
use std::marker::Model;

/// What is told of the blocks of a recording from one on, as far as they were added: at most 1,024
/// stretches of blocks, each told by itself, or together with those in the same window of so many
/// milliseconds.
#[derive(Drop)]
pub struct Timeline {
    every: Option<u32>,
    stretches: Vec<Stretch>,
    next: u64,
}

impl Model for Timeline {
    ghost use Rattle.std.specs.Prelude.{◌≤◌, length};
    ghost use Rattle.timeline.specs.Timeline.{Told};

    ghost Value = { Told };

    ghost view = { λ t. record { every = t.every; stretches = t.stretches.items; next = t.next } };

    ghost invariant = { λ t. length t.stretches.items ≤ 1024 };
}

impl Timeline {
    /// That of no block yet. The first will be of this number; blocks whose times lie in the same
    /// window of so many milliseconds are told together, if there are windows.
    pub fn new(alloc: Global, from: u64, every: Option<u32>) -> Timeline
        ensures value { result ≡ record { every = every; stretches = []; next = from } }
        ensures told { TellsOf from [] result }
    {
        Timeline {
            every,
            stretches: Vec::new(alloc),
            next: from,
        }
    }

    /// Adds the block that follows. Answers whether that is told of: not if there are 1,024 stretches
    /// and it begins another. What isn't added leaves all as it was. Memory can run out only where
    /// another stretch begins.
    pub fn add(&mut self, block: Block) -> Result<bool, AllocError>
        ensures every { self.new.every ≡ self.old.every }
        ensures told { IfOk result (λ told. IsTrue told → (from : ℕ) (blocks : List BlockValue) → TellsOf from blocks self.old → TellsOf from (blocks ++ block ∷ []) self.new) }
        ensures full { IfOk result (λ told. told ≡ false → (length self.old.stretches ≡ 1024) × BeginsAnother self.old.every self.old.stretches block.time) }
        ensures kept { IfOk result (λ told. told ≡ false → self.new ≡ self.old) }
        ensures err { OnErr result (self.new ≡ self.old) }
        ensures short { OnErr result ((length self.old.stretches < 1024) × BeginsAnother self.old.every self.old.stretches block.time) }
    {
        let is_told = follow(self.every, &mut self.stretches, self.next, block)?;
        if is_told {
            self.next = self.next.saturating_add(1);
        }
        Ok(is_told)
    }

    /// The stretches, in order.
    pub fn stretches(&self) -> &[Stretch]
        ensures stretches { result.now ≡ self.now.stretches }
        ensures most { length result.now ≤ 1024 }
    {
        &self.stretches
    }

    /// The number of the next block.
    pub fn next(&self) -> u64
        ensures { result ≡ self.now.next }
    {
        self.next
    }
}
