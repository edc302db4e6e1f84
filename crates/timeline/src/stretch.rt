//! Stretches of a recording, and which blocks are of the same.

ghost use Rattle.std.specs.Prelude.{◌≡◌, ◌↔◌, ◌≤◌, ◌<◌, IsTrue, IfOk, OnErr, false, length};
ghost use Rattle.timeline.specs.Timeline.{AreTogether, BeginsAnother, IsFollowed, IsJoined};

use std::alloc::AllocError;

/// The most stretches that are told of at a time.
pub const MOST: usize = 1024;

/// What is known of a block.
#[derive(Clone, Copy, Debug, PartialEq, Eq)]
pub struct Block {
    /// The time of its first message, in milliseconds.
    pub time: u32,
    /// How many messages stand before it.
    pub message: u64,
    /// How many messages it has.
    pub updates: u64,
}

/// What is told of a block, or of several that follow each other.
#[derive(Clone, Copy, Debug, PartialEq, Eq)]
pub struct Stretch {
    /// The time of the first message of the first of them, in milliseconds.
    pub time: u32,
    /// How many messages stand before that block.
    pub message: u64,
    /// The number of that block.
    pub block: u64,
    /// How many messages all of them have.
    pub updates: u64,
}

// Whether blocks of these times lie in the same window of so many milliseconds, if there are windows.
fn are_together(every: Option<u32>, one: u32, other: u32) -> bool
    ensures { IsTrue result ↔ AreTogether every one other }
{
    match every {
        None | Some(0) => false,
        Some(every) => one / every == other / every,
    }
}

// Has the last stretch tell of a further block, if that lies in its window.
fn join(every: Option<u32>, stretches: &mut Vec<Stretch>, block: Block) -> bool
    ensures joined { IsTrue result → IsJoined every stretches.old.items block stretches.new.items }
    ensures another { result ≡ false → BeginsAnother every stretches.old.items block.time }
    ensures same { result ≡ false → stretches.new.items ≡ stretches.old.items }
{
    let Some(&last) = stretches.last() else {
        return false;
    };
    if !are_together(every, last.time, block.time) {
        return false;
    }
    let end = stretches.len() - 1;
    stretches[end] = Stretch {
        updates: last.updates.saturating_add(block.updates),
        ..last
    };
    true
}

/// Tells of a further block, which has this number, unless there are as many stretches as there may
/// be and it would begin another. Memory is taken only for a stretch that begins.
pub fn follow(
    every: Option<u32>,
    stretches: &mut Vec<Stretch>,
    number: u64,
    block: Block,
) -> Result<bool, AllocError>
    ensures followed { IfOk result (λ told. IsTrue told → IsFollowed every stretches.old.items number block stretches.new.items) }
    ensures most { length stretches.old.items ≤ 1024 → length stretches.new.items ≤ 1024 }
    ensures full { IfOk result (λ told. told ≡ false → (1024 ≤ length stretches.old.items) × BeginsAnother every stretches.old.items block.time) }
    ensures same { IfOk result (λ told. told ≡ false → stretches.new.items ≡ stretches.old.items) }
    ensures err { OnErr result (stretches.new.items ≡ stretches.old.items) }
    ensures short { OnErr result ((length stretches.old.items < 1024) × BeginsAnother every stretches.old.items block.time) }
{
    if join(every, stretches, block) {
        return Ok(true);
    }
    if stretches.len() >= MOST {
        return Ok(false);
    }
    let Block {
        time,
        message,
        updates,
    } = block;
    stretches.push(Stretch {
        time,
        message,
        block: number,
        updates,
    })?;
    Ok(true)
}
