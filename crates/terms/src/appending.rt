//! What is appended whole or not at all.

ghost use Rattle.std.specs.Prelude.{◌≡◌, ◌+◌, ◌++◌, ◌<◌, ◌≤◌, IsTrue, false, OnOk, OnErr, length, max, take, vec_capacity};
ghost use Rattle.terms.specs.Appending.{room_for};

use crate::NoMemory;
use std::alloc::AllocError;

/// Takes back what was appended after the first so many bytes, unless all of it was. Answers what
/// the appending answered.
pub fn whole_or_none(
    appended: Result<(), NoMemory>,
    start: usize,
    bytes: &mut Vec<u8>,
) -> Result<(), NoMemory>
    ensures outcome { result ≡ appended }
    ensures ok { OnOk result (bytes.new.items ≡ bytes.old.items) }
    ensures err { OnErr result (bytes.new.items ≡ take start bytes.old.items) }
{
    if appended.is_err() {
        bytes.truncate(start);
    }
    appended
}

/// Takes back what was appended after the first so many bytes, unless it has fewer bytes than the
/// limit. Answers whether it is kept.
pub fn keep_below(limit: usize, start: usize, bytes: &mut Vec<u8>) -> bool
    requires { start ≤ length bytes.old.items }
    ensures kept { IsTrue result → bytes.new.items ≡ bytes.old.items }
    ensures below { IsTrue result → length bytes.new.items < start + limit }
    ensures long { result ≡ false → start + limit ≤ length bytes.old.items }
    ensures taken_back { result ≡ false → bytes.new.items ≡ take start bytes.old.items }
{
    let short = bytes.len() - start < limit;
    if !short {
        bytes.truncate(start);
    }
    short
}

/// Appends bytes that came. If they need more room, it takes room for no more than twice as many
/// bytes as there are then, and 8. When memory runs out, `bytes` stays as it was, but for its room.
pub fn append_come(bytes: &mut Vec<u8>, come: &[u8]) -> Result<(), NoMemory>
    ensures ok { OnOk result (bytes.new.items ≡ bytes.old.items ++ come.now) }
    ensures err { OnErr result (bytes.new.items ≡ bytes.old.items) }
    ensures room { OnOk result (vec_capacity bytes.new
        ≤ max (vec_capacity bytes.old) (room_for (length bytes.old.items + length come.now))) }
{
    let before = bytes.len();
    let twice = before.saturating_add(come.len()).saturating_mul(2);
    let most = bytes.capacity().max(twice.saturating_add(8));
    bytes.extend_from_slice(come)?;
    // The library doubles the room, but doesn't promise to take no more.
    if bytes.capacity() > most {
        bytes.truncate(before);
        return Err(AllocError);
    }
    Ok(())
}
