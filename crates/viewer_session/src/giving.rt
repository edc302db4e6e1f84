//! An update that a viewer is given: one that was written for another, if there is one that serves.

ghost use Rattle.std.specs.Prelude.{◌≡◌, ◌+◌, ◌<◌, ◌^◌, All, IfOk, OnOk, OnErr, length, true, false};
ghost use Rattle.terms.specs.Appending.{Appends};
ghost use Rattle.terms.specs.Area.{LiesWithin};
ghost use Rattle.shared_updates.specs.Updates.{IsUpdateOf};

use crate::shown::Shown;
use crate::update::write_areas;
use painter::Snapshot;
use shared_updates::{SharedUpdate, Updates, Wanted};
use std::alloc::Global;
use terms::NoMemory;

// Appends one that was written for another viewer, if one is found that serves: whether one is.
fn append_found<U: Updates>(
    updates: &U,
    wanted: Wanted<'_>,
    snapshot: &Snapshot,
    out: &mut Vec<u8>,
) -> Result<bool, NoMemory>
    ensures found { IfOk result (λ found. found ≡ true → Appends (IsUpdateOf wanted.entry.format.now wanted.entry.encoding snapshot.now wanted.entry.copies.now wanted.entry.areas.now)
        out.old.items out.new.items) }
    ensures none { IfOk result (λ found. found ≡ false → out.new.items ≡ out.old.items) }
    ensures err { OnErr result (out.new.items ≡ out.old.items) }
{
    let Some(update) = updates.find(wanted) else {
        return Ok(false);
    };
    if !update.serves(wanted, snapshot) {
        return Ok(false);
    }
    out.extend_from_slice(update.bytes())?;
    Ok(true)
}

// Leaves an update for others, unless memory is short.
fn leave<U: Updates>(
    alloc: Global,
    updates: &U,
    wanted: Wanted<'_>,
    snapshot: &Snapshot,
    bytes: &[u8],
)
    requires within { All (LiesWithin snapshot.now.width snapshot.now.height) wanted.areas.now }
    requires is { IsUpdateOf wanted.format.now wanted.encoding snapshot.now wanted.copies.now wanted.areas.now bytes.now }
{
    if let Ok(update) = SharedUpdate::new(alloc, wanted, snapshot, bytes) {
        updates.leave(update);
    }
}

// Appends an update of what is wanted of a screen.
fn write(
    alloc: Global,
    wanted: Wanted<'_>,
    screen: &Shown,
    out: &mut Vec<u8>,
) -> Result<(), NoMemory>
    requires few { length wanted.copies.now + length wanted.areas.now < 2 ^ 16 }
    requires within { All (LiesWithin screen.now.width screen.now.height) wanted.areas.now }
    ensures ok { OnOk result (Appends (IsUpdateOf wanted.entry.format.now wanted.entry.encoding screen.now wanted.entry.copies.now wanted.entry.areas.now)
        out.old.items out.new.items) }
    ensures err { OnErr result (out.new.items ≡ out.old.items) }
{
    let Wanted {
        format,
        encoding,
        copies,
        areas,
    } = wanted;
    write_areas(alloc, format, encoding, screen, copies, areas, out)
}

// The same of a screen that is this snapshot: one that serves, or one that is then left for others.
fn share<U: Updates>(
    alloc: Global,
    updates: &U,
    wanted: Wanted<'_>,
    screen: &Shown,
    snapshot: &Snapshot,
    out: &mut Vec<u8>,
) -> Result<(), NoMemory>
    requires shown { snapshot.now ≡ screen.now }
    requires few { length wanted.copies.now + length wanted.areas.now < 2 ^ 16 }
    requires within { All (LiesWithin screen.now.width screen.now.height) wanted.areas.now }
    ensures ok { OnOk result (Appends (IsUpdateOf wanted.entry.format.now wanted.entry.encoding screen.now wanted.entry.copies.now wanted.entry.areas.now)
        out.old.items out.new.items) }
    ensures err { OnErr result (out.new.items ≡ out.old.items) }
{
    if append_found(updates, wanted, snapshot, out)? {
        return Ok(());
    }
    let start = out.len();
    write(alloc, wanted, screen, out)?;
    leave(alloc, updates, wanted, snapshot, &out[start..]);
    Ok(())
}

/// Appends an update of what is wanted of a screen: one that was written for another viewer, if the
/// screen is a snapshot, others look on, and one is found that serves. If pixels need only be copied,
/// none is looked for. Running out of memory leaves `out` as it was.
pub fn give_update<U: Updates>(
    alloc: Global,
    updates: &U,
    wanted: Wanted<'_>,
    screen: &Shown,
    out: &mut Vec<u8>,
) -> Result<(), NoMemory>
    requires few { length wanted.copies.now + length wanted.areas.now < 2 ^ 16 }
    requires within { All (LiesWithin screen.now.width screen.now.height) wanted.areas.now }
    ensures ok { OnOk result (Appends (IsUpdateOf wanted.entry.format.now wanted.entry.encoding screen.now wanted.entry.copies.now wanted.entry.areas.now)
        out.old.items out.new.items) }
    ensures err { OnErr result (out.new.items ≡ out.old.items) }
{
    match screen.given() {
        Some(snapshot) if updates.are_shared() && wanted.is_converted() => {
            share(alloc, updates, wanted, screen, snapshot, out)
        }
        _ => write(alloc, wanted, screen, out),
    }
}
