//! A recording that is made in a folder in memory, whose calls fail in turn.

ghost use Rattle.std.specs.Prelude.{◌≤◌, length};

use crate::draft::{Leftover, make_draft};
use crate::memory_folder::{Chosen, MemoryFolder};
use crate::publishing::publish;
use crate::settling::{Settled, settle};
use crate::standing::{Standing, stand_at};
use crate::system_folder::{Access, SystemFolder};
use crate::target::{Target, target_at};
use std::io;
use std::test::Fail;

const PATH: &str = "recording";

const DRAFT: &str = "recording.new";

/// How many calls of a folder a making makes.
const CALLS: u64 = 11;

/// What is left may be a part of the recording.
struct Part;

impl Leftover for Part {
    ghost may_go = { λ _. Unit {0} };

    fn longest(&self) -> u64 {
        8
    }

    fn is_left(&self, bytes: Vec<u8>) -> io::Result<bool> {
        Ok(bytes.is_empty() || bytes.as_slice() == b"whole".as_slice())
    }
}

// Makes a recording. Whether it has its name.
fn make(folder: &mut MemoryFolder) -> bool {
    let Ok(file) = make_draft(folder, DRAFT, PATH, &Part) else {
        return false;
    };
    folder.write_at(&file, 0, b"whole").is_ok() && publish(folder, &file, DRAFT, PATH).is_ok()
}

// Whether a crash after so many events leaves the whole recording, or nothing if it may lack,
// whatever it leaves else.
fn is_whole(folder: &MemoryFolder, moment: usize, may_lack: bool) -> Result<bool, Fail>
    requires { moment ≤ length folder.now }
{
    for steps in 0..3 {
        for writes in 0..2 {
            match folder.left_at(moment, PATH, Chosen { steps, writes })? {
                Some(left) if left.as_slice() == b"whole".as_slice() => {}
                None if may_lack => {}
                _ => return Ok(false),
            }
        }
    }
    Ok(true)
}

#[test]
fn a_recording_is_made_and_gone_on_with(rt: HostRuntime) -> Result<(), Fail> {
    let mut folder = MemoryFolder::new(rt.alloc());
    assert!(rt; make(&mut folder));
    assert!(rt; is_whole(&folder, folder.moments(), false)?);
    let file = folder.open(PATH, Access::Write)?;
    assert_eq!(rt; settle(&mut folder, &file, PATH)?, Settled::ByName);
    assert!(rt; !make(&mut folder));
    assert!(rt; is_whole(&folder, folder.moments(), false)?);
    Ok(())
}

#[test]
fn a_crash_leaves_nothing_or_the_whole(rt: HostRuntime) -> Result<(), Fail> {
    let mut folder = MemoryFolder::new(rt.alloc());
    assert!(rt; make(&mut folder));
    for moment in 0..folder.moments() {
        assert!(rt; is_whole(&folder, moment, true)?);
    }
    Ok(())
}

#[test]
fn each_refusal_can_be_gone_on_from(rt: HostRuntime) -> Result<(), Fail> {
    for calls in 0..CALLS {
        let mut folder = MemoryFolder::new(rt.alloc());
        folder.fail_after(calls);
        assert!(rt; !make(&mut folder));
        if folder.look_up(PATH)?.is_none() {
            assert!(rt; make(&mut folder));
            assert!(rt; is_whole(&folder, folder.moments(), false)?);
        }
    }
    Ok(())
}

#[test]
fn bytes_that_are_not_synced_may_be_lost(rt: HostRuntime) -> Result<(), Fail> {
    let mut folder = MemoryFolder::new(rt.alloc());
    let file = folder.make(DRAFT)?;
    folder.write_at(&file, 0, b"whole")?;
    folder.rename(DRAFT, PATH)?;
    folder.sync_folder()?;
    let chosen = Chosen {
        steps: 0,
        writes: 0,
    };
    let left = folder.left_at(folder.moments(), PATH, chosen)?;
    assert!(rt; left.is_some_and(|bytes| bytes.is_empty()));
    Ok(())
}

// What stands at the recording's path, for who writes it: `-` nothing, `0` a file without bytes, `+`
// a recording that stays there.
fn standing(folder: &mut MemoryFolder) -> char {
    match stand_at(folder, PATH, Access::Write) {
        Ok(Standing::Nothing) => '-',
        Ok(Standing::Empty(_)) => '0',
        Ok(
            Standing::Recording {
                file: _,
                found: _,
                settled: Some(Settled::ByName),
            },
        ) => '+',
        Ok(Standing::Recording { .. }) | Err(_) => '?',
    }
}

#[test]
fn what_stands_at_a_path_is_said(rt: HostRuntime) -> Result<(), Fail> {
    let mut folder = MemoryFolder::new(rt.alloc());
    assert_eq!(rt; standing(&mut folder), '-');
    let file = folder.make(PATH)?;
    assert_eq!(rt; standing(&mut folder), '0');
    folder.write_at(&file, 0, b"whole")?;
    assert_eq!(rt; standing(&mut folder), '+');
    assert!(rt; is_whole(&folder, folder.moments(), false)?);
    Ok(())
}

#[test]
fn a_target_is_made_or_is_there(rt: HostRuntime) -> Result<(), Fail> {
    let mut folder = MemoryFolder::new(rt.alloc());
    assert!(rt; matches!(target_at(&mut folder, PATH), Ok(Target::Made(_))));
    assert!(rt; matches!(target_at(&mut folder, PATH), Ok(Target::There(_))));
    Ok(())
}
