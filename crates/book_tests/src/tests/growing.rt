//! Openings of a recording that a recorder adds to meanwhile.

ghost use Rattle.std.specs.Prelude.{◌+◌, ◌<◌, ◌^◌, false, [], length};

use crate::ONE_PIXEL;
use disk::{Disk, DiskFault, MemoryDisk};
use gated_journal::{BlockText, Header, Journal, OpenFault, State};
use key_index::{IndexFault, Indexed};
use std::alloc::Global;
use std::test::Fail;
use terms::Format;

/// An entry: a bell at time 0.
const BELL: [u8; 10] = *b"\x00\x00\x00\x00\x00\x00\x00\x00\x01\x02";

/// A file that a recorder adds to. Each call finds it as it was, until so many have passed; then
/// each finds the next of these states.
#[derive(Drop)]
struct GrowingDisk {
    states: Vec<Vec<u8>>,
    state: usize,
    waiting: u64,
}

impl GrowingDisk {
    // The file that a call finds.
    fn file(&mut self) -> Result<&[u8], DiskFault> {
        let last = self.states.len().saturating_sub(1);
        if self.waiting > 0 {
            self.waiting -= 1;
        } else if self.state < last {
            self.state += 1;
        }
        match self.states.get(self.state) {
            Some(file) => Ok(file.as_slice()),
            None => Err(DiskFault),
        }
    }
}

impl Disk for GrowingDisk {
    ghost is_modelled = { ⊥ };

    ghost history = { λ _. record { moment = 0; at = λ _. record { now = []; held = []; touched = λ _. false } } };

    ghost failures = { λ _. 0 };

    ghost after_fault = { λ _ _. Unit {0} };

    fn len(&mut self) -> Result<u64, DiskFault> {
        Ok(self.file()?.len() as u64)
    }

    fn read_at(&mut self, offset: u64, buffer: &mut [u8]) -> Result<(), DiskFault>
        requires fits { offset + length buffer.old < 2 ^ 64 }
    {
        let file = self.file()?;
        for (n, byte) in buffer.iter_mut().enumerate() {
            let offset = offset.saturating_add(n as u64);
            *byte = match file.get(offset as usize) {
                Some(there) => *there,
                None => return Err(DiskFault),
            };
        }
        Ok(())
    }

    fn write_at(&mut self, _offset: u64, _bytes: &[u8]) -> Result<(), DiskFault> {
        Err(DiskFault)
    }

    fn sync(&mut self) -> Result<(), DiskFault> {
        self.file()?;
        Ok(())
    }

    ghost agrees = { λ _ never. absurd never };
}

// The file of a journal on a disk with these bytes, with one more block prepared, and opened if that
// is asked for.
fn with_a_block(alloc: Global, file: &[u8], is_opened: bool) -> Result<Vec<u8>, Fail> {
    let disk = MemoryDisk::from_bytes(alloc, file.to_vec(alloc)?);
    let Ok(mut journal) = Journal::open(alloc, disk) else {
        return Err("no recording".into());
    };
    let text = match journal.last_digest() {
        Some(before) => BlockText::chained(alloc, &before, 1, &BELL)?,
        None => BlockText::new(alloc, 1, &BELL)?,
    };
    journal.reserve()?;
    if journal.end() > 1 << 20 {
        return Err("too long".into());
    }
    journal.put_body(&text)?;
    if is_opened {
        journal.open_gate()?;
    }
    Ok(journal.close().bytes().to_vec(alloc)?)
}

// The states of a recording of one block to which a recorder adds three more.
fn states(alloc: Global, format: Format) -> Result<Vec<Vec<u8>>, Fail> {
    let header = Header::with_format(alloc, format, ONE_PIXEL, 4, b"x")?;
    let Ok(journal) = Journal::create(alloc, MemoryDisk::new(alloc), header) else {
        return Err("not created".into());
    };
    let mut file = with_a_block(alloc, journal.close().bytes(), true)?;
    let mut states = Vec::new(alloc);
    for _ in 0..3 {
        let prepared = with_a_block(alloc, &file, false)?;
        let opened = with_a_block(alloc, &file, true)?;
        states.push(file)?;
        states.push(prepared)?;
        file = opened;
    }
    states.push(file)?;
    Ok(states)
}

// How many blocks an opening finds, if the recorder goes on after so many of its calls.
fn blocks_found(alloc: Global, format: Format, calls: u64) -> Result<u64, Fail> {
    let disk = GrowingDisk {
        states: states(alloc, format)?,
        state: 0,
        waiting: calls,
    };
    match Indexed::open(alloc, disk) {
        Ok(index) => Ok(index.blocks()),
        Err(_) => Err("refused".into()),
    }
}

#[test]
fn a_recording_that_is_added_to_is_opened(rt: HostRuntime) -> Result<(), Fail> {
    for format in [Format::One, Format::Two] {
        for calls in 0..32 {
            let found = blocks_found(rt.alloc(), format, calls)?;
            assert!(rt; found >= 1 && found <= 4, "{found} after {calls}");
        }
    }
    Ok(())
}
