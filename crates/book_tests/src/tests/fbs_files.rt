//! What no clause says of `fbs_export`: a file worked by hand, and a reader and a writer that fail.
//! Further files, and what is exported, are told by the program's transcripts.

use crate::ONE_PIXEL;
use disk::MemoryDisk;
use fbs_export::{ExportFault, FbsFault, Summary, check, export};
use key_index::Indexed;
use std::alloc::Global;
use std::io;
use std::io::{Read, Write};
use std::test::Fail;

// A file's start and a block of the opening, for a screen of 1 by 1 and the name x, at time 0. Then
// an update of one red pixel in two blocks, of 7 bytes at time 5, padded with 255, and 13 at time 9.
const FILE: [u8; 104] =
    *b"FBS 001.000\n\0\0\0\x29RFB 003.003\n\0\0\0\x01\0\x01\0\x01\x20\x18\0\x01\0\xff\0\xff\0\xff\x10\x08\0\0\0\0\0\0\0\x01x\0\0\0\0\0\0\0\0\0\0\x07\0\0\0\x01\0\0\0\xff\0\0\0\x05\0\0\0\x0d\0\0\x01\0\x01\0\0\0\0\0\0\xff\0\xff\xff\xff\0\0\0\x09";

// A recording of six messages, of the four encodings and a Bell, in three blocks, the second and the
// third with a key screen.
const RECORDING: [u8; 288] =
    *b"ORFBREC1\0\x02\0\x01\0\x01\0\x01xO\0\0\0>\0\x02\0\0\0\0\0\0\0\0\x18\0\0\0\x01\0\0\0\0\0\x02\0\x01\0\0\0\0\0\0\xff\0\0\xff\0\0\0\0\0\0\x01\0\0\0\x14\0\0\0\x01\0\x01\0\0\0\x01\0\x01\0\0\0\x01\0\0\0\0O\0\0\0s\0\x03\x01\0\0\0\x01\0\0\0\x18\0\0\0\x01\0\0\0\0\0\x02\0\x01\0\0\0\0\0\0\xff\0\0\0\xff\0\0\0\0\0\x02\0\0\0$\0\0\0\x01\0\0\0\0\0\x02\0\x01\0\0\0\x02\0\0\0\x01\xff\0\0\0\xff\xff\xff\0\0\x01\0\0\0\x01\0\x01\0\0\0\0\x03\0\0\0\x1c\0\0\0\x01\0\0\0\0\0\x02\0\x01\0\0\0\x05\x0e\0\xff\0\0\x80\x80\0\0\x01\x10\0O\0\0\0H\0\x03\x01\0\0\0\x03\0\0\0\x18\0\0\0\x01\0\0\0\0\0\x02\0\x01\0\0\0\0\0\xff\0\0\x80\x80\0\0\0\0\0\0\x04\0\0\0\x01\x02\0\0\0\0\x05\0\0\0\x14\0\0\0\x01\0\0\0\0\0\x01\0\x01\0\0\0\0\xff\xff\xff\0C";

// Gives or takes one byte a call. The call after so many fails, and the next one doesn't.
#[derive(Drop)]
struct Slow {
    bytes: Vec<u8>,
    given: usize,
    calls: usize,
}

impl Slow {
    fn passes(&mut self) -> io::Result<()> {
        if self.calls == 0 {
            self.calls = usize::MAX;
            return Err(io::ErrorKind::Other.into());
        }
        self.calls -= 1;
        Ok(())
    }
}

impl Read for Slow {
    fn read(&mut self, buffer: &mut [u8]) -> io::Result<usize> {
        self.passes()?;
        if buffer.is_empty() || self.given >= self.bytes.len() {
            return Ok(0);
        }
        buffer[0] = self.bytes[self.given];
        self.given += 1;
        Ok(1)
    }
}

impl Write for Slow {
    fn write(&mut self, bytes: &[u8]) -> io::Result<usize> {
        self.passes()?;
        if bytes.is_empty() {
            return Ok(0);
        }
        self.bytes.push(bytes[0])?;
        Ok(1)
    }

    fn flush(&mut self) -> io::Result<()> {
        Ok(())
    }
}

// What the file says. It promises nothing, so that a test isn't proved beside all that `check` does.
fn checked_after(alloc: Global, calls: usize) -> Result<Summary, FbsFault> {
    let mut reader = Slow {
        bytes: FILE.to_vec(alloc)?,
        given: 0,
        calls,
    };
    check(alloc, &mut reader)
}

// Whichever call of the reader fails, this is answered, though the next one would give a byte.
#[test]
fn each_read_fails_once(rt: HostRuntime) -> Result<(), Fail> {
    for calls in 0..105 {
        let fault = checked_after(rt.alloc(), calls).err();
        assert!(rt; fault == Some(FbsFault::Read), "after {calls} calls");
    }
    let told = checked_after(rt.alloc(), 105)?;
    assert!(rt; told.size == ONE_PIXEL && told.rest == 0);
    assert!(rt; told.messages.len() == 1 && told.messages[0].time == 9);
    Ok(())
}

// The fault that is met when the call after so many fails, and what was written.
fn exported_after(
    alloc: Global,
    index: &mut Indexed<MemoryDisk>,
    calls: usize,
) -> (Option<ExportFault>, Vec<u8>) {
    let mut writer = Slow {
        bytes: Vec::new(alloc),
        given: 0,
        calls,
    };
    let fault = export(alloc, index, 0, 6, &mut writer).err();
    (fault, writer.bytes)
}

// Whichever call of the writer fails, this is answered, and nothing more is written.
#[test]
fn each_write_fails_once(rt: HostRuntime) -> Result<(), Fail> {
    let alloc = rt.alloc();
    let disk = MemoryDisk::from_bytes(alloc, RECORDING.to_vec(alloc)?);
    let mut index = match Indexed::open(alloc, disk) {
        Ok(index) => index,
        Err(refused) => Err(refused.fault)?,
    };
    let (fault, whole) = exported_after(alloc, &mut index, 276);
    assert!(rt; fault.is_none() && whole.len() == 276);
    for calls in 0..276 {
        let (fault, written) = exported_after(alloc, &mut index, calls);
        assert!(rt; fault == Some(ExportFault::Write), "after {calls} calls");
        assert!(rt; written.len() == calls && whole.starts_with(&written));
    }
    Ok(())
}
