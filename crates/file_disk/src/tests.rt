//! Disks over files whose calls are cut off, do a part, or fail.

use crate::disk_of_file::DiskOfFile;
use crate::last_error::LastError;
use crate::scripted_file::{ScriptedFile, Turn};
use crate::whole::read_whole;
use crate::written::Written;
use disk::{Disk, MemoryDisk};
use std::alloc::{AllocError, Global};
use std::test::Fail;

/// What Linux answers when a device is full: ENOSPC.
const FULL: i32 = 28;

/// What it answers when it failed: EIO.
const FAILED: i32 = 5;

// A disk over an empty file whose calls take these turns.
fn scripted(alloc: Global, turns: &[Turn]) -> Result<DiskOfFile<ScriptedFile>, AllocError> {
    let disk = MemoryDisk::new(alloc);
    let turns = turns.to_vec(alloc)?;
    Ok(DiskOfFile::over(ScriptedFile::new(disk, turns)))
}

#[test]
fn parts_and_signals_are_gone_on_from(rt: HostRuntime) -> Result<(), Fail> {
    let (part, signal) = (Turn::Short(2), Turn::Interrupted);
    let turns = [
        signal,
        part,
        signal,
        part,
        Turn::Whole,
        signal,
        signal,
        Turn::Whole,
        part,
        signal,
    ];
    let mut disk = scripted(rt.alloc(), &turns)?;
    assert!(rt; disk.write_at(0, b"recorded").is_ok());
    assert!(rt; disk.sync().is_ok());
    let mut read = [0; 6];
    assert!(rt; disk.read_at(1, &mut read).is_ok());
    assert!(rt; read == *b"ecorde");
    assert_eq!(rt; disk.len().ok(), Some(8));
    Ok(())
}

#[test]
fn a_full_device_is_told(rt: HostRuntime) -> Result<(), Fail> {
    let alloc = rt.alloc();
    let (last_error, written) = (LastError::new(alloc)?, Written::new(alloc)?);
    let turns = [Turn::Short(3), Turn::Fails(FULL), Turn::Fails(FAILED)];
    let disk = scripted(alloc, &turns)?;
    let mut disk = disk.noting(last_error.share()?, written.share()?);
    assert!(rt; disk.write_at(0, b"recorded").is_err());
    assert_eq!(rt;
        last_error.get().and_then(|error| error.raw_os_error()),
        Some(FULL)
    );
    assert!(rt; disk.sync().is_err());
    assert_eq!(rt;
        last_error.get().and_then(|error| error.raw_os_error()),
        Some(FAILED)
    );
    assert_eq!(rt; written.end(), 0);
    assert!(rt; disk.write_at(0, b"again").is_ok());
    assert_eq!(rt; written.end(), 5);
    Ok(())
}

#[test]
fn a_read_after_the_end_fails(rt: HostRuntime) -> Result<(), Fail> {
    let mut file = ScriptedFile::new(MemoryDisk::new(rt.alloc()), Vec::new(rt.alloc()));
    let mut read = [0; 2];
    assert!(rt; read_whole(&mut file, 7, &mut read).is_err());
    Ok(())
}
