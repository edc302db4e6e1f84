//! A file as a disk.

ghost use Rattle.std.specs.Prelude.{◌≡◌, Ok, IsErr, MatchResult};
ghost use Rattle.disk.specs.Contents.{CountsFailure};

use crate::last_error::LastError;
use crate::os_file::OsFile;
use crate::progress::Progress;
use crate::system_file::SystemFile;
use crate::tally::Tally;
use crate::whole::{read_whole, sync_whole, write_whole};
use crate::written::Written;
use disk::{Disk, DiskFault};
use std::fs::File;
use std::io;
use std::marker::Model;
use std::rt::Files;

/// An open file as a disk: what each call of the disk is made of are the calls of a [`SystemFile`].
/// Reads and writes go on if the system took or gave less than was asked for, and are tried again if a
/// signal cut them off. Each call that fails is counted.
///
/// It keeps the rules of a disk wherever the system keeps those of POSIX for files of this type: each
/// clause of a disk has that as its premise.
#[derive(Drop)]
pub struct DiskOfFile<F: SystemFile> {
    file: F,
    failures: u64,
    progress: Progress,
    last_error: Option<LastError>,
    written: Option<Written>,
    // How many bytes were read, for who asks meanwhile.
    tally: Option<Tally>,
}

/// A disk of a file of the operating system.
pub type FileDisk = DiskOfFile<OsFile>;

/// Contracts see the file, and the number of calls that failed.
impl<F: SystemFile> Model for DiskOfFile<F> {
    ghost use Rattle.file_disk.specs.FileView.{FileView};

    ghost Value = { FileView F };

    ghost view = { λ d. record { file = d.file; failures = d.failures } };
}

impl<F: SystemFile> DiskOfFile<F> {
    /// This file, as it is. It is written only if `write_at` is called.
    pub fn over(file: F) -> DiskOfFile<F>
        ensures { result ≡ record { file = file; failures = 0 } }
    {
        DiskOfFile {
            file,
            failures: 0,
            progress: Progress::silent(),
            last_error: None,
            written: None,
            tally: None,
        }
    }

    /// The file.
    pub fn into_file(self) -> F
        ensures { result ≡ self.file }
    {
        let DiskOfFile { file, .. } = self;
        file
    }

    /// The same, with what is read told of.
    pub fn watched(self, progress: Progress) -> DiskOfFile<F>
        ensures same { result.failures ≡ self.failures }
        ensures history { F.is_modelled → F.history result.file ≡ F.history self.file }
    {
        let mut disk = self;
        let length = disk.file.length().unwrap_or(0);
        disk.progress = progress.through(length);
        disk
    }

    /// The same, with what the system says of a failure noted, and how far it is written.
    pub fn noting(self, last_error: LastError, written: Written) -> DiskOfFile<F>
        ensures { result ≡ self }
    {
        let mut disk = self;
        disk.last_error = Some(last_error);
        disk.written = Some(written);
        disk
    }

    /// The same, with the bytes counted that are read.
    pub fn counting(self, tally: Tally) -> DiskOfFile<F>
        ensures { result ≡ self }
    {
        let mut disk = self;
        disk.tally = Some(tally);
        disk
    }

    // Counts a call if it failed, and has the system's word for it noted.
    fn counted<T>(&mut self, outcome: io::Result<T>) -> Result<T, DiskFault>
        ensures counts { CountsFailure self.old.failures self.new.failures result }
        ensures file { self.new.file ≡ self.old.file }
        ensures outcome { MatchResult outcome (λ t. result ≡ Ok t) (λ _. IsErr result) }
    {
        match outcome {
            Ok(answer) => Ok(answer),
            Err(error) => {
                if let Some(last_error) = &self.last_error {
                    last_error.note(&error);
                }
                self.failures = self.failures.saturating_add(1);
                Err(DiskFault)
            }
        }
    }
}

impl FileDisk {
    /// A file of the operating system, as it is. It is written only if `write_at` is called.
    pub fn new(file: File) -> FileDisk
        ensures { result.failures ≡ 0 }
    {
        DiskOfFile::over(OsFile::new(file))
    }

    /// The same of a file that is open for reading alone.
    pub fn to_read<R: Files<File = File> + AllocGlobal>(rt: &R, file: File) -> FileDisk
        ensures { result.failures ≡ 0 }
    {
        DiskOfFile::over(OsFile::to_read(rt, file))
    }
}

impl<F: SystemFile> Disk for DiskOfFile<F> {
    ghost is_modelled = { F.is_modelled };

    ghost history = { λ d. F.history d.file };

    ghost failures = { λ d. d.failures };

    ghost after_fault = { λ _ _. Unit {0} };

    fn len(&mut self) -> Result<u64, DiskFault> {
        let outcome = self.file.length();
        self.counted(outcome)
    }

    fn read_at(&mut self, offset: u64, buffer: &mut [u8]) -> Result<(), DiskFault> {
        let end = offset + buffer.len() as u64;
        self.progress.reach(buffer.len(), end);
        if let Some(tally) = &self.tally {
            tally.add(buffer.len());
        }
        let outcome = read_whole(&mut self.file, offset, buffer);
        self.counted(outcome)
    }

    fn write_at(&mut self, offset: u64, bytes: &[u8]) -> Result<(), DiskFault> {
        let outcome = write_whole(&mut self.file, offset, bytes);
        if let (Ok(()), Some(written)) = (&outcome, &self.written) {
            written.note(offset + bytes.len() as u64);
        }
        self.counted(outcome)
    }

    fn sync(&mut self) -> Result<(), DiskFault> {
        let outcome = sync_whole(&mut self.file);
        self.counted(outcome)
    }

    ghost agrees = { λ d m. F.agrees d.file m };
}
