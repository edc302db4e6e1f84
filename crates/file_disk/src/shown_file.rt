//! A file of which reads show another byte than it has.

use crate::os_file::OsFile;
use crate::system_file::{CallFault, SystemFile};
use std::io;

/// A file as it would be with one byte changed, such as a gate that is to be open: reads show that
/// byte, and the file stays as it is. Nothing is claimed of what it reads.
#[derive(Drop)]
pub struct ShownFile {
    file: OsFile,
    // The byte that reads give at this offset.
    shown: Option<(u64, u8)>,
}

impl ShownFile {
    /// This file, as it is.
    pub fn new(file: OsFile) -> ShownFile {
        ShownFile { file, shown: None }
    }

    /// The same, with this byte at this offset in what reads give.
    pub fn with_byte(file: OsFile, offset: u64, byte: u8) -> ShownFile {
        ShownFile {
            file,
            shown: Some((offset, byte)),
        }
    }
}

impl SystemFile for ShownFile {
    ghost use Rattle.file_disk.specs.Untold.{untold};

    ghost is_modelled = { ⊥ };

    ghost history = { λ _. untold };

    fn length(&mut self) -> io::Result<u64> {
        self.file.length()
    }

    fn read_some(&mut self, offset: u64, buffer: &mut [u8]) -> Result<usize, CallFault> {
        let count = self.file.read_some(offset, buffer)?;
        if let Some((at, byte)) = self.shown {
            let index = at.checked_sub(offset);
            if let Some(shown) = index.and_then(|index| buffer[..count].get_mut(index as usize)) {
                *shown = byte;
            }
        }
        Ok(count)
    }

    fn write_some(&mut self, offset: u64, bytes: &[u8]) -> Result<usize, CallFault> {
        self.file.write_some(offset, bytes)
    }

    fn sync(&mut self) -> Result<(), CallFault> {
        self.file.sync()
    }

    ghost agrees = { λ _ never. absurd never };
}
