//! A file of a folder in memory, by the calls that a disk is made of.

use file_disk::{CallFault, SystemFile};
use recording_name::{MemoryFile, MemoryFolder, SystemFolder};
use std::io;

/// A file of a folder in memory, together with its folder, which keeps a record of what is written.
#[derive(Drop)]
pub struct FolderFile {
    pub folder: MemoryFolder,
    pub file: MemoryFile,
}

// Nothing is claimed of it: that the folder keeps its rules is the folder's promise.
impl SystemFile for FolderFile {
    ghost use Rattle.file_disk.specs.Untold.{untold};

    ghost is_modelled = { ⊥ };

    ghost history = { λ _. untold };

    fn length(&mut self) -> io::Result<u64> {
        Ok(self.folder.read(&self.file)?.len() as u64)
    }

    fn read_some(&mut self, offset: u64, buffer: &mut [u8]) -> Result<usize, CallFault> {
        let bytes = self.folder.read(&self.file)?;
        let start = (offset as usize).min(bytes.len());
        let count = buffer.len().min(bytes.len() - start);
        buffer[..count].copy_from_slice(&bytes[start..start + count]);
        Ok(count)
    }

    fn write_some(&mut self, offset: u64, bytes: &[u8]) -> Result<usize, CallFault> {
        self.folder.write_at(&self.file, offset as usize, bytes)?;
        Ok(bytes.len())
    }

    fn sync(&mut self) -> Result<(), CallFault> {
        Ok(self.folder.sync_file(&self.file)?)
    }

    ghost agrees = { λ file never. absurd never };
}
