//! The command `digest`.

use crate::after_end::after_end;
use crate::command::Work;
use crate::recording::open_recording;
use crate::refusing::Ended;
use crate::source_file::open_source;
use file_disk::{FileDisk, Progress};
use gated_journal::OpenFault;
use key_index::{IndexFault, Indexed};
use refusals::{DigestFault, Refusal};
use std::fs::File;
use std::io::Write;
use std::rt::Files;

/// Which digest is asked for.
#[derive(Clone, Copy)]
pub struct Chaining<'a> {
    pub recording: &'a str,
    /// The block is that of this digest; without one, the last.
    pub digest: Option<[u8; 32]>,
}

// The digest of a block: a recording of format 1 has none.
fn digest_of(index: &mut Indexed<FileDisk>, block: u64) -> Result<[u8; 32], Refusal> {
    if block >= index.blocks() {
        return Err(Refusal::Digest(DigestFault::NotFound));
    }
    match index.digest(block) {
        Ok(Some(digest)) => Ok(digest),
        Ok(None) => Err(Refusal::Digest(DigestFault::NoDigests)),
        Err(_) => Err(Refusal::Recording(IndexFault::Journal(OpenFault::Device))),
    }
}

// The last block whose digest is this one, or, if none is asked for, the last of all.
fn found(
    index: &mut Indexed<FileDisk>,
    wanted: Option<[u8; 32]>,
) -> Result<(u64, [u8; 32]), Refusal> {
    if index.last_digest().is_none() {
        return Err(Refusal::Digest(DigestFault::NoDigests));
    }
    for block in (0..index.blocks()).rev() {
        let digest = digest_of(index, block)?;
        if wanted.is_none() || wanted == Some(digest) {
            return Ok((block, digest));
        }
    }
    Err(Refusal::Digest(DigestFault::NotFound))
}

impl<R: Files<File = File> + AllocGlobal, O: Write> Work<'_, R, O> {
    /// Writes the number and the digest of the block that is asked for, and notes what follows the
    /// recording's end.
    pub fn digest<'a>(&mut self, what: &Chaining<'a>) -> Result<(), Ended<'a>> {
        let file = open_source(self.rt, what.recording)?;
        let again = file.try_clone()?;
        let mut index = open_recording(self.rt, file, self.progress)?;
        let (block, digest) = found(&mut index, what.digest)?;
        let digits = match hex::encode(self.rt.alloc(), digest.as_slice()) {
            Ok(digits) => digits,
            Err(_) => return Err(Ended::Failed(std::io::ErrorKind::OutOfMemory.into())),
        };
        writeln!(self.out, "block {block} digest {digits}")?;
        self.after_end = after_end(self.rt, again, &index)?;
        Ok(())
    }
}
