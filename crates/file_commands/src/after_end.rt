//! What follows the end of a recording.

ghost use Rattle.std.specs.Prelude.{◌≡◌, ◌-◌, ◌<◌, ◌^◌};
ghost use Rattle.recording_bytes.specs.BlockText.{format_of};

use block_walk::{Hidden, hidden_after};
use file_disk::FileDisk;
use gated_journal::Header;
use key_index::Indexed;
use refusals::Refusal;
use std::fmt;
use std::fs::File;
use std::rt::Files;
use terms::Format;

/// What follows the end of a recording, and doesn't count. Its text says how many bytes, and in
/// format 2 if blocks among them go on with the digests.
#[derive(Clone, Copy, Debug, PartialEq, Eq)]
pub struct AfterEnd {
    format: Format,
    hidden: Hidden,
}

impl fmt::Display for AfterEnd {
    fn fmt<W: fmt::Write>(&self, f: &mut fmt::Formatter<W>) -> fmt::Result {
        let Hidden { bytes, blocks } = self.hidden;
        write!(f, "found {bytes} bytes after the end")?;
        match (self.format, blocks) {
            (Format::One, _) => Ok(()),
            (Format::Two, 0) => write!(f, "; no block there goes on with the digests"),
            (Format::Two, 1) => write!(f, "; 1 block there goes on with the digests"),
            (Format::Two, blocks) => write!(f, "; {blocks} blocks there go on with the digests"),
        }
    }
}

/// What follows in a file after the closed gate at which a recording with this last digest ends.
pub fn after_gate<R: Files<File = File> + AllocGlobal>(
    rt: &R,
    file: File,
    header: &Header,
    last: &Option<[u8; 32]>,
    gate: u64,
) -> Result<Option<AfterEnd>, Refusal>
    requires format { format_of last.now ≡ header.now.format }
    requires fits { gate < 2 ^ 64 - 1 }
{
    let mut disk = FileDisk::to_read(rt, file);
    match hidden_after(rt.alloc(), &mut disk, header, last, gate) {
        Ok(hidden) => Ok(
            (hidden.bytes > 0).then_some(AfterEnd {
                format: header.format(),
                hidden,
            }),
        ),
        Err(fault) => Err(fault.into()),
    }
}

/// What follows the end of a recording that is open, in its file.
pub fn after_end<R: Files<File = File> + AllocGlobal>(
    rt: &R,
    file: File,
    index: &Indexed<FileDisk>,
) -> Result<Option<AfterEnd>, Refusal> {
    let gate = index.end().saturating_sub(1);
    after_gate(rt, file, index.header(), &index.last_digest(), gate)
}
