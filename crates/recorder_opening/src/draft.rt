//! The file in which a recording is made before it has its name: what it is called, and what may be
//! replaced there.

ghost use Rattle.std.specs.Prelude.{◌≡◌, [], List, IfOk, true};
ghost use Rattle.recording_bytes.specs.Recording.{Block, Head, Recording};

use disk::MemoryDisk;
use gated_journal::{Journal, OpenFault, one_reading};
use recording_bytes::{LONGEST_NAME, u16_of};
use recording_name::Leftover;
use std::alloc::{AllocError, Global};
use std::io;

/// What a draft's name has after that of its recording.
const ENDING: &str = ".new";

/// How many bytes a file's name has at most, on Linux.
const LONGEST_FILE_NAME: usize = 255;

/// How many bytes the header of a recording has without its name.
const BARE_HEADER: usize = 16;

/// How many bytes a creation that was cut off leaves at most: a header with the longest name, and
/// the gate after it.
const LONGEST_LEFT: usize = BARE_HEADER + LONGEST_NAME + 1;

/// The path of the file in which the recording at this path is made: it has `.new` after it, or
/// after as much of its name as leaves room for that.
pub fn draft_path(alloc: Global, path: &str) -> Result<String, AllocError> {
    let bytes = path.as_bytes();
    let folder = match bytes.iter().rposition(|byte| *byte == b'/') {
        Some(slash) => slash + 1,
        None => 0,
    };
    let most = folder.saturating_add(LONGEST_FILE_NAME - ENDING.len());
    let mut draft = String::new(alloc);
    for character in path.chars() {
        if draft.len().saturating_add(character.len_utf8()) > most {
            break;
        }
        draft.push(character)?;
    }
    draft.push_str(ENDING)?;
    Ok(draft)
}

// Whether these bytes may be the front of a recording that has no block, whatever its gates say:
// its header, or a part of it, and the first block's gate at most.
fn is_front(bytes: &[u8]) -> bool {
    let Some((_gate, text)) = bytes.split_first() else {
        return true;
    };
    let magic = &text[..text.len().min(7)];
    if !b"RFBREC1".starts_with(magic) && !b"RFBREC2".starts_with(magic) {
        return false;
    }
    match bytes.get(14..16) {
        Some(length) => {
            let name = usize::from(u16_of(length));
            name <= LONGEST_NAME && bytes.len() <= BARE_HEADER + name + 1
        }
        None => true,
    }
}

/// Whether a file of these bytes may be replaced by a new recording: they are what a creation that
/// was cut off leaves, so that no recording with a block is among them.
pub fn is_left_by_creation(alloc: Global, bytes: Vec<u8>) -> Result<bool, OpenFault>
    ensures { IfOk result (λ is_left. is_left ≡ true
        → (h : Head) (blocks : List Block) → Recording bytes.items h blocks → blocks ≡ []) }
{
    if !is_front(&bytes) {
        return Ok(false);
    }
    one_reading();
    let disk = MemoryDisk::from_bytes(alloc, bytes);
    let _content = disk.bytes();
    match Journal::open(alloc, disk) {
        Ok(journal) => Ok(journal.blocks() == 0),
        Err(refused) => match refused.fault {
            OpenFault::NotARecording => Ok(true),
            OpenFault::Damaged(_) | OpenFault::BadDigest(_) => Ok(false),
            fault => Err(fault),
        },
    }
}

/// What a creation that was cut off leaves under a draft's name.
#[derive(Drop)]
pub struct CutOff {
    pub alloc: Global,
}

impl Leftover for CutOff {
    ghost may_go = { λ bytes. (h : Head) (blocks : List Block) → Recording bytes h blocks → blocks ≡ [] };

    fn longest(&self) -> u64 {
        LONGEST_LEFT as u64
    }

    fn is_left(&self, bytes: Vec<u8>) -> io::Result<bool> {
        match is_left_by_creation(self.alloc, bytes) {
            Ok(is_left) => Ok(is_left),
            Err(_) => Err(io::ErrorKind::OutOfMemory.into()),
        }
    }
}
