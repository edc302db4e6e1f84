//! The chunks of a PNG file, and the stored blocks of the zlib stream in it.

ghost use Rattle.std.specs.Prelude.{◌≡◌, ◌^◌, ◌<◌, ◌≤◌, ◌++◌, length, OnOk};
ghost use Rattle.std.specs.Io.KnownBytes.{Appends};
ghost use Rattle.pictures.specs.Checksums.{crc32};
ghost use Rattle.pictures.specs.Chunks.{chunk, stored, stored_block};

use crate::checksum::CrcTable;
use std::io;
use std::io::Write;
use terms::{NoMemory, four_bytes};

/// How many bytes a stored block has at most.
const LONGEST_BLOCK: usize = 65_535;

/// Writes a chunk of a PNG file.
pub fn write_chunk<W: Write>(
    table: &CrcTable,
    kind: &[u8],
    content: &[u8],
    out: &mut W,
) -> io::Result<()>
    requires { length content.now < 2 ^ 31 }
    ensures { OnOk result (Appends (W.contents out.old) (W.contents out.new) (chunk kind.now content.now)) }
{
    let checksum = table.following(table.following(u32::MAX, kind), content) ^ u32::MAX;
    out.write_all(&four_bytes(content.len() as u32))?;
    out.write_all(kind)?;
    out.write_all(content)?;
    out.write_all(&four_bytes(checksum))
}

// Appends a stored block that isn't the last one.
fn append_block(bytes: &[u8], out: &mut Vec<u8>) -> Result<(), NoMemory>
    requires { length bytes.now ≤ 65535 }
    ensures { OnOk result (out.new.items ≡ out.old.items ++ stored_block bytes.now) }
{
    let size = bytes.len() as u16;
    let complement = u16::MAX - size;
    out.extend_from_slice(&[
        0,
        (size % 256) as u8,
        (size / 256) as u8,
        (complement % 256) as u8,
        (complement / 256) as u8,
    ])?;
    out.extend_from_slice(bytes)
}

/// Appends bytes as stored blocks, none of which is the last one.
pub fn append_stored(bytes: &[u8], out: &mut Vec<u8>) -> Result<(), NoMemory>
    ensures { OnOk result (out.new.items ≡ out.old.items ++ stored bytes.now) }
{
    let mut rest = bytes;
    while !rest.is_empty() {
        let (block, following) = rest.split_at(LONGEST_BLOCK.min(rest.len()));
        append_block(block, out)?;
        rest = following;
    }
    Ok(())
}
