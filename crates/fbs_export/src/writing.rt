//! Writing to the end, or to the first refusal.

ghost use Rattle.std.specs.Prelude.{◌<◌, ◌≤◌, ◌^◌, length, take, ◌≡◌, OnOk};
ghost use Rattle.std.specs.Io.KnownBytes.{Appends};
ghost use Rattle.fbs_export.specs.Written.{WroteFront};
ghost use Rattle.fbs_export.specs.declared.fault.Stop.TheVariants.{Write as StopWrite};
ghost use Rattle.fbs_export.specs.Blocks.{padding_length};
ghost use Rattle.fbs_export.specs.Export.{block_text};

use crate::fault::Stop;
use std::io::Write;
use terms::four_bytes;

/// The writer failed, or took nothing. What it took before is a beginning of what was to be written.
#[derive(Clone, Copy)]
pub struct WriteFailed;

/// Writes all of the bytes; each fault of the writer, and each write that takes none, ends it.
pub fn write_bytes<W: Write>(bytes: &[u8], out: &mut W) -> Result<(), WriteFailed>
    ensures all { OnOk result (Appends (W.contents out.old) (W.contents out.new) bytes.now) }
    ensures front { WroteFront (W.contents out.old) (W.contents out.new) bytes.now }
{
    let mut written = 0;
    while written < bytes.len() {
        match out.write(&bytes[written..]) {
            Err(_) => return Err(WriteFailed),
            Ok(n) => {
                if n == 0 {
                    return Err(WriteFailed);
                }
                written += n;
            }
        }
    }
    Ok(())
}

const ZEROS: [u8; 3] = [0; 3];

/// How many bytes pad so many to a multiple of four.
pub fn padding_of(length: usize) -> usize
    ensures value { result ≡ padding_length length }
    ensures most { result ≤ 3 }
{
    (4 - length % 4) % 4
}

/// Writes a block of these bytes with its time in milliseconds, padded with zeros.
pub fn write_block<W: Write>(time: u32, content: &[u8], out: &mut W) -> Result<(), WriteFailed>
    requires { length content.now < 2 ^ 32 }
    ensures all { OnOk result (Appends (W.contents out.old) (W.contents out.new) (block_text time content.now)) }
    ensures front { WroteFront (W.contents out.old) (W.contents out.new) (block_text time content.now) }
{
    let length = content.len();
    let head = four_bytes(length as u32);
    let last = four_bytes(time);
    write_bytes(&head, out)?;
    write_bytes(content, out)?;
    write_bytes(&ZEROS[..padding_of(length)], out)?;
    write_bytes(&last, out)
}

impl From<WriteFailed> for Stop {
    ghost from_gives = { λ _ stop. stop ≡ StopWrite };

    fn from(_: WriteFailed) -> Stop {
        Stop::Write
    }
}
