//! Reading a file, block by block.

ghost use Rattle.std.specs.Prelude.{◌≡◌, ◌≤◌, ◌<◌, [], ◌++◌, ℕ, List, false, length, take, IfSome, IsNone, IfOk, IfErr, OnOk, ◌+◌};
ghost use Rattle.std.specs.Io.KnownBytes.{Consumes, IsAtEnd};
ghost use Rattle.terms.specs.Number.{u32_bytes};
ghost use Rattle.fbs_export.specs.Blocks.{is_start, is_digit as digit, padding_length};
ghost use Rattle.fbs_export.specs.Counted.{IsCounted};
ghost use Rattle.fbs_export.specs.declared.fault.FbsFault.TheVariants.{Read as FbsRead};
ghost use Rattle.fbs_export.specs.Reader.{Came, IsBetween, IsStop, IsTimed, Started, Went};
ghost use Rattle.fbs_export.specs.Summary.{IsSummary, IsFault};
ghost use Rattle.fbs_export.specs.Told.{Says};

use crate::fault::FbsFault;
use crate::stream::{Stream, Told};
use crate::summary::{Counted, Summary};
use crate::tally::{Counter, Kept, Tally};
use crate::writing::padding_of;
use std::alloc::Global;
use std::io::Read;
use terms::read_u32;

/// The first bytes of a file: FBS 001., three digits, and a newline.
const MAGIC: [u8; 8] = *b"FBS 001.";

/// The reader failed.
#[derive(Clone, Copy)]
pub struct ReadFailed;

impl From<ReadFailed> for FbsFault {
    ghost from_gives = { λ _ fault. fault ≡ FbsRead };

    fn from(_: ReadFailed) -> FbsFault {
        FbsFault::Read
    }
}

// Fills a buffer as far as the file goes; gives the number of bytes.
fn fill<R: Read>(file: &mut R, buffer: &mut [u8]) -> Result<usize, ReadFailed>
    ensures read { IfOk result (λ n. Consumes (R.remaining file.old) (R.remaining file.new) (take n buffer.new)) }
    ensures most { IfOk result (λ n. n ≤ length buffer.old) }
    ensures end { IfOk result (λ n. n < length buffer.old → IsAtEnd (R.remaining file.new)) }
    ensures size { length buffer.new ≡ length buffer.old }
{
    let mut filled = 0;
    while filled < buffer.len() {
        match file.read(&mut buffer[filled..]) {
            Err(_) => return Err(ReadFailed),
            Ok(n) => {
                if n == 0 {
                    return Ok(filled);
                }
                filled += n;
            }
        }
    }
    Ok(filled)
}

fn is_digit(byte: u8) -> bool
    ensures { result ≡ digit byte }
{
    47 < byte && byte < 58
}

// Whether these are the first bytes of a file.
#[tactic(auto, unfolding(crate::specs::Blocks::is_start))]
fn begins_a_file(start: &[u8]) -> bool
    requires { length start.now ≡ 12 }
    ensures { result ≡ is_start start.now }
{
    let (magic, _) = start.split_at(8);
    if magic != MAGIC.as_slice() {
        return false;
    }
    if !is_digit(start[8]) {
        return false;
    }
    if !is_digit(start[9]) {
        return false;
    }
    if !is_digit(start[10]) {
        return false;
    }
    start[11] == 10
}

// Takes the first bytes of a file.
fn read_start<R: Read>(file: &mut R) -> Result<(), FbsFault>
    ensures started { OnOk result (Started (R.remaining file.old) (R.remaining file.new)) }
    ensures fault { IfErr result (λ f. IfSome (R.remaining file.old) (λ bytes. IsFault bytes f)) }
{
    let mut start = [0; 12];
    let came = fill(file, &mut start)?;
    if came < 12 {
        return Err(FbsFault::NotFbs);
    }
    if !begins_a_file(&start) {
        return Err(FbsFault::NotFbs);
    }
    Ok(())
}

// Takes so many bytes of data, as they come, through a buffer of whatever bytes.
fn read_content<R: Read, T: Tally>(
    file: &mut R,
    length: u32,
    buffer: &mut [u8; 4096],
    stream: &mut Stream<T>,
) -> Result<(), FbsFault>
    ensures came { OnOk result (Came T.stands_for (R.remaining file.old) (R.remaining file.new) stream.old stream.new length) }
    ensures fault { IfErr result (λ f. (seen : List ℕ) → IsBetween T.stands_for stream.old seen
        → IfSome (R.remaining file.old) (λ rest. IsFault (seen ++ (u32_bytes length ++ rest)) f)) }
{
    let mut left = length;
    while left > 0 {
        let room = left.min(4096) as usize;
        match file.read(&mut buffer[..room]) {
            Err(_) => return Err(FbsFault::Read),
            Ok(n) => {
                if n == 0 {
                    return Err(FbsFault::Truncated);
                }
                stream.feed(&buffer[..n])?;
                left -= n as u32;
            }
        }
    }
    Ok(())
}

// The number that four bytes spell, the highest first.
fn number_of(bytes: &[u8]) -> u32
    requires { length bytes.now ≡ 4 }
    ensures { u32_bytes result ≡ bytes.now }
{
    read_u32(bytes, 0)
}

// Takes the length that begins a block: `None` if the file has ended.
fn read_length<R: Read>(file: &mut R) -> Result<Option<u32>, FbsFault>
    ensures some { IfOk result (λ length. IfSome length (λ n. Consumes (R.remaining file.old) (R.remaining file.new) (u32_bytes n))) }
    ensures none { IfOk result (λ length. IsNone length → Consumes (R.remaining file.old) (R.remaining file.new) [] × IsAtEnd (R.remaining file.new)) }
    ensures fault { IfErr result (IsStop 1 4 (R.remaining file.old)) }
{
    let mut head = [0; 4];
    let came = fill(file, &mut head)?;
    if came == 0 {
        return Ok(None);
    }
    if came < 4 {
        return Err(FbsFault::Truncated);
    }
    Ok(Some(number_of(&head)))
}

// Takes the padding after so many bytes of data, and the block's time.
fn read_time<R: Read>(file: &mut R, length: u32) -> Result<u32, FbsFault>
    ensures timed { IfOk result (IsTimed (R.remaining file.old) (R.remaining file.new) length) }
    ensures fault { IfErr result (IsStop 0 (padding_length length + 4) (R.remaining file.old)) }
{
    let padding = padding_of(length as usize);
    let mut last = [0; 7];
    let came = fill(file, &mut last[..padding + 4])?;
    if came < padding + 4 {
        return Err(FbsFault::Truncated);
    }
    let (_, time) = last[..padding + 4].split_at(padding);
    Ok(number_of(time))
}

// Takes a block; answers whether there was one.
fn read_block<R: Read, T: Tally>(
    file: &mut R,
    buffer: &mut [u8; 4096],
    stream: &mut Stream<T>,
) -> Result<bool, FbsFault>
    ensures went { IfOk result (λ more. (seen : List ℕ) → IsBetween T.stands_for stream.old seen
        → Went T.stands_for (R.remaining file.old) (R.remaining file.new) stream.new seen more) }
    ensures fault { IfErr result (λ f. (seen : List ℕ) → IsBetween T.stands_for stream.old seen
        → IfSome (R.remaining file.old) (λ rest. IsFault (seen ++ rest) f)) }
{
    let Some(length) = read_length(file)? else {
        return Ok(false);
    };
    read_content(file, length, buffer, stream)?;
    let time = read_time(file, length)?;
    stream.end_block(time)?;
    Ok(true)
}

// What a file says that a reader gives, its messages told to a tally that stands for none.
fn read_file<R: Read, T: Tally>(alloc: Global, file: &mut R, tally: T) -> Result<Told<T>, FbsFault>
    requires { T.stands_for tally [] [] }
    ensures ok { IfOk result (λ told. IfSome (R.remaining file.old) (λ bytes. Says T.stands_for bytes told)) }
    ensures fault { IfErr result (λ f. IfSome (R.remaining file.old) (λ bytes. IsFault bytes f)) }
{
    read_start(file)?;
    let mut stream = Stream::new(alloc, tally);
    let mut buffer = [0; 4096];
    for _ in 0..u64::MAX {
        let more = read_block(file, &mut buffer, &mut stream)?;
        if !more {
            let told = stream.finish()?;
            return Ok(told);
        }
    }
    Err(FbsFault::Read)
}

/// What a file says that a reader gives. The first fault in the file is answered, as soon as its
/// bytes have come; each failure of the reader is `Read`. A file says nothing of a recording's
/// format: its screen and its messages are judged by the limits of format 2, which allow all that
/// those of format 1 do, and the messages are given in format 2. Beside the messages that are told,
/// the bytes of one message are kept at most. A reader that asks a system for its bytes is best
/// buffered: each block is read in three pieces or more.
pub fn check<R: Read>(alloc: Global, file: &mut R) -> Result<Summary, FbsFault>
    ensures ok { IfOk result (λ s. IfSome (R.remaining file.old) (λ bytes. IsSummary bytes s)) }
    ensures fault { IfErr result (λ f. IfSome (R.remaining file.old) (λ bytes. IsFault bytes f)) }
{
    let told = read_file(alloc, file, Kept::new(alloc))?;
    Ok(Summary {
        size: told.size,
        name: told.name,
        messages: told.tally.into_messages(),
        rest: told.rest,
    })
}

/// What a file says that a reader gives, its messages counted and not kept; the faults are those of
/// [`check`]. However long the file and its blocks are, one message is kept at most, beside those of
/// a piece of 4,096 bytes.
pub fn count<R: Read>(alloc: Global, file: &mut R) -> Result<Counted, FbsFault>
    ensures ok { IfOk result (λ counted. IfSome (R.remaining file.old) (λ bytes. IsCounted bytes counted)) }
    ensures fault { IfErr result (λ f. IfSome (R.remaining file.old) (λ bytes. IsFault bytes f)) }
{
    let told = read_file(alloc, file, Counter::new())?;
    Ok(Counted {
        size: told.size,
        messages: told.tally.number(),
        rest: told.rest,
    })
}
