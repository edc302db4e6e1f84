//! The opening of a stream, in front of the name: each part is judged once it is whole.

ghost use Rattle.std.specs.Prelude.{◌≡◌, ◌≤◌, ◌↔◌, IsTrue, true, length, Ok};
ghost use Rattle.fbs_export.specs.Judged.{IsJudged};
ghost use Rattle.fbs_export.specs.Opening.{is_host, name_at, format_then, size_then, security_then, opening_at};

use crate::fault::FbsFault;
use terms::{Format, ScreenSize, read_u16, read_u32};

/// The version of a file's stream.
pub const VERSION: [u8; 12] = *b"RFB 003.003\n";

/// Of red, green and blue in the host format: each maximum in two bytes, each shift in one.
const MAXIMA_AND_SHIFTS: [u8; 9] = [0, 255, 0, 255, 0, 255, 16, 8, 0];

/// The security type None.
pub const NONE: u32 = 1;

/// What stands in front of the name: the screen's size, and the length of the name in bytes.
#[derive(Clone, Copy)]
pub struct Announced {
    pub size: ScreenSize,
    pub count: u32,
}

#[tactic(auto, unfolding(crate::specs::Opening::is_host))]
fn is_host_format(format: &[u8]) -> bool
    requires { length format.now ≡ 16 }
    ensures { result ≡ is_host format.now }
{
    if format[0] != 32 {
        return false;
    }
    if format[2] != 0 {
        return false;
    }
    if format[3] == 0 {
        return false;
    }
    &format[4..13] == MAXIMA_AND_SHIFTS.as_slice()
}

fn judge_name(size: ScreenSize, bytes: &[u8]) -> Option<Announced>
    ensures { IsJudged (name_at size.width size.height) 4 bytes.now (Ok result) }
{
    if bytes.len() < 4 {
        return None;
    }
    let (count, _) = bytes.split_at(4);
    let count = read_u32(count, 0);
    Some(Announced { size, count })
}

fn judge_format(size: ScreenSize, bytes: &[u8]) -> Result<Option<Announced>, FbsFault>
    ensures { IsJudged (format_then size.width size.height) 20 bytes.now result }
{
    if bytes.len() < 16 {
        return Ok(None);
    }
    let (format, rest) = bytes.split_at(16);
    if !is_host_format(format) {
        return Err(FbsFault::Format);
    }
    Ok(judge_name(size, rest))
}

fn judge_size(bytes: &[u8]) -> Result<Option<Announced>, FbsFault>
    ensures { IsJudged size_then 24 bytes.now result }
{
    if bytes.len() < 4 {
        return Ok(None);
    }
    let (sides, rest) = bytes.split_at(4);
    let size = ScreenSize {
        width: read_u16(sides, 0),
        height: read_u16(sides, 2),
    };
    // A file says nothing of a recording's format, and what format 1 allows, format 2 does too.
    if !Format::Two.limits().allow(size) {
        return Err(FbsFault::Size);
    }
    judge_format(size, rest)
}

fn judge_security(bytes: &[u8]) -> Result<Option<Announced>, FbsFault>
    ensures { IsJudged security_then 28 bytes.now result }
{
    if bytes.len() < 4 {
        return Ok(None);
    }
    let (security, rest) = bytes.split_at(4);
    if read_u32(security, 0) != NONE {
        return Err(FbsFault::Security);
    }
    judge_size(rest)
}

/// What the first bytes of a stream say, up to the name's length; none while there are too few. The
/// first fault is answered: `Version`, `Security`, `Size` or `Format`.
pub fn judge(bytes: &[u8]) -> Result<Option<Announced>, FbsFault>
    ensures { IsJudged opening_at 40 bytes.now result }
{
    if bytes.len() < 12 {
        return Ok(None);
    }
    let (version, rest) = bytes.split_at(12);
    if version != VERSION.as_slice() {
        return Err(FbsFault::Version);
    }
    judge_security(rest)
}
