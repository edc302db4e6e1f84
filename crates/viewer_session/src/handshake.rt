//! A viewer's handshake: how far the first bytes of its stream go.

ghost use Rattle.std.specs.Prelude.{◌≡◌, ℕ, ◌≤◌, ◌<◌, List, [], length, true, false, Ok, IfErr};
ghost use Rattle.terms.specs.Reading.{Got, More, Bad};
ghost use Rattle.viewer_session.specs.Handshake.{handshake_at};
ghost use Rattle.viewer_session.specs.Stage.{talk_at, heard_at, greeting_of};

use crate::fault::SessionFault;

/// How many bytes a viewer's handshake has: the version, a security type and a shared-flag.
pub const LENGTH: usize = 14;

// The version that is spoken, and its newline.
const VERSION: [u8; 12] = *b"RFB 003.008\n";

/// How far a handshake goes: which field comes next, or which was refused.
#[derive(Clone, Copy)]
pub enum Stage {
    /// The version isn't whole.
    Version,
    /// Another version is spoken.
    OtherVersion,
    /// A security type comes next.
    Choice,
    /// Another type than None is chosen.
    OtherType,
    /// The shared-flag comes next.
    Flag,
    Whole,
}

/// How far the first bytes of a stream go, which are no more than a handshake has.
pub fn stage_of(heard: &[u8]) -> Stage
    requires { length heard.now ≤ 14 }
    ensures talk { (width height : ℕ) → (name : List ℕ)
        → handshake_at width height name heard.now ≡ talk_at width height name result }
    ensures more { heard_at result ≡ More → length heard.now < 14 }
{
    if heard.len() < 12 {
        return Stage::Version;
    }
    let version = &heard[..12];
    if version != VERSION.as_slice() {
        return Stage::OtherVersion;
    }
    if heard.len() < 13 {
        return Stage::Choice;
    }
    if heard[12] != 1 {
        return Stage::OtherType;
    }
    if heard.len() < LENGTH {
        return Stage::Flag;
    }
    Stage::Whole
}

/// All that a viewer is told up to a stage, but for ServerInit, which follows it.
pub fn greeting(stage: Stage) -> &'static [u8]
    ensures { result.now ≡ greeting_of stage }
{
    match stage {
        Stage::Version => b"RFB 003.008\n",
        Stage::OtherVersion => b"RFB 003.008\n\0\0\0\0\x10only RFB 003.008",
        Stage::Choice => b"RFB 003.008\n\x01\x01",
        Stage::OtherType => b"RFB 003.008\n\x01\x01\0\0\0\x01\0\0\0\x09only None",
        Stage::Flag | Stage::Whole => b"RFB 003.008\n\x01\x01\0\0\0\0",
    }
}

/// Whether the first bytes of a viewer's stream, no more than a handshake has, are a whole one: the
/// version 003.008, the security type None, and a shared-flag, which isn't looked at (RFC 6143,
/// sections 7.1 to 7.3). Another version is refused once its 12 bytes have come, and another type
/// with its byte.
pub fn is_whole(heard: &[u8]) -> Result<bool, SessionFault>
    requires { length heard.now ≤ 14 }
    ensures waits { result ≡ Ok false → (width height : ℕ) → (name : List ℕ)
        → (handshake_at width height name heard.now).heard ≡ More }
    ensures whole { result ≡ Ok true → (width height : ℕ) → (name : List ℕ)
        → (handshake_at width height name heard.now).heard ≡ Got tt [] }
    ensures fault { IfErr result (λ f. (width height : ℕ) → (name : List ℕ)
        → (handshake_at width height name heard.now).heard ≡ Bad f) }
    ensures short { result ≡ Ok false → length heard.now < 14 }
{
    match stage_of(heard) {
        Stage::OtherVersion => Err(SessionFault::Version),
        Stage::OtherType => Err(SessionFault::Security),
        Stage::Whole => Ok(true),
        Stage::Version | Stage::Choice | Stage::Flag => Ok(false),
    }
}
