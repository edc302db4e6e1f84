//! The frames of a video: when they are, and the pictures that they show.

ghost use Rattle.std.specs.Prelude.{◌≡◌, ◌≢◌, ◌↔◌, ◌<◌, ◌≤◌, ◌⊎◌, ◌++◌, ℕ, List, [], OnOk, IsErrOf};
ghost use Rattle.disk.specs.Failures.{HasCause};
ghost use Rattle.keyed_entries.specs.Entry.{messages_in};
ghost use Rattle.key_index.specs.Indexed.{OnlyReads};
ghost use Rattle.painter.specs.Framebuffer.{color_at};
ghost use Rattle.pictures.specs.Frames.{frame_moment, AreFirstFrames, IsVideo, IsVideoEnd, Writes};
ghost use Rattle.replay.specs.Moments.{IsShownAt};
ghost use Rattle.pictures.specs.Pictures.{picture_text};
ghost use Rattle.replay.specs.Screens.{IsScreenAt};

use crate::picture::{PictureFormat, write_picture};
use disk::Disk;
use key_index::Indexed;
use replay::{OutputFault, Replay, ReplayFault, count_at, from_count};
use std::alloc::Global;
use std::io::Write;

/// Which frames of a recording make a video. Moments are in milliseconds of the recording.
#[derive(Clone, Copy, Debug)]
pub struct Film {
    /// The first frame's moment.
    pub from: u32,
    /// No frame is later.
    pub to: u32,
    /// How many frames a second.
    pub rate: u8,
    ghost rated: { 0 < rate },
}

impl Film {
    /// How many frames there are: those whose moments aren't later than `to`; none if `to` is
    /// before `from`.
    pub fn frames(&self) -> u32
        ensures { (k : ℕ) → (k < result) ↔ (frame_moment self.now.from self.now.rate k ≤ self.now.to) }
    {
        if self.to < self.from {
            return 0;
        }
        let seconds = u64::from(self.to - self.from) + 1;
        ((seconds * u64::from(self.rate) + 999) / 1000) as u32
    }

    /// The moment of a frame, counted from 0, rounded down.
    pub fn moment(&self, frame: u32) -> u32
        requires { frame_moment self.now.from self.now.rate frame ≤ self.now.to }
        ensures { result ≡ frame_moment self.now.from self.now.rate frame }
    {
        (u64::from(self.from) + u64::from(frame) * 1000 / u64::from(self.rate)) as u32
    }
}

/// The moment, in milliseconds of the recording, at which a video ends that is to show all that came
/// until `last`: that of its first frame which isn't before `last`, or the latest of 32 bits if that
/// frame would be later. `rate` is how many frames a second.
pub fn video_end(from: u32, rate: u8, last: u32) -> u32
    requires { 0 < rate }
    ensures { IsVideoEnd from rate last result }
{
    let wait = u64::from(last.saturating_sub(from));
    let frame = (wait * u64::from(rate) + 999) / 1000;
    let moment = u64::from(from) + frame * 1000 / u64::from(rate);
    moment.min(u64::from(u32::MAX)) as u32
}

// Plays a recording forward until so many messages are painted, each once. An error is that of a
// message that isn't read; those before it are painted then.
fn play_to<D: Disk>(
    replay: &mut Replay,
    index: &mut Indexed<D>,
    count: u64,
) -> Result<(), ReplayFault>
    requires width { replay.old.screen.width ≡ index.old.head.width }
    requires height { replay.old.screen.height ≡ index.old.head.height }
    requires painted { D.is_modelled → IsScreenAt index.old.head (messages_in index.old.blocks) replay.old.position replay.old.screen }
    requires within { count ≤ index.old.numbers.committed }
    ensures position { replay.old.position ≤ count → OnOk result (replay.new.position ≡ count) }
    ensures painted { D.is_modelled → IsScreenAt index.old.head (messages_in index.old.blocks) replay.new.position replay.new.screen }
    ensures width { replay.new.screen.width ≡ replay.old.screen.width }
    ensures height { replay.new.screen.height ≡ replay.old.screen.height }
    ensures only { OnlyReads D.is_modelled D.history index.old index.new }
    ensures cause { D.is_modelled → HasCause (D.failures index.old.disk) (D.failures index.new.disk) (IsErrOf result ReplayFault.Device) }
    ensures never { result ≢ Err ReplayFault.NotCommitted }
{
    while replay.position() < count {
        replay.next(index)?;
    }
    Ok(())
}

// Has a picture be that of the screen at a count, which isn't before the one that the replay stands
// at. A screen that didn't change isn't made again; no bytes are no picture yet.
fn show<D: Disk>(
    alloc: Global,
    replay: &mut Replay,
    index: &mut Indexed<D>,
    count: u64,
    picture: &mut Vec<u8>,
) -> Result<(), OutputFault>
    requires width { replay.old.screen.width ≡ index.old.head.width }
    requires height { replay.old.screen.height ≡ index.old.head.height }
    requires painted { D.is_modelled → IsScreenAt index.old.head (messages_in index.old.blocks) replay.old.position replay.old.screen }
    requires within { count ≤ index.old.numbers.committed }
    requires picture { (picture.old.items ≡ []) ⊎ (picture.old.items ≡ picture_text PictureFormat.Ppm replay.old.screen.width replay.old.screen.height (color_at replay.old.screen)) }
    ensures position { replay.old.position ≤ count → OnOk result (replay.new.position ≡ count) }
    ensures painted { D.is_modelled → IsScreenAt index.old.head (messages_in index.old.blocks) replay.new.position replay.new.screen }
    ensures width { replay.new.screen.width ≡ replay.old.screen.width }
    ensures height { replay.new.screen.height ≡ replay.old.screen.height }
    ensures picture { OnOk result (picture.new.items ≡ picture_text PictureFormat.Ppm replay.new.screen.width replay.new.screen.height (color_at replay.new.screen)) }
    ensures only { OnlyReads D.is_modelled D.history index.old index.new }
    ensures cause { D.is_modelled → HasCause (D.failures index.old.disk) (D.failures index.new.disk) (IsErrOf result (OutputFault.Read ReplayFault.Device)) }
    ensures never { result ≢ Err (OutputFault.Read ReplayFault.NotCommitted) }
{
    if !picture.is_empty() && replay.position() >= count {
        return Ok(());
    }
    play_to(replay, index, count)?;
    picture.clear();
    write_picture(alloc, replay.screen(), PictureFormat::Ppm, picture)?;
    Ok(())
}

// Writes the frames of a video with a replay that stands no further than the first one shows. The
// replay and the picture are lent, since each way out of a loop takes apart what its function owns.
fn write_each<D: Disk, W: Write>(
    alloc: Global,
    replay: &mut Replay,
    index: &mut Indexed<D>,
    film: &Film,
    picture: &mut Vec<u8>,
    out: &mut W,
) -> Result<(), OutputFault>
    requires width { replay.old.screen.width ≡ index.old.head.width }
    requires height { replay.old.screen.height ≡ index.old.head.height }
    requires painted { D.is_modelled → IsScreenAt index.old.head (messages_in index.old.blocks) replay.old.position replay.old.screen }
    requires following { D.is_modelled → (n : ℕ) → IsShownAt (frame_moment film.now.from film.now.rate 0) (messages_in index.old.blocks) n → replay.old.position ≤ n }
    requires picture { picture.old.items ≡ [] }
    ensures video { D.is_modelled → OnOk result (Writes (W.contents out.old) (W.contents out.new) (IsVideo index.old.head (messages_in index.old.blocks) film.now.from film.now.to film.now.rate)) }
    ensures left { D.is_modelled → (fault : ReplayFault) → IsErrOf result (OutputFault.Read fault) → Writes (W.contents out.old) (W.contents out.new) (AreFirstFrames index.old.head (messages_in index.old.blocks) film.now.from film.now.to film.now.rate) }
    ensures only { OnlyReads D.is_modelled D.history index.old index.new }
    ensures cause { D.is_modelled → HasCause (D.failures index.old.disk) (D.failures index.new.disk) (IsErrOf result (OutputFault.Read ReplayFault.Device)) }
    ensures never { result ≢ Err (OutputFault.Read ReplayFault.NotCommitted) }
{
    for frame in 0..film.frames() {
        let count = count_at(index, film.moment(frame))?;
        show(alloc, replay, index, count, picture)?;
        out.write_all(picture)?;
    }
    Ok(())
}

/// Writes the frames of a video as PPM pictures, one after the other: all of them if the answer is
/// `Ok`, and the first ones, each whole, if the recording isn't read. Each message is painted once,
/// and a screen that didn't change is made into a picture once. It takes the memory of a screen and
/// of a picture. `Read(Device)` is answered exactly if the device failed in this call, and
/// `Read(NotCommitted)` never.
pub fn write_frames<D: Disk, W: Write>(
    alloc: Global,
    index: &mut Indexed<D>,
    film: &Film,
    out: &mut W,
) -> Result<(), OutputFault>
    ensures video { D.is_modelled → OnOk result (Writes (W.contents out.old) (W.contents out.new) (IsVideo index.old.head (messages_in index.old.blocks) film.now.from film.now.to film.now.rate)) }
    ensures left { D.is_modelled → (fault : ReplayFault) → IsErrOf result (OutputFault.Read fault) → Writes (W.contents out.old) (W.contents out.new) (AreFirstFrames index.old.head (messages_in index.old.blocks) film.now.from film.now.to film.now.rate) }
    ensures only { OnlyReads D.is_modelled D.history index.old index.new }
    ensures cause { D.is_modelled → HasCause (D.failures index.old.disk) (D.failures index.new.disk) (IsErrOf result (OutputFault.Read ReplayFault.Device)) }
    ensures never { result ≢ Err (OutputFault.Read ReplayFault.NotCommitted) }
{
    let first = count_at(index, film.from)?;
    let mut replay = from_count(alloc, index, first)?;
    let mut picture = Vec::new(alloc);
    write_each(alloc, &mut replay, index, film, &mut picture, out)
}
