//! What came when: a recording, stretch of time for stretch.

ghost use Rattle.std.specs.Prelude.{◌≡◌, ◌<◌, length};

use file_disk::FileDisk;
use gated_journal::ReadFault;
use key_index::{Indexed, Stamped};
use replay::OutputFault;
use std::io;

/// What came in a stretch of a recording's time.
#[derive(Clone, Copy, Debug, PartialEq, Eq)]
pub struct Stretch {
    /// The time of its first message, in milliseconds of the recording.
    pub time: u32,
    /// That message's number.
    pub message: u64,
    /// The number of its block.
    pub block: u64,
    /// How many of its messages are updates of the screen.
    pub updates: u64,
    /// How many bytes its messages have.
    pub bytes: u64,
}

/// What stretches are written to.
pub trait StretchSink {
    /// Takes the next stretch, in the order of time.
    fn stretch(&mut self, stretch: Stretch) -> io::Result<()>;
}

impl Stretch {
    // One of this message alone.
    fn of(stamped: &Stamped, message: u64, block: u64) -> Stretch {
        Stretch {
            time: stamped.time,
            message,
            block,
            updates: u64::from(stamped.message.is_update()),
            bytes: stamped.message.bytes().len() as u64,
        }
    }

    // It with a message more.
    fn with(self, stamped: &Stamped) -> Stretch {
        let next = Stretch::of(stamped, self.message, self.block);
        Stretch {
            updates: self.updates.saturating_add(next.updates),
            bytes: self.bytes.saturating_add(next.bytes),
            ..self
        }
    }

    // Whether a time falls into it, if stretches are so many milliseconds long.
    fn has(&self, time: u32, span: u32) -> bool
        requires { 0 < span }
    {
        self.time / span == time / span
    }
}

// The messages of a block.
fn block_messages(index: &mut Indexed<FileDisk>, block: u64) -> Result<Vec<Stamped>, ReadFault>
    requires { block < length index.old.numbers.starts }
    ensures numbers { index.new.numbers ≡ index.old.numbers }
{
    index.read(block)
}

// Goes over a block's messages: what came in the stretch that its last one is in.
fn survey_block<S: StretchSink>(
    messages: &[Stamped],
    first: u64,
    block: u64,
    span: u32,
    before: Option<Stretch>,
    sink: &mut S,
) -> io::Result<Option<Stretch>>
    requires { 0 < span }
{
    let mut current = before;
    let mut number = first;
    for stamped in messages {
        current = match current {
            Some(stretch) if stretch.has(stamped.time, span) => Some(stretch.with(stamped)),
            ended => {
                if let Some(stretch) = ended {
                    sink.stretch(stretch)?;
                }
                Some(Stretch::of(stamped, number, block))
            }
        };
        number = number.saturating_add(1);
    }
    Ok(current)
}

/// Reads a whole recording once, and hands out each stretch of so many milliseconds in which a
/// message came.
pub fn survey<S: StretchSink>(
    index: &mut Indexed<FileDisk>,
    span: u32,
    sink: &mut S,
) -> Result<(), OutputFault>
    requires { 0 < span }
{
    let mut current = None;
    for block in 0..index.blocks() {
        let first = index.start(block);
        let messages = block_messages(index, block)?;
        current = survey_block(&messages, first, block, span, current, sink)?;
    }
    if let Some(stretch) = current {
        sink.stretch(stretch)?;
    }
    Ok(())
}
