//! The position at which viewers begin in a recording.

use connections::Beginning;
use connections::broadcast::Start;
use connections::flusher_core::Book;
use disk::Disk;
use gated_journal::ReadFault;
use playing::Program;
use serve_plan::{Origin, Plan};

// The time of the last of the first so many messages, or 0.
fn time_of_last<D: Disk>(book: &mut Book<D>, count: u64) -> Result<u32, ReadFault> {
    if count == 0 || count > book.committed() {
        return Ok(0);
    }
    let slice = book.slice(count - 1, 1, false)?;
    Ok(slice.messages.first().map_or(0, |stamped| stamped.time))
}

/// The position at which viewers begin, as the plan asks for it: in a recording that is played, its
/// start if the plan says nothing else.
pub fn beginning_of<D: Disk>(book: &mut Book<D>, plan: &Plan<'_>) -> Result<Beginning, ReadFault> {
    let (from, from_time) = match plan.from {
        Origin::Live if plan.playing.is_none() => {
            return Ok(Beginning {
                start: Start::Live,
                program: None,
            });
        }
        Origin::Live => (0, 0),
        Origin::Count(count) => (count, time_of_last(book, count)?),
        Origin::Time(time) => (book.count_at(time)?, time),
    };
    let program = plan.playing.map(|playing| Program {
        pace: playing.pace,
        longest_pause: playing.longest_pause,
        repeats: playing.repeats,
        from,
        from_time,
    });
    Ok(Beginning {
        start: Start::At(from),
        program,
    })
}
