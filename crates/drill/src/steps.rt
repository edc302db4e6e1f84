//! The steps of a drill on its desk.

ghost use Rattle.std.specs.Prelude.{IfOk};
ghost use Rattle.broadcast.specs.Steps.{IsSizedStep, IsStep};

use crate::answer::Answer;
use crate::fuse::Fuse;
use broadcast::{Desk, Reply, Start, Step, StepRefusal};
use disk::FusedDisk;
use drill_script::DeskLine;
use pixel_format::Color;
use rfb_wire::HostMessage;
use std::alloc::{AllocError, Global};

/// The answer to a line that wants a desk. It is an error only when memory
/// for the list of a step, or of its reply, runs out.
pub fn answer(
    alloc: Global,
    desk: &mut Desk<FusedDisk>,
    fuse: &mut Fuse,
    line: DeskLine,
) -> Result<Answer, AllocError> {
    match line {
        DeskLine::Pixel { count, x, y } => Ok(pixel(desk, count, x, y)),
        DeskLine::Fail { calls } => {
            fuse.fail_after(calls);
            Ok(Answer::Set)
        }
        DeskLine::Stop { calls, fill } => {
            fuse.stop_after(calls, fill);
            Ok(Answer::Set)
        }
        line => answer_to_step(alloc, desk, line),
    }
}

// The answer to a line that is a step of the desk.
fn answer_to_step(
    alloc: Global,
    desk: &mut Desk<FusedDisk>,
    line: DeskLine,
) -> Result<Answer, AllocError> {
    let (seat, position) = seat_of(&line);
    match step_of(alloc, desk, line) {
        Ok(step) => Ok(answer_of(reply_to(alloc, desk, step)?, seat, position)),
        Err(answer) => Ok(answer),
    }
}

// The seat of `seek S N` and `leave S`, and the position that it is to have.
fn seat_of(line: &DeskLine) -> (u32, u64) {
    match line {
        DeskLine::Seek { seat, count } => (*seat, *count),
        DeskLine::Leave { seat } => (*seat, 0),
        _ => (0, 0),
    }
}

// The step that a line asks for, or its answer if it asks for none.
fn step_of(alloc: Global, desk: &Desk<FusedDisk>, line: DeskLine) -> Result<Step, Answer>
    ensures { IfOk result (IsSizedStep desk.now.head) }
{
    Ok(match line {
        DeskLine::Host { time, bytes } => {
            match HostMessage::from_bytes_in(alloc, desk.header().screen(), &bytes) {
                Ok(message) => Step::Host(time, message),
                Err(fault) => return Err(Answer::Refused("bytes", fault.number())),
            }
        }
        DeskLine::Take => Step::Take,
        DeskLine::Body => Step::Body,
        DeskLine::Gate => Step::Gate,
        DeskLine::Join { start } => Step::Join(start_of(start)),
        DeskLine::Next { seat, limit } => Step::Next(seat, limit),
        DeskLine::Seek { seat, count } => Step::Seek(seat, count),
        DeskLine::Leave { seat } => Step::Leave(seat),
        DeskLine::Pixel { .. } | DeskLine::Fail { .. } | DeskLine::Stop { .. } => {
            return Err(Answer::Bad);
        }
    })
}

// A run of one step, and its reply.
fn reply_to(alloc: Global, desk: &mut Desk<FusedDisk>, step: Step) -> Result<Reply, AllocError>
    requires { IsSizedStep desk.old.head step }
    ensures { IfOk result (λ reply. IsStep desk.old.head desk.old.state step reply desk.new.state) }
{
    let mut replies = Vec::new(alloc);
    let steps = vec![in alloc; step]?;
    if let Err((error, _)) = desk.run(steps, &mut replies) {
        return Err(error);
    }
    let Some(reply) = replies.pop() else {
        unreachable!()
    };
    Ok(reply)
}

// The answer that tells a reply; a seat has this number, and after `seek` this position.
fn answer_of(reply: Reply, seat: u32, position: u64) -> Answer {
    match reply {
        Reply::Host(Ok(number)) => Answer::Accepted(number),
        Reply::Host(Err(refused)) => {
            Answer::Refused("host", StepRefusal::Host(refused.why).number())
        }
        Reply::Take(Ok(taken)) => Answer::Taken {
            first: taken.first,
            count: taken.count,
        },
        Reply::Take(Err(refusal)) => Answer::Refused("take", StepRefusal::Take(refusal).number()),
        Reply::Body(Ok(())) => Answer::Written,
        Reply::Body(Err(refusal)) => Answer::Refused("body", StepRefusal::Flush(refusal).number()),
        // What is answered ends at the committed count, so no sum is cut at the limit of its type.
        Reply::Gate(Ok(slice)) => {
            Answer::Committed(slice.first.saturating_add(slice.messages.len() as u64))
        }
        Reply::Gate(Err(refusal)) => Answer::Refused("gate", StepRefusal::Flush(refusal).number()),
        Reply::Join(Ok(seated)) => Answer::Seated {
            seat: seated.number,
            position: seated.position,
        },
        Reply::Join(Err(refusal)) => Answer::Refused("join", StepRefusal::Join(refusal).number()),
        Reply::Next(Ok(slice)) => Answer::Slice {
            first: slice.first,
            count: slice.messages.len(),
        },
        Reply::Next(Err(refusal)) => Answer::Refused("next", StepRefusal::Next(refusal).number()),
        Reply::Seek(Ok(())) => Answer::Seated { seat, position },
        Reply::Seek(Err(refusal)) => Answer::Refused("seek", StepRefusal::Seek(refusal).number()),
        Reply::Leave(Ok(())) => Answer::Left(seat),
        Reply::Leave(Err(refusal)) => Answer::Refused(
            "leave",
            StepRefusal::Leave(refusal).number(),
        ),
    }
}

// The position at which a viewer begins.
fn start_of(start: drill_script::Start) -> Start {
    match start {
        drill_script::Start::Live => Start::Live,
        drill_script::Start::At(count) => Start::At(count),
    }
}

// `pixel N X Y`: a pixel outside the screen is a bad line, whatever N is.
fn pixel(desk: &mut Desk<FusedDisk>, count: u64, x: u16, y: u16) -> Answer {
    let size = desk.header().size();
    if x >= size.width || y >= size.height {
        return Answer::Bad;
    }
    match desk.screen_at(count) {
        Ok(screen) => {
            let Color { r, g, b } = screen.color(x, y);
            Answer::Pixel([r as u8, g as u8, b as u8])
        }
        Err(fault) => Answer::Refused("pixel", fault.number()),
    }
}
