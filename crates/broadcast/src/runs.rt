//! Steps one after another.

ghost use Rattle.std.specs.Prelude.{◌≡◌, ◌++◌, List, IfErr, OnOk, OnErr};
ghost use Rattle.std.specs.List.{AllByRecursion};
ghost use Rattle.disk.specs.History.{LeavesNow};

use crate::desk::Desk;
use crate::seat::Seated;
use crate::step::{Reply, Step};
use disk::Disk;
use std::alloc::AllocError;
use terms::NoMemory;

impl<D: Disk> Desk<D> {
    ghost use Rattle.flusher_core.specs.State.{committed_of};
    ghost use Rattle.flusher_core.specs.Lives.{Grows};
    ghost use Rattle.broadcast.specs.declared.step.Reply.{Reply as ReplyValue};
    ghost use Rattle.broadcast.specs.Headline.{GoesOn, HandsOut, KeepsReplies, NothingIsLost};
    ghost use Rattle.broadcast.specs.Run.{IsRun};
    ghost use Rattle.broadcast.specs.Steps.{IsSizedStep, IsStep};

    // One step of a run.
    fn step(&mut self, step: Step) -> Reply
        requires { IsSizedStep self.old.head step }
        ensures step { D.is_modelled → IsStep self.old.head self.old.state step result self.new.state }
        ensures goes_on { GoesOn D.is_modelled D.history self.old self.new }
        ensures hands { D.is_modelled → HandsOut self.old.head (committed_of self.new.state.book) result }
    {
        self.known();
        match step {
            Step::Host(time, message) => Reply::Host(self.host(time, message)),
            Step::Take => Reply::Take(self.take()),
            Step::Body => Reply::Body(self.body()),
            Step::Gate => Reply::Gate(self.gate()),
            Step::Join(start) => Reply::Join(
                self.join(start).map(|seat| Seated {
                    number: seat.number(),
                    position: seat.position(),
                }),
            ),
            Step::Next(number, limit) => Reply::Next(self.next_at(number, limit)),
            Step::Seek(number, n) => Reply::Seek(self.seek_at(number, n)),
            Step::Leave(number) => Reply::Leave(self.leave_at(number)),
        }
    }

    /// Makes steps one after another, and appends a reply for each. Whatever steps they are, and
    /// wherever the disk stops in the meantime, also inside a write: what is left is a recording of
    /// whole blocks, whose messages are a beginning of those accepted, with each one acknowledged
    /// or handed to a viewer before. It makes room for the replies first: if there is none, it is
    /// refused, runs nothing, and gives the steps back.
    pub fn run(
        &mut self,
        steps: Vec<Step>,
        replies: &mut Vec<Reply>,
    ) -> Result<(), (NoMemory, Vec<Step>)>
        requires { AllByRecursion (IsSizedStep self.old.head) steps.items }
        ensures run { D.is_modelled → OnOk result ((given : List ReplyValue) × (replies.new.items ≡ replies.old.items ++ given)
            × IsRun self.old.head self.old.state steps.items given self.new.state × AllByRecursion (HandsOut self.old.head (committed_of self.new.state.book)) given
            × LeavesNow (D.history self.new.disk) (KeepsReplies self.old.head given)) }
        ensures headline { D.is_modelled → NothingIsLost (D.history self.old.disk) (D.history self.new.disk) self.old.head self.old.state.book self.new.state.book }
        ensures grows { D.is_modelled → Grows self.old.state.book self.new.state.book }
        ensures head { self.new.head ≡ self.old.head }
        ensures refused { OnErr result ((self.new ≡ self.old) × (replies.new.items ≡ replies.old.items)) }
        ensures given_back { IfErr result (λ e. e.1.items ≡ steps.items) }
    {
        self.known();
        if replies.reserve(steps.len()).is_err() {
            return Err((AllocError, steps));
        }
        for step in steps {
            let reply = self.step(step);
            replies.push(reply).unwrap();
        }
        Ok(())
    }
}
