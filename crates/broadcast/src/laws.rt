//! What holds of runs and of lives that follow one another, for the layers above. Each function
//! does nothing: its contract is the law.

ghost use Rattle.std.specs.Prelude.{◌≡◌, ◌+◌, List, ◌∷◌, ◌++◌, []};
ghost use Rattle.std.specs.List.{AllByRecursion};
ghost use Rattle.disk.specs.History.{History};
ghost use Rattle.gated_journal.specs.Recording.{Head};
ghost use Rattle.flusher_core.specs.State.{State as BookState, committed_of, accepted_of, accepted_count};
ghost use Rattle.flusher_core.specs.Lives.{Grows};
ghost use Rattle.broadcast.specs.declared.step.Step.{Step};
ghost use Rattle.broadcast.specs.declared.step.Reply.{Reply};
ghost use Rattle.broadcast.specs.Seats.{State};
ghost use Rattle.broadcast.specs.Steps.{IsStep, accepted_by};
ghost use Rattle.broadcast.specs.Run.{IsRun};
ghost use Rattle.broadcast.specs.Headline.{HandsOut, NothingIsLost};
ghost use Rattle.broadcast.specs.Lives.{Run, Life, IsMade, AreLives, last_of, Keeps};

/// Whatever is replied to a step, messages are only appended; and no step but `host` changes how
/// many were accepted.
pub fn steps_only_append()
    ensures grows { (head : Head) (old : State) (step : Step) (reply : Reply) (new : State) → IsStep head old step reply new → Grows old.book new.book }
    ensures accepted { (head : Head) (old : State) (step : Step) (reply : Reply) (new : State) → IsStep head old step reply new
        → accepted_count new.book ≡ accepted_count old.book + accepted_by reply }
{}

/// Two runs, the second from the state in which the first ended, are one run. A run that ended may
/// be followed by one of no steps. What was handed out from the committed messages stands in them
/// for good.
pub fn runs_go_on()
    ensures run { (head : Head) (old mid new : State) (first second : List Step) (replies more : List Reply)
        → IsRun head old first replies mid → IsRun head mid second more new → IsRun head old (first ++ second) (replies ++ more) new }
    ensures headline { (old mid new : History) (head : Head) (before between after : BookState)
        → NothingIsLost old mid head before between → Grows before between → NothingIsLost mid new head between after → Grows between after
        → NothingIsLost old new head before after × Grows before after }
    ensures at_rest { (old new : History) (head : Head) (before after : BookState) → NothingIsLost old new head before after
        → IsMade head (record { old = new; new = new; before = after; after = after; replies = [] }) }
    ensures handed { (head : Head) (before after : BookState) (reply : Reply) → Grows before after
        → HandsOut head (committed_of before) reply → HandsOut head (committed_of after) reply }
{}

/// However many runs, crashes and openings there are: the last crash leaves a recording of whole
/// blocks whose messages are a beginning of those that the last run accepted, with all that was
/// committed in any of the lives before the run in which its crash came; and each slice that a run
/// of any life handed out stands in it, at its position.
pub fn any_number_of_runs_and_crashes()
    ensures { (head : Head) (first : Life) (lives : List Life) → AreLives head first lives
        → AllByRecursion (Keeps head (accepted_of (last_of first lives).last.after) (last_of first lives).left) (first ∷ lives) }
{}
