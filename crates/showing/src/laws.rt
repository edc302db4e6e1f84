//! What holds of each situation, and of a viewer's whole run. Each function does nothing: its
//! contract is the law.

ghost use Rattle.std.specs.Prelude.{◌≡◌, ◌≢◌, ◌<◌, ◌≤◌, ◌⊎◌, ◌+◌, ◌*◌, ◌-◌, ◌++◌, ◌∷◌, [], ℕ, Bool, List, Some, max, suc, true, false, length};
ghost use Rattle.showing.specs.declared.begins.Begins.TheVariants as begins;
ghost use Rattle.showing.specs.declared.situation.Situation.{Situation};
ghost use Rattle.showing.specs.declared.next.Next.TheVariants as next;
ghost use Rattle.showing.specs.declared.playback.Playback.{Playback};
ghost use Rattle.showing.specs.Playing as playing;
ghost use Rattle.showing.specs.Table.{table, applying, next_of, is_live, is_over, goes_on, far};
ghost use Rattle.showing.specs.Run.{Watch, Event, Works, Lacks, Fails, happens, run, turns, as_they_come, comes_after, count_up, is_read, IsReached, IsUpToDate, HasAll, BeginsWith, EndsWith};

/// Just one row of its table applies to each situation.
pub fn just_one_row()
    ensures live { (s : Situation) → applying (table s) ≡ 1 }
    ensures played { (s : Playback) → applying (playing.table s) ≡ 1 }
{}

/// Nobody waits for what isn't to come. Who waits for more was handed all that is known to be
/// there, and isn't at the end; who is waited for hasn't asked, and the recorder isn't closing; at
/// the end nobody waits for more. A wait is over once there is more, or host and flusher have ended.
pub fn nobody_waits_in_vain()
    ensures for_more { (s : Situation) → next_of s ≡ next.Wait
        → (s.committed ≤ s.position) × (s.has_waited ≡ false) × (s.is_at_end ≡ false) × (s.has_left ≡ false) }
    ensures until_asked { (s : Situation) → next_of s ≡ next.WaitUntilAsked
        → (s.has_asked ≡ false) × (s.is_answered ≡ false) × (s.is_closing ≡ false) × (s.has_left ≡ false) }
    ensures held_back { (s : Situation) → next_of s ≡ next.HoldBack
        → (s.has_asked ≡ false) × (s.is_answered ≡ false) × (s.is_closing ≡ false) × (s.has_left ≡ false) }
    ensures at_end { (s : Situation) → s.is_at_end ≡ true → next_of s ≡ next.Rest }
    ensures is_over { (w : Watch) → (more : ℕ) → (changes_all : Bool) → w.gone ≡ false → next_of w.sees ≡ next.Wait
        → (w.sees.position < w.stored) ⊎ (w.ended ≡ true) → next_of (happens w (Works more changes_all)).sees ≢ next.Wait }
{}

/// Whatever happens but that the recorder closes, or the device fails in reading for it: one that
/// begins after some messages is shown the screen after just these first, and then the screen after
/// each message up to the last that stood when it came, each once and in order, before anything
/// else. Each time that it asks while some of these are left, it is shown the next.
pub fn each_is_shown_in_order()
    ensures first { (from key stored told count : ℕ) → (alone : Bool) → (events : List Event) → (rest : List ℕ) → key ≤ from
        → (run events (comes_after from key stored told alone)).sees.is_closing ≡ false
        → (run events (comes_after from key stored told alone)).unread ≡ false
        → (run events (comes_after from key stored told alone)).shown ≡ count ∷ rest → count ≡ from }
    ensures in_order { (from key stored told : ℕ) → (alone : Bool) → (events : List Event) → key ≤ from
        → (run events (comes_after from key stored told alone)).sees.is_closing ≡ false
        → (run events (comes_after from key stored told alone)).unread ≡ false
        → (BeginsWith (run events (comes_after from key stored told alone)).shown (count_up from (suc (max from told - from))))
        ⊎ (BeginsWith (count_up from (suc (max from told - from))) (run events (comes_after from key stored told alone)).shown) }
    ensures asked { (from until : ℕ) → (w : Watch) → (ts : List (ℕ × Bool)) → IsUpToDate w → w.sees.begins ≡ begins.After from until
        → from ≤ w.sees.position → w.sees.position + length ts ≤ until → until ≤ w.sees.committed → w.sees.committed ≤ w.stored
        → (run (turns ts) w).shown ≡ w.shown ++ count_up (suc w.sees.position) (length ts) }
{}

/// A live one that lags by far goes on after all that are committed, whatever came between, and is
/// shown that if it asks. One that has all is handed, and shown, each message as it comes.
pub fn a_live_one_keeps_up()
    ensures lags_far { (w : Watch) → (more : ℕ) → (changes_all : Bool) → IsReached w → w.gone ≡ false → goes_on w.sees ≡ true
        → is_live w.sees ≡ true → far < w.sees.committed - w.sees.position
        → (happens w (Works more changes_all)).sees.position ≡ w.stored }
    ensures and_asks { (w : Watch) → (more : ℕ) → (changes_all : Bool) → IsReached w → w.gone ≡ false → goes_on w.sees ≡ true
        → is_live w.sees ≡ true → far < w.sees.committed - w.sees.position → w.sees.has_asked ≡ true
        → (happens w (Works more changes_all)).shown ≡ w.shown ++ w.stored ∷ [] }
    ensures as_they_come { (w : Watch) → (changes : List Bool) → HasAll w → is_live w.sees ≡ true
        → (run (as_they_come changes) w).shown ≡ w.shown ++ count_up (suc w.stored) (length changes) }
{}

/// Whose worker has ended, though it didn't leave, memory wasn't short and the device didn't fail,
/// was shown the screen after the last message last, and nothing more comes. Once host and flusher
/// have ended, a viewer that stays and asks comes to that, in a bounded number of turns.
pub fn all_is_shown_at_the_end()
    ensures was_shown { (w : Watch) → IsReached w → w.gone ≡ true → is_over w.sees ≡ false
        → w.sees.has_failed ≡ false → (w.sees.position ≡ w.stored) × (w.ended ≡ true) × EndsWith w.shown w.stored }
    ensures is_shown { (w : Watch) → (ts : List (ℕ × Bool)) → IsReached w → w.ended ≡ true → w.sees.has_left ≡ false
        → w.sees.is_alone ≡ false → w.sees.is_short ≡ false → w.sees.has_failed ≡ false → 4 * (w.stored - w.sees.position) + 9 ≤ length ts
        → ((run (turns ts) w).gone ≡ true) × ((run (turns ts) w).sees.position ≡ w.stored) × EndsWith (run (turns ts) w).shown w.stored }
{}

/// A live one for which the device failed in reading goes on after all that are committed, and is
/// shown that if it asks; another one isn't served any more.
pub fn a_failing_device_ends_no_live_one()
    ensures goes_on { (w : Watch) → w.gone ≡ false → is_live w.sees ≡ true → (happens w Fails).gone ≡ false }
    ensures ends { (w : Watch) → w.gone ≡ false → is_live w.sees ≡ false → is_read (next_of w.sees) ≡ true → (happens w Fails).gone ≡ true }
    ensures newest { (w : Watch) → (more : ℕ) → (changes_all : Bool) → w.gone ≡ false → w.sees.has_failed ≡ true → w.sees.is_at_end ≡ false
        → is_over w.sees ≡ false → (happens w (Works more changes_all)).sees.position ≡ w.stored }
    ensures and_asks { (w : Watch) → (more : ℕ) → (changes_all : Bool) → IsReached w → w.gone ≡ false → w.sees.has_failed ≡ true → w.sees.is_at_end ≡ false
        → is_over w.sees ≡ false → w.sees.has_asked ≡ true → (happens w (Works more changes_all)).shown ≡ w.shown ++ w.stored ∷ [] }
{}

/// No message is passed over but for a reason: one that has a screen goes on at the newest only if
/// it is a live one that lags, by far or by a change of its whole screen, or the device failed in
/// reading for it.
pub fn messages_are_passed_over_for_a_reason()
    ensures { (s : Situation) → next_of s ≡ next.Newest → s.is_fresh ≡ false → s.has_failed ≡ false
        → (is_live s ≡ true) × (s.position < s.committed) × ((far < s.committed - s.position) ⊎ (s.is_stale ≡ true)) }
{}

/// One that was to be handed messages for which there was no memory is to be handed the same next,
/// unless the recorder is closing.
pub fn nothing_is_passed_over_for_want_of_memory()
    ensures { (w : Watch) → (limit : ℕ) → w.gone ≡ false → w.sees.is_closing ≡ false → next_of w.sees ≡ next.Want limit
        → next_of (happens w Lacks).sees ≡ next.Want limit }
{}

/// Of a recording that is played nothing is shown before it is due, and who sleeps until then wakes
/// just then. Who waits was handed all that is committed, and isn't at the end.
pub fn nothing_is_early()
    ensures shown { (s : Playback) → (due played : ℕ) → playing.next_of s ≡ next.Show → s.due ≡ Some due → s.played ≡ Some played
        → due ≤ played }
    ensures sleeps { (s : Playback) → (due played time : ℕ) → playing.next_of s ≡ next.Sleep time → s.due ≡ Some due → s.played ≡ Some played
        → (played < due) × (played + time ≡ due) }
    ensures waits { (s : Playback) → playing.next_of s ≡ next.Wait
        → (s.committed ≤ s.position) × (s.is_at_end ≡ false) × (s.has_left ≡ false) × (s.is_closing ≡ false) }
{}

/// The playing begins again only if it is to, at the end, and at the position at which it began, if
/// that is before the end: so each time something is shown.
pub fn only_something_is_played_again()
    ensures { (s : Playback) → (count : ℕ) → playing.next_of s ≡ next.Seek count
        → (count ≡ s.from) × (s.from < s.position) × (s.repeats ≡ true) × (s.is_at_end ≡ true) }
{}
