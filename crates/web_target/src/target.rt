//! The targets that there are.

ghost use Rattle.std.specs.Prelude.{◌≡◌, ◌^◌, ℕ, MatchOption, Some, codes};
ghost use Rattle.web_target.specs.declared.asked.Asked.{Asked as AskedValue};
ghost use Rattle.web_target.specs.declared.asked.Beginning.{Beginning as BeginningValue};
ghost use Rattle.web_target.specs.declared.asked.Playback.{Playback as PlaybackValue};
ghost use Rattle.web_target.specs.declared.asked.Survey.{Survey as SurveyValue};
ghost use Rattle.web_target.specs.Targets.{IsPauseOf, IsPlayedBy, IsQueryOf, IsSurveyedBy, IsTargetOf, IsWindowOf, Says};

use crate::asked::{Asked, Beginning, Playback, Survey};
use crate::words::{digits_first, following, small_number};
use playing::Pace;
use terms::decimal_number;

// The longest pause that the end of a query has.
fn pause(text: &[u8]) -> Option<Option<u32>>
    ensures { MatchOption result ((longest : _) → IsPauseOf longest text.now → ⊥) (λ longest. IsPauseOf longest text.now) }
{
    if text.is_empty() {
        return Some(None);
    }
    let digits = following(text, b"&longest-pause=")?;
    Some(Some(small_number(digits)?))
}

// The playback that a query asks for.
fn playback(query: &[u8]) -> Option<Playback>
    ensures { MatchOption result ((playback : PlaybackValue) → IsPlayedBy playback query.now → ⊥) (λ playback. IsPlayedBy playback query.now) }
{
    let (time, rest) = digits_first(following(query, b"at=")?);
    let (pace, rest) = digits_first(following(rest, b"&pace=")?);
    Some(Playback {
        time: small_number(time)?,
        pace: Pace::from_thousandths(small_number(pace)?)?,
        longest_pause: pause(rest)?,
    })
}

// The time that a query names, and nothing else.
fn still(query: &[u8]) -> Option<u32>
    ensures { MatchOption result ((time : ℕ) → Says (codes "at=") (2 ^ 32) time query.now → ⊥) (λ time. Says (codes "at=") (2 ^ 32) time query.now) }
{
    small_number(following(query, b"at=")?)
}

// What the query of a `/watch` asks for.
fn beginning(query: &[u8]) -> Option<Beginning>
    ensures { MatchOption result ((beginning : BeginningValue) → IsQueryOf beginning query.now → ⊥) (λ beginning. IsQueryOf beginning query.now) }
{
    if let Some(digits) = following(query, b"message=") {
        return Some(Beginning::After(decimal_number(digits)?));
    }
    if let Some(time) = still(query) {
        return Some(Beginning::Still(time));
    }
    Some(Beginning::Played(playback(query)?))
}

// The window that the end of a query has.
fn window(text: &[u8]) -> Option<Option<u32>>
    ensures { MatchOption result ((every : _) → IsWindowOf every text.now → ⊥) (λ every. IsWindowOf every text.now) }
{
    if text.is_empty() {
        return Some(None);
    }
    let every = small_number(following(text, b"&every=")?)?;
    if every == 0 {
        return None;
    }
    Some(Some(every))
}

// The survey that the rest of a target asks for.
fn survey(query: &[u8]) -> Option<Survey>
    ensures { MatchOption result ((survey : SurveyValue) → IsSurveyedBy survey query.now → ⊥) (λ survey. IsSurveyedBy survey query.now) }
{
    let (from, rest) = digits_first(query);
    Some(Survey {
        from: decimal_number(from)?,
        every: window(rest)?,
    })
}

/// What a request's target asks for (RFC 9112, section 3.2.1); `None` if there is no such thing.
#[tactic(auto, using(crate::proofs::Splits::no_target))]
pub fn asked_by(target: &[u8]) -> Option<Asked>
    ensures { MatchOption result ((asked : AskedValue) → IsTargetOf asked target.now → ⊥) (λ asked. IsTargetOf asked target.now) }
{
    if target == b"/".as_slice() {
        return Some(Asked::Page);
    }
    if target == b"/painter.js".as_slice() {
        return Some(Asked::Painter);
    }
    if target == b"/live.js".as_slice() {
        return Some(Asked::Script);
    }
    if target == b"/live.css".as_slice() {
        return Some(Asked::Style);
    }
    if target == b"/watch".as_slice() {
        return Some(Asked::Watch(Beginning::Live));
    }
    if let Some(query) = following(target, b"/times?from=") {
        return Some(Asked::Times(survey(query)?));
    }
    let query = following(target, b"/watch?")?;
    Some(Asked::Watch(beginning(query)?))
}
