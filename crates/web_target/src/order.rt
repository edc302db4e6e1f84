//! The texts of a viewer, each a JSON object of one member without white space (RFC 8259).

ghost use Rattle.std.specs.Prelude.{◌≡◌, ◌++◌, ℕ, List, codes, MatchOption};
ghost use Rattle.web_target.specs.declared.asked.Order.{Order as OrderValue};
ghost use Rattle.web_target.specs.Orders.{IsCounted, IsOrder};

use crate::asked::Order;
use crate::words::{following, json_number, small_json_number};
use playing::Pace;

// What stands after a front and before the brace that ends a text.
fn value_of<'a>(text: &'a [u8], front: &[u8]) -> Option<&'a [u8]>
    ensures { MatchOption result ((value : List ℕ) → text.now ≡ front.now ++ (value ++ codes "}") → ⊥) (λ value. text.now ≡ front.now ++ (value.now ++ codes "}")) }
{
    following(text, front)?.strip_suffix(b"}")
}

// What a text asks for that has a number.
#[tactic(auto, using(crate::proofs::Ordered::no_member))]
fn numbered(text: &[u8]) -> Option<Order>
    ensures { MatchOption result ((order : OrderValue) → IsCounted order text.now → ⊥) (λ order. IsCounted order text.now) }
{
    if let Some(digits) = value_of(text, b"{\"at\":") {
        return Some(Order::At(small_json_number(digits)?));
    }
    if let Some(digits) = value_of(text, b"{\"message\":") {
        return Some(Order::After(json_number(digits)?));
    }
    if let Some(digits) = value_of(text, b"{\"pace\":") {
        return Some(Order::Pace(Pace::from_thousandths(small_json_number(digits)?)?));
    }
    let digits = value_of(text, b"{\"longest-pause\":")?;
    Some(Order::LongestPause(Some(small_json_number(digits)?)))
}

/// What a viewer's text asks for; `None` if there is no such thing.
#[tactic(auto, using(crate::proofs::Ordered::ordered))]
pub fn order_of(text: &[u8]) -> Option<Order>
    ensures { MatchOption result ((order : OrderValue) → IsOrder order text.now → ⊥) (λ order. IsOrder order text.now) }
{
    if text == b"{\"live\":true}".as_slice() {
        return Some(Order::Live);
    }
    if text == b"{\"pause\":true}".as_slice() {
        return Some(Order::Pause(true));
    }
    if text == b"{\"pause\":false}".as_slice() {
        return Some(Order::Pause(false));
    }
    if text == b"{\"longest-pause\":null}".as_slice() {
        return Some(Order::LongestPause(None));
    }
    numbered(text)
}
