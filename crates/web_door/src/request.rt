//! The head of a browser's request, judged.

ghost use Rattle.std.specs.Prelude.{◌≡◌, ◌≤◌, length, take};
ghost use Rattle.httparse.specs.Spans.{IsRequestWithin, span_bytes};
ghost use Rattle.request_head.specs.Fields.{covered};
ghost use Rattle.request_head.specs.Heads.{longest_head};
ghost use Rattle.web_door.specs.Doors.{IsJudged, IsJudgedBy, IsRequests, IsViewers};

use crate::upgrade::{NotUpgraded, answer_key};
use httparse::spans::{EMPTY_HEADER_SPAN, HeaderSpan, RequestSpans};
use request_head::{Fault, MOST_FIELDS, Reading, front, read_head};
use thiserror::Error;
use web_target::{Asked, Beginning, asked_by};

/// Why a request is refused.
#[derive(Clone, Copy, Debug, PartialEq, Eq, Error)]
pub enum Refusal {
    /// For its head, or because there is nothing of that name.
    #[error("{0}")]
    Head(Fault),
    /// 426: a viewer's connection is a WebSocket of version 13 (RFC 6455, section 4.4).
    #[error("this is for a WebSocket of version 13")]
    NoUpgrade,
    /// 403: the page that asks for a WebSocket came from elsewhere (RFC 6455, section 10.2).
    #[error("this is for pages from here alone")]
    Foreign,
    /// 400: something follows the head before it was answered.
    #[error("something follows the request")]
    Early,
}

/// What the bytes so far are.
#[derive(Clone, Copy, Debug, PartialEq, Eq)]
pub enum Judged {
    /// The beginning of a head.
    Unfinished,
    /// A request for a page or a text.
    Asked(Asked),
    /// A request for a viewer's connection, and the Sec-WebSocket-Accept that answers it.
    Watch(Beginning, [u8; 28]),
    Refused(Refusal),
}

// What a request for a viewer's connection is, of which all bytes are these.
fn judge_viewer(
    bytes: &[u8],
    request: &RequestSpans,
    spans: &[HeaderSpan],
    beginning: Beginning,
) -> Judged
    requires { IsRequestWithin bytes.now spans.now request.now }
    ensures { IsViewers beginning (span_bytes bytes.now request.now.method) request.now.version (covered bytes.now (take request.now.headers spans.now)) (request.now.len ≡ length bytes.now) result }
{
    match answer_key(bytes, request, spans) {
        Ok(_) if request.len != bytes.len() => Judged::Refused(Refusal::Early),
        Ok(answer) => Judged::Watch(beginning, answer),
        Err(NotUpgraded::NoUpgrade) => Judged::Refused(Refusal::NoUpgrade),
        Err(NotUpgraded::Foreign) => Judged::Refused(Refusal::Foreign),
    }
}

// What a request is that is taken.
fn judge_request(bytes: &[u8], request: &RequestSpans, spans: &[HeaderSpan]) -> Judged
    requires { IsRequestWithin bytes.now spans.now request.now }
    ensures { IsRequests (span_bytes bytes.now request.now.method) (span_bytes bytes.now request.now.path) request.now.version (covered bytes.now (take request.now.headers spans.now)) (request.now.len ≡ length bytes.now) result }
{
    match asked_by(request.path.of(bytes)) {
        Some(Asked::Watch(beginning)) => judge_viewer(bytes, request, spans, beginning),
        Some(asked) => Judged::Asked(asked),
        None => Judged::Refused(Refusal::Head(Fault::NotFound)),
    }
}

// What the front of the bytes is.
fn judge_front(front: &[u8], names: &[&[u8]]) -> Judged
    requires { length front.now ≤ longest_head }
    ensures { IsJudgedBy names.now front.now result }
{
    let mut spans = [EMPTY_HEADER_SPAN; MOST_FIELDS];
    match read_head(front, names, &mut spans) {
        Reading::Unfinished => Judged::Unfinished,
        Reading::Taken(request) => judge_request(front, &request, &spans),
        Reading::Refused(fault) => Judged::Refused(Refusal::Head(fault)),
    }
}

/// What the bytes that have come so far are, to a server with these names, besides its addresses and
/// `localhost`: at most as many as a head may have are looked at.
pub fn judge(bytes: &[u8], names: &[&[u8]]) -> Judged
    ensures { IsJudged names.now bytes.now result }
{
    judge_front(front(bytes), names)
}
