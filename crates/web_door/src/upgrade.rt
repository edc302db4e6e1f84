//! Which requests are answered by a WebSocket (RFC 6455, section 4.2), and for whose page.

ghost use Rattle.std.specs.Prelude.{◌≡◌, ◌≢◌, ◌↔◌, ◌⊎◌, ◌++◌, [], ℕ, List, length, take, All, Err, IfErr, IsFalse, OnOk, OnErr, IsTrue, MatchOption};
ghost use Rattle.httparse.specs.Spans.{IsHeaderWithin, IsRequestWithin, span_bytes};
ghost use Rattle.request_head.specs.Fields.{covered, values_of};
ghost use Rattle.web_door.specs.Upgrades.{IsOriginOf, IsOnly, IsFromHere, IsAnswered};
ghost use Rattle.websocket.specs.Handshake.{can_answer, response_bytes};

use httparse::spans::{HeaderSpan, RequestSpans};
use request_head::first_value;
use websocket::handshake::HandshakeError;
use websocket::handshake::server::{check_request, write_response};

/// Why a request for a viewer's connection isn't answered by a WebSocket.
#[derive(Clone, Copy, Debug, PartialEq, Eq)]
pub enum NotUpgraded {
    /// It asks for no WebSocket of version 13.
    NoUpgrade,
    /// The page that asks came from elsewhere, or doesn't say where it came from.
    Foreign,
}

// The value of the field of a name, if there is one such field and no other.
fn only<'b>(head: &'b [u8], fields: &[HeaderSpan], name: &[u8]) -> Option<&'b [u8]>
    requires { All (IsHeaderWithin (length head.now)) fields.now }
    ensures { IsOnly (values_of name.now (covered head.now fields.now)) result }
{
    let (value, others) = first_value(head, fields, name)?;
    if first_value(head, others, name).is_some() {
        return None;
    }
    Some(value)
}

// What follows a front, if bytes begin with it.
fn following<'a>(bytes: &'a [u8], front: &[u8]) -> Option<&'a [u8]>
    ensures { MatchOption result ((rest : List ℕ) → bytes.now ≢ front.now ++ rest) (λ rest. bytes.now ≡ front.now ++ rest.now) }
{
    bytes.strip_prefix(front)
}

// Whether bytes are a front and this rest.
fn is_made_of(bytes: &[u8], front: &[u8], rest: &[u8]) -> bool
    ensures { IsTrue result ↔ (bytes.now ≡ front.now ++ rest.now) }
{
    match following(bytes, front) {
        Some(found) => found == rest,
        None => false,
    }
}

// Whether this is the origin of a page that came from this host.
fn is_origin_of(host: &[u8], origin: &[u8]) -> bool
    ensures { IsTrue result ↔ IsOriginOf host.now origin.now }
{
    is_made_of(origin, b"http://", host) || is_made_of(origin, b"https://", host)
}

// Whether the page that asks came from the host that it asks.
fn is_from_here(head: &[u8], fields: &[HeaderSpan]) -> bool
    requires { All (IsHeaderWithin (length head.now)) fields.now }
    ensures { IsTrue result ↔ IsFromHere (covered head.now fields.now) }
{
    match (only(head, fields, b"Host"), only(head, fields, b"Origin")) {
        (Some(host), Some(origin)) => is_origin_of(host, origin),
        _ => false,
    }
}

/// The value of Sec-WebSocket-Accept that answers a request, whose head was read.
pub fn answer_key(
    head: &[u8],
    request: &RequestSpans,
    spans: &[HeaderSpan],
) -> Result<[u8; 28], NotUpgraded>
    requires { IsRequestWithin head.now spans.now request.now }
    ensures { IsAnswered (span_bytes head.now request.now.method) request.now.version (covered head.now (take request.now.headers spans.now)) result }
{
    let Ok(answer) = check_request(head, request, spans) else {
        return Err(NotUpgraded::NoUpgrade);
    };
    if is_from_here(head, &spans[..request.headers]) {
        Ok(answer)
    } else {
        Err(NotUpgraded::Foreign)
    }
}

/// Appends the answer that accepts a request: 101, and this Sec-WebSocket-Accept.
pub fn write_answer(answer: &[u8; 28], out: &mut Vec<u8>) -> Result<(), HandshakeError>
    ensures ok { OnOk result (out.new.items ≡ out.old.items ++ response_bytes answer.now []) }
    ensures err { OnErr result (out.new.items ≡ out.old.items) }
    ensures cause { IfErr result (λ e. (e ≡ HandshakeError.InvalidHeader) ⊎ (e ≡ HandshakeError.OutOfMemory)) }
    ensures invalid { (result ≡ Err HandshakeError.InvalidHeader) ↔ IsFalse (can_answer answer.now []) }
{
    write_response(answer, &[], out)
}
