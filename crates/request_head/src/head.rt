//! A request's head, read and judged before anything is done for it.

ghost use Rattle.std.specs.Prelude.{◌≡◌, ◌≢◌, ◌↔◌, ◌++◌, ℕ, ◌≤◌, ◌<◌, List, length, codes, All, IsTrue, MatchResult};
ghost use denote.Ref.{Bor};
ghost use Rattle.httparse.specs.declared.spans.HeaderSpan.{HeaderSpan as HeaderSpanValue};
ghost use Rattle.httparse.specs.Grammar.{HasNoRequest, MayBecomeRequest, RequestHead};
ghost use Rattle.httparse.specs.Spans.{IsHeaderWithin, IsRequestOf, IsRequestWithin, IsWithin, span_bytes};
ghost use Rattle.request_head.specs.declared.head.Fault.{Fault as FaultValue};
ghost use Rattle.request_head.specs.Fields.{covered, values_of};
ghost use Rattle.request_head.specs.Heads.{front_of, longest_head, most_fields, ReadsHead, IsBeginning};
ghost use Rattle.request_head.specs.Judgement.{AreHostsOf, HasItsHost, IsTaken, IsRefused, TakesHead, IsFaultOf, IsReading, IsTakenWith, OnlyReads};
ghost use Rattle.request_head.specs.Hosts.{IsAllowed};
ghost use Rattle.request_head.specs.Lines.{begins_with_head, is_line_of_head, is_plain_line, is_plain_start};

use crate::fields::first_value;
use crate::host::is_allowed;
use httparse::Status;
use httparse::spans::{HeaderSpan, RequestSpans, parse_request};
use thiserror::Error;

/// No head of a request is longer, in bytes.
pub const LONGEST_HEAD: usize = 8192;

/// No head has more fields: each takes three bytes at least.
pub const MOST_FIELDS: usize = 2731;

/// Why a request is refused, by what HTTP has for it (RFC 9110, section 15.5; 431 is of RFC 6585).
#[derive(Clone, Copy, Debug, PartialEq, Eq, Error)]
pub enum Fault {
    /// 400: it isn't HTTP/1, or hasn't the one Host field that it has to have.
    #[error("this isn't an HTTP request")]
    BadRequest,
    /// 403: it was sent to another name than an address, `localhost` or one of the server's own.
    #[error("this server answers to addresses, to localhost and to the names of --web-name alone")]
    Forbidden,
    /// 404: there is no such thing. What there is knows only who reads a head.
    #[error("there is no such thing")]
    NotFound,
    /// 405: it is neither a GET nor a HEAD.
    #[error("only GET and HEAD are answered")]
    MethodNotAllowed,
    /// 431: its head is too long.
    #[error("the request's head is too long")]
    TooLarge,
}

/// What the bytes so far are.
#[derive(Clone, Copy, Debug, PartialEq, Eq)]
pub enum Reading {
    /// The beginning of a head.
    Unfinished,
    /// A head that is taken, and what its parts are. The first `headers` spans are its fields'.
    Taken(RequestSpans),
    Refused(Fault),
}

// Whether a line is of ASCII, as far as it is there.
fn is_plain_line(bytes: &[u8]) -> bool
    ensures { result ≡ is_plain_line bytes.now }
{
    for byte in bytes {
        if *byte == b'\n' {
            return true;
        }
        if !byte.is_ascii() {
            return false;
        }
    }
    true
}

// Whether the first line that isn't empty is of ASCII, as far as it is there.
fn is_plain_start(bytes: &[u8]) -> bool
    ensures { result ≡ is_plain_start bytes.now }
{
    for (index, byte) in bytes.iter().enumerate() {
        if !matches!(byte, b'\r' | b'\n') {
            return is_plain_line(&bytes[index..]);
        }
    }
    true
}

// The Host field, if a head has the one that it has to have.
fn host_of<'a>(
    head: &'a [u8],
    fields: &[HeaderSpan],
    version: u8,
) -> Result<Option<&'a [u8]>, Fault>
    requires { All (IsHeaderWithin (length head.now)) fields.now }
    ensures { AreHostsOf version (values_of (codes "Host") (covered head.now fields.now)) result }
{
    match first_value(head, fields, b"Host") {
        None if version == 0 => Ok(None),
        None => Err(Fault::BadRequest),
        Some((host, others)) => match first_value(head, others, b"Host") {
            None => Ok(Some(host)),
            Some(_) => Err(Fault::BadRequest),
        },
    }
}

// Whether a head has the Host field that it has to have, and was sent here.
fn check_host(head: &[u8], fields: &[HeaderSpan], version: u8, names: &[&[u8]]) -> Result<(), Fault>
    requires { All (IsHeaderWithin (length head.now)) fields.now }
    ensures { MatchResult result
        (λ _. HasItsHost version (values_of (codes "Host") (covered head.now fields.now)) × All (IsAllowed names.now) (values_of (codes "Host") (covered head.now fields.now)))
        (λ fault. (method : List ℕ) → IsRefused names.now method version (values_of (codes "Host") (covered head.now fields.now)) fault) }
{
    let Some(host) = host_of(head, fields, version)? else {
        return Ok(());
    };
    if is_allowed(names, host) {
        Ok(())
    } else {
        Err(Fault::Forbidden)
    }
}

// Whether a method asks for something to be read.
fn only_reads(method: &[u8]) -> bool
    ensures { IsTrue result ↔ OnlyReads method.now }
{
    method == b"GET".as_slice() || method == b"HEAD".as_slice()
}

// Whether a whole head is taken.
fn check(
    head: &[u8],
    request: &RequestSpans,
    fields: &[HeaderSpan],
    names: &[&[u8]],
) -> Result<(), Fault>
    requires within { IsWithin (length head.now) request.now.method }
    requires fields { All (IsHeaderWithin (length head.now)) fields.now }
    ensures { MatchResult result
        (λ _. IsTaken names.now (span_bytes head.now request.now.method) request.now.version (values_of (codes "Host") (covered head.now fields.now)))
        (λ fault. IsRefused names.now (span_bytes head.now request.now.method) request.now.version (values_of (codes "Host") (covered head.now fields.now)) fault) }
{
    check_host(head, fields, request.version, names)?;
    if only_reads(request.method.of(head)) {
        Ok(())
    } else {
        Err(Fault::MethodNotAllowed)
    }
}

// What a whole head is.
fn judge(head: &[u8], request: RequestSpans, fields: &[HeaderSpan], names: &[&[u8]]) -> Reading
    requires within { IsRequestWithin head.now fields.now request }
    requires covers { IsRequestOf head.now fields.now request }
    ensures { IsReading names.now head.now fields.now result }
{
    if !request.path.of(head).is_ascii() {
        return Reading::Refused(Fault::BadRequest);
    }
    match check(head, &request, &fields[..request.headers], names) {
        Ok(()) => Reading::Taken(request),
        Err(fault) => Reading::Refused(fault),
    }
}

// What bytes are that aren't a whole head yet, if they can be.
fn judge_beginning(head: &[u8]) -> Reading
    requires begins { MayBecomeRequest head.now }
    requires is_not_whole { HasNoRequest head.now }
    ensures { (names : List (Bor (List ℕ))) (fields : List HeaderSpanValue) → IsReading names head.now fields result }
{
    if !is_plain_start(head) {
        return Reading::Refused(Fault::BadRequest);
    }
    if head.len() < LONGEST_HEAD {
        Reading::Unfinished
    } else {
        Reading::Refused(Fault::TooLarge)
    }
}

// What bytes are.
fn read(bytes: &[u8], names: &[&[u8]], fields: &mut [HeaderSpan]) -> Reading
    requires length { length bytes.now ≤ longest_head }
    requires room { most_fields ≤ length fields.old }
    ensures { IsReading names.now bytes.now fields.new result }
{
    match parse_request(bytes, fields) {
        Ok(Status::Complete(request)) => judge(bytes, request, fields, names),
        Ok(Status::Partial) => judge_beginning(bytes),
        Err(_) => Reading::Refused(Fault::BadRequest),
    }
}

// Whether a line begins with the method HEAD.
fn is_line_of_head(bytes: &[u8]) -> bool
    ensures { result ≡ is_line_of_head bytes.now }
{
    bytes.starts_with(b"HEAD ")
}

// Whether the first line that isn't empty begins with the method HEAD.
fn begins_with_head(bytes: &[u8]) -> bool
    ensures { result ≡ begins_with_head bytes.now }
{
    for (index, byte) in bytes.iter().enumerate() {
        if !matches!(byte, b'\r' | b'\n') {
            return is_line_of_head(&bytes[index..]);
        }
    }
    false
}

/// Whether the method of a request that begins so is HEAD: whatever it is answered, the answer is a
/// head alone (RFC 9110, section 9.3.2). Its first line that isn't empty tells.
pub fn wants_head_alone(bytes: &[u8]) -> bool
    ensures begins { result ≡ begins_with_head bytes.now }
    ensures method { (head : RequestHead) (rest : List ℕ) → ReadsHead bytes.now head rest
        → IsTrue result ↔ (head.method ≡ codes "HEAD") }
{
    begins_with_head(bytes)
}

/// The front of the bytes that have come so far, of at most as many as a head may have.
pub fn front(bytes: &[u8]) -> &[u8]
    ensures front { result.now ≡ front_of bytes.now }
    ensures length { length result.now ≤ longest_head }
{
    if bytes.len() <= LONGEST_HEAD {
        bytes
    } else {
        &bytes[..LONGEST_HEAD]
    }
}

/// What the bytes that have come so far are to a server with these names, besides its addresses and
/// `localhost`: the beginning of a head; a head that is taken, whose fields' spans are written to
/// `fields`; or refused. What follows a head isn't looked at. A head is refused, first, for what it
/// isn't; then for its Host fields; for what they name; and last for its method.
pub fn read_head(bytes: &[u8], names: &[&[u8]], fields: &mut [HeaderSpan]) -> Reading
    requires length { length bytes.now ≤ longest_head }
    requires room { most_fields ≤ length fields.old }
    ensures is { IsReading names.now bytes.now fields.new result }
    ensures unfinished { length bytes.now < longest_head → IsBeginning bytes.now → result ≡ Reading.Unfinished }
    ensures taken { (head : RequestHead) (rest : List ℕ) → ReadsHead bytes.now head rest → TakesHead names.now head
        → IsTakenWith names.now bytes.now fields.new head result }
    ensures refused { (fault : FaultValue) → IsFaultOf names.now bytes.now fault → result ≡ Reading.Refused fault }

    // Whatever else comes, except for the length.
    ensures stays { (fault : FaultValue) (more : List ℕ) → result ≡ Reading.Refused fault → fault ≢ Fault.TooLarge
        → IsFaultOf names.now (bytes.now ++ more) fault }
{
    read(bytes, names, fields)
}
