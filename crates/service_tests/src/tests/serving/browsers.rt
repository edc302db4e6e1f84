//! Browsers: the page, and viewers over a WebSocket (RFC 6455), whose frames are worked by hand.

use super::checked;
use super::peers::{
    ALL, BLACK, CHANGES, Endpoint, GREEN, Loopback, Peer, RED, listener, silent_viewer, small_host,
};
use crate::plan_of;
use live_page::{PAGE, SCRIPT, STYLE};
use reception::Stop;
use screen_script::PAINTER;
use serve::recorder_opening::Listened;
use serve_plan::{Audience, Origin, Plan};
use std::alloc::Global;
use std::fs;
use std::net::{Net, TcpListener, TcpStream};
use std::test::Fail;

/// A recording of one pixel with two messages: red after 3 seconds, and green after 25 minutes.
pub const RECORDING: [u8; 83] =
    *b"ORFBREC1\0\x01\0\x01\0\x04\0\x01xO\0\0\0\x3a\0\x02\0\0\0\x0b\xb8\0\0\0\x14\0\0\0\x01\0\0\0\0\0\x01\0\x01\0\0\0\0\0\0\xff\0\0\0\x16\xe3\x60\0\0\0\x14\0\0\0\x01\0\0\0\0\0\x01\0\x01\0\0\0\0\0\xff\0\0C";

/// What the page is told of it.
const TIMES: &[u8] =
    b"{\"width\":1,\"height\":1,\"messages\":2,\"length\":1500000,\"stretches\":[{\"time\":3000,\"message\":0,\"block\":0,\"updates\":2}],\"next\":1}\n";

/// What follows the target in a request for a WebSocket of a page from here: the key is that of
/// section 1.3.
const UPGRADE: &[u8] =
    b" HTTP/1.1\r\nHost: localhost\r\nUpgrade: websocket\r\nConnection: Upgrade\r\nSec-WebSocket-Key: dGhlIHNhbXBsZSBub25jZQ==\r\nOrigin: http://localhost\r\nSec-WebSocket-Version: 13\r\n\r\n";

/// The same of a page from elsewhere.
const FOREIGN: &[u8] =
    b"GET /watch HTTP/1.1\r\nHost: localhost\r\nUpgrade: websocket\r\nConnection: Upgrade\r\nSec-WebSocket-Key: dGhlIHNhbXBsZSBub25jZQ==\r\nOrigin: http://example.com\r\nSec-WebSocket-Version: 13\r\n\r\n";

/// The answer, with the Sec-WebSocket-Accept of section 1.3.
const UPGRADED: &[u8] =
    b"HTTP/1.1 101 Switching Protocols\r\nconnection: Upgrade\r\nupgrade: websocket\r\nsec-websocket-accept: s3pPLMBiTxaQ9kYGzzhZRbK+xOo=\r\n\r\n";

/// By which a client's frames are masked.
const MASK: [u8; 4] = *b"\x37\xfa\x21\x3d";

/// The first bytes of whole frames: a text, a binary message and a close.
pub const TEXT: u8 = 0x81;

const BINARY: u8 = 0x82;

const CLOSE: u8 = 0x88;

// Asks for something: whether it is answered by this status and media type, and this at the end.
fn is_answered(
    rt: &HostRuntime,
    endpoint: Endpoint,
    request: &[u8],
    front: &str,
    end: &[u8],
) -> Result<(), Fail> {
    let browser = silent_viewer(rt, endpoint)?;
    browser.say(request)?;
    let answer = browser.rest(rt.alloc())?;
    let front = format!(in rt.alloc(); "HTTP/1.1 {front}\r\n")?;
    if answer.starts_with(front.as_bytes()) && answer.ends_with(end) {
        return Ok(());
    }
    Err("another answer".into())
}

// What is asked for, and given: more often than there are connections at a time.
fn all_is_given(rt: &HostRuntime, endpoint: Endpoint) -> Result<(), Fail> {
    let answers: [(&[u8], &str, &[u8]); 5] = [
        (
            b"GET / HTTP/1.1\r\nHost: localhost:80\r\n\r\n",
            "200 OK\r\nContent-Type: text/html; charset=utf-8",
            PAGE.as_bytes(),
        ),
        (
            b"GET /painter.js HTTP/1.1\r\nHost: 127.0.0.1\r\n\r\n",
            "200 OK\r\nContent-Type: text/javascript; charset=utf-8",
            PAINTER.as_bytes(),
        ),
        (
            b"GET /live.js HTTP/1.1\r\nHost: [::1]\r\n\r\n",
            "200 OK\r\nContent-Type: text/javascript; charset=utf-8",
            SCRIPT.as_bytes(),
        ),
        (
            b"GET /live.css HTTP/1.0\r\n\r\n",
            "200 OK\r\nContent-Type: text/css; charset=utf-8",
            STYLE.as_bytes(),
        ),
        (
            b"GET /times?from=0 HTTP/1.0\r\n\r\n",
            "200 OK\r\nContent-Type: application/json",
            TIMES,
        ),
    ];
    for _ in 0..17 {
        for (request, front, text) in &answers {
            let count = text.len();
            let front = format!(in rt.alloc(); "{front}\r\nContent-Length: {count}")?;
            is_answered(rt, endpoint, request, &front, text)?;
        }
    }
    Ok(())
}

// What is asked for in vain.
fn others_are_refused(rt: &HostRuntime, endpoint: Endpoint) -> Result<(), Fail> {
    let answers: [(&[u8], &str); 7] = [
        (
            b"GET / HTTP/1.1\r\nHost: example.com\r\n\r\n",
            "403 Forbidden",
        ),
        (FOREIGN, "403 Forbidden"),
        (b"GET /watch HTTP/1.0\r\n\r\n", "426 Upgrade Required"),
        (b"GET /../r HTTP/1.0\r\n\r\n", "404 Not Found"),
        (b"POST / HTTP/1.0\r\n\r\n", "405 Method Not Allowed"),
        (b"RFB 003.008\n", "400 Bad Request"),
        (b"GET / HTTP/1.1\r\n\r\n", "400 Bad Request"),
    ];
    for (request, front) in answers {
        is_answered(rt, endpoint, request, front, b"\n")?;
    }
    let mut long = b"GET /".to_vec(rt.alloc())?;
    long.resize(9000, b'a')?;
    let front = "431 Request Header Fields Too Large";
    is_answered(rt, endpoint, &long, front, b"\n")
}

// The length of a frame of fewer than 126 bytes.
fn length_of(payload: &[u8]) -> Result<u8, Fail> {
    match u8::try_from(payload.len()) {
        Ok(length) if length < 126 => Ok(length),
        _ => Err("a long frame".into()),
    }
}

/// Says a message of fewer than 126 bytes, masked.
pub fn say(browser: &Peer, alloc: Global, first: u8, payload: &[u8]) -> Result<(), Fail> {
    let length = length_of(payload)?;
    let mut frame = Vec::new(alloc);
    frame.extend_from_slice(&[first, 0x80 | length])?;
    frame.extend_from_slice(&MASK)?;
    for part in payload.chunks(MASK.len()) {
        for (byte, mask) in part.iter().zip(&MASK) {
            frame.push(*byte ^ *mask)?;
        }
    }
    browser.say(&frame)
}

// Hears a frame of fewer than 126 bytes: these.
fn hear(browser: &Peer, alloc: Global, first: u8, payload: &[u8]) -> Result<(), Fail> {
    browser.hear(alloc, &[first, length_of(payload)?])?;
    browser.hear(alloc, payload)
}

/// What a viewer hears.
#[derive(Drop)]
pub struct Heard {
    /// How the session stands, as it was told last before the update.
    pub told: Vec<u8>,
    pub update: Vec<u8>,
}

/// Says these, asks for an update, and hears it. How the session stands may be told more than once.
pub fn asked(browser: &Peer, alloc: Global, order: &[u8], request: &[u8]) -> Result<Heard, Fail> {
    if !order.is_empty() {
        say(browser, alloc, TEXT, order)?;
    }
    say(browser, alloc, BINARY, request)?;
    let mut told = Vec::new(alloc);
    for _ in 0..100 {
        let (first, payload) = browser.frame(alloc)?;
        if first == BINARY {
            return Ok(Heard {
                told,
                update: payload,
            });
        }
        told = payload;
    }
    Err("no update".into())
}

/// Says these, asks for an update, and hears that it is this one: what was told before it.
pub fn shown(
    browser: &Peer,
    alloc: Global,
    order: &[u8],
    request: &[u8],
    update: &[u8],
) -> Result<Vec<u8>, Fail> {
    let heard = asked(browser, alloc, order, request)?;
    if heard.update.as_slice() == update {
        Ok(heard.told)
    } else {
        Err("another update".into())
    }
}

/// A connection for this target, whose upgrade is answered, and the version of RFB heard.
pub fn upgraded(rt: &HostRuntime, endpoint: Endpoint, target: &[u8]) -> Result<Peer, Fail> {
    let alloc = rt.alloc();
    let browser = silent_viewer(rt, endpoint)?;
    let mut request = b"GET ".to_vec(alloc)?;
    request.extend_from_slice(target)?;
    request.extend_from_slice(UPGRADE)?;
    browser.talk(alloc, &request, UPGRADED)?;
    hear(&browser, alloc, BINARY, b"RFB 003.008\n")?;
    say(&browser, alloc, BINARY, b"RFB 003.008\n")?;
    Ok(browser)
}

/// A viewer after its handshake, in frames.
pub fn viewer(rt: &HostRuntime, endpoint: Endpoint, target: &[u8]) -> Result<Peer, Fail> {
    let alloc = rt.alloc();
    let browser = upgraded(rt, endpoint, target)?;
    hear(&browser, alloc, BINARY, &[1, 1])?;
    say(&browser, alloc, BINARY, &[1])?;
    hear(&browser, alloc, BINARY, &[0, 0, 0, 0])?;
    say(&browser, alloc, BINARY, &[1])?;
    let (first, init) = browser.frame(alloc)?;
    if first != BINARY || init.len() != 25 {
        return Err("another beginning".into());
    }
    Ok(browser)
}

/// Hears why the connection ends, by this code, and that it does. How the session stands may be told
/// before.
pub fn is_closed(browser: &Peer, alloc: Global, code: u16, reason: &[u8]) -> Result<(), Fail> {
    let mut expected = Vec::from_slice(alloc, &code.to_be_bytes())?;
    expected.extend_from_slice(reason)?;
    for _ in 0..100 {
        let (first, payload) = browser.frame(alloc)?;
        if first == CLOSE && payload.as_slice() == expected.as_slice() {
            return browser.ends();
        }
        if first != TEXT {
            break;
        }
    }
    Err("another end".into())
}

// One that begins after more messages than there are.
fn too_far(rt: &HostRuntime, endpoint: Endpoint) -> Result<(), Fail> {
    let alloc = rt.alloc();
    let reason = b"the recording has fewer messages";
    let browser = upgraded(rt, endpoint, b"/watch?message=9")?;
    let mut refusal = b"\0\0\0\0\x20".to_vec(alloc)?;
    refusal.extend_from_slice(reason)?;
    hear(&browser, alloc, BINARY, &refusal)?;
    is_closed(&browser, alloc, 4004, reason)
}

/// Whether what is told says this of the screen, the orders that it obeys among it.
pub fn stands(told: &[u8], message: &str, orders: &str) -> bool {
    match str::from_utf8(told) {
        Ok(told) => told.starts_with(message) && told.contains(orders),
        Err(_) => false,
    }
}

// Goes to a moment, and back to the newest screen, and last asks for what there isn't.
fn gives_orders(rt: &HostRuntime, endpoint: Endpoint) -> Result<(), Fail> {
    let alloc = rt.alloc();
    let browser = viewer(rt, endpoint, b"/watch")?;
    let newest = "{\"message\":2,\"time\":1500000,\"length\":1500000,\"watching\":1,";
    let told = shown(&browser, alloc, b"", &ALL, &GREEN)?;
    if !stands(&told, newest, ",\"orders\":0,") {
        return Err("the newest screen".into());
    }
    let told = shown(&browser, alloc, b"{\"at\":4000}", &ALL, &RED)?;
    let earlier = "{\"message\":1,\"time\":3000,\"length\":1500000,\"watching\":1,";
    if !stands(&told, earlier, ",\"orders\":1,") {
        return Err("an earlier one".into());
    }
    let told = shown(&browser, alloc, b"{\"live\":true}", &ALL, &GREEN)?;
    if !stands(&told, newest, ",\"orders\":2,") {
        return Err("the newest again".into());
    }
    say(&browser, alloc, TEXT, b"{\"at\":-1}")?;
    is_closed(&browser, alloc, 1008, b"there is no such thing to ask for")
}

/// A recording that browsers look at.
pub fn is_looked_at(rt: &HostRuntime, endpoint: Endpoint) -> Result<(), Fail> {
    all_is_given(rt, endpoint)?;
    others_are_refused(rt, endpoint)?;
    too_far(rt, endpoint)?;
    gives_orders(rt, endpoint)
}

// A listener for browsers, and none for viewers.
fn browsers_alone(listener: TcpListener) -> Listened {
    Listened {
        viewers: None,
        web: Some(Ok(listener)),
    }
}

// A plan that is for browsers, and ends after so many seconds, if not before.
fn for_browsers(plan: Plan<'_>, after: Option<u64>) -> Plan<'_> {
    Plan {
        web: Some("127.0.0.1:0"),
        stop: Stop {
            at_end_of_input: false,
            after,
        },
        ..plan
    }
}

// What is printed of so many messages.
fn printed(alloc: Global, endpoint: Endpoint, committed: u64) -> Result<String, Fail> {
    let address = endpoint.address(alloc)?;
    Ok(format!(in alloc; "true serving\nbrowsing http://{address}/\ncommitted {committed}\n")?)
}

#[test]
fn browsers_look_at_a_recording(rt: HostRuntime) -> Result<(), Fail> {
    let rt = &rt;
    let file = "looked_at";
    fs::write(rt, file, RECORDING.as_slice())?;
    let (web, endpoint) = listener(rt)?;
    let plan = for_browsers(plan_of(file, None, Audience::Count(1), Origin::Live), None);
    let said = serve_over!(
        rt,
        &plan,
        browsers_alone(web),
        move || is_looked_at(rt, endpoint)
    )?;
    let expected = printed(rt.alloc(), endpoint, 2)?;
    assert!(rt; said.as_str() == expected.as_str(), "{said}");
    fs::remove_file(rt, file)?;
    Ok(())
}

// Hears how the session stands until nothing more is recorded.
fn hears_the_end(browser: &Peer, alloc: Global) -> Result<(), Fail> {
    for _ in 0..100 {
        let (first, told) = browser.frame(alloc)?;
        if first != TEXT {
            return Err("more than how it stands".into());
        }
        if told.ends_with(b",\"ended\":true}") {
            return Ok(());
        }
    }
    Err("no end".into())
}

// A viewer of a host stands still, follows it again, looks back, and follows it once more.
fn steers_meanwhile(browser: &Peer, alloc: Global, host: &Peer) -> Result<(), Fail> {
    let told = shown(browser, alloc, b"{\"pause\":true}", &ALL, &BLACK)?;
    if !stands(&told, "{\"message\":0,", ",\"orders\":1,\"ended\":false}") {
        return Err("a stillness before the first message".into());
    }
    let told = shown(browser, alloc, b"{\"live\":true}", &ALL, &BLACK)?;
    if !stands(&told, "{\"message\":0,", ",\"orders\":2,\"ended\":false}") {
        return Err("live again".into());
    }
    host.talk(alloc, &RED, &CHANGES)?;
    let told = shown(browser, alloc, b"", &CHANGES, &RED)?;
    if !stands(
        &told,
        "{\"message\":1,",
        ",\"watching\":1,\"orders\":2,\"ended\":false}",
    ) {
        return Err("the update".into());
    }
    let told = shown(browser, alloc, b"{\"at\":0}", &ALL, &RED)?;
    if !stands(&told, "{\"message\":1,", ",\"orders\":3,\"ended\":false}") {
        return Err("a look back while it goes on".into());
    }
    let told = shown(browser, alloc, b"{\"live\":true}", &ALL, &RED)?;
    if !stands(&told, "{\"message\":1,", ",\"orders\":4,\"ended\":false}") {
        return Err("live once more".into());
    }
    Ok(())
}

// A viewer sees a host's update, and its end, and looks back then, until the recorder is stopped.
fn host_is_watched(rt: &HostRuntime, ends: Loopback) -> Result<(), Fail> {
    let alloc = rt.alloc();
    let host = small_host(alloc, &ends.hosts)?;
    let browser = viewer(rt, ends.viewers, b"/watch")?;
    let told = shown(&browser, alloc, b"", &ALL, &BLACK)?;
    let first: &[u8] =
        b"{\"message\":0,\"time\":0,\"length\":0,\"watching\":1,\"orders\":0,\"ended\":false}";
    if told.as_slice() != first {
        return Err("the first screen".into());
    }
    steers_meanwhile(&browser, alloc, &host)?;
    host.finish()?;
    hears_the_end(&browser, alloc)?;
    let told = shown(&browser, alloc, b"{\"at\":0}", &ALL, &RED)?;
    if !stands(&told, "{\"message\":1,", ",\"orders\":5,\"ended\":true}") {
        return Err("a look back".into());
    }
    say(&browser, alloc, BINARY, &CHANGES)?;
    is_closed(&browser, alloc, 1000, b"the recorder has ended")
}

#[test]
fn a_browser_watches_a_host_past_its_end(rt: HostRuntime) -> Result<(), Fail> {
    let rt = &rt;
    let file = "past_its_end";
    let _ = fs::remove_file(rt, file);
    let (hosts, host) = listener(rt)?;
    let (web, viewers) = listener(rt)?;
    let address = host.address(rt.alloc())?;
    let plan = for_browsers(
        plan_of(file, Some(address.as_str()), Audience::Any, Origin::Live),
        Some(8),
    );
    let ends = Loopback { hosts, viewers };
    let said = serve_over!(
        rt,
        &plan,
        browsers_alone(web),
        move || host_is_watched(rt, ends)
    )?;
    let expected = printed(rt.alloc(), viewers, 1)?;
    assert!(rt; said.as_str() == expected.as_str(), "{said}");
    assert!(rt; checked(rt, file)?.as_str() == "recording 1 1 messages 1 blocks 1\n");
    Ok(())
}
