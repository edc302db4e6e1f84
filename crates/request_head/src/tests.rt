//! Heads that programs send, and others that RFC 9112 refuses.

mod sent;

use crate::{
    Fault, LONGEST_HEAD, MOST_FIELDS, Reading, first_value, is_allowed, read_head, wants_head_alone,
};
use httparse::spans::EMPTY_HEADER_SPAN;
use sent::HEADS;
use std::test::Fail;

// What bytes are read as, if they aren't too many.
fn reading(bytes: &[u8]) -> Option<Reading> {
    if bytes.len() > LONGEST_HEAD {
        return None;
    }
    let mut fields = [EMPTY_HEADER_SPAN; MOST_FIELDS];
    Some(read_head(bytes, &[], &mut fields))
}

// Whether bytes are a whole head for a target that is taken, and each front of them is unfinished.
fn is_taken(bytes: &[u8], target: &[u8]) -> bool {
    for (end, _) in bytes.iter().enumerate() {
        if reading(&bytes[..end]) != Some(Reading::Unfinished) {
            return false;
        }
    }
    match reading(bytes) {
        Some(Reading::Taken(request)) => {
            request.len == bytes.len()
                && bytes.get(request.path.start..request.path.end) == Some(target)
        }
        _ => false,
    }
}

#[test]
fn programs_are_heard(rt: HostRuntime) {
    for (bytes, target) in HEADS {
        assert!(rt; is_taken(bytes, target));
    }
}

#[test]
fn sound_heads_are_taken(rt: HostRuntime) {
    let sound: [&[u8]; 7] = [
        // RFC 9110, section 9.3.2.
        b"HEAD / HTTP/1.0\r\n\r\n",
        // Section 3.2: only HTTP/1.1 wants a Host.
        b"GET / HTTP/1.0\r\n\r\n",
        // Section 3.2: it may be empty, and its name is in any case (RFC 9110, section 5.1).
        b"GET / HTTP/1.1\r\nhOST:\r\n\r\n",
        // Section 2.2: a line may end in LF alone, and empty lines may come first.
        b"GET / HTTP/1.1\nHost: localhost\n\n",
        b"\r\n\r\nGET / HTTP/1.1\r\nHost: localhost\r\n\r\n",
        // RFC 9110, section 5.5: a value may be empty, and have bytes past ASCII and tabs.
        b"GET / HTTP/1.1\r\nHost: localhost\r\nA:\r\nB: \t\xe9\tb \r\n\r\n",
        // RFC 9110, section 5.6.2: what a name may have.
        b"GET / HTTP/1.1\r\nHost: localhost\r\n!#$%&'*+-.^_`|~09azAZ: x\r\n\r\n",
    ];
    for bytes in sound {
        assert!(rt; is_taken(bytes, b"/"));
    }
}

#[test]
fn others_are_refused(rt: HostRuntime) {
    let refused: [(&[u8], Fault); 19] = [
        // Section 3.2: no Host, or two.
        (b"GET / HTTP/1.1\r\n\r\n", Fault::BadRequest),
        (
            b"GET / HTTP/1.1\r\nHost: localhost\r\nhost: localhost\r\n\r\n",
            Fault::BadRequest,
        ),
        (
            b"GET / HTTP/1.0\r\nHost: localhost\r\nHost: evil.example\r\n\r\n",
            Fault::BadRequest,
        ),
        // Section 5.1: no space before the colon.
        (b"GET / HTTP/1.1\r\nHost :", Fault::BadRequest),
        // Section 5.2: no line goes on in the next one.
        (b"GET / HTTP/1.1\r\nHost: localhost\r\n ", Fault::BadRequest),
        // RFC 9110, section 5.5: no NUL, and no CR alone.
        (b"GET / HTTP/1.1\r\nA: a\0", Fault::BadRequest),
        (b"GET / HTTP/1.1\r\nA: a\rb", Fault::BadRequest),
        // Section 3: one space between the parts of a request line.
        (b"GET  ", Fault::BadRequest),
        (b"GET / HTTP/1.1 ", Fault::BadRequest),
        (b" GET", Fault::BadRequest),
        (b"GET /\r", Fault::BadRequest),
        // Section 2.3: another protocol, or another version of this one.
        (b"RFB 003.008\n", Fault::BadRequest),
        (b"GET / HTTP/2", Fault::BadRequest),
        // RFC 3986, section 2: a target is of ASCII.
        (b"GET /\xc3", Fault::BadRequest),
        (b"GET /\x7f", Fault::BadRequest),
        // The first of its faults counts.
        (b"POST / HTTP/1.1\r\n\r\n", Fault::BadRequest),
        (
            b"POST / HTTP/1.1\r\nHost: evil.example\r\n\r\n",
            Fault::Forbidden,
        ),
        // RFC 9110, section 9.1: a method's case counts.
        (
            b"POST / HTTP/1.1\r\nHost: localhost\r\n\r\n",
            Fault::MethodNotAllowed,
        ),
        (
            b"get / HTTP/1.1\r\nHost: localhost\r\n\r\n",
            Fault::MethodNotAllowed,
        ),
    ];
    for (bytes, fault) in refused {
        assert!(rt; reading(bytes) == Some(Reading::Refused(fault)), "{fault}");
    }
}

#[test]
fn only_own_names_are_allowed(rt: HostRuntime) {
    let own: [&[u8]; 12] = [
        b"",
        b"localhost",
        b"LocalHost:8080",
        b"localhost:",
        b"127.0.0.1",
        b"127.0.0.1:8080",
        b"0.0.0.0",
        b"255.255.255.255:1",
        b"[::1]",
        b"[::1]:8080",
        b"[FE80::1:2]",
        b"[::ffff:127.0.0.1]:65535",
    ];
    for host in own {
        assert!(rt; is_allowed(&[], host));
    }
    let others: [&[u8]; 22] = [
        b"evil.example",
        b"localhost.evil.com",
        b"evil.localhost",
        b"evil.com#localhost",
        b"evil.com:80#localhost",
        b"[evil.example]",
        b"127.0.0.1.evil.com",
        b"localhost:80:80",
        b"localhost:http",
        b"localhost.",
        b"user@localhost",
        b"localhost localhost",
        b"127.1",
        b"2130706433",
        b"0x7f.0.0.1",
        b"127.0.0.01",
        b"127.0.0.256",
        b"::1",
        b"[::1",
        b"[::1]evil",
        b"[::1%25lo]",
        b"[1::2::3]",
    ];
    for host in others {
        assert!(rt; !is_allowed(&[], host));
    }
    assert!(rt; is_allowed(&[b"desk.example"], b"Desk.Example:8999"));
    assert!(rt; !is_allowed(&[b"desk.example"], b"a.desk.example"));
}

#[test]
fn a_head_may_be_as_long_as_the_longest(rt: HostRuntime) -> Result<(), Fail> {
    let mut long = b"GET / HTTP/1.0\r\nA: ".to_vec(rt.alloc())?;
    long.resize(LONGEST_HEAD, b'a')?;
    assert!(rt; reading(&long) == Some(Reading::Refused(Fault::TooLarge)));
    long.truncate(LONGEST_HEAD - 4);
    assert!(rt; reading(&long) == Some(Reading::Unfinished));
    long.extend_from_slice(b"\r\n\r\n")?;
    assert!(rt; matches!(reading(&long), Some(Reading::Taken(_))));
    Ok(())
}

#[test]
fn two_thousand_fields_are_read(rt: HostRuntime) -> Result<(), Fail> {
    let mut many = b"GET / HTTP/1.0\r\n".to_vec(rt.alloc())?;
    for _ in 0..1000 {
        many.extend_from_slice(b"a:\nB:\n")?;
    }
    many.extend_from_slice(b"\n")?;
    let Some(Reading::Taken(request)) = reading(&many) else {
        panic!(rt; "not taken")
    };
    assert!(rt; request.headers == 2000);
    Ok(())
}

#[test]
fn values_come_in_order(rt: HostRuntime) {
    let head = b"GET / HTTP/1.0\r\nUpgrade: one\r\nOther: two\r\nUPGRADE:  three \r\n\r\n";
    let mut fields = [EMPTY_HEADER_SPAN; MOST_FIELDS];
    let Reading::Taken(request) = read_head(head, &[], &mut fields) else {
        panic!(rt; "not taken")
    };
    let Some((one, rest)) = first_value(head, &fields[..request.headers], b"upgrade") else {
        panic!(rt; "none")
    };
    let Some((three, rest)) = first_value(head, rest, b"upgrade") else {
        panic!(rt; "one")
    };
    assert!(rt; one == b"one".as_slice() && three == b"three".as_slice());
    assert!(rt; first_value(head, rest, b"upgrade").is_none());
}

#[test]
fn a_head_alone_is_asked_for(rt: HostRuntime) {
    let heads: [&[u8]; 3] = [
        b"HEAD / HTTP/1.1\r\nHost: localhost\r\n\r\n",
        b"\r\n\nHEAD / HTTP/1.0\n\n",
        // Also if it is refused.
        b"HEAD /\xff",
    ];
    for bytes in heads {
        assert!(rt; wants_head_alone(bytes));
    }
    let others: [&[u8]; 6] = [
        b"",
        b"\r\n",
        b"HEAD",
        b"HEADS / HTTP/1.0\r\n\r\n",
        b"head / HTTP/1.0\r\n\r\n",
        b"GET /HEAD HTTP/1.0\r\n\r\n",
    ];
    for bytes in others {
        assert!(rt; !wants_head_alone(bytes));
    }
}
