//! Targets and texts, right and almost right.

use crate::{Asked, Beginning, Order, Playback, Survey, asked_by, order_of};
use playing::Pace;
use std::test::Fail;

/// Targets that ask for nothing.
const NO_TARGETS: [&[u8]; 41] = [
    b"",
    b"//",
    b"/?",
    b"/index.html",
    b"/painter.js?",
    b"/live.js/",
    b"/Live.css",
    // RFC 9112, section 3.2.2: a whole URI is for a proxy.
    b"http://localhost/",
    b"/times",
    b"/times?from=",
    b"/times?from=-1",
    b"/times?from=3&",
    b"/times?from=18446744073709551616",
    b"/times?every=1000",
    b"/times?from=&every=1000",
    b"/times?from=3&every=",
    b"/times?from=3&every=0",
    b"/times?from=3&every=4294967296",
    b"/times?from=3&every=1.5",
    b"/times?from=3&every=1000&",
    b"/times?every=1000&from=3",
    b"/watch/",
    b"/watch?",
    b"/watch?at",
    b"/watch?at=",
    b"/watch?at=+1",
    b"/watch?at=1.5",
    b"/watch?at=4294967296",
    b"/watch?message=",
    b"/watch?message=18446744073709551616",
    b"/watch?message=1&pace=1000",
    b"/watch?at=1&longest-pause=1",
    b"/watch?pace=1000&at=1",
    b"/watch?at=&pace=1000",
    b"/watch?at=4294967296&pace=1000",
    b"/watch?at=1&pace=",
    b"/watch?at=1&pace=99",
    b"/watch?at=1&pace=100001",
    b"/watch?at=1&pace=1000&",
    b"/watch?at=1&pace=1000&longest-pause=",
    b"/watch?at=1&pace=1000&longest-pause=4294967296",
];

/// Texts that give no order.
const NO_ORDERS: [&[u8]; 35] = [
    b"",
    b"{}",
    b"null",
    b"[0]",
    b"{\"at\":}",
    b"{\"at\":0",
    b"\"at\":0}",
    b"{\"at\":4294967296}",
    b"{\"message\":18446744073709551616}",
    b"{\"pace\":99}",
    b"{\"pace\":100001}",
    b"{\"longest-pause\":4294967296}",
    // RFC 8259, section 6: numbers that aren't natural ones, or not written so.
    b"{\"at\":-1}",
    b"{\"at\":+1}",
    b"{\"at\":1.0}",
    b"{\"at\":1e3}",
    b"{\"at\":01}",
    b"{\"at\":00}",
    b"{\"message\":007}",
    b"{\"pace\":0100}",
    b"{\"longest-pause\":00}",
    // Section 3: other values, and other words than the three.
    b"{\"at\":\"0\"}",
    b"{\"at\":null}",
    b"{\"message\":true}",
    b"{\"longest-pause\":NULL}",
    b"{\"pause\":null}",
    b"{\"pause\":1}",
    b"{\"live\":false}",
    b"{\"live\":True}",
    // Section 4: another name, two members, or something after the object.
    b"{\"At\":0}",
    b"{\"time\":0}",
    b"{\"at\":0,\"pace\":1000}",
    b"{\"live\":true}{\"live\":true}",
    b"{\"at\":0}\n",
    // Section 2: white space, which no page of this server writes.
    b"{\"at\": 0}",
];

// What came when, from this block on, in windows of so many milliseconds.
fn surveyed(from: u64, every: Option<u32>) -> Asked {
    Asked::Times(Survey { from, every })
}

// The recording from this time on, at a pace that there is.
fn played(time: u32, thousandths: u32, longest_pause: Option<u32>) -> Result<Asked, Fail> {
    let pace = Pace::from_thousandths(thousandths).ok_or("pace")?;
    let playback = Playback {
        time,
        pace,
        longest_pause,
    };
    Ok(Asked::Watch(Beginning::Played(playback)))
}

#[test]
fn targets_ask(rt: HostRuntime) -> Result<(), Fail> {
    let right: [(&[u8], Asked); 18] = [
        (b"/", Asked::Page),
        (b"/painter.js", Asked::Painter),
        (b"/live.js", Asked::Script),
        (b"/live.css", Asked::Style),
        (b"/times?from=3", surveyed(3, None)),
        (
            b"/times?from=18446744073709551615",
            surveyed(u64::MAX, None),
        ),
        (b"/times?from=3&every=1", surveyed(3, Some(1))),
        (b"/times?from=0&every=0086", surveyed(0, Some(86))),
        (
            b"/times?from=18446744073709551615&every=4294967295",
            surveyed(u64::MAX, Some(u32::MAX)),
        ),
        (b"/watch", Asked::Watch(Beginning::Live)),
        (b"/watch?message=0", Asked::Watch(Beginning::After(0))),
        (
            b"/watch?message=18446744073709551615",
            Asked::Watch(Beginning::After(u64::MAX)),
        ),
        (b"/watch?at=1", Asked::Watch(Beginning::Still(1))),
        // Decimal digits, of which the first may be zero.
        (b"/watch?at=01", Asked::Watch(Beginning::Still(1))),
        (
            b"/watch?at=4294967295",
            Asked::Watch(Beginning::Still(u32::MAX)),
        ),
        (b"/watch?at=1&pace=1000", played(1, 1000, None)?),
        (
            b"/watch?at=2&pace=100&longest-pause=0",
            played(2, 100, Some(0))?,
        ),
        (
            b"/watch?at=3&pace=100000&longest-pause=4294967295",
            played(3, 100_000, Some(u32::MAX))?,
        ),
    ];
    for (target, asked) in right {
        assert!(rt; asked_by(target) == Some(asked));
    }
    Ok(())
}

#[test]
fn other_targets_ask_for_nothing(rt: HostRuntime) {
    for target in NO_TARGETS {
        assert!(rt; asked_by(target).is_none());
    }
}

#[test]
fn texts_give_orders(rt: HostRuntime) -> Result<(), Fail> {
    let slow = Pace::from_thousandths(100).ok_or("pace")?;
    let right: [(&[u8], Order); 11] = [
        (b"{\"at\":0}", Order::At(0)),
        (b"{\"at\":4294967295}", Order::At(u32::MAX)),
        (
            b"{\"message\":18446744073709551615}",
            Order::After(u64::MAX),
        ),
        (b"{\"message\":10}", Order::After(10)),
        (b"{\"pace\":100}", Order::Pace(slow)),
        (b"{\"longest-pause\":0}", Order::LongestPause(Some(0))),
        (
            b"{\"longest-pause\":4294967295}",
            Order::LongestPause(Some(u32::MAX)),
        ),
        (b"{\"longest-pause\":null}", Order::LongestPause(None)),
        (b"{\"pause\":true}", Order::Pause(true)),
        (b"{\"pause\":false}", Order::Pause(false)),
        (b"{\"live\":true}", Order::Live),
    ];
    for (text, order) in right {
        assert!(rt; order_of(text) == Some(order));
    }
    Ok(())
}

#[test]
fn other_texts_give_none(rt: HostRuntime) {
    for text in NO_ORDERS {
        assert!(rt; order_of(text).is_none());
    }
}
