//! How a host ends, and a recording without one.

use super::peers::{
    ALL, BLACK, CHANGES, Endpoint, GREEN, Loopback, Peer, RED, deaf_host, listener, small_host,
    viewer,
};
use super::{checked, is_recorded};
use crate::plan_of;
use reception::Stop;
use serve_plan::{Audience, Origin, Plan};
use std::fs;
use std::net::{Net, TcpStream};
use std::test::Fail;

/// How a host of the test ends.
#[derive(Clone, Copy)]
enum Ending {
    /// Within a message.
    Torn,
    /// With bytes unread, so that the system resets the connection.
    Reset,
    /// By a type of message that there isn't.
    Fault,
}

// A viewer is shown an update, and the host ends.
fn host_ends(rt: &HostRuntime, ends: Loopback, ending: Ending) -> Result<(), Fail> {
    let alloc = rt.alloc();
    let host: Peer = match ending {
        Ending::Reset => deaf_host(alloc, &ends.hosts)?,
        _ => small_host(alloc, &ends.hosts)?,
    };
    let one = viewer(rt, ends.viewers)?;
    one.talk(alloc, &ALL, &BLACK)?;
    host.say(&RED)?;
    one.talk(alloc, &CHANGES, &RED)?;
    match ending {
        Ending::Reset => {}
        Ending::Torn => {
            host.hear(alloc, &CHANGES)?;
            host.say(&GREEN[..19])?;
        }
        Ending::Fault => {
            host.hear(alloc, &CHANGES)?;
            host.say(&[9])?;
            host.ends()?;
        }
    }
    Ok(())
}

#[test]
fn a_host_ends(rt: HostRuntime) -> Result<(), Fail> {
    let rt = &rt;
    let file = "ended";
    for (ending, line) in [
        (Ending::Torn, "true serving\ncommitted 1\n"),
        (
            Ending::Reset,
            "false serving\nrecorderd: serve refused net 1\n",
        ),
        (
            Ending::Fault,
            "false serving\nrecorderd: serve refused host 1\n",
        ),
    ] {
        let said = recorded!(
            rt,
            file,
            Audience::Count(1),
            Origin::Live,
            host_ends,
            ending
        )?;
        assert!(rt; said.as_str() == line, "{said}");
        assert!(rt; checked(rt, file)?.as_str() == "recording 1 1 messages 1 blocks 1\n");
    }
    Ok(())
}

// A host goes on while the recorder is asked to end, and is hung up on.
fn host_goes_on(rt: &HostRuntime, ends: Loopback) -> Result<(), Fail> {
    let alloc = rt.alloc();
    let host = small_host(alloc, &ends.hosts)?;
    let one = viewer(rt, ends.viewers)?;
    one.talk(alloc, &ALL, &BLACK)?;
    host.talk(alloc, &RED, &CHANGES)?;
    one.talk(alloc, &CHANGES, &RED)?;
    host.ends()
}

// A plan that ends after a second, if not before.
fn for_a_second(plan: Plan<'_>) -> Plan<'_> {
    Plan {
        stop: Stop {
            at_end_of_input: false,
            after: Some(1),
        },
        ..plan
    }
}

#[test]
fn a_recorder_is_stopped_while_its_host_goes_on(rt: HostRuntime) -> Result<(), Fail> {
    let rt = &rt;
    let file = "stopped";
    let _ = fs::remove_file(rt, file);
    let (hosts, host) = listener(rt)?;
    let (listener, viewers) = listener(rt)?;
    let address = host.address(rt.alloc())?;
    let plan = for_a_second(plan_of(file, Some(address.as_str()), Audience::Any, Origin::Live));
    let ends = Loopback { hosts, viewers };
    let said = serve_while!(rt, &plan, listener, move || host_goes_on(rt, ends))?;
    is_recorded(rt, file, &said, 1, "1 1 messages 1 blocks 1")
}

/// A recording of one pixel with one message, an update of a red pixel after a millisecond.
const RECORDING: [u8; 54] =
    *b"ORFBREC1\0\x01\0\x01\0\x04\0\x01xO\0\0\0\x1d\0\x01\0\0\0\0\x01\0\0\0\x14\0\0\0\x01\0\0\0\0\0\x01\0\x01\0\0\0\0\0\0\xff\0C";

// What a viewer sees first of a recording that is served alone.
fn alone(rt: &HostRuntime, endpoint: Endpoint, first: &[u8]) -> Result<(), Fail> {
    let alloc = rt.alloc();
    viewer(rt, endpoint)?.talk(alloc, &ALL, first)
}

#[test]
fn a_recording_is_served_alone(rt: HostRuntime) -> Result<(), Fail> {
    let rt = &rt;
    let file = "alone";
    fs::write(rt, file, RECORDING.as_slice())?;
    for (from, first) in [
        (Origin::Live, &RED),
        (Origin::Count(0), &BLACK),
        (Origin::Time(0), &BLACK),
        (Origin::Time(1), &RED),
    ] {
        let (viewers, endpoint) = listener(rt)?;
        let plan = plan_of(file, None, Audience::Count(1), from);
        let said = serve_while!(rt, &plan, viewers, move || alone(rt, endpoint, first))?;
        assert!(rt; said.as_str() == "true serving\ncommitted 1\n", "{said}");
    }
    assert!(rt; checked(rt, file)?.as_str() == "recording 1 1 messages 1 blocks 1\n");
    Ok(())
}

#[test]
fn what_can_t_be_served_makes_no_file(rt: HostRuntime) -> Result<(), Fail> {
    let rt = &rt;
    let file = "refused";
    let _ = fs::remove_file(rt, file);
    let (viewers, _) = listener(rt)?;
    let (hosts, host) = listener(rt)?;
    drop(hosts);
    let address = host.address(rt.alloc())?;
    let plan = plan_of(
        file,
        Some(address.as_str()),
        Audience::Count(1),
        Origin::Live,
    );
    let alone = plan_of(file, None, Audience::Count(1), Origin::Live);
    let said = serve_while!(rt, &plan, viewers, move || Ok(()))?;
    assert!(rt;
        said.as_str() == "false recorderd: serve refused net 1\n",
        "{said}"
    );
    let (viewers, _) = listener(rt)?;
    let said = serve_while!(rt, &alone, viewers, move || Ok(()))?;
    assert!(rt;
        said.as_str() == "false recorderd: serve refused file 1\n",
        "{said}"
    );
    assert!(rt; fs::metadata(rt, file).is_err());
    fs::write(rt, file, b"".as_slice())?;
    let (viewers, _) = listener(rt)?;
    let said = serve_while!(rt, &alone, viewers, move || Ok(()))?;
    assert!(rt;
        said.as_str() == "false recorderd: serve refused journal 1\n",
        "{said}"
    );
    fs::remove_file(rt, file)?;
    Ok(())
}
