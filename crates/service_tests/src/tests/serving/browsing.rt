//! `browse`: the same page and viewers over a recording, which may grow meanwhile.

use super::browsers::{
    Heard, RECORDING, TEXT, asked, is_closed, is_looked_at, say, shown, stands, upgraded, viewer,
};
use super::peers::{ALL, BLACK, Endpoint, GREEN, Peer, listener};
use browse::{Browsing, browse};
use file_disk::Progress;
use reception::Stop;
use sockets::listen_at;
use std::alloc::{AllocError, Global};
use std::fs::File;
use std::net::{Net, TcpListener, TcpStream};
use std::rt::Files;
use std::sync::Wait;
use std::test::Fail;
use std::thread::{Threads, join};
use std::time::{Clock, Duration};
use std::{fs, io, thread};
use telling::Told;

/// What a recording goes on with after its last gate, which is open then: a block of one message, black
/// again, after 1,600 seconds.
const NEXT: &[u8; 36] =
    b"\0\0\0\x1d\0\x01\0\0\x18\x6a\0\0\0\0\x14\0\0\0\x01\0\0\0\0\0\x01\0\x01\0\0\0\0\0\0\0\0C";

// The recording with a further block, or with a gate that is open and no block after it.
fn longer(alloc: Global, has_block: bool) -> Result<Vec<u8>, AllocError> {
    let mut bytes = RECORDING.to_vec(alloc)?;
    bytes.pop();
    bytes.push(b'O')?;
    if has_block {
        bytes.extend_from_slice(NEXT)?;
    }
    Ok(bytes)
}

// One who comes sees this at last, once another opening is due: this viewer, and what it was told.
fn sees_at_last(
    rt: &HostRuntime,
    endpoint: Endpoint,
    update: &[u8],
) -> Result<(Peer, Vec<u8>), Fail> {
    for _ in 0..40 {
        let browser = viewer(rt, endpoint, b"/watch")?;
        let Heard {
            told,
            update: other,
        } = asked(&browser, rt.alloc(), b"", &ALL)?;
        if other.as_slice() == update {
            return Ok((browser, told));
        }
        thread::sleep(rt, Duration::from_millis(50));
    }
    Err("another screen".into())
}

// Who is there sees what there was, and who comes sees what has come, without another opening if
// nothing has; what can't be opened again is shown as it was. The file is replaced by a longer one,
// and then cut off, and who goes back in it is closed; at last all are told of the end, also who
// came before it grew.
fn grows(rt: &HostRuntime, endpoint: Endpoint, file: &str) -> Result<(), Fail> {
    let alloc = rt.alloc();
    let first = viewer(rt, endpoint, b"/watch")?;
    let _told = shown(&first, alloc, b"", &ALL, &GREEN)?;
    fs::write(rt, file, longer(alloc, false)?.as_slice())?;
    let second = viewer(rt, endpoint, b"/watch")?;
    let told = shown(&second, alloc, b"", &ALL, &GREEN)?;
    let before = "{\"message\":2,\"time\":1500000,\"length\":1500000,\"watching\":2,";
    if !stands(&told, before, ",\"ended\":true}") {
        return Err("as it was".into());
    }
    fs::write(rt, "longer", longer(alloc, true)?.as_slice())?;
    fs::rename(rt, "longer", file)?;
    let (third, told) = sees_at_last(rt, endpoint, &BLACK)?;
    let after = "{\"message\":3,\"time\":1600000,\"length\":1600000,\"watching\":1,";
    if !stands(&told, after, ",\"ended\":true}") {
        return Err("what has come".into());
    }
    thread::sleep(rt, Duration::from_millis(500));
    let fourth = viewer(rt, endpoint, b"/watch")?;
    let told = shown(&fourth, alloc, b"", &ALL, &BLACK)?;
    let beside = "{\"message\":3,\"time\":1600000,\"length\":1600000,\"watching\":2,";
    if !stands(&told, beside, ",\"ended\":true}") {
        return Err("opened again without need".into());
    }
    let told = shown(&first, alloc, b"{\"live\":true}", &ALL, &GREEN)?;
    if !stands(&told, before, ",\"orders\":1,\"ended\":true}") {
        return Err("what there was".into());
    }
    fs::write(rt, file, &RECORDING[..20])?;
    say(&third, alloc, TEXT, b"{\"at\":4000}")?;
    is_closed(&third, alloc, 4005, b"the recording can't be read")?;
    is_closed(&first, alloc, 1000, b"the recorder has ended")
}

// More begin to watch than there are connections for all else, and all is given all the same.
fn many_come(rt: &HostRuntime, endpoint: Endpoint) -> Result<(), Fail> {
    let mut viewers = Vec::new(rt.alloc());
    for _ in 0..17 {
        viewers.push(upgraded(rt, endpoint, b"/watch")?)?;
    }
    is_looked_at(rt, endpoint)
}

// Shows a recording for eight seconds: whether that is done, and what is printed.
fn print<R>(rt: &R, file: &str, listener: TcpListener) -> io::Result<String>
where
    R: AllocGlobal + Clock + Files<File = File> + Sync + Threads + Wait,
    R: Net<Stream = TcpStream, Listener = TcpListener>,
{
    let alloc = rt.alloc();
    let mut out = Vec::new(alloc);
    let mut err = Vec::new(alloc);
    let what = Browsing {
        recording: file,
        listen: "",
        names: None,
        stop: Stop {
            at_end_of_input: false,
            after: Some(8),
        },
        told: Told::Nothing,
        is_verbose: false,
    };
    let is_done = browse(
        rt,
        what,
        || Ok(listener),
        Progress::silent(),
        &mut out,
        &mut err,
    )?;
    out.extend_from_slice(&err)?;
    let Ok(said) = String::from_utf8(out) else {
        return Err(io::ErrorKind::InvalidData.into());
    };
    Ok(format!(in alloc; "{is_done} {said}")?)
}

#[test]
fn a_recording_is_browsed(rt: HostRuntime) -> Result<(), Fail> {
    let rt = &rt;
    let file = "browsed";
    fs::write(rt, file, RECORDING.as_slice())?;
    let (web, endpoint) = listener(rt)?;
    let said = super::told(join(
        rt,
        move || print(rt, file, web),
        move || {
            many_come(rt, endpoint)?;
            grows(rt, endpoint, file)
        },
    ))?;
    let address = endpoint.address(rt.alloc())?;
    let expected = format!(in rt.alloc();
        "false browsing http://{address}/\nrecorderd: browse refused journal 3\n"
    )?;
    assert!(rt; said.as_str() == expected.as_str(), "{said}");
    fs::remove_file(rt, file)?;
    Ok(())
}

#[test]
fn a_port_alone_is_of_this_machine(rt: HostRuntime) -> Result<(), Fail> {
    let listener = listen_at(&rt, rt.alloc(), "0")?;
    let endpoint = listener.local_addr()?;
    let told = format!(in rt.alloc(); "{endpoint}")?;
    assert!(rt; told.as_str().starts_with("127.0.0.1:"), "{told}");
    Ok(())
}
