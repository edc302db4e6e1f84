//! What is written to a peer that hardly reads.

use sockets::write_within;
use std::io::Read;
use std::net::{Net, Shutdown, TcpListener, TcpStream};
use std::sync::Wait;
use std::test::Fail;
use std::thread::Threads;
use std::time::{Clock, Duration};
use std::{io, thread};

/// How much is written, more than two sockets take by themselves, and how much is read at a time.
const MUCH: usize = 64 << 20;

const LITTLE: usize = 64 << 10;

// Reads little by little, for three seconds at most.
fn sip<R: AllocGlobal + Clock>(rt: &R, stream: TcpStream) -> io::Result<()> {
    let mut piece = Vec::new(rt.alloc());
    piece.resize(LITTLE, 0)?;
    for _ in 0..60 {
        thread::sleep(rt, Duration::from_millis(50));
        if (&mut &stream).read(&mut piece)? == 0 {
            break;
        }
    }
    Ok(())
}

// Writes within a second what takes longer to be read.
fn write_too_much<R>(rt: &R) -> io::Result<()>
where
    R: AllocGlobal + Clock + Sync + Threads + Wait,
    R: Net<Stream = TcpStream, Listener = TcpListener>,
{
    let listener = TcpListener::bind(rt, "127.0.0.1:0")?;
    let port = listener.local_addr()?.port();
    let address = format!(in rt.alloc(); "127.0.0.1:{port}")?;
    let writer = TcpStream::connect(rt, &address)?;
    let (reader, _) = listener.accept()?;
    let mut bytes = Vec::new(rt.alloc());
    bytes.resize(MUCH, 0)?;
    thread::scope(thread::scope_env(), rt, |scope| {
        let _sipping = scope.spawn(move || {
            let _read = sip(rt, reader);
        });
        let written = write_within(rt, &writer, &bytes, 1);
        let _shut = writer.shutdown(Shutdown::Both);
        written
    })
}

#[test]
fn a_write_has_one_limit_however_little_is_read_at_a_time(rt: HostRuntime) -> Result<(), Fail> {
    let Err(error) = write_too_much(&rt) else {
        return Err("all was written".into());
    };
    let kind = error.kind();
    assert!(rt; matches!(kind, io::ErrorKind::TimedOut | io::ErrorKind::WouldBlock));
    Ok(())
}
