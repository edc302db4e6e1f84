//! Both ends of the wire that a test plays. Bytes are worked by hand.

use std::alloc::{AllocError, Global};
use std::io;
use std::io::{Read, Write};
use std::net::{Net, Shutdown, TcpListener, TcpStream};
use std::test::Fail;
use std::time::Duration;

/// The version that both sides say.
const VERSION: [u8; 12] = *b"RFB 003.008\n";

/// A host's ServerInit: 1 by 1, a format that is read over, and the name `x`.
const SMALL: [u8; 25] = *b"\0\x01\0\x01\x20\x18\0\x01\0\xff\0\xff\0\xff\x10\x08\0\0\0\0\0\0\0\x01x";

/// The same of 2,048 by 1,024.
const LARGE: [u8; 25] = *b"\x08\0\x04\0\x20\x18\0\x01\0\xff\0\xff\0\xff\x10\x08\0\0\0\0\0\0\0\x01x";

/// An update of one pixel at the corner, in Raw: black, red and green.
pub const BLACK: [u8; 20] = *b"\0\0\0\x01\0\0\0\0\0\x01\0\x01\0\0\0\0\0\0\0\0";

pub const RED: [u8; 20] = *b"\0\0\0\x01\0\0\0\0\0\x01\0\x01\0\0\0\0\0\0\xff\0";

pub const GREEN: [u8; 20] = *b"\0\0\0\x01\0\0\0\0\0\x01\0\x01\0\0\0\0\0\xff\0\0";

/// Requests of the one pixel: all of it, and what changes there.
pub const ALL: [u8; 10] = *b"\x03\0\0\0\0\0\0\x01\0\x01";

pub const CHANGES: [u8; 10] = *b"\x03\x01\0\0\0\0\0\x01\0\x01";

/// A port of this machine.
#[derive(Clone, Copy)]
pub struct Endpoint {
    port: u16,
}

impl Endpoint {
    pub fn address(self, alloc: Global) -> Result<String, AllocError> {
        let port = self.port;
        format!(in alloc; "127.0.0.1:{port}")
    }
}

/// The addresses at which a recorder looks for a test's host, and waits for a test's viewers.
#[derive(Drop)]
pub struct Loopback {
    pub hosts: TcpListener,
    pub viewers: Endpoint,
}

/// A listener on a port that was free.
pub fn listener<R: Net<Stream = TcpStream, Listener = TcpListener> + AllocGlobal>(
    rt: &R,
) -> Result<(TcpListener, Endpoint), Fail> {
    let listener = TcpListener::bind(rt, "127.0.0.1:0")?;
    let port = listener.local_addr()?.port();
    Ok((listener, Endpoint { port }))
}

/// A host or a viewer.
#[derive(Drop)]
pub struct Peer {
    stream: TcpStream,
}

impl Peer {
    fn over(stream: TcpStream) -> Result<Peer, Fail> {
        stream.set_read_timeout(Some(Duration::from_secs(20)))?;
        Ok(Peer { stream })
    }

    pub fn say(&self, bytes: &[u8]) -> Result<(), Fail> {
        (&mut &self.stream).write_all(bytes)?;
        Ok(())
    }

    /// Reads so many bytes as these, which are just these.
    pub fn hear(&self, alloc: Global, bytes: &[u8]) -> Result<(), Fail> {
        let mut came = Vec::new(alloc);
        came.resize(bytes.len(), 0)?;
        (&mut &self.stream).read_exact(&mut came)?;
        if came.as_slice() != bytes {
            return Err("other bytes came".into());
        }
        Ok(())
    }

    /// Says nothing more.
    pub fn finish(&self) -> Result<(), Fail> {
        self.stream.shutdown(Shutdown::Write)?;
        Ok(())
    }

    /// Reads updates as long as this one until it comes, and asks again after each other one: a
    /// thousand times at most.
    pub fn hear_at_last(&self, alloc: Global, update: &[u8], ask: &[u8]) -> Result<(), Fail> {
        let mut came = Vec::new(alloc);
        came.resize(update.len(), 0)?;
        for _ in 0..1000 {
            (&mut &self.stream).read_exact(&mut came)?;
            if came.as_slice() == update {
                return Ok(());
            }
            self.say(ask)?;
        }
        Err("the update didn't come".into())
    }

    /// Reads over so many bytes.
    pub fn skip(&self, alloc: Global, count: usize) -> Result<(), Fail> {
        let mut came = Vec::new(alloc);
        came.resize(count, 0)?;
        (&mut &self.stream).read_exact(&mut came)?;
        Ok(())
    }

    /// Says something, and reads these bytes.
    pub fn talk(&self, alloc: Global, said: &[u8], heard: &[u8]) -> Result<(), Fail> {
        self.say(said)?;
        self.hear(alloc, heard)
    }

    /// Nothing comes for a while, and the connection stays.
    pub fn stays(&self) -> Result<(), Fail> {
        self.stream
            .set_read_timeout(Some(Duration::from_millis(300)))?;
        let mut byte = [0u8; 1];
        match (&mut &self.stream).read(&mut byte) {
            Err(error) if error.kind() == io::ErrorKind::WouldBlock => Ok(()),
            _ => Err("more came, or it was closed".into()),
        }
    }

    /// All that comes until the end.
    pub fn rest(&self, alloc: Global) -> Result<Vec<u8>, Fail> {
        let mut came = Vec::new(alloc);
        (&mut &self.stream).read_to_end(&mut came)?;
        Ok(came)
    }

    /// The frame that comes next (RFC 6455, section 5.2), which has fewer than 126 bytes: its first
    /// byte, and its payload.
    pub fn frame(&self, alloc: Global) -> Result<(u8, Vec<u8>), Fail> {
        let mut head = [0u8; 2];
        (&mut &self.stream).read_exact(&mut head)?;
        let [first, length] = head;
        if length >= 126 {
            return Err("a long frame".into());
        }
        let mut payload = Vec::new(alloc);
        payload.resize(usize::from(length), 0)?;
        (&mut &self.stream).read_exact(&mut payload)?;
        Ok((first, payload))
    }

    /// Nothing more comes.
    pub fn ends(&self) -> Result<(), Fail> {
        let mut byte = [0u8; 1];
        match (&mut &self.stream).read(&mut byte) {
            Ok(0) => Ok(()),
            _ => Err("more came".into()),
        }
    }
}

// The host that connects here, after its handshake. What it is then asked for isn't read.
fn host(alloc: Global, listener: &TcpListener, init: &[u8]) -> Result<Peer, Fail> {
    let (stream, _) = listener.accept()?;
    let host = Peer::over(stream)?;
    host.talk(alloc, &VERSION, &VERSION)?;
    host.talk(alloc, &[1, 1], &[1])?;
    host.talk(alloc, &[0, 0, 0, 0], &[1])?;
    host.say(init)?;
    Ok(host)
}

/// A host of one pixel, which doesn't read what it is asked for.
pub fn deaf_host(alloc: Global, listener: &TcpListener) -> Result<Peer, Fail> {
    host(alloc, listener, &SMALL)
}

/// A host of one pixel.
pub fn small_host(alloc: Global, listener: &TcpListener) -> Result<Peer, Fail> {
    let host = host(alloc, listener, &SMALL)?;
    host.skip(alloc, 50)?;
    Ok(host)
}

/// A host of 2,048 by 1,024 pixels.
pub fn large_host(alloc: Global, listener: &TcpListener) -> Result<Peer, Fail> {
    let host = host(alloc, listener, &LARGE)?;
    host.skip(alloc, 50)?;
    Ok(host)
}

/// A viewer that has said nothing.
pub fn silent_viewer<R: Net<Stream = TcpStream, Listener = TcpListener> + AllocGlobal>(
    rt: &R,
    endpoint: Endpoint,
) -> Result<Peer, Fail> {
    let address = endpoint.address(rt.alloc())?;
    Peer::over(TcpStream::connect(rt, address.as_str())?)
}

/// A viewer after its handshake.
pub fn viewer<R: Net<Stream = TcpStream, Listener = TcpListener> + AllocGlobal>(
    rt: &R,
    endpoint: Endpoint,
) -> Result<Peer, Fail> {
    let alloc = rt.alloc();
    let viewer = silent_viewer(rt, endpoint)?;
    viewer.hear(alloc, &VERSION)?;
    viewer.talk(alloc, &VERSION, &[1, 1])?;
    viewer.talk(alloc, &[1], &[0, 0, 0, 0])?;
    viewer.say(&[1])?;
    viewer.skip(alloc, 25)?;
    Ok(viewer)
}
