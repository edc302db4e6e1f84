//! A recorder's beginning: the recording, the host, and the listeners.

use crate::beginning::beginning_of;
use crate::reading::Reading;
use crate::recording::{Found, OpenRecording};
use connections::broadcast::Desk;
use connections::flusher_core::Book;
use connections::{Beginning, ConnectFault, Host, HostOnClock, Stopwatch};
use disk::Disk;
use file_disk::{FileDisk, LastError, Written};
use gated_journal::Header;
use recording_name::Identity;
use refusals::{Refusal, Stopped};
use serve_plan::Plan;
use sockets::Listeners;
use std::alloc::Global;
use std::fs::File;
use std::io;
use std::net::{Net, TcpListener, TcpStream};
use std::rt::Files;
use std::sync::Wait;
use std::time::Clock;
use telling::{Event, Telling};
use terms::Format;

/// What a recorder is begun with: the system, what is asked for, and what tells of failures.
#[derive(Drop)]
pub struct Opening<'a, R> {
    pub rt: &'a R,
    pub plan: &'a Plan<'a>,
    pub telling: &'a Telling,
    pub last_error: &'a LastError,
    /// How far the recording's file is written.
    pub written: &'a Written,
    /// How far it is read, if there is a recording.
    pub reading: &'a Reading,
}

/// The listeners for viewers and for browsers, or why the system gives none; none if there is to be
/// none.
#[derive(Drop)]
pub struct Listened {
    pub viewers: Option<io::Result<TcpListener>>,
    pub web: Option<io::Result<TcpListener>>,
}

/// A host, if there is one, and a second handle of its stream.
#[derive(Drop)]
pub struct Source {
    pub host: Option<HostOnClock>,
    pub stream: Option<TcpStream>,
}

/// What a recorder has before its recording is read or made: what stands at the recording's path, and
/// the host.
#[derive(Drop)]
pub struct Begun {
    found: Found,
    host: Option<Box<Host>>,
}

impl Begun {
    /// The header of a recording that is to be read; `None` if it is made.
    pub fn header(&self) -> Option<&Header> {
        match &self.found {
            Found::Recording(unread) => Some(&unread.header),
            _ => None,
        }
    }

    /// The recording's format: that of one that is to be read, or else the plan's.
    pub fn format(&self, plan: &Plan<'_>) -> Format {
        match self.header() {
            Some(header) => header.format(),
            None => plan.format,
        }
    }
}

/// A recorder that may begin: its recording with seats for viewers, which file that is, and the host.
#[derive(Drop)]
pub struct Opened {
    pub desk: Box<Desk<FileDisk>>,
    pub beginning: Beginning,
    pub identity: Identity,
    pub source: Source,
}

// A desk over a book. It is boxed, since its seats are many.
fn desk_over(alloc: Global, book: Box<Book<FileDisk>>) -> Result<Box<Desk<FileDisk>>, Stopped> {
    Ok(Box::new(alloc, Desk::new(Box::into_inner(book)))?)
}

impl<'a, R: Eprint + Wait> Opening<'a, R> {
    /// What the system gave, or this refusal, once what it said is told.
    pub fn given<T>(
        &self,
        outcome: io::Result<T>,
        operation: &str,
        path: &str,
        refusal: Refusal,
    ) -> Result<T, Refusal> {
        match outcome {
            Ok(it) => Ok(it),
            Err(error) => {
                self.telling.tell_failure(self.rt, operation, path, &error);
                Err(refusal)
            }
        }
    }

    // A listener that the system gave at this address of the plan, if it was asked for one.
    fn listener(
        &self,
        listened: Option<io::Result<TcpListener>>,
        address: Option<&str>,
    ) -> Result<Option<TcpListener>, Stopped> {
        let Some(outcome) = listened else {
            return Ok(None);
        };
        let address = address.unwrap_or("");
        let listener = self.given(outcome, "listen at", address, Refusal::Net)?;
        listener.set_nonblocking(true)?;
        Ok(Some(listener))
    }

    // The listeners, of which is told at which addresses they are.
    fn listeners(&self, listened: Listened) -> Result<Listeners, Stopped> {
        let Listened { viewers, web } = listened;
        let viewers = self.listener(viewers, self.plan.listen)?;
        let web = self.listener(web, self.plan.web)?;
        if let Some(listener) = &viewers {
            let address = listener.local_addr()?;
            self.telling.tell(self.rt, Event::Listening(address));
        }
        Ok(Listeners { viewers, web })
    }
}

impl<
    'a,
    R: AllocGlobal + Clock + Eprint + Files<File = File> + Net<Stream = TcpStream> + Wait,
> Opening<'a, R> {
    // The host's connection, if there is a host; of the size and in the format of the recording that
    // was found.
    fn host(&self, found: &Found) -> Result<Option<Box<Host>>, Stopped> {
        let Some(address) = self.plan.host else {
            return Ok(None);
        };
        let (format, expected) = match found {
            Found::Recording(unread) => (unread.header.format(), Some(unread.header.size())),
            _ => (self.plan.format, None),
        };
        match Host::connect(self.rt, address, format, expected, self.telling) {
            Ok(host) => Ok(Some(Box::new(self.rt.alloc(), host)?)),
            Err(ConnectFault::Socket) => Err(Refusal::Net.into()),
            Err(ConnectFault::Host(fault)) => Err(Refusal::Host(fault).into()),
        }
    }

    // The recording that was found, read, or a new one for a host.
    fn recording(&self, found: Found, host: Option<&Host>) -> Result<OpenRecording, Stopped> {
        // A file without bytes stays locked until the recording has replaced it.
        let _empty = match found {
            Found::Recording(unread) => return Ok(self.read(unread)?),
            Found::Empty(file) => Some(file),
            Found::Nothing => None,
        };
        let Some((size, name)) = host.and_then(|host| host.screen()) else {
            return Err(Stopped::Refused(Refusal::File));
        };
        let plan = self.plan;
        let alloc = self.rt.alloc();
        match Header::with_format(alloc, plan.format, size, plan.key_interval, name) {
            Ok(header) => Ok(self.create(header)?),
            Err(_) => Err(Stopped::out_of_memory()),
        }
    }

    // The host, with a stopwatch that goes on from this time, and a second handle of its stream.
    fn source(&self, host: Option<Box<Host>>, base: u32) -> Result<Source, Stopped> {
        let Some(host) = host else {
            return Ok(Source {
                host: None,
                stream: None,
            });
        };
        let address = self.plan.host.unwrap_or("");
        let stream = self.given(
            host.socket(),
            "share the socket of host",
            address,
            Refusal::Net,
        )?;
        let stopwatch = Stopwatch::start(self.rt, base)?;
        Ok(Source {
            host: Some(HostOnClock { host, stopwatch }),
            stream: Some(stream),
        })
    }

    /// Finds the recording, connects to the host, and listens.
    pub fn begin<L: FnOnce() -> Listened + Drop>(
        &self,
        listen: L,
    ) -> Result<(Begun, Listeners), Stopped>
        requires { L.IsAlwaysCallable listen }
    {
        let found = self.find()?;
        let host = self.host(&found)?;
        let listeners = self.listeners(listen())?;
        Ok((Begun { found, host }, listeners))
    }

    // Tells the position at which a host goes on with a recording: the file has no mark there.
    fn tell_position(&self, book: &Book<FileDisk>) {
        let messages = book.committed();
        if self.plan.host.is_some() && messages > 0 {
            let time = book.last_time();
            self.telling.tell(self.rt, Event::GoesOn { messages, time });
        }
    }

    /// Reads the recording, which may take long, or makes it if there is none.
    pub fn finish(&self, begun: Begun) -> Result<Box<Opened>, Stopped> {
        let Begun { found, host } = begun;
        let OpenRecording { mut book, identity } = self.recording(found, host.as_deref())?;
        self.tell_position(&book);
        let source = self.source(host, book.last_time())?;
        let beginning = match beginning_of(&mut book, self.plan) {
            Ok(beginning) => beginning,
            Err(fault) => {
                self.tell_last_error("read", self.plan.file);
                return Err(Refusal::from(fault).into());
            }
        };
        let alloc = self.rt.alloc();
        let opened = Opened {
            desk: desk_over(alloc, book)?,
            beginning,
            identity,
            source,
        };
        Ok(Box::new(alloc, opened)?)
    }
}
