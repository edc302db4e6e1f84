//! The recorder.

ghost use Rattle.std.specs.Prelude.{◌≡◌};
ghost use Rattle.flusher_core.specs.State.{accepted_count};

use crate::greeter::{Door, Greeter};
use file_disk::{LastError, Written};
use libc::STDERR_FILENO;
use recorder_opening::{Begun, Listened, Opened, Opening, Reading, Source, is_still_at};
use recorder_threads::connections::{Device, Hall, Room};
use recorder_threads::refusals::{Refusal, Stopped};
use recorder_threads::shared_book::{Mark, Shared, Sharing, Token};
use recorder_threads::{Comer, Doors, Service, Work, refuse, run_threads};
use serve_plan::{Origin, Plan, names_of};
use sockets::{Bell, Listeners, listen_at};
use std::fmt::Display;
use std::fs::File;
use std::io::Write;
use std::marker::Brand;
use std::net::{Net, TcpListener, TcpStream};
use std::rt::Files;
use std::sync::Wait;
use std::thread::{JoinHandle, Threads};
use std::time::Clock;
use std::{io, thread};
use telling::{Event, Telling};
use web_lobby::Lobby;

// What the threads of a recorder share beside the recording. It is boxed, since it is large, and each
// way out of a function that owns it would take it apart.
fn room_of<M: Mark, R: AllocGlobal + Clock>(
    rt: &R,
    plan: &Plan<'_>,
    opened: &Opened,
    hall: Hall,
    bell: Bell,
    telling: &Telling,
    last_error: LastError,
) -> Result<Box<Room<M>>, Stopped>
    requires { opened.now.desk.value.head ≡ M.head }
{
    let alloc = rt.alloc();
    let desk = &opened.desk;
    let room = Room::<M>::new(
        alloc,
        desk.header().screen(),
        desk.header().name().to_vec(alloc)?,
        plan,
        opened.beginning,
        hall,
        bell,
        telling.share()?,
        last_error,
        Device::new(rt),
        desk.committed(),
        desk.last_time(),
    );
    Ok(Box::new(alloc, room)?)
}

// Serves a recording, which the host goes on with, under a mark that fits it: how many messages are
// committed in the end.
fn serve_opened<M: Mark + Send + Sync, R: Threads + Clock + Wait + Sync + AllocGlobal, W: Write>(
    rt: &R,
    plan: &Plan<'_>,
    token: Token,
    opened: Box<Opened>,
    arrivals: Box<Arrivals>,
    bell: Bell,
    telling: &Telling,
    last_error: LastError,
    err: &mut W,
) -> Result<u64, Stopped>
    requires head { opened.value.desk.value.head ≡ M.head }
    requires modelled { M.is_modelled → ⊥ }
    requires first { accepted_count opened.value.desk.value.state.book ≡ M.first }
    requires names { token ≡ M.names }
{
    let Arrivals {
        listeners,
        lobby,
        hall,
        comers,
    } = Box::into_inner(arrivals);
    let room = room_of::<M, R>(rt, plan, &opened, hall, bell, telling, last_error)?;
    let Opened {
        desk,
        source: Source { host, stream },
        ..
    } = Box::into_inner(opened);
    let Sharing {
        shared,
        host: host_pen,
        flusher: flusher_pen,
    } = Shared::<_, M>::new(rt, token, desk);
    let work = Work {
        host,
        host_pen,
        flusher_pen,
        comers,
        stop: plan.stop,
    };
    let names = names_of(rt.alloc(), plan.web_names)?;
    let service = Service {
        rt,
        shared: &shared,
        room: &room,
        stream: &stream,
    };
    let doors = Doors {
        listeners: &listeners,
        names: &names,
        lobby: &lobby,
    };
    let outcome = run_threads(&service, &doors, work, err);
    drop(service);
    outcome.result(shared.finish().committed())
}

// Writes a line, at once.
fn say<O: Write, T: Display + Drop>(out: &mut O, line: T) -> io::Result<()> {
    writeln!(out, "{line}")?;
    out.flush()
}

// The reading of a recording, and the thread that tells how far it is.
#[derive(Drop)]
struct WatchedReading<'a> {
    reading: &'a Reading,
    watcher: Option<JoinHandle<()>>,
}

impl WatchedReading<'_> {
    // Says that it is over, and waits for the thread: if few threads can be had, others need it.
    fn end<R: Threads + Wait>(self, rt: &R) {
        let WatchedReading { reading, watcher } = self;
        reading.end(rt);
        if let Some(watcher) = watcher {
            watcher.join(rt);
        }
    }
}

// The listeners, who is answered, who watches, and who came already.
#[derive(Drop)]
struct Arrivals {
    listeners: Listeners,
    lobby: Lobby,
    hall: Hall,
    comers: Vec<Comer>,
}

// Whether viewers are greeted while the recording is read. Who begins after a count of messages is
// told in the handshake if there are fewer, and so waits until that is known.
fn greets_early(origin: Origin) -> bool {
    !matches!(origin, Origin::Count(_))
}

// Who greets those who come while the recording is read: nobody if it is made, or if they have to
// wait for their greeting.
fn greeter_of<'a, R>(
    opening: &Opening<'a, R>,
    begun: &Begun,
    listeners: &'a Listeners,
    hall: &'a Hall,
) -> Result<Option<Greeter<'a, R>>, Stopped>
where
    R: AllocGlobal + Eprint + Net<Stream = TcpStream, Listener = TcpListener> + Wait,
{
    match (begun.header(), &listeners.viewers) {
        (Some(header), Some(listener)) if greets_early(opening.plan.from) => {
            let door = Door {
                rt: opening.rt,
                alloc: opening.rt.alloc(),
                listener,
                hall,
                telling: opening.telling,
            };
            let name = header.name().to_vec(door.alloc)?;
            let file = opening.plan.file;
            let bell = opening.given(Bell::new(door.rt), "make a bell for", file, Refusal::Net)?;
            Ok(Some(Greeter::new(door, bell, header.size(), name)))
        }
        _ => Ok(None),
    }
}

// Reads or makes the recording. Meanwhile the greeter, if there is one, greets those who come.
fn finish<R>(
    opening: &Opening<'_, R>,
    begun: Begun,
    greeter: &Option<Greeter<'_, R>>,
) -> Result<Box<Opened>, Stopped>
where
    R: AllocGlobal + Clock + Eprint + Files<File = File> + Sync + Threads + Wait,
    R: Net<Stream = TcpStream, Listener = TcpListener>,
{
    let Some(greeter) = greeter else {
        return opening.finish(begun);
    };
    thread::scope(thread::scope_env(), opening.rt, |scope| {
        // Without a thread for it they are greeted once it is read.
        let _greeting = scope.spawn(|| greeter.greet_all());
        let opened = opening.finish(begun);
        greeter.end();
        opened
    })
}

// Finds the recording, the host and the listeners, and reads or makes the recording.
fn open<R, L>(opening: &Opening<'_, R>, listen: L) -> Result<(Box<Opened>, Box<Arrivals>), Stopped>
where
    R: AllocGlobal + Clock + Eprint + Files<File = File> + Sync + Threads + Wait,
    R: Net<Stream = TcpStream, Listener = TcpListener>,
    L: FnOnce() -> Listened + Drop,
    requires { L.IsAlwaysCallable listen }
{
    let alloc = opening.rt.alloc();
    let (begun, listeners) = opening.begin(listen)?;
    let seats = begun.format(opening.plan).limits().seats as u32;
    let hall = Hall::new(opening.plan.term(), seats);
    let greeter = greeter_of(opening, &begun, &listeners, &hall)?;
    let opened = finish(opening, begun, &greeter);
    let comers = match greeter {
        Some(greeter) => greeter.into_comers(),
        None => Vec::new(alloc),
    };
    let arrivals = Arrivals {
        listeners,
        lobby: Lobby::new(opening.rt)?,
        hall,
        comers,
    };
    Ok((opened?, Box::new(alloc, arrivals)?))
}

fn run<'a, R, L, O, W>(
    rt: &'a R,
    plan: &'a Plan<'a>,
    telling: &'a Telling,
    watched: WatchedReading<'a>,
    listen: L,
    out: &mut O,
    err: &mut W,
) -> Result<(), Stopped>
where
    R: AllocGlobal + Clock + Eprint + Files<File = File> + Sync + Threads + Wait,
    R: Net<Stream = TcpStream, Listener = TcpListener>,
    L: FnOnce() -> Listened + Drop,
    O: Write,
    W: Write,
    requires { L.IsAlwaysCallable listen }
{
    let last_error = LastError::new(rt.alloc())?;
    let written = Written::new(rt.alloc())?;
    let opening = Opening {
        rt: &*rt,
        plan: &*plan,
        telling: &*telling,
        last_error: &last_error,
        written: &written,
        reading: watched.reading,
    };
    // These come first, so that no file is made if they can't be had.
    let bell = opening.given(Bell::new(rt), "make a bell for", plan.file, Refusal::Net)?;
    let token = Token::new(rt.alloc())?;
    let opened = open(&opening, listen);
    watched.end(rt);
    let (opened, arrivals) = opened?;
    let identity = opened.identity;
    say(out, "serving")?;
    if let Some(listener) = &arrivals.listeners.web {
        let address = listener.local_addr()?;
        say(out, format_args!("browsing http://{address}/"))?;
    }
    let committed = serve_opened::<Brand, R, W>(
        rt, plan, token, opened, arrivals, bell, telling, last_error, err,
    )?;
    // Who only shows a recording has written nothing that could be missing.
    if plan.host.is_some() && !is_still_at(rt, plan.file, identity, written.end()) {
        telling.tell(rt, Event::Replaced(plan.file));
        return Err(Stopped::Refused(Refusal::File));
    }
    Ok(say(out, format_args!("committed {committed}"))?)
}

// Whether a recorder is done that ended so; if it is refused, that is said.
fn outcome_of<R: Clock + Wait, E: Write>(
    rt: &R,
    telling: &Telling,
    ended: Result<(), Stopped>,
    err: &mut E,
) -> io::Result<bool> {
    match ended {
        Ok(()) => Ok(true),
        Err(Stopped::Refused(refusal)) => {
            refuse(rt, telling, refusal, err)?;
            Ok(false)
        }
        Err(Stopped::Told) => Ok(false),
        Err(Stopped::Failed(error)) => Err(error),
    }
}

/// Records a host into a file, and serves the recording to viewers, who connect to the listeners
/// that the closure makes; without a host it serves the recording alone. It writes `serving` once
/// viewers may come, the address of the page if there is one, and when all is done `committed` with
/// the number of messages. Answers whether it is done; else a line on `err` says why it is refused,
/// as soon as nothing more is recorded. An error is of the two writers, or of memory.
pub fn serve_on<R, L, O: Write, E: Write>(
    rt: &R,
    plan: &Plan<'_>,
    listen: L,
    out: &mut O,
    err: &mut E,
) -> io::Result<bool>
where
    L: FnOnce() -> Listened + Drop,
    R: AllocGlobal + Clock + Eprint + Files<File = File> + Sync + Threads + Wait,
    R: Net<Stream = TcpStream, Listener = TcpListener>,
    requires { L.IsAlwaysCallable listen }
{
    let telling = &Telling::new(rt.alloc(), plan.told)?;
    let reading = &Reading::new(rt.alloc())?;
    thread::scope(
        thread::scope_env(),
        rt,
        |scope|
            requires { L.IsAlwaysCallable listen }
        {
            let is_written = !telling.is_verbose()
                || scope
                    .spawn(move || telling.write_to(rt, STDERR_FILENO))
                    .is_ok();
            let watcher = if telling.is_verbose() {
                scope
                    .spawn(move || reading.watch(rt, telling, plan.file))
                    .ok()
            } else {
                None
            };
            let watched = WatchedReading { reading, watcher };
            let ended = if is_written {
                run(rt, plan, telling, watched, listen, out, err)
            } else {
                Err(Stopped::Refused(Refusal::Thread))
            };
            reading.end(rt);
            let outcome = outcome_of(rt, telling, ended, err);
            telling.end(rt);
            outcome
        },
    )
}

/// The same with viewers and browsers who connect to the plan's addresses.
pub fn serve<R, O: Write, E: Write>(
    rt: &R,
    plan: &Plan<'_>,
    out: &mut O,
    err: &mut E,
) -> io::Result<bool>
where
    R: AllocGlobal + Clock + Eprint + Files<File = File> + Sync + Threads + Wait,
    R: Net<Stream = TcpStream, Listener = TcpListener>,
{
    let (viewers, web) = (plan.listen, plan.web);
    let listen = || Listened {
        viewers: viewers.map(|address| TcpListener::bind(rt, address)),
        web: web.map(|address| listen_at(rt, rt.alloc(), address)),
    };
    serve_on(rt, plan, listen, out, err)
}
