//! The command `browse`.

ghost use Rattle.std.specs.Prelude.{◌<◌};

use crate::archive::Archive;
use crate::entrance::Entrance;
use crate::handover::Handover;
use crate::keeping::{Keeper, Keeping};
use crate::opening::open;
use file_commands::{Ended, Refused, answer};
use file_disk::{Progress, SystemError};
use libc::STDERR_FILENO;
use reception::Stop;
use recorder_threads::refusals::Refusal;
use serve_plan::names_of;
use sockets::Bell;
use std::fs::File;
use std::io::Write;
use std::net::{Net, TcpListener, TcpStream};
use std::rt::Files;
use std::sync::Wait;
use std::sync::atomic::{AtomicBool, Ordering};
use std::thread::{Scope, Threads};
use std::time::{Clock, Instant};
use std::{io, thread};
use telling::{Telling, Told};
use web_lobby::Lobby;
use web_requests::Porch;

/// Which recording is looked at, and at which address.
#[derive(Clone, Copy)]
pub struct Browsing<'a> {
    /// The recording's file.
    pub recording: &'a str,
    /// What browsers connect to: an address with a port, or a port of this machine alone.
    pub listen: &'a str,
    /// By which names browsers may ask, besides addresses and `localhost`, with a comma between two.
    pub names: Option<&'a str>,
    /// When it ends.
    pub stop: Stop,
    /// How much of what happens is told on standard error.
    pub told: Told,
    /// Whether a second line says what the system said if it is refused.
    pub is_verbose: bool,
}

// Serves until it is to end, within a scope of threads.
fn serve_in<'s, R, E>(
    scope: &'s Scope<'s, E>,
    entrance: &'s Entrance<'s, R>,
    listener: &'s TcpListener,
    archive: &mut Archive,
    keeping: Keeping,
) -> Result<(), Refusal>
where
    R: AllocGlobal + Clock + Files<File = File> + Sync + Threads + Wait,
    R: Net<Stream = TcpStream, Listener = TcpListener>,
{
    let (keeper, front) = (entrance.keeper, entrance.front);
    let bell = keeper.porch.bell;
    let is_watched = !entrance.stop.may_come()
        || scope.spawn(move || entrance.wait_for_end()).is_ok();
    if !is_watched || scope.spawn(move || keeper.keep(keeping)).is_err() {
        bell.ring();
        return Err(Refusal::Thread);
    }
    let accepting = scope.spawn(move || entrance.accept_browsers(listener));
    if accepting.is_ok() {
        archive.receive_all(keeper, front, scope);
    }
    bell.ring();
    archive.stop(keeper);
    let Ok(accepting) = accepting else {
        return Err(Refusal::Thread);
    };
    if accepting.join(keeper.porch.rt) {
        Ok(())
    } else {
        Err(Refusal::Net)
    }
}

// What the listener at an address gave, or why it fails.
fn listened<T>(outcome: io::Result<T>, address: &str) -> Result<T, Refused<'_>> {
    match outcome {
        Ok(it) => Ok(it),
        Err(error) => Err(Refused::Listen(address, SystemError::of(&error))),
    }
}

// Serves until it is to end.
fn serve_all<'s, R>(
    entrance: &'s Entrance<'s, R>,
    listener: &'s TcpListener,
    archive: &'s mut Archive,
    keeping: Keeping,
) -> Result<(), Refusal>
where
    R: AllocGlobal + Clock + Files<File = File> + Sync + Threads + Wait,
    R: Net<Stream = TcpStream, Listener = TcpListener>,
{
    thread::scope(
        thread::scope_env(),
        entrance.keeper.porch.rt,
        |scope| serve_in(scope, entrance, listener, archive, keeping),
    )
}

// What the page is served with.
#[derive(Drop)]
struct Site<'a> {
    names: Vec<&'a [u8]>,
    bell: Bell,
    lobby: Lobby,
    front: Handover,
    archive: Archive,
    listener: TcpListener,
}

// Serves until it is to end.
fn serve<'a, R>(
    rt: &'a R,
    telling: &'a Telling,
    what: &'a Browsing<'a>,
    site: Site<'a>,
    keeping: Keeping,
) -> Result<(), Refusal>
where
    R: AllocGlobal + Clock + Files<File = File> + Sync + Threads + Wait,
    R: Net<Stream = TcpStream, Listener = TcpListener>,
{
    let Site {
        names,
        bell,
        lobby,
        front,
        mut archive,
        listener,
    } = site;
    let porch = Porch {
        rt: &*rt,
        alloc: rt.alloc(),
        bell: &bell,
        lobby: &lobby,
        names: &names,
        telling: &*telling,
    };
    let keeper = Keeper {
        recording: &*what.recording,
        porch: &porch,
        telling: &*telling,
        told: what.told,
        is_unreadable: AtomicBool::new(false),
    };
    let entrance = Entrance {
        keeper: &keeper,
        front: &front,
        stop: what.stop,
    };
    let served = serve_all(&entrance, &listener, &mut archive, keeping);
    if served.is_ok() && keeper.is_unreadable.load(Ordering::SeqCst) {
        return Err(Refusal::Device);
    }
    served
}

// Opens the recording, listens, says at which address, and serves until it is to end.
fn run<'a, R, L, O: Write>(
    rt: &'a R,
    telling: &'a Telling,
    what: &'a Browsing<'a>,
    listen: L,
    progress: Progress,
    out: &mut O,
) -> Result<(), Ended<'a>>
where
    R: AllocGlobal + Clock + Files<File = File> + Sync + Threads + Wait,
    R: Net<Stream = TcpStream, Listener = TcpListener>,
    L: FnOnce() -> io::Result<TcpListener> + Drop,
    requires { L.IsAlwaysCallable listen }
{
    let began = Instant::now(rt).ok();
    let opened = open(rt, what.recording, progress)?;
    let (bell, lobby) = (Bell::new(rt)?, Lobby::new(rt)?);
    let (archive, keeping) = Archive::new(rt, opened, began)?;
    let names = names_of(rt.alloc(), what.names)?;
    let listener = listened(listen(), what.listen)?;
    listener.set_nonblocking(true)?;
    let address = listener.local_addr()?;
    writeln!(out, "browsing http://{address}/")?;
    out.flush()?;
    let site = Site {
        names,
        bell,
        lobby,
        front: Handover::new(rt.alloc()),
        archive,
        listener,
    };
    Ok(serve(rt, telling, what, site, keeping)?)
}

/// Serves a page on which a recording, which is opened for reading alone, is looked at, to browsers
/// that connect to the listener that the closure makes. Each viewer is shown as much of it as there
/// is when it comes. It writes `browsing` and the page's address once they may come, and goes on until
/// it is to stop. It answers as [`run`](file_commands::run) does.
pub fn browse<R, L, O: Write, E: Write>(
    rt: &R,
    what: Browsing<'_>,
    listen: L,
    progress: Progress,
    out: &mut O,
    err: &mut E,
) -> io::Result<bool>
where
    R: AllocGlobal + Clock + Files<File = File> + Sync + Threads + Wait,
    R: Net<Stream = TcpStream, Listener = TcpListener>,
    L: FnOnce() -> io::Result<TcpListener> + Drop,
    requires { L.IsAlwaysCallable listen }
{
    let telling = &Telling::new(rt.alloc(), what.told)?;
    thread::scope(
        thread::scope_env(),
        rt,
        |scope|
            requires { L.IsAlwaysCallable listen }
        {
            let is_written = !telling.is_verbose()
                || scope
                    .spawn(move || telling.write_to(rt, STDERR_FILENO))
                    .is_ok();
            let outcome = if is_written {
                run(rt, telling, &what, listen, progress, out)
            } else {
                Err(Refusal::Thread.into())
            };
            telling.settle(rt);
            let answered = answer("browse", outcome, what.is_verbose, err);
            telling.end(rt);
            answered
        },
    )
}
