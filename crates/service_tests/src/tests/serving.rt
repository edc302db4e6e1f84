//! The recorder over loopback, in one process with a host and viewers of the test. Each waits for
//! what it is sent, and for at most twenty seconds.

// Serves what a plan says over these listeners while a test plays: what is printed, once both are
// done.
macro_rules! serve_over {
    ($rt:ident, $plan:expr, $listened:expr, $play:expr) => {{
        let plan = $plan;
        let listened = $listened;
        super::told(std::thread::join(
            $rt,
            move || super::print($rt, plan, listened),
            $play,
        ))
    }};
}

// The same for viewers alone.
macro_rules! serve_while {
    ($rt:ident, $plan:expr, $viewers:ident, $play:expr) => {
        serve_over!($rt, $plan, super::viewers_alone($viewers), $play)
    };
}

// Records a host of a test into a new file, and serves that: what is printed. The test is called
// with the addresses at which its host and its viewers meet the recorder, and what else it is
// given.
macro_rules! recorded {
    ($rt:ident, $file:expr, $audience:expr, $from:expr, $play:ident $(, $more:expr)*) => {{
        let _ = std::fs::remove_file($rt, $file);
        let (hosts, host) = super::peers::listener($rt)?;
        let (listener, viewers) = super::peers::listener($rt)?;
        let address = host.address($rt.alloc())?;
        let plan = crate::plan_of($file, Some(address.as_str()), $audience, $from);
        let ends = super::peers::Loopback { hosts, viewers };
        serve_while!($rt, &plan, listener, move || $play($rt, ends $(, $more)*))
    }};
}

mod browsers;
mod browsing;
mod ends;
mod hosts;
mod peers;
mod recordings;
mod viewers;

use browse::file_commands::{FileCommand, run};
use file_disk::Progress;
use serve::recorder_opening::Listened;
use serve::serve_on;
use serve_plan::Plan;
use std::fs::File;
use std::net::{Net, TcpListener, TcpStream};
use std::rt::Files;
use std::sync::Wait;
use std::test::Fail;
use std::thread::Threads;
use std::time::Clock;
use std::{fs, io};

// A listener for viewers, and none for browsers.
fn viewers_alone(listener: TcpListener) -> Listened {
    Listened {
        viewers: Some(Ok(listener)),
        web: None,
    }
}

// Serves a recording: whether it is done, and what is printed.
fn print<R>(rt: &R, plan: &Plan<'_>, listened: Listened) -> io::Result<String>
where
    R: AllocGlobal + Clock + Eprint + Files<File = File> + Sync + Threads + Wait,
    R: Net<Stream = TcpStream, Listener = TcpListener>,
{
    let alloc = rt.alloc();
    let mut out = Vec::new(alloc);
    let mut err = Vec::new(alloc);
    let is_done = serve_on(rt, plan, || listened, &mut out, &mut err)?;
    out.extend_from_slice(&err)?;
    let Ok(said) = String::from_utf8(out) else {
        return Err(io::ErrorKind::InvalidData.into());
    };
    Ok(format!(in alloc; "{is_done} {said}")?)
}

// What is printed, once what the host and the viewers did is done.
fn told(both: (io::Result<String>, Result<(), Fail>)) -> Result<String, Fail> {
    let (printed, played) = both;
    played?;
    Ok(printed?)
}

// Sees that so many messages were committed, and that `check` says this of the recording.
fn is_recorded(
    rt: &HostRuntime,
    file: &str,
    said: &str,
    count: u64,
    told: &str,
) -> Result<(), Fail> {
    let printed = format!(in rt.alloc(); "true serving\ncommitted {count}\n")?;
    if said != printed.as_str() {
        return Err("something else is printed".into());
    }
    let told = format!(in rt.alloc(); "recording {told}\n")?;
    if checked(rt, file)?.as_str() != told.as_str() {
        return Err("something else is recorded".into());
    }
    Ok(())
}

// What `check` says of a recording, which is then removed.
fn checked(rt: &HostRuntime, file: &str) -> Result<String, Fail> {
    let alloc = rt.alloc();
    let mut out = Vec::new(alloc);
    let mut err = Vec::new(alloc);
    run(
        rt,
        &FileCommand::Check(file),
        false,
        Progress::silent(),
        &mut out,
        &mut err,
    )?;
    fs::remove_file(rt, file)?;
    Ok(String::from_utf8(out).ok().ok_or("output")?)
}
