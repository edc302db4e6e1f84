//! The threads that record, beside those of viewers.

use crate::comer::Comer;
use crate::committing::Committing;
use crate::doors::Doors;
use crate::ends::{Ends, first_refusal, is_end_of_host};
use crate::no_turnstile::NoTurnstile;
use crate::refusing::refuse;
use crate::work::Work;
use disk::Disk;
use host_stream::HostEnd;
use reception::Stop;
use refusals::{Refusal, Stopped};
use sockets::{Listeners, Woken, wait_for_stop};
use std::io::Write;
use std::net::{Shutdown, TcpStream};
use std::sync::{Mutex, Wait};
use std::thread::{JoinHandle, Scope, Threads};
use std::time::{Clock, Duration};
use std::{io, thread};
use telling::{Event, Silence};
use watching::book_workers::{FlusherEnd, run_flusher, run_host};
use watching::connections::{HostOnClock, Messages, Room};
use watching::flusher_core::HostRefusal;
use watching::shared_book::{FlusherPen, HostPen, Mark, Shared};

/// What the threads of a recorder share.
#[derive(Drop)]
pub struct Service<'a, D: Disk, M: Mark, R> {
    pub rt: &'a R,
    pub shared: &'a Shared<D, M>,
    pub room: &'a Room<M>,
    /// The host's stream, if there is a host, to be shut.
    pub stream: &'a Option<TcpStream>,
}

/// How the host's worker and the host's stream ended.
type HostEnds = (Result<(), HostRefusal>, HostEnd);

/// The threads beside the flusher's.
#[derive(Drop)]
struct Crew {
    host: Option<JoinHandle<HostEnds>>,
    viewers: JoinHandle<bool>,
    browsers: Option<JoinHandle<bool>>,
}

/// How a recorder ended, and whether that could be told.
#[derive(Drop)]
pub struct Outcome {
    refusal: Option<Refusal>,
    told: io::Result<()>,
}

impl Outcome {
    /// How many messages are committed, if all is done; else how it ended.
    pub fn result(self, committed: u64) -> Result<u64, Stopped> {
        match (self.told, self.refusal) {
            (Err(error), _) => Err(Stopped::Failed(error)),
            (Ok(()), Some(_)) => Err(Stopped::Told),
            (Ok(()), None) => Ok(committed),
        }
    }
}

impl<'a, D: Disk, M: Mark, R: Clock + Wait> Service<'a, D, M, R> {
    // Hands in the host's messages until they end, and tells how its stream ended. If one is refused,
    // the host is hung up on.
    fn record(&self, host: HostOnClock, mut pen: HostPen<M>) -> HostEnds {
        let end = Mutex::new(HostEnd::Closed(0));
        let mut messages = Messages::new(self.rt, host, self.room, &end);
        let worker = run_host(self.rt, self.shared, &mut pen, &mut messages, &NoTurnstile);
        drop(messages);
        let end = end.into_inner();
        if is_end_of_host(worker, self.room.has_hung_up()) {
            self.room.telling.tell(self.rt, Event::HostEnded(end));
        } else {
            self.shut(Shutdown::Both);
        }
        (worker, end)
    }

    /// Says that there is no host: nothing is recorded, and what is there is all.
    pub fn record_nothing(&self, pen: FlusherPen<M>) {
        self.shared.end_host(self.rt);
        let _flushed = self.flush(pen);
        self.room.hall.end(self.rt);
    }

    // Shuts the host's stream, so that nothing more is read from it.
    fn shut(&self, how: Shutdown) {
        if let Some(stream) = self.stream {
            let _shut = stream.shutdown(how);
        }
    }

    // Tells why nothing more is recorded.
    fn tell_why(&self) {
        let error = self.room.last_error.get();
        self.room
            .telling
            .tell(self.rt, Event::DeviceFailed(error.as_ref()));
    }

    // Commits what was accepted, on this thread. A flusher that is refused ends the host, too.
    fn flush(&self, mut pen: FlusherPen<M>) -> Result<(), FlusherEnd> {
        let mut committing = Committing::new(self.rt, self.room);
        let end = run_flusher(
            self.rt,
            self.shared,
            &mut pen,
            &mut committing,
            &NoTurnstile,
        );
        self.room.device.end();
        committing.tell_recorded();
        if end.is_err() {
            self.tell_why();
            self.room.break_off();
            self.shut(Shutdown::Both);
        }
        self.room.intake.end(self.rt);
        self.room.facts.end();
        end
    }

    // Tells when the device doesn't answer, and when it goes on, until the bell rings.
    fn watch_device(&self) {
        let room = self.room;
        let mut silence = Silence::new();
        for _ in self.rt.forever() {
            if room.bell.wait(None, Some(Duration::from_secs(1))) == Woken::Rung {
                return;
            }
            if let Some(answering) = room.device.look(self.rt, &mut silence) {
                room.telling.tell(self.rt, Event::Device(answering));
            }
        }
    }

    // Waits for what stops the recorder from outside, and stops it.
    fn stop_when(&self, stop: Stop) {
        if let Ok(true) = wait_for_stop(self.rt, stop, &self.room.bell) {
            self.room.telling.tell(self.rt, Event::Stopped);
            self.room.stop(self.rt);
            self.shut(Shutdown::Read);
        }
    }

    // Says why the recorder is refused, if it is.
    fn outcome_of<W: Write>(&self, refusal: Option<Refusal>, err: &mut W) -> Outcome {
        let told = match refusal {
            Some(refusal) => refuse(self.rt, &self.room.telling, refusal, err),
            None => Ok(()),
        };
        Outcome { refusal, told }
    }

    // Tells how many viewers are still waited for, once nothing more is recorded.
    fn tell_missing(&self) {
        let missing = self.room.hall.missing(self.rt);
        if missing > 0 {
            self.room.telling.tell(self.rt, Event::Missing(missing));
        }
    }

    // Ends what was started, if a thread couldn't be made. What is accepted is committed until the
    // host's worker has ended, so that one that waits for room has some, and ends.
    fn give_up(&self, pen: FlusherPen<M>) {
        self.room.stop(self.rt);
        self.shut(Shutdown::Both);
        self.room.intake.end(self.rt);
        let _flushed = self.flush(pen);
        self.room.hall.end(self.rt);
        self.room.bell.ring();
    }
}

impl<'a, D: Disk, M: Mark, R: Threads + Clock + Wait> Service<'a, D, M, R> {
    // Commits until the host has ended, and waits for its worker: how both ended.
    fn record_all(&self, host: Option<JoinHandle<HostEnds>>, pen: FlusherPen<M>) -> Ends {
        let flusher = self.flush(pen);
        let (worker, host) = match host {
            Some(recording) => recording.join(self.rt),
            None => (Ok(()), HostEnd::Closed(0)),
        };
        Ends {
            flusher,
            worker,
            host,
            is_listener_sound: true,
            is_readable: true,
        }
    }

    // Records until the host has ended, says at once if that is refused, and waits until nobody is
    // left to be served.
    fn conduct<W: Write>(&self, crew: Crew, pen: FlusherPen<M>, err: &mut W) -> Outcome {
        let Crew {
            host,
            viewers,
            browsers,
        } = crew;
        let ends = self.record_all(host, pen);
        // First: nobody is let in meanwhile, however long the refusal's line waits for its reader.
        self.room.hall.end(self.rt);
        let outcome = self.outcome_of(first_refusal(ends), err);
        self.tell_missing();
        self.room.hall.wait_until_done(self.rt);
        self.room.bell.ring();
        let are_viewers_taken = viewers.join(self.rt);
        let are_browsers_taken = match browsers {
            Some(browsers) => browsers.join(self.rt),
            None => true,
        };
        let is_listener_sound = are_viewers_taken && are_browsers_taken;
        if outcome.refusal.is_some() {
            return outcome;
        }
        let is_readable = !self.room.is_unreadable();
        let ends = Ends {
            is_listener_sound,
            is_readable,
            ..ends
        };
        self.outcome_of(first_refusal(ends), err)
    }
}

impl<'a, D: Disk + Send, M: Mark + Send + Sync, R: Threads + Clock + Wait + Sync> Service<
    'a,
    D,
    M,
    R,
> {
    // Starts the threads beside the flusher's; `None` if one of them can't be made.
    fn start<E>(
        &'a self,
        scope: &'a Scope<'a, E>,
        doors: &'a Doors<'a>,
        host: Option<HostOnClock>,
        pen: HostPen<M>,
        comers: Vec<Comer>,
        stop: Stop,
    ) -> Option<Crew> {
        let host = match host {
            Some(host) => {
                let recording = scope.spawn(move || self.record(host, pen));
                if recording.is_err() {
                    self.shared.end_host(self.rt);
                }
                Some(recording.ok()?)
            }
            None => {
                self.shared.end_host(self.rt);
                None
            }
        };
        if stop.may_come() {
            scope.spawn(move || self.stop_when(stop)).ok()?;
        }
        if host.is_some() && self.room.telling.tells_all() {
            scope.spawn(move || self.watch_device()).ok()?;
        }
        let Listeners { viewers, web } = doors.listeners;
        let browsers = match web {
            Some(listener) => Some(
                scope
                    .spawn(move || self.accept_browsers(doors, listener))
                    .ok()?,
            ),
            None => None,
        };
        let viewers = scope.spawn(move || self.accept_all(viewers, comers)).ok()?;
        Some(Crew {
            host,
            viewers,
            browsers,
        })
    }

    // Runs the threads of a recorder within a scope of theirs, until all is done.
    fn run<E, W: Write>(
        &'a self,
        scope: &'a Scope<'a, E>,
        doors: &'a Doors<'a>,
        work: Work<M>,
        err: &mut W,
    ) -> Outcome {
        let Work {
            host,
            host_pen,
            flusher_pen,
            comers,
            stop,
        } = work;
        match self.start(scope, doors, host, host_pen, comers, stop) {
            Some(crew) => self.conduct(crew, flusher_pen, err),
            None => {
                self.give_up(flusher_pen);
                self.outcome_of(Some(Refusal::Thread), err)
            }
        }
    }
}

/// Records the host, if there is one, and serves those who came already and viewers, until all have
/// ended: how it ended.
pub fn run_threads<
    'a,
    D: Disk + Send,
    M: Mark + Send + Sync,
    R: Threads + Clock + Wait + Sync,
    W: Write,
>(
    service: &'a Service<'a, D, M, R>,
    doors: &'a Doors<'a>,
    work: Work<M>,
    err: &'a mut W,
) -> Outcome {
    thread::scope(
        thread::scope_env(),
        service.rt,
        |scope| service.run(scope, doors, work, err),
    )
}
