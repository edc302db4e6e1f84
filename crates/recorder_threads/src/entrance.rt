//! How viewers come in: one thread accepts, and each connection has a thread of its own.

use crate::accepting::accept_until_rung;
use crate::comer::Comer;
use crate::ends::is_shown_next;
use crate::no_turnstile::NoTurnstile;
use crate::service::Service;
use crate::viewer_stream::ViewerStream;
use carriage::Ending;
use disk::Disk;
use gated_journal::ReadFault;
use playing::Program;
use reception::Arrival;
use sockets::pause;
use std::net::{SocketAddr, TcpListener, TcpStream};
use std::sync::Wait;
use std::thread;
use std::thread::{Scope, Threads};
use std::time::Clock;
use steering::{Course, Showing};
use telling::Event;
use watching::book_workers::{ViewerEnd, run_viewer};
use watching::broadcast::{NextRefusal, Start};
use watching::connections::{Greeting, Guest, Viewer, turn_away};
use watching::shared_book::Mark;
use watching::{Guide, Live, Played, Still, Watching};
use web_target::Playback;

impl<'a, D: Disk, M: Mark, R: Clock + Wait> Service<'a, D, M, R> {
    // Shows a viewer the recording from a count of messages on, or live, as its guide decides. It
    // takes its seat at the last key screen before, so that no more than a block is read under the
    // lock at a time; what lies between is painted for it before it is answered.
    fn show<G: Guide<M, ViewerStream, R>>(
        &self,
        viewer: &Viewer<M, ViewerStream>,
        start: Start,
        guide: G,
    ) -> Result<(), ViewerEnd> {
        let (rt, shared, room) = (self.rt, self.shared, self.room);
        let start = match start {
            Start::Live => {
                viewer.show_from(rt, 0);
                Start::Live
            }
            Start::At(count) => {
                viewer.show_from(rt, count);
                // With one message more there is one before it, whose time is told with it.
                Start::At(shared.key_before(rt, count.saturating_sub(1)))
            }
        };
        let sink = Watching::new(rt, viewer, room, guide);
        run_viewer(rt, shared, start, sink, &NoTurnstile)
    }

    // Shows a viewer what the recorder was started for.
    fn watch(&self, viewer: &Viewer<M, ViewerStream>) -> Result<(), ViewerEnd> {
        let room = self.room;
        match room.program {
            Some(program) => self.show(viewer, room.from, Played::new(program)),
            None => self.show(viewer, room.from, Live::new(room, room.from)),
        }
    }

    // How many messages have come at this time, in milliseconds. That memory is short is told once, and
    // it is tried again as long as the viewer is there and the recorder isn't closing; that the device
    // failed is noted.
    fn count_at(&self, viewer: &Viewer<M, ViewerStream>, time: u32) -> Result<u64, ViewerEnd> {
        let (rt, room) = (self.rt, self.room);
        let mut is_short = false;
        for _ in rt.forever() {
            match self.shared.count_at(rt, time) {
                Ok(count) => return Ok(count),
                Err(ReadFault::Device) => {
                    room.note_unreadable(rt);
                    return Err(ViewerEnd::Next(NextRefusal::Device));
                }
                Err(ReadFault::NoMemory) if viewer.has_left() || room.hall.is_closing(rt) => {
                    return Err(ViewerEnd::Next(NextRefusal::NoMemory));
                }
                Err(ReadFault::NoMemory) => {
                    if !is_short {
                        room.telling.tell(rt, Event::Shortage);
                    }
                    is_short = true;
                    thread::sleep(rt, pause());
                }
            }
        }
        unreachable!()
    }

    // After how many messages a viewer is at this time, in milliseconds. What was painted first is shown
    // at any time before it.
    fn position_at(&self, viewer: &Viewer<M, ViewerStream>, time: u32) -> Result<u64, ViewerEnd> {
        let count = self.count_at(viewer, time)?;
        Ok(count.max(1).min(self.shared.committed(self.rt)))
    }

    // Shows a viewer in a browser the recording from a time on, in its own time.
    fn watch_playback(
        &self,
        viewer: &Viewer<M, ViewerStream>,
        playback: Playback,
    ) -> Result<(), ViewerEnd> {
        let from = self.position_at(viewer, playback.time)?;
        let program = Program {
            pace: playback.pace,
            longest_pause: playback.longest_pause,
            repeats: false,
            from,
            from_time: playback.time,
        };
        self.show(viewer, Start::At(from), Played::new(program))
    }

    // Shows a viewer in a browser what it asks for.
    fn watch_showing(
        &self,
        viewer: &Viewer<M, ViewerStream>,
        showing: Showing,
    ) -> Result<(), ViewerEnd> {
        match showing {
            Showing::Live => self.show(viewer, Start::Live, Live::new(self.room, Start::Live)),
            Showing::After(count) => {
                let start = Start::At(count.min(self.shared.committed(self.rt)));
                self.show(viewer, start, Live::new(self.room, start))
            }
            Showing::Played(playback) => self.watch_playback(viewer, playback),
            Showing::Still(time) => {
                let at = self.position_at(viewer, time)?;
                self.show(viewer, Start::At(at), Still::new(at))
            }
        }
    }

    // Shows a viewer in a browser what it asks for, one thing after another, until it leaves.
    fn watch_steered(&self, viewer: &Viewer<M, ViewerStream>) -> Result<(), ViewerEnd> {
        for _ in self.rt.forever() {
            let Some(steering) = viewer.begin(self.rt) else {
                return self.watch(viewer);
            };
            self.watch_showing(viewer, steering.showing)?;
            let is_closing = self.room.hall.is_closing(self.rt);
            if !is_shown_next(viewer.is_over(), viewer.has_left(), is_closing) {
                return Ok(());
            }
        }
        unreachable!()
    }

    // Shows a viewer the recording until it leaves, or all was shown, and tells why it ends then.
    fn attend_viewer(&self, viewer: &Viewer<M, ViewerStream>) -> Result<(), ViewerEnd> {
        let ended = self.watch_steered(viewer);
        let ending = match ended {
            Ok(()) => Ending::Ended,
            Err(_) => Ending::Unreadable,
        };
        viewer.part(self.rt, ending);
        viewer.leave(self.rt);
        ended
    }

    // Ends a handshake without a viewer, and tells how.
    fn end_handshake(&self, event: Event<'_>) {
        self.room.hall.give_up(self.rt);
        self.room.telling.tell(self.rt, event);
    }

    // Tells a connection why it is turned away.
    fn refuse(&self, stream: &ViewerStream, event: Event<'_>, ending: Ending) {
        let room = self.room;
        room.telling.tell(self.rt, event);
        let _told = turn_away(self.rt, room.alloc, stream, &room.bell, ending);
        room.hall.give_up(self.rt);
    }
}

impl<'a, D: Disk + Send, M: Mark + Send + Sync, R: Threads + Clock + Wait + Sync> Service<
    'a,
    D,
    M,
    R,
> {
    // Serves a viewer that has a seat until it leaves. What it does wrong ends it alone. Tells how it
    // ended.
    fn serve_viewer(&self, viewer: &Viewer<M, ViewerStream>, from: SocketAddr) -> Event<'static> {
        let (rt, room) = (self.rt, self.room);
        thread::scope(thread::scope_env(), rt, |scope| {
            let Ok(worker) = scope.spawn(move || self.attend_viewer(viewer)) else {
                return Event::NoThread(from);
            };
            viewer.listen(rt, self.shared, room);
            match worker.join(rt) {
                Err(ViewerEnd::Next(NextRefusal::Device)) => Event::Unshown(from),
                _ => Event::Left(from),
            }
        })
    }

    // Hears a guest's handshake to its end, and serves the viewer that it becomes, if it gets a seat.
    fn receive(&self, mut guest: Guest<ViewerStream>, from: SocketAddr, course: Option<Course>) {
        let (rt, room) = (self.rt, self.room);
        match guest.greet(rt, &room.bell) {
            Ok(Greeting::Whole) if room.fits(&guest) => {}
            _ => return self.end_handshake(Event::Unheard(from)),
        }
        if let Err(reason) = room.hall.seat(rt) {
            room.telling.tell(rt, Event::TurnedAway(from, reason));
            return;
        }
        room.facts.come();
        room.telling.tell(rt, Event::Came(from));
        let viewer = Viewer::<M, ViewerStream>::of(guest, course);
        let ended = self.serve_viewer(&viewer, from);
        room.facts.leave();
        room.hall.leave(rt);
        room.telling.tell(rt, ended);
    }

    // Makes a guest of a connection.
    fn welcome(&self, stream: ViewerStream, from: SocketAddr, course: Option<Course>) {
        let room = self.room;
        match Guest::new(room.alloc, stream, room.screen.size, &room.name) {
            Ok(guest) => self.receive(guest, from, course),
            Err(_) => self.end_handshake(Event::Unheard(from)),
        }
    }

    /// Attends to a connection until it has ended: of a viewer in a browser with what it asks for.
    pub fn attend(
        &self,
        stream: ViewerStream,
        from: SocketAddr,
        arrival: Arrival,
        course: Option<Course>,
    ) {
        if let Arrival::TurnedAway(reason) = arrival {
            return self.refuse(
                &stream,
                Event::TurnedAway(from, reason),
                Ending::TurnedAway(reason),
            );
        }
        let from_count = match (course, self.room.from) {
            (Some(course), _) => match course.steering.showing {
                Showing::After(count) => count,
                _ => 0,
            },
            (None, Start::At(count)) => count,
            (None, Start::Live) => 0,
        };
        if from_count > self.shared.committed(self.rt) {
            self.refuse(&stream, Event::TooFar(from), Ending::TooFar);
        } else {
            self.welcome(stream, from, course);
        }
    }

    // Has a connection attended to on a thread of its own.
    fn take<'s, E>(&'s self, scope: &'s Scope<'s, E>, stream: TcpStream, from: SocketAddr) {
        let room = self.room;
        let arrival = room.hall.arrive(self.rt);
        if arrival == Arrival::Dropped {
            room.telling.tell(self.rt, Event::Dropped(from));
            return;
        }
        let attending = scope.spawn(move || self.attend(
            ViewerStream::Plain(stream),
            from,
            arrival,
            None,
        ));
        if attending.is_err() {
            self.end_handshake(Event::NoThread(from));
        }
    }

    // Has one who came while the recording was read attended to, on a thread of its own.
    fn go_on<'s, E>(&'s self, scope: &'s Scope<'s, E>, comer: Comer) {
        let Comer { guest, from } = comer;
        if scope
            .spawn(move || self.receive(guest, from, None))
            .is_err()
        {
            self.end_handshake(Event::NoThread(from));
        }
    }

    // Has those attended to who have come, and who come until the bell rings: whether it did.
    fn accept_in<'s, E>(
        &'s self,
        scope: &'s Scope<'s, E>,
        listener: &Option<TcpListener>,
        comers: Vec<Comer>,
    ) -> bool {
        for comer in comers {
            self.go_on(scope, comer);
        }
        let room = self.room;
        let Some(listener) = listener else {
            room.bell.wait(None, None);
            return true;
        };
        accept_until_rung(
            self.rt,
            listener,
            &room.bell,
            &room.telling,
            |stream, from| self.take(scope, stream, from),
        )
    }

    /// Attends to those who have come, and accepts connections until the bell rings; waits until each
    /// has ended: whether nothing was wrong with the listener, if there is one.
    pub fn accept_all(&self, listener: &Option<TcpListener>, comers: Vec<Comer>) -> bool {
        let is_sound = thread::scope(
            thread::scope_env(),
            self.rt,
            |scope| self.accept_in(scope, listener, comers),
        );
        if !is_sound {
            // Nobody comes any more, so that nobody is waited for.
            self.room.hall.stop(self.rt);
        }
        is_sound
    }
}
