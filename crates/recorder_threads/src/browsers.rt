//! How browsers come in: each connection has a thread of its own, and asks for the page, a text, or a
//! viewer's connection.

use crate::accepting::accept_until_rung;
use crate::doors::Doors;
use crate::service::Service;
use crate::viewer_stream::ViewerStream;
use disk::Disk;
use playing::Pace;
use reception::Arrival;
use sockets::WebStream;
use std::alloc::AllocError;
use std::net::{SocketAddr, TcpListener, TcpStream};
use std::sync::{Arc, Wait};
use std::thread::{Scope, Threads};
use std::time::Clock;
use std::{io, thread};
use steering::{Course, Steering};
use telling::Event;
use timeline::{Block, Facts, Timeline, write_timeline};
use watching::flusher_core::BlockStart;
use watching::shared_book::Mark;
use web_requests::{Porch, Visit, Wish};
use web_target::{Beginning, Survey};

/// The thousandths of the pace at which a recording happened.
const AS_IT_HAPPENED: u32 = 1000;

/// How many blocks are looked at under the lock at a time.
const MOST_BLOCKS: u64 = 1024;

// What is told of a block.
fn block_of(start: BlockStart) -> Block {
    let BlockStart { start, end, time } = start;
    Block {
        time,
        message: start,
        updates: end.saturating_sub(start),
    }
}

impl<'a, D: Disk, M: Mark, R: Clock + Wait> Service<'a, D, M, R> {
    // The blocks that a survey asks for, few of them at a time under the lock.
    fn timeline(&self, survey: Survey) -> Result<Timeline, AllocError> {
        let Survey { from, every } = survey;
        let mut timeline = Timeline::new(self.room.alloc, from, every);
        for _ in self.rt.forever() {
            let starts = self
                .shared
                .block_starts(self.rt, self.room.alloc, timeline.next(), MOST_BLOCKS)?;
            if starts.is_empty() {
                return Ok(timeline);
            }
            for start in &starts {
                if !timeline.add(block_of(*start))? {
                    return Ok(timeline);
                }
            }
        }
        unreachable!()
    }

    // What came when, as JSON.
    fn times(&self, survey: Survey) -> io::Result<Vec<u8>> {
        let room = self.room;
        let timeline = self.timeline(survey)?;
        let facts = Facts {
            size: room.screen.size,
            messages: room.committed(),
            length: room.facts.length(),
        };
        let mut text = Vec::new(room.alloc);
        write_timeline(facts, &timeline, &mut text)?;
        Ok(text)
    }

    // Answers a connection of this number with what came when.
    fn answer_times(&self, porch: &Porch<'_, R>, stream: &TcpStream, number: u64, survey: Survey) {
        match self.times(survey) {
            Ok(text) => porch.tell(stream, number, Some(&text)),
            Err(_) => porch.tell(stream, number, None),
        }
    }
}

impl<'a, D: Disk + Send, M: Mark + Send + Sync, R: Threads + Clock + Wait + Sync> Service<
    'a,
    D,
    M,
    R,
> {
    // Attends to a viewer in a browser, whose upgrade was answered.
    fn attend_browser(&self, stream: Arc<TcpStream>, from: SocketAddr, beginning: Beginning) {
        let room = self.room;
        let Some(pace) = Pace::from_thousandths(AS_IT_HAPPENED) else {
            return;
        };
        let arrival = room.hall.arrive(self.rt);
        if arrival == Arrival::Dropped {
            room.telling.tell(self.rt, Event::Dropped(from));
            return;
        }
        let course = Course::of(Steering::of(beginning, pace), room.facts.length());
        self.attend(
            ViewerStream::Web(WebStream(stream)),
            from,
            arrival,
            Some(course),
        );
    }

    /// Attends to a visit until it has ended. What goes wrong ends it alone.
    pub fn attend_visit(&self, porch: &Porch<'_, R>, visit: Visit) {
        let Visit {
            stream,
            from,
            number,
            wish,
        } = visit;
        match wish {
            Wish::Times(survey) => self.answer_times(porch, &stream, number, survey),
            Wish::Watch(beginning) => self.attend_browser(stream, from, beginning),
        }
    }

    // Hears a connection, and attends to it.
    fn attend_request(
        &self,
        porch: &Porch<'_, R>,
        stream: Arc<TcpStream>,
        from: SocketAddr,
        number: u64,
    ) {
        if let Some(visit) = porch.hear(stream, from, number) {
            self.attend_visit(porch, visit);
        }
    }

    // Has a connection attended to on a thread of its own.
    fn take_browser<'s, E>(
        &'s self,
        scope: &'s Scope<'s, E>,
        porch: &'s Porch<'s, R>,
        stream: TcpStream,
        from: SocketAddr,
    ) {
        let Some((number, stream)) = porch.lobby.enter(self.rt, self.room.alloc, stream) else {
            self.room.telling.tell(self.rt, Event::Dropped(from));
            return;
        };
        if scope
            .spawn(move || self.attend_request(porch, stream, from, number))
            .is_err()
        {
            porch.lobby.leave(self.rt, number);
            self.room.telling.tell(self.rt, Event::NoThread(from));
        }
    }

    /// Answers browsers until the bell rings, and waits until each connection has ended: whether
    /// nothing was wrong with the listener.
    pub fn accept_browsers(&self, doors: &Doors<'_>, listener: &TcpListener) -> bool {
        let room = self.room;
        let porch = Porch {
            rt: self.rt,
            alloc: room.alloc,
            bell: &room.bell,
            lobby: doors.lobby,
            names: doors.names,
            telling: &room.telling,
        };
        thread::scope(thread::scope_env(), self.rt, |scope| {
            accept_until_rung(
                self.rt,
                listener,
                &room.bell,
                &room.telling,
                |stream, from| self.take_browser(scope, &porch, stream, from),
            )
        })
    }
}
