//! The threads that keep what was opened of the recording: one keeps it, and each visit has one.

ghost use Rattle.std.specs.Prelude.{◌≡◌};
ghost use Rattle.flusher_core.specs.State.{accepted_count};

use crate::handover::Handover;
use crate::opening::Opened;
use file_disk::FileDisk;
use reception::{Stop, Term};
use recorder_threads::Service;
use recorder_threads::broadcast::Start;
use recorder_threads::connections::{Beginning, Device, Hall, Room};
use recorder_threads::refusals::Stopped;
use recorder_threads::shared_book::{Mark, Shared, Sharing, Token};
use serve_plan::{Audience, Origin, Plan};
use sockets::Bell;
use std::marker::Brand;
use std::sync::atomic::{AtomicBool, Ordering};
use std::sync::{Arc, Wait};
use std::thread;
use std::thread::{Scope, Threads};
use std::time::Clock;
use telling::{Event, Telling, Told};
use terms::Format;
use web_requests::{Porch, Visit, Wish};

/// What those who keep something of the recording have together.
#[derive(Drop)]
pub struct Keeper<'a, R> {
    /// The recording's file.
    pub recording: &'a str,
    pub porch: &'a Porch<'a, R>,
    pub telling: &'a Telling,
    /// How much of what happens is told.
    pub told: Told,
    /// Whether the device failed when a viewer was to be shown what is recorded.
    pub is_unreadable: AtomicBool,
}

/// What one thread keeps: the recording as it was opened, and through which visits come to it.
#[derive(Drop)]
pub struct Keeping {
    pub opened: Box<Opened>,
    pub token: Token,
    /// What wakes those who are there.
    pub bell: Bell,
    pub visits: Arc<Handover>,
}

// What a recorder would be asked for that has no host and shows a recording to browsers.
fn plan_of<'a>(told: Told) -> Plan<'a> {
    Plan {
        file: "",
        listen: None,
        web: Some(""),
        web_names: None,
        host: None,
        format: Format::Two,
        key_interval: 1,
        audience: Audience::Any,
        ends_with_host: false,
        overwrites: false,
        from: Origin::Live,
        playing: None,
        stop: Stop::never(),
        told,
    }
}

impl<'a, R: Clock + Wait> Keeper<'a, R> {
    /// Ends a visit that nobody attends to.
    pub fn turn_away(&self, visit: Visit) {
        if let Wish::Times(_) = visit.wish {
            self.porch.tell(&visit.stream, visit.number, None);
        }
    }

    // Forgets one of this number and wish, whose connection is gone.
    fn forget(&self, number: u64, wish: Wish) {
        if let Wish::Times(_) = wish {
            self.porch.lobby.leave(self.porch.rt, number);
        }
    }

    // What the threads of this recording share beside it.
    fn room_of<M: Mark>(&self, opened: &Opened, bell: Bell) -> Result<Box<Room<M>>, Stopped>
        requires { opened.now.desk.value.head ≡ M.head }
    {
        let alloc = self.porch.alloc;
        let desk = &opened.desk;
        let seats = desk.header().format().limits().seats as u32;
        let beginning = Beginning {
            start: Start::Live,
            program: None,
        };
        let room = Room::<M>::new(
            alloc,
            desk.header().screen(),
            desk.header().name().to_vec(alloc)?,
            &plan_of(self.told),
            beginning,
            Hall::new(Term::Stop, seats),
            bell,
            self.telling.share()?,
            opened.last_error.share()?,
            Device::new(self.porch.rt),
            desk.committed(),
            desk.last_time(),
        );
        Ok(Box::new(alloc, room)?)
    }
}

impl<'k, R: Threads + Clock + Wait + Sync> Keeper<'k, R> {
    // Attends to a visit on its own thread.
    fn attend<M: Mark + Send + Sync>(
        &self,
        service: &Service<'_, FileDisk, M, R>,
        visits: &Handover,
        visit: Visit,
    ) {
        service.attend_visit(self.porch, visit);
        visits.leave(self.porch.rt);
    }

    // Has those attended to who come, until it is over, and then ends it for those who are there: within
    // a scope of threads.
    fn attend_in<'s, E, M: Mark + Send + Sync>(
        &'s self,
        scope: &'s Scope<'s, E>,
        service: &'s Service<'s, FileDisk, M, R>,
        visits: &'s Handover,
    ) {
        let rt = self.porch.rt;
        for _ in rt.forever() {
            let Some(visit) = visits.next(rt) else {
                break;
            };
            let (number, wish, from) = (visit.number, visit.wish, visit.from);
            if scope
                .spawn(move || self.attend(service, visits, visit))
                .is_err()
            {
                self.forget(number, wish);
                visits.leave(rt);
                self.telling.tell(rt, Event::NoThread(from));
            }
        }
        service.room.stop(rt);
        service.room.bell.ring();
    }

    // Has those attended to who come, until it is over and all have left.
    fn attend_all<'s, M: Mark + Send + Sync>(
        &'s self,
        service: &'s Service<'s, FileDisk, M, R>,
        visits: &'s Handover,
    ) {
        thread::scope(
            thread::scope_env(),
            service.rt,
            |scope| self.attend_in(scope, service, visits),
        );
    }

    // Shows a recording that was opened, under a mark that fits it, to those who come.
    fn show<M: Mark + Send + Sync>(
        &self,
        rt: &R,
        opened: Box<Opened>,
        token: Token,
        bell: Bell,
        visits: &Handover,
    ) -> Result<(), Stopped>
        requires head { opened.value.desk.value.head ≡ M.head }
        requires modelled { M.is_modelled → ⊥ }
        requires first { accepted_count opened.value.desk.value.state.book ≡ M.first }
        requires names { token ≡ M.names }
    {
        let room = self.room_of::<M>(&opened, bell)?;
        let Opened { desk, .. } = Box::into_inner(opened);
        let Sharing {
            shared,
            flusher,
            ..
        } = Shared::<FileDisk, M>::new(rt, token, desk);
        let no_host = None;
        let service = Service {
            rt: &*rt,
            shared: &shared,
            room: &room,
            stream: &no_host,
        };
        service.record_nothing(flusher);
        (&*self).attend_all(&service, &*visits);
        if room.is_unreadable() {
            self.is_unreadable.store(true, Ordering::SeqCst);
        }
        drop(service);
        Ok(())
    }

    /// Keeps what was opened until it is over, and those who were handed in have ended.
    pub fn keep(&self, keeping: Keeping) {
        let Keeping {
            opened,
            token,
            bell,
            visits,
        } = keeping;
        let _kept = self.show::<Brand>(self.porch.rt, opened, token, bell, &visits);
        for visit in visits.stop(self.porch.rt, self.porch.alloc) {
            self.turn_away(visit);
        }
    }
}
