//! A connection that is being greeted.

ghost use Rattle.std.specs.Prelude.{◌≡◌, ◌<◌, ◌^◌, IfOk, length};

use crate::limits::HANDSHAKE;
use carriage::Carriage;
use sockets::{Bell, Connection, Woken, time_left};
use std::alloc::Global;
use std::io;
use std::time::{Clock, Instant};
use terms::ScreenSize;
use viewer_session::Session;
use viewer_session::shared_updates::Unshared;
use web_frames::Heard;

/// How many bytes are read at a time while the handshake is under way.
const PIECE: usize = 64;

/// The version that is spoken, and its newline.
pub(crate) const VERSION: [u8; 12] = *b"RFB 003.008\n";

/// How far a guest's handshake has come.
#[derive(Clone, Copy, Debug, PartialEq, Eq)]
pub enum Greeting {
    /// It is whole.
    Whole,
    /// The bell rang before it was. It can go on.
    UnderWay,
    /// It ended before it was: the guest left, or broke the rules.
    Over,
}

/// A connection whose handshake begins or is under way, with its session, of a recording that may
/// not be read yet.
#[derive(Drop)]
pub struct Guest<C: Connection> {
    pub(crate) alloc: Global,
    pub(crate) connection: C,
    pub(crate) session: Session,
    pub(crate) carriage: Carriage,
    pub(crate) heard: Heard,
    /// The size of the screen that it is told of.
    pub size: ScreenSize,
    ghost sized: { (session.view.screen.width ≡ size.width) × (session.view.screen.height ≡ size.height) },
}

impl<C: Connection> Guest<C> {
    /// The one at the other end of this connection, who is told of a recording of this size and
    /// name.
    pub fn new(alloc: Global, connection: C, size: ScreenSize, name: &[u8]) -> io::Result<Guest<C>>
        requires name { length name.now < 2 ^ 32 }
        ensures size { IfOk result (λ guest. guest.size ≡ size) }
    {
        connection.watch_over()?;
        let session = Session::new(alloc, size, name)?;
        let carriage = connection.carriage(alloc);
        Ok(Guest {
            alloc,
            connection,
            session,
            carriage,
            heard: Heard::new(alloc),
            size,
        })
    }

    // Takes a piece of what the guest sends, and answers what is due: whether the handshake goes on.
    fn hear<R: Clock>(&mut self, rt: &R, piece: &[u8]) -> io::Result<bool>
        ensures size { self.new.size ≡ self.old.size }
    {
        // Orders before the end of the handshake are about nothing.
        self.heard.payload.clear();
        self.heard.words.clear();
        let is_carried = self.carriage.take(piece, &mut self.heard);
        let goes_on = self.session.feed(&self.heard.payload).is_ok() && is_carried;
        let mut out = Vec::new(self.alloc);
        out.append(&mut self.heard.replies)?;
        if is_carried {
            let mut due = Vec::new(self.alloc);
            self.session.answer(&Unshared, &mut due)?;
            self.carriage.wrap(&mut due, &mut out)?;
        }
        self.connection.write_within(rt, &out, HANDSHAKE)?;
        Ok(goes_on)
    }

    /// Hears the rest of the handshake, for 30 seconds at most, or until the bell rings.
    pub fn greet<R: Clock>(&mut self, rt: &R, bell: &Bell) -> io::Result<Greeting>
        ensures size { self.new.size ≡ self.old.size }
    {
        let started = Instant::now(rt)?;
        let mut buffer = [0u8; PIECE];
        if !self.hear(rt, &[])? {
            return Ok(Greeting::Over);
        }
        for _ in 0..u64::MAX {
            if self.session.is_greeted() {
                return Ok(Greeting::Whole);
            }
            let left = time_left(rt, started, HANDSHAKE)?;
            match self.connection.wait(bell, left) {
                Woken::Rung => return Ok(Greeting::UnderWay),
                Woken::TimedOut => {}
                Woken::Ready => {
                    let count = self.connection.read(&mut buffer)?;
                    if count == 0 || !self.hear(rt, &buffer[..count])? {
                        return Ok(Greeting::Over);
                    }
                }
            }
        }
        Ok(Greeting::Over)
    }
}

/// Reads over the version of a connection, until the bell rings: whether it came.
pub(crate) fn hear_version<C: Connection, R: Clock>(
    rt: &R,
    alloc: Global,
    connection: &C,
    carriage: &mut Carriage,
    bell: &Bell,
) -> io::Result<bool> {
    let started = Instant::now(rt)?;
    let mut buffer = [0u8; PIECE];
    let mut heard = Heard::new(alloc);
    for _ in 0..u64::MAX {
        if heard.payload.len() >= VERSION.len() {
            return Ok(true);
        }
        let left = time_left(rt, started, HANDSHAKE)?;
        match connection.wait(bell, left) {
            Woken::Rung => return Ok(false),
            Woken::TimedOut => {}
            Woken::Ready => {
                let count = connection.read(&mut buffer)?;
                if count == 0 || !carriage.take(&buffer[..count], &mut heard) {
                    return Ok(false);
                }
                heard.words.clear();
                heard.replies.clear();
            }
        }
    }
    Ok(false)
}

/// Writes an answer as it is carried.
pub(crate) fn say<C: Connection, R: Clock>(
    rt: &R,
    alloc: Global,
    connection: &C,
    carriage: &mut Carriage,
    answer: &[u8],
) -> io::Result<()> {
    let mut out = Vec::new(alloc);
    carriage.wrap(&mut answer.to_vec(alloc)?, &mut out)?;
    connection.write_within(rt, &out, HANDSHAKE)
}
