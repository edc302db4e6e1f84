//! What carries a viewer's bytes.

ghost use Rattle.std.specs.Prelude.{◌≡◌, ◌++◌, IsTrue, OnOk};

use crate::ending::Ending;
use crate::framed::Framed;
use crate::status::Status;
use std::alloc::{AllocError, Global};
use std::mem;
use web_frames::Heard;

/// Carries a viewer's bytes both ways. It knows no socket, and keeps the order of what it is given.
#[derive(Drop)]
pub enum Carriage {
    /// As they are.
    Plain,
    /// In the frames of a WebSocket.
    Framed(Framed),
}

impl Carriage {
    /// In the frames of a connection whose upgrade was answered.
    pub fn framed(alloc: Global) -> Carriage {
        Carriage::Framed(Framed::new(alloc))
    }

    /// Takes the next piece of what comes, and appends what it carries. `false` ends the connection.
    pub fn take(&mut self, piece: &[u8], heard: &mut Heard) -> bool
        ensures carried { self.old ≡ Carriage.Plain → IsTrue result → heard.new.payload.items ≡ heard.old.payload.items ++ piece.now }
        ensures unsaid { self.old ≡ Carriage.Plain → (heard.new.words.items ≡ heard.old.words.items) × (heard.new.replies.items ≡ heard.old.replies.items) }
    {
        match self {
            Carriage::Plain => heard.payload.extend_from_slice(piece).is_ok(),
            Carriage::Framed(framed) => framed.take(piece, heard),
        }
    }

    /// Appends an answer as it is carried, whose vector is used up: a plain one is copied only if
    /// something comes before it. An error ends the connection.
    pub fn wrap(&mut self, answer: &mut Vec<u8>, out: &mut Vec<u8>) -> Result<(), AllocError>
        ensures { self.old ≡ Carriage.Plain → OnOk result (out.new.items ≡ out.old.items ++ answer.old.items) }
    {
        match self {
            Carriage::Plain if out.is_empty() => {
                mem::swap(out, answer);
                Ok(())
            }
            Carriage::Plain => out.append(answer),
            Carriage::Framed(framed) => framed.wrap(answer, out),
        }
    }

    /// Appends what is told beside updates, if the carriage has a way to say it.
    pub fn tell(&mut self, status: Status, out: &mut Vec<u8>) -> Result<(), AllocError>
        ensures { self.old ≡ Carriage.Plain → out.new.items ≡ out.old.items }
    {
        match self {
            Carriage::Plain => Ok(()),
            Carriage::Framed(framed) => framed.tell(status, out),
        }
    }

    /// Appends why the connection ends, once, if the carriage has a way to say it.
    pub fn end(&mut self, ending: Ending, out: &mut Vec<u8>) -> Result<(), AllocError>
        ensures { self.old ≡ Carriage.Plain → out.new.items ≡ out.old.items }
    {
        match self {
            Carriage::Plain => Ok(()),
            Carriage::Framed(framed) => framed.end(ending, out),
        }
    }
}
