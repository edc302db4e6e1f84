//! Bytes in the frames of a WebSocket.

use crate::ending::Ending;
use crate::status::Status;
use std::alloc::{AllocError, Global};
use web_frames::{Fault, Frames, Heard};

/// How many bytes of an answer a frame carries at most, so that a browser paints while the rest
/// comes.
const LARGEST_PART: usize = 32_768;

// What a fault in writing is to who writes: no memory, for a connection that is closed is written to
// no more.
fn unwritten(_fault: Fault) -> AllocError {
    AllocError
}

/// The frames of a connection whose upgrade was answered.
#[derive(Drop)]
pub struct Framed {
    alloc: Global,
    frames: Frames,
}

impl Framed {
    /// Before the first frame.
    pub fn new(alloc: Global) -> Framed {
        Framed {
            alloc,
            frames: Frames::new(alloc),
        }
    }

    /// Takes the next piece of what comes, and appends what it carries. `false` ends the connection,
    /// which is told why.
    pub fn take(&mut self, piece: &[u8], heard: &mut Heard) -> bool {
        match self.frames.feed(piece, heard) {
            Ok(()) => true,
            Err(fault) => {
                let _closed = self.end(Ending::Faulty(fault), &mut heard.replies);
                false
            }
        }
    }

    /// Appends an answer in binary messages.
    pub fn wrap(&mut self, answer: &[u8], out: &mut Vec<u8>) -> Result<(), AllocError> {
        for part in answer.chunks(LARGEST_PART) {
            self.frames.wrap(part, out).map_err(unwritten)?;
        }
        Ok(())
    }

    /// Appends a status as a text.
    pub fn tell(&mut self, status: Status, out: &mut Vec<u8>) -> Result<(), AllocError> {
        let text = status.text(self.alloc)?;
        self.frames.tell(text.as_str(), out).map_err(unwritten)
    }

    /// Appends the close of the connection, once.
    pub fn end(&mut self, ending: Ending, out: &mut Vec<u8>) -> Result<(), AllocError> {
        self.frames
            .close(ending.code(), ending.reason(), out)
            .map_err(unwritten)
    }
}
