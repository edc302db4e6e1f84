//! What a viewer's frames say.

use std::alloc::Global;

/// The byte after each text: one that no UTF-8 has (RFC 3629, section 3), so that no text has it.
pub const END_OF_TEXT: u8 = 255;

/// What was heard of a viewer, each in its order.
#[derive(Debug, Drop)]
pub struct Heard {
    /// The payload of its binary messages: its bytes of RFB.
    pub payload: Vec<u8>,
    /// Its texts, each with [`END_OF_TEXT`] after it.
    pub words: Vec<u8>,
    /// What its pings and its close are answered, as frames.
    pub replies: Vec<u8>,
}

impl Heard {
    /// Nothing so far.
    pub fn new(alloc: Global) -> Heard {
        Heard {
            payload: Vec::new(alloc),
            words: Vec::new(alloc),
            replies: Vec::new(alloc),
        }
    }
}
