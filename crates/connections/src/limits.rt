//! How long peers may take.

/// How many seconds a handshake may take as a whole.
pub const HANDSHAKE: u64 = 30;

/// How many seconds an answer to a viewer may take as a whole.
pub const ANSWER: u64 = 120;

/// How many seconds a viewer may take to be told why its connection ends.
pub const PARTING: u64 = 1;

/// How many seconds what is said to a host may take.
pub const REQUEST: u64 = 30;

/// How many seconds a viewer may take to ask for the rest once all is recorded.
pub const FAREWELL: u64 = 10;

/// After how many seconds without an update a viewer in a browser is told how the session stands, so
/// that it, and what lies between, knows that the connection is there; also one for which the recording
/// is still searched for what it asked for.
pub const PULSE: u64 = 5;

/// How many milliseconds lie between two orders of a viewer that are obeyed: each reads the recording
/// and wakes all others, so many orders cost them little.
pub const BETWEEN_ORDERS: u64 = 50;
