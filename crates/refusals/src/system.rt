//! Refusals of the system: its files, sockets and threads.

const FILE_FAILS: &str = "\
A file can't be opened, made, locked or written: no permission; a folder, device
or pipe; a link to no recording; another recorder has it; FILE or PATH.new is
there; OUT has a recording; PATH was replaced. With `--verbose`, a line says so.";

const NET_FAILS: &str = "\
The address to listen at can't be used (it is in use, or unknown), or the host
can't be reached, was silent for 30 seconds in its handshake, or broke off: see
`--verbose`. What was committed is safe: start again, and the recorder goes on.";

const THREAD_FAILS: &str = "\
The system makes no more threads: a limit of them, or of memory, is reached.
Nothing more was recorded than `recorderd check PATH` tells.
Raise the limit, or free memory, and start again.";

const FILE_WAS_LONGER: &str = "\
After the recording's end there are blocks that go on with its digests, more
than a crash leaves: a damaged gate hides them. `salvage PATH OUT --behind`
saves them. To write over them, start `recorderd serve` with `--overwrite`.";

/// The texts of `file`, by number.
pub const FILE: [&str; 2] = [FILE_FAILS, FILE_WAS_LONGER];

/// The text of `net`.
pub const NET: [&str; 1] = [NET_FAILS];

/// The text of `thread`.
pub const THREAD: [&str; 1] = [THREAD_FAILS];
