//! Refusals of a recording: opened, made, read, or written.

const NO_RECORDING: &str = "\
The file isn't a recording; or a new one was to be made, and it isn't empty.
It is another file, or an older version's creation was cut off. Nothing was
written to it: name another PATH, or move the file away.";

const DAMAGED: &str = "\
With `block B`: block B isn't whole. Mostly, the file is a copy cut short: copy
it again. Or the device or a program changed it: `salvage` what is before B.
Without: the device failed, or is full, as a recording was made: start again.";

const DEVICE_FAILED: &str = "\
The device failed, or is full, as a recording was read, synced or written. What
was committed is safe: make room, or see to the device, and start again: the
recorder goes on with it. As a recording was made, it says that memory ran out.";

const NO_MEMORY_TO_OPEN: &str = "\
Memory ran out while a recording was opened. Nothing was written to it.
Free memory or raise its limit, and start again.";

const BAD_DIGEST: &str = "\
The digest of block B isn't that of its bytes after the blocks before it: block
B was changed, or one before it dropped, inserted or changed. Nothing was
written: restore the file from a copy, or `salvage` what is before B.";

const BAD_ENTRY: &str = "\
An entry of block B is damaged: its kind or its length, or how the block ends.
The device or another program changed the file. Restore it from a copy, or
`salvage` what is before B; see to the device.";

const BAD_MESSAGE: &str = "\
An entry of block B isn't one message of a host for a screen of this size.
The device or another program changed the file. Restore it from a copy, or
`salvage` what is before B; see to the device.";

const KEY_DIFFERS: &str = "\
The key screen of block B is missing, isn't due, or shows another screen than
the messages before it paint. The device or another program changed the file:
restore it from a copy, or `salvage` what is before B; see to the device.";

const TIMES_FALL: &str = "\
A message of block B has an earlier time than the one before it.
The device or another program changed the file. Restore it from a copy, or
`salvage` what is before B; see to the device.";

const NO_MEMORY_FOR_MESSAGES: &str = "\
Memory ran out while the messages of a recording were read. Nothing was written.
Free memory or raise its limit, and start again.";

const NOT_COMMITTED: &str = "\
The recording has fewer messages, or fewer blocks, than were asked for.
`recorderd check PATH` tells how many it has. Ask for a smaller number.";

const DEVICE_FAILED_AT_SCREEN: &str = "\
The device failed while a screen of the recording was read.
Nothing was written. See to the device, and start again.";

const NO_MEMORY_FOR_SCREEN: &str = "\
Memory ran out while a screen of the recording was painted.
Nothing was written. Free memory or raise its limit, and start again.";

const BACKLOG: &str = "\
1,024 messages, the most that may, wait to be committed.
`serve` waits by itself until there is room, and prints no such line; a drill's
`host refused 1` says the same: there `take`, `body` and `gate` make room.";

const FULL: &str = "\
The recording is as large as one may be: it could grow beyond 2^40 bytes.
All that was committed is safe, and can be shown and exported.
Record into a new file.";

const BROKEN: &str = "\
The device failed before, or is full: nothing more is recorded.
All that was committed is safe. Make room, or see to the device, and start
again: the recorder opens the recording and goes on.";

const NO_MEMORY_FOR_MESSAGE: &str = "\
Memory ran out for a message of the host, so that nothing more is recorded.
All that was committed is safe. Free memory or raise its limit, and start again:
the recorder opens the recording and goes on.";

/// The texts of `journal`, from 1 on.
pub const JOURNAL: [&str; 5] = [
    NO_RECORDING,
    DAMAGED,
    DEVICE_FAILED,
    NO_MEMORY_TO_OPEN,
    BAD_DIGEST,
];

/// The texts of `index`, from 1 on.
pub const INDEX: [&str; 5] = [
    BAD_ENTRY,
    BAD_MESSAGE,
    KEY_DIFFERS,
    TIMES_FALL,
    NO_MEMORY_FOR_MESSAGES,
];

/// The texts of `replay`, from 1 on.
pub const REPLAY: [&str; 3] = [NOT_COMMITTED, DEVICE_FAILED_AT_SCREEN, NO_MEMORY_FOR_SCREEN];

const NO_DIGESTS: &str = "\
The recording is of format 1, whose blocks have no digests.
A new recording has them, unless `serve` is told `--format 1`.";

const NO_SUCH_DIGEST: &str = "\
No block of the recording has this digest; without one, it has no blocks.
A recording whose digest was kept isn't the beginning of this one: compare with
a copy of it.";

/// The texts of `digest`, from 1 on.
pub const DIGEST: [&str; 2] = [NO_DIGESTS, NO_SUCH_DIGEST];

const TARGET_NOT_EMPTY: &str = "\
The file to write has bytes, and is as it was.
Name a file that isn't there, or remove what a refused `migrate` left.";

const SOURCE_FAILED: &str = "\
The recording can't be read: its disk failed, or the file changed meanwhile.
What was written is no recording, or isn't read again: remove it.";

const TARGET_FAILED: &str = "\
The file to write can't be written, synced or read: full, gone, or failing.
Remove it, mend that, and migrate again; the recording is as it was.";

const NO_MEMORY_TO_MIGRATE: &str = "\
Out of memory. The largest block is read whole, and two screens are painted.
Remove the file to write, and migrate again with more memory.";

const ALREADY_TWO: &str = "\
The recording is of format 2 already, so that its blocks have digests.
There is nothing to do; `digest` tells the last one.";

const TOO_LONG_IN_TWO: &str = "\
In format 2 the recording would be longer than one may be, which is 2^40 bytes.
It stays readable in format 1; `export` takes parts of it.";

/// The texts of `migrate`, from 1 on.
pub const MIGRATE: [&str; 6] = [
    TARGET_NOT_EMPTY,
    SOURCE_FAILED,
    TARGET_FAILED,
    NO_MEMORY_TO_MIGRATE,
    ALREADY_TWO,
    TOO_LONG_IN_TWO,
];

const SAVED_TARGET_NOT_EMPTY: &str = "\
The file to write has bytes, and is as it was.
Name a file that isn't there, or remove what a refused `salvage` left.";

const DAMAGED_SOURCE_FAILED: &str = "\
The damaged recording can't be read: its disk failed, or it changed meanwhile.
Copy what can be read of it to another disk, and salvage that.";

const SAVED_TARGET_FAILED: &str = "\
The file to write can't be written or synced: full, gone, or failing.
Remove it, mend that, and salvage again; the damaged recording is as it was.";

const NO_MEMORY_TO_SALVAGE: &str = "\
Out of memory. The largest block is read whole, and two screens are painted.
Remove the file to write, and salvage again with more memory.";

const TOO_LONG_TO_SALVAGE: &str = "\
The recording would be longer than one may be, which is 2^40 bytes.
No recorder makes such a file: see how it came to be.";

/// The texts of `salvage`, from 1 on.
pub const SALVAGE: [&str; 5] = [
    SAVED_TARGET_NOT_EMPTY,
    DAMAGED_SOURCE_FAILED,
    SAVED_TARGET_FAILED,
    NO_MEMORY_TO_SALVAGE,
    TOO_LONG_TO_SALVAGE,
];

/// The texts of `book`, from 1 on.
pub const BOOK: [&str; 4] = [BACKLOG, FULL, BROKEN, NO_MEMORY_FOR_MESSAGE];
