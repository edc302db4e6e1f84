//! Refusals of an FBS file: written, or read.

const NO_BLOCK: &str = "\
The recording has no block FROM. OUT wasn't touched.
Blocks count from 0, and `recorderd list PATH` prints a line for each: give FROM
one of these numbers.";

const BAD_END: &str = "\
TO is before the first message of block FROM, or after the last message.
OUT wasn't touched. `recorderd list PATH` prints the first message of each
block, and `recorderd check PATH` how many messages there are.";

const DEVICE_FAILED: &str = "\
The device failed while the recording was read. The recording is as it was; OUT
has only the beginning of the file. See to the device, and export again.";

const NO_MEMORY_TO_EXPORT: &str = "\
Memory ran out while the recording was exported. The recording is as it was; OUT
has only the file's beginning. Free memory or raise its limit, and export again.";

const CANNOT_WRITE: &str = "\
OUT can't be written: its device is full or failed, or what reads it has gone.
The recording is as it was; OUT has only the beginning of the file. Make room,
or name another OUT, and export again.";

const NO_FBS_FILE: &str = "\
The file doesn't begin as an FBS file of version 001, or has under 12 bytes.
It is another file, or its beginning was lost: name another PATH.";

const TRUNCATED: &str = "\
The FBS file ends inside a block, or before the opening of its stream is whole.
It was cut off, as by an export that ended early: export it again.";

const OTHER_VERSION: &str = "\
The stream in the FBS file has another version than RFB 003.003.
Another program wrote it; this recorder reads files as it writes them.";

const OTHER_SECURITY: &str = "\
The stream in the FBS file has another security type than 1, None.
Another program wrote it; this recorder reads files as it writes them.";

const OTHER_FORMAT: &str = "\
The stream in the FBS file has another pixel format than 32 bits, little endian,
with red, green and blue of 8 bits at 16, 8 and 0.
Another program wrote it; this recorder reads files as it writes them.";

const OTHER_SIZE: &str = "\
The screen in the FBS file has a side of 0 or of more than 16,384, or more than
2^25 pixels. Another program wrote it, or the file was changed.";

const BAD_MESSAGE: &str = "\
A message in the FBS file is refused: `recorderd explain wire W` says why.
Another program wrote the file, or it was changed. If it is an export, export it
again.";

const NO_MEMORY_TO_READ: &str = "\
Memory ran out while the FBS file was read. This says nothing of the file.
Free memory or raise its limit, and try again.";

const CANNOT_READ: &str = "\
The FBS file can't be read to its end: the device failed, or it is a folder.
This says nothing of what it holds. See to the device, or name another PATH.";

/// The texts of `export`, from 1 on.
pub const EXPORT: [&str; 5] = [
    NO_BLOCK,
    BAD_END,
    DEVICE_FAILED,
    NO_MEMORY_TO_EXPORT,
    CANNOT_WRITE,
];

/// The texts of `fbs`, from 1 on.
pub const FBS: [&str; 9] = [
    NO_FBS_FILE,
    TRUNCATED,
    OTHER_VERSION,
    OTHER_SECURITY,
    OTHER_FORMAT,
    OTHER_SIZE,
    BAD_MESSAGE,
    NO_MEMORY_TO_READ,
    CANNOT_READ,
];
