//! Refusals of a host, or of its messages within an FBS file.

const UNKNOWN_TYPE: &str = "\
A message has a type that no message of a host has.
The host, or what wrote the FBS file, keeps to another protocol or extension.
Messages before it are valid. Use or update a VNC server that keeps to RFB 3.8.";

const OUTSIDE_SCREEN: &str = "\
A rectangle of an update leaves the screen.
The host's screen was resized meanwhile, or its server or the FBS file is wrong.
Messages before it are valid. After a resize, record into a new file.";

const ENCODING: &str = "\
A rectangle is in an encoding other than Raw, CopyRect, RRE and Hextile.
The host sent what it wasn't asked for, or another program wrote the FBS file.
Messages before it are valid. Use or update a VNC server that keeps to RFB 3.8.";

const TOO_LONG: &str = "\
An update is longer than 67,108,864 bytes, in format 2 than 268,435,456.
The host's server is faulty, or another program wrote the FBS file.
Messages before it are valid. Use another server, or a smaller screen.";

const BAD_RRE: &str = "\
In RRE data, a subrectangle leaves its rectangle.
The host's server is faulty, or the FBS file was changed.
Messages before it are valid. Update the server, or use another one.";

const BAD_HEXTILE: &str = "\
In Hextile data, a tile says what it may not, or a subrectangle leaves its tile.
The host's server is faulty, or the FBS file was changed.
Messages before it are valid. Update the server, or use another one.";

const SOURCE_OUTSIDE: &str = "\
A CopyRect copies from outside the screen.
The host's server is faulty, or the FBS file was changed.
Messages before it are valid. Update the server, or use another one.";

const BAD_FORMAT: &str = "\
A pixel format is refused. Only a viewer sends one, so no command is refused by
this: a viewer whose format can't be used is closed, and all else goes on.";

const NO_MEMORY: &str = "\
Memory ran out while a message was read. This says nothing of the host or file.
Messages before it are valid. Free memory or raise its limit, and start again.";

const OTHER_VERSION: &str = "\
The host doesn't speak RFB 3.8 (`RFB 003.008`), the only version that is spoken
here. It is a VNC server of another version, or no VNC server: look at the port.
Use or set up a server that speaks 3.8.";

const WANTS_PASSWORD: &str = "\
The host wants a password, or encryption: it doesn't offer the type None.
The recorder has neither. Let the server offer None, at its own machine's
loopback alone, and reach it by `ssh -L`.";

const REFUSED_BY_HOST: &str = "\
The host refused the connection, and gave a reason, which `--verbose` prints.
It has too many clients, say, or bars this address.
Change that at the host, and start again.";

const SIZE_DIFFERS: &str = "\
The host's screen has another size than the recording.
The screen was resized since, or PATH is a recording of another host.
Nothing was written: record into a new file, or give the screen its old size.";

const TOO_LARGE: &str = "\
The host's screen is too large: a side of more than 16,384, or more than 2^25
pixels, in format 1 8,192 and 2^23; or a side is 0.
Set the screen to a smaller size at the host.";

/// The texts of `wire`, from 1 on.
pub const WIRE: [&str; 9] = [
    UNKNOWN_TYPE,
    OUTSIDE_SCREEN,
    ENCODING,
    TOO_LONG,
    BAD_RRE,
    BAD_HEXTILE,
    SOURCE_OUTSIDE,
    BAD_FORMAT,
    NO_MEMORY,
];

/// The texts of `host` for the handshake, from 20 on.
pub const HANDSHAKE: [&str; 5] = [
    OTHER_VERSION,
    WANTS_PASSWORD,
    REFUSED_BY_HOST,
    SIZE_DIFFERS,
    TOO_LARGE,
];
