//! What stands in help of each command, as a table, and the reader of words that is made of it.

use crate::wrong::Spelling;
use clap::{Arg, ArgAction, Command};
use std::alloc::{AllocError, Global};

/// What a command takes. The last text of each tells of it in help.
enum Argument {
    /// A word that has to be given, and its name.
    Word(&'static str, &'static str),
    /// A word that may be left out, and its name.
    MaybeWord(&'static str, &'static str),
    /// One word or more, and their name.
    Words(&'static str, &'static str),
    /// `--NAME VALUE`: both names.
    Value(&'static str, &'static str, &'static str),
    /// The same, which has to be given.
    NeededValue(&'static str, &'static str, &'static str),
    /// `--NAME`.
    Flag(&'static str, &'static str),
}

use Argument::{Flag, MaybeWord, NeededValue, Value, Word, Words};

/// What the two servers take.
const TELLING: Argument = Flag(
    "verbose",
    "Tells what happens, a line each, on standard error",
);

/// What each other command takes.
const VERBOSE: Argument = Flag(
    "verbose",
    "Says more of what is refused, on standard error, as on a terminal",
);

/// A command: its name, what it does, an example, and what it takes, in the order of its help.
struct CommandWords {
    name: &'static str,
    about: &'static str,
    example: &'static str,
    arguments: &'static [Argument],
}

const COMMANDS: [CommandWords; 16] = [
    CommandWords {
        name: "drill",
        about: "Runs the drill script on standard input, and answers each of its lines",
        example: "Example: recorderd drill --keep r < first-recording.drill",
        arguments: &[Value(
            "keep",
            "FILE",
            "Writes the recording to this file in the end, which must not be there yet",
        )],
    },
    CommandWords {
        name: "list",
        about: "Prints a line for each block of a recording",
        example: "Example: recorderd list r",
        arguments: &[Word("PATH", "The recording")],
    },
    CommandWords {
        name: "check",
        about: "Reads a whole recording, and prints its size and how much it holds",
        example: "Example: recorderd check r",
        arguments: &[Word("PATH", "The recording")],
    },
    CommandWords {
        name: "info",
        about: "Prints a line for each recording: what it is, and how much it holds",
        example: "Example: recorderd info *.rec",
        arguments: &[Words("PATH", "The recordings")],
    },
    CommandWords {
        name: "digest",
        about: "Prints the digest of a recording's last block, which stands for all before it too",
        example: "Example, a day later: recorderd digest r DIGEST finds the block of that day",
        arguments: &[
            Word("PATH", "The recording"),
            MaybeWord(
                "DIGEST",
                "Prints the block that has this digest, or refuses: 64 hexadecimal digits",
            ),
        ],
    },
    CommandWords {
        name: "migrate",
        about: "Writes a recording of format 1 again in format 2, whose blocks have digests",
        example: "Example: recorderd migrate r chained",
        arguments: &[
            Word("PATH", "The recording"),
            Word("OUT", "The file to write, without bytes or not there yet"),
        ],
    },
    CommandWords {
        name: "salvage",
        about: "Writes what is right of a damaged recording, up to its first fault, into a new one",
        example: "Example: recorderd salvage damaged saved",
        arguments: &[
            Word("PATH", "The recording"),
            Word("OUT", "The file to write, without bytes or not there yet"),
            Flag(
                "behind",
                "Writes also the blocks that go on with the digests after the recording's end",
            ),
        ],
    },
    CommandWords {
        name: "export",
        about: "Writes a part of a recording as an FBS file",
        example: "Example, the first 20 messages: recorderd export r 0 20 r.fbs",
        arguments: &[
            Word("PATH", "The recording"),
            Word("FROM", "The block to begin with, from 0"),
            Word("TO", "The number of the first message left out"),
            Word("OUT", "The file to write"),
        ],
    },
    CommandWords {
        name: "page",
        about: "Writes a recording as one HTML file that plays it in any browser, without a network",
        example: "Example: recorderd page r r.html, and then open r.html",
        arguments: &[
            Word("PATH", "The recording"),
            Word("OUT", "The file to write"),
            Value("from", "BLOCK", "The block to begin with [default: 0]"),
            Value(
                "to",
                "COUNT",
                "The number of the first message left out [default: none is]",
            ),
        ],
    },
    CommandWords {
        name: "fbs-check",
        about: "Reads a whole FBS file, and prints its size and how much it holds",
        example: "Example: recorderd fbs-check r.fbs",
        arguments: &[Word("PATH", "The FBS file")],
    },
    CommandWords {
        name: "times",
        about: "Prints when something came in a recording, and how much",
        example: "Example, minute by minute: recorderd times r --every 60",
        arguments: &[
            Word("PATH", "The recording"),
            Value(
                "every",
                "SECONDS",
                "How long the stretches are, 1 to 86400 seconds [default: 10]",
            ),
        ],
    },
    CommandWords {
        name: "picture",
        about: "Writes the screen at a moment of a recording as a picture, in PNG, PPM or BMP",
        example: "Example, after a minute: recorderd picture r r.png --at 1:00",
        arguments: &[
            Word("PATH", "The recording"),
            Word(
                "OUT",
                "The file to write, in .png, .ppm or .bmp; or -, for PPM on standard output",
            ),
            Value(
                "at",
                "TIME",
                "The moment: 61210 (in milliseconds, as list prints them), 61.2s, 1:01.2 or 1:02:03",
            ),
            Value(
                "message",
                "COUNT",
                "In place of a time: after so many messages",
            ),
        ],
    },
    CommandWords {
        name: "frames",
        about: "Writes the screens of a recording as PPM pictures on standard output, for a video",
        example: "Example: recorderd frames r --rate 10 | ffmpeg -f image2pipe -framerate 10 -i - r.mp4",
        arguments: &[
            Word("PATH", "The recording"),
            NeededValue(
                "rate",
                "RATE",
                "How many pictures a second of the recording, 1 to 60",
            ),
            Value(
                "from",
                "FROM",
                "The first picture's moment, as 61210 (in milliseconds) or 1:01.2 [default: 0]",
            ),
            Value(
                "to",
                "TO",
                "No picture is later; as --from [default: when the last message is shown]",
            ),
        ],
    },
    CommandWords {
        name: "browse",
        about: "Serves a page on which a recording is played in a browser",
        example: "Example: recorderd browse r, and then look at http://127.0.0.1:8080/",
        arguments: &[
            Word("PATH", "The recording"),
            Value(
                "listen",
                "ADDR",
                "Where browsers connect to; a number is a port of this machine alone [default: 8080]",
            ),
            Value(
                "web-name",
                "NAME",
                "By which names browsers may ask, besides addresses and localhost, a comma between two",
            ),
            Value("seconds", "SECONDS", "Ends after so many seconds"),
            Flag("until-input-ends", "Ends once standard input ends"),
            TELLING,
        ],
    },
    CommandWords {
        name: "serve",
        about: "Records a host into a file, and shows the recording to viewers as it grows",
        example: "Example: recorderd serve --file r --host 127.0.0.1:5901 --listen 127.0.0.1:5900 --viewers any",
        arguments: &[
            NeededValue(
                "file",
                "PATH",
                "The recording; made for a host if it isn't there",
            ),
            Value(
                "listen",
                "ADDR",
                "Where viewers connect to; may be left out with --web",
            ),
            Value(
                "web",
                "WEB",
                "Where browsers connect to, to watch on a page; a number is a port of this machine alone",
            ),
            Value(
                "web-name",
                "NAME",
                "By which names browsers may ask, besides addresses and localhost, a comma between two",
            ),
            Value(
                "host",
                "HOST",
                "The host; without one the recording is served alone",
            ),
            Value(
                "key",
                "K",
                "A new recording's key interval, 1 to 4096 [default: 256]",
            ),
            Value(
                "format",
                "FORMAT",
                "A new recording's format, 1 or 2, whose blocks have digests [default: 2]",
            ),
            Flag(
                "overwrite",
                "Goes on with a recording even over blocks that a damaged gate hides",
            ),
            Value(
                "viewers",
                "N",
                "How many viewers are waited for, 1 to 256, or any: whoever comes [default: 1; with --web: any]",
            ),
            Value(
                "from",
                "FROM",
                "After how many messages viewers begin, or live [default: live]",
            ),
            Value(
                "at",
                "TIME",
                "In place of a number of messages: a moment, as 61210 (in milliseconds) or 1:01.2",
            ),
            Value(
                "pace",
                "PACE",
                "Without a host: plays the recording so many times as fast as it happened, 0.1 to 100",
            ),
            Value(
                "longest-pause",
                "PAUSE",
                "With --pace: shortens longer pauses to so many seconds of the recording",
            ),
            Flag("repeat", "With --pace: begins again at the end"),
            Value("seconds", "SECONDS", "Ends after so many seconds"),
            Flag(
                "until-host-ends",
                "Ends once the host has ended, also with --web",
            ),
            Flag("until-input-ends", "Ends once standard input ends"),
            TELLING,
        ],
    },
    CommandWords {
        name: "explain",
        about: "Says what a refusal means, where it comes from, and what to do",
        example: "Example, of the line 'recorderd: check refused journal 1': recorderd explain journal 1",
        arguments: &[
            Word("AREA", "The word after 'refused'"),
            Word("NUMBER", "The number after it"),
        ],
    },
];

fn arg<'a>(alloc: Global, argument: &Argument) -> Arg<'a> {
    let (name, long, is_needed, help) = match *argument {
        Word(name, help) => (name, None, true, help),
        MaybeWord(name, help) => (name, None, false, help),
        Words(name, help) => (name, None, true, help),
        Value(long, name, help) => (name, Some(long), false, help),
        NeededValue(long, name, help) => (name, Some(long), true, help),
        Flag(long, help) => {
            return Arg::new(alloc, long)
                .long(long)
                .help(help)
                .action(ArgAction::SetTrue);
        }
    };
    let arg = Arg::new(alloc, name)
        .help(help)
        .required(is_needed)
        .action(ArgAction::Set);
    match (long, argument) {
        (Some(long), _) => arg.long(long),
        (None, Words(..)) => arg.num_args(1..),
        (None, _) => arg,
    }
}

fn command<'a>(alloc: Global, words: &CommandWords) -> Result<Command<'a>, AllocError> {
    let mut command = Command::new(alloc, words.name)
        .about(words.about)
        .after_help(words.example);
    for argument in words.arguments {
        command = command.arg(arg(alloc, argument))?;
    }
    if words.name == "serve" || words.name == "browse" {
        return Ok(command);
    }
    command.arg(arg(alloc, &VERBOSE))
}

/// How a command's argument is written that has this name in help.
pub fn spelled(command: &str, of: &'static str) -> Spelling {
    for words in &COMMANDS {
        if words.name != command {
            continue;
        }
        for argument in words.arguments {
            match *argument {
                Value(long, name, _) | NeededValue(long, name, _) if name == of => {
                    return Spelling {
                        long: Some(long),
                        name: of,
                    };
                }
                _ => {}
            }
        }
    }
    Spelling {
        long: None,
        name: of,
    }
}

/// The reader of the program's words.
pub fn reader<'a>(alloc: Global) -> Result<Command<'a>, AllocError> {
    let mut program = Command::new(alloc, "recorderd")
        .about("Records one VNC session, so that a crash at any moment loses nothing acknowledged")
        .version("1.1.3")
        .subcommand_required(true);
    for words in &COMMANDS {
        program = program.subcommand(command(alloc, words)?)?;
    }
    Ok(program)
}
