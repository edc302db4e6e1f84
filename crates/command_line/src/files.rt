//! The commands on files.

use crate::numbers::{if_given, number, within};
use crate::wrong::{MOMENT, NUMBER, Wrong, word};
use browse::file_commands::{
    Chaining, Extract, FileCommand, Filming, Migration, Moment, Salvaging, Scene, Timing,
};
use clap::ArgMatches;
use hex::FromHex;
use pictures::PictureFormat;
use spelling::moment;

fn extract<'a>(matches: &ArgMatches<'a>) -> Result<Extract<'a>, Wrong> {
    Ok(Extract {
        recording: word(matches, "PATH")?,
        from_block: number(word(matches, "FROM")?).ok_or(Wrong::Value("FROM", NUMBER))?,
        to: Some(number(word(matches, "TO")?).ok_or(Wrong::Value("TO", NUMBER))?),
        out: word(matches, "OUT")?,
    })
}

fn page<'a>(matches: &ArgMatches<'a>) -> Result<Extract<'a>, Wrong> {
    let from = if_given(matches.get_str("BLOCK").map(number)).ok_or(Wrong::Value("BLOCK", NUMBER))?;
    let to = if_given(matches.get_str("COUNT").map(number)).ok_or(Wrong::Value("COUNT", NUMBER))?;
    Ok(Extract {
        recording: word(matches, "PATH")?,
        from_block: from.unwrap_or(0),
        to,
        out: word(matches, "OUT")?,
    })
}

// By a time or by a number of messages; one of the two is given.
fn moment_of(matches: &ArgMatches<'_>) -> Result<Moment, Wrong> {
    match (matches.get_str("TIME"), matches.get_str("COUNT")) {
        (Some(word), None) => match moment(word) {
            Some(time) => Ok(Moment::Time(time)),
            None => Err(Wrong::Value("TIME", MOMENT)),
        },
        (None, Some(word)) => match number(word) {
            Some(count) => Ok(Moment::Count(count)),
            None => Err(Wrong::Value("COUNT", NUMBER)),
        },
        _ => Err(Wrong::Words("one of --at and --message has to be given")),
    }
}

fn scene<'a>(matches: &ArgMatches<'a>) -> Result<Scene<'a>, Wrong> {
    let out = word(matches, "OUT")?;
    let format = if out.ends_with(".png") {
        PictureFormat::Png
    } else if out.ends_with(".bmp") {
        PictureFormat::Bmp
    } else if out == "-" || out.ends_with(".ppm") {
        PictureFormat::Ppm
    } else {
        return Err(Wrong::Value("OUT", "a name that ends in .png, .ppm or .bmp, or -"));
    };
    Ok(Scene {
        recording: word(matches, "PATH")?,
        moment: moment_of(matches)?,
        format,
        out: Some(out).filter(|out| *out != "-"),
    })
}

// A moment that may be left out.
fn maybe_moment(matches: &ArgMatches<'_>, name: &'static str) -> Result<Option<u32>, Wrong> {
    match matches.get_str(name) {
        None => Ok(None),
        Some(word) => match moment(word) {
            Some(time) => Ok(Some(time)),
            None => Err(Wrong::Value(name, MOMENT)),
        },
    }
}

fn filming<'a>(matches: &ArgMatches<'a>) -> Result<Filming<'a>, Wrong> {
    let from = maybe_moment(matches, "FROM")?.unwrap_or(0);
    let to = maybe_moment(matches, "TO")?;
    if to.is_some_and(|to| to < from) {
        return Err(Wrong::Words("--to has to be no earlier than --from"));
    }
    let rate = within(matches.get_str("RATE"), 1, 60, 1);
    Ok(Filming {
        recording: word(matches, "PATH")?,
        from,
        to,
        rate: rate.ok_or(Wrong::Value("RATE", "a number from 1 to 60"))? as u8,
    })
}

fn digest(word: &str) -> Option<[u8; 32]> {
    <[u8; 32] as FromHex>::from_hex(word).ok()
}

fn chaining<'a>(matches: &ArgMatches<'a>) -> Result<Chaining<'a>, Wrong> {
    let digest = if_given(matches.get_str("DIGEST").map(digest));
    Ok(Chaining {
        recording: word(matches, "PATH")?,
        digest: digest.ok_or(Wrong::Value("DIGEST", "64 hexadecimal digits"))?,
    })
}

fn migration<'a>(matches: &ArgMatches<'a>) -> Result<Migration<'a>, Wrong> {
    Ok(Migration {
        recording: word(matches, "PATH")?,
        out: word(matches, "OUT")?,
    })
}

fn salvaging<'a>(matches: &ArgMatches<'a>) -> Result<Salvaging<'a>, Wrong> {
    Ok(Salvaging {
        recording: word(matches, "PATH")?,
        out: word(matches, "OUT")?,
        with_hidden: matches.get_flag("behind"),
    })
}

fn timing<'a>(matches: &ArgMatches<'a>) -> Result<Timing<'a>, Wrong> {
    let seconds = within(matches.get_str("SECONDS"), 1, 86_400, 10);
    let seconds = seconds.ok_or(Wrong::Value("SECONDS", "a number from 1 to 86400"))?;
    Ok(Timing {
        recording: word(matches, "PATH")?,
        every: seconds as u32 * 1000,
    })
}

/// The command on files of this name, or which word isn't what it should be.
pub fn on_files<'a>(name: &str, matches: &ArgMatches<'a>) -> Result<FileCommand<'a>, Wrong> {
    match name {
        "list" => word(matches, "PATH").map(FileCommand::List),
        "check" => word(matches, "PATH").map(FileCommand::Check),
        "digest" => chaining(matches).map(FileCommand::Digest),
        "times" => timing(matches).map(FileCommand::Times),
        "picture" => scene(matches).map(FileCommand::Picture),
        "frames" => filming(matches).map(FileCommand::Frames),
        "migrate" => migration(matches).map(FileCommand::Migrate),
        "salvage" => salvaging(matches).map(FileCommand::Salvage),
        "export" => extract(matches).map(FileCommand::Export),
        "page" => page(matches).map(FileCommand::Page),
        "fbs-check" => word(matches, "PATH").map(FileCommand::FbsCheck),
        _ => Err(Wrong::Words("there is no such command")),
    }
}
