//! The words of the two servers, `browse` and `serve`.

use crate::numbers::{if_given, number, thousandths, within};
use crate::wrong::{MOMENT, NAMES, SECONDS, Wrong, word};
use browse::Browsing;
use clap::ArgMatches;
use playing::Pace;
use reception::Stop;
use serve_plan::{Audience, Origin, Plan, Playing};
use spelling::moment;
use telling::Told;
use terms::Format;

fn stop(matches: &ArgMatches<'_>) -> Result<Stop, Wrong> {
    let after = if_given(matches.get_str("SECONDS").map(number));
    Ok(Stop {
        at_end_of_input: matches.get_flag("until-input-ends"),
        after: after.ok_or(Wrong::Value("SECONDS", SECONDS))?,
    })
}

/// Which recording is looked at, and at which address.
pub fn browsing<'a>(matches: &ArgMatches<'a>, is_verbose: bool) -> Result<Browsing<'a>, Wrong> {
    Ok(Browsing {
        recording: word(matches, "PATH")?,
        listen: matches.get_str("ADDR").unwrap_or("8080"),
        names: names(matches)?,
        stop: stop(matches)?,
        told: told(matches, is_verbose),
        is_verbose,
    })
}

// By a number of messages, or by a time; one of the two is given at most.
fn origin(matches: &ArgMatches<'_>) -> Result<Origin, Wrong> {
    match (matches.get_str("FROM"), matches.get_str("TIME")) {
        (None | Some("live"), None) => Ok(Origin::Live),
        (Some(word), None) => match number(word) {
            Some(count) => Ok(Origin::Count(count)),
            None => Err(Wrong::Value("FROM", "a number of messages, or live")),
        },
        (None, Some(word)) => match moment(word) {
            Some(time) => Ok(Origin::Time(time)),
            None => Err(Wrong::Value("TIME", MOMENT)),
        },
        _ => Err(Wrong::Words("only one of --from and --at may be given")),
    }
}

// How fast a recording is played.
fn pace(word: &str) -> Option<Pace> {
    Pace::from_thousandths(thousandths(word)?)
}

// How a recording is played, if it is; a host's isn't.
fn playing(matches: &ArgMatches<'_>) -> Result<Option<Playing>, Wrong> {
    let longest_pause = matches.get_str("PAUSE");
    let repeats = matches.get_flag("repeat");
    let Some(word) = matches.get_str("PACE") else {
        if longest_pause.is_some() || repeats {
            return Err(Wrong::Words("--longest-pause and --repeat need --pace"));
        }
        return Ok(None);
    };
    if matches.get_str("HOST").is_some() {
        return Err(Wrong::Words("--pace is for a recording alone, without --host"));
    }
    let Some(pace) = pace(word) else {
        return Err(Wrong::Value("PACE", "a number from 0.1 to 100"));
    };
    let longest_pause = if_given(longest_pause.map(thousandths));
    Ok(Some(Playing {
        pace,
        longest_pause: longest_pause.ok_or(Wrong::Value("PAUSE", SECONDS))?,
        repeats,
    }))
}

fn format(word: Option<&str>) -> Result<Format, Wrong> {
    match word {
        Some("1") => Ok(Format::One),
        None | Some("2") => Ok(Format::Two),
        Some(_) => Err(Wrong::Value("FORMAT", "1 or 2")),
    }
}

fn audience(matches: &ArgMatches<'_>) -> Result<Audience, Wrong> {
    let word = matches.get_str("N");
    match word {
        Some("any") => Ok(Audience::Any),
        None if matches.get_str("WEB").is_some() => Ok(Audience::Any),
        Some(_) if matches.get_str("WEB").is_some() => {
            Err(Wrong::Words("with --web viewers come and go: --viewers may only be any"))
        }
        _ => {
            let seats = Format::Two.limits().seats as u64;
            match within(word, 1, seats, 1) {
                Some(count) => Ok(Audience::Count(count as u32)),
                None => Err(Wrong::Value("N", "a number from 1 to 256, or any")),
            }
        }
    }
}

// Whether the host's end ends a recorder to which whoever likes comes.
fn ends_with_host(matches: &ArgMatches<'_>) -> Result<bool, Wrong> {
    let ends = matches.get_flag("until-host-ends");
    if ends && matches.get_str("HOST").is_none() {
        return Err(Wrong::Words("--until-host-ends needs --host"));
    }
    if ends && audience(matches)? != Audience::Any {
        return Err(Wrong::Words(
            "--until-host-ends waits for nobody: it needs --web or --viewers any",
        ));
    }
    Ok(ends)
}

// Whether a word is names of machines alone, with a comma between two.
fn are_names(word: &str) -> bool {
    word.bytes().all(|byte| byte.is_ascii_alphanumeric()
        || matches!(byte, b'.' | b'-' | b'_' | b','))
}

// By which names browsers may ask.
fn names<'a>(matches: &ArgMatches<'a>) -> Result<Option<&'a str>, Wrong> {
    match matches.get_str("NAME") {
        Some(word) if !are_names(word) => Err(Wrong::Value("NAME", NAMES)),
        names => Ok(names),
    }
}

// How much is told of what happens: all if that is asked for, and on a terminal why it is refused.
fn told(matches: &ArgMatches<'_>, is_verbose: bool) -> Told {
    if matches.get_flag("verbose") {
        Told::Everything
    } else if is_verbose {
        Told::Refusals
    } else {
        Told::Nothing
    }
}

// The addresses that viewers and browsers connect to, of which one has to be given.
fn addresses<'a>(matches: &ArgMatches<'a>) -> Result<(Option<&'a str>, Option<&'a str>), Wrong> {
    match (matches.get_str("ADDR"), matches.get_str("WEB")) {
        (None, None) => Err(Wrong::Words("one of --listen and --web is needed")),
        (_, None) if matches.get_str("NAME").is_some() => {
            Err(Wrong::Words("--web-name needs --web"))
        }
        addresses => Ok(addresses),
    }
}

/// What is recorded and served, to whom, and how it ends.
pub fn plan<'a>(matches: &ArgMatches<'a>, is_verbose: bool) -> Result<Plan<'a>, Wrong> {
    let key_interval = within(matches.get_str("K"), 1, 4096, 256);
    let playing = match playing(matches) {
        Ok(playing) => playing,
        Err(wrong) => return Err(wrong),
    };
    let file = word(matches, "PATH")?;
    let (listen, web) = addresses(matches)?;
    Ok(Plan {
        file,
        listen,
        web,
        web_names: names(matches)?,
        host: matches.get_str("HOST"),
        format: format(matches.get_str("FORMAT"))?,
        key_interval: key_interval.ok_or(Wrong::Value("K", "a number from 1 to 4096"))? as u16,
        audience: audience(matches)?,
        ends_with_host: ends_with_host(matches)?,
        overwrites: matches.get_flag("overwrite"),
        from: origin(matches)?,
        playing,
        stop: stop(matches)?,
        told: told(matches, is_verbose),
    })
}
