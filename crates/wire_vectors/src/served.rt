//! What a viewer is served.

ghost use Rattle.std.specs.Prelude.{◌≡◌, ◌<◌, ◌^◌, IfOk};
ghost use Rattle.viewer_session.specs.declared.view.View.{View};
ghost use Rattle.viewer_session.specs.View.{IsNext};

use crate::account::{Account, Untold};
use crate::screens::painted;
use crate::words::bytes;
use key_index::Stamped;
use painter::Snapshot;
use replay::Slice;
use rfb_wire::HostMessage;
use std::alloc::Global;
use terms::{NoMemory, ScreenSize};
use viewer_session::Session;
use viewer_session::shared_updates::Unshared;

// A session that begins with a screen. It is boxed, so that a function that ends early doesn't take
// it apart.
fn started(alloc: Global, size: ScreenSize, start: Snapshot) -> Result<Box<Session>, NoMemory>
    requires { (start.width ≡ size.width) × (start.height ≡ size.height) }
    ensures width { IfOk result (λ s. s.value.view.screen.width ≡ size.width) }
    ensures height { IfOk result (λ s. s.value.view.screen.height ≡ size.height) }
{
    let slice = Slice {
        first: 1,
        start: Some(start),
        messages: Vec::new(alloc),
    };
    let mut session = Box::new(alloc, Session::new(alloc, size, b"r")?)?;
    session.advance(&slice)?;
    Ok(session)
}

// An update of the recording, after so many messages.
fn slice_of(alloc: Global, first: u64, size: ScreenSize, update: &[u8]) -> Result<Slice, Untold>
    requires { first < 2 ^ 32 }
    ensures next { (view : View) → view.screen.width ≡ size.width
        → view.screen.height ≡ size.height → view.position ≡ first
        → IfOk result (IsNext view) }
{
    let Ok(message) = HostMessage::from_bytes(alloc, size, update) else {
        return Err(Untold::NoVector);
    };
    let messages = Vec::from_array(alloc, [Stamped { time: 0, message }])?;
    Ok(Slice {
        first,
        start: None,
        messages,
    })
}

// Goes on by an update of the recording.
fn go_on(
    alloc: Global,
    session: &mut Session,
    size: ScreenSize,
    update: &[u8],
) -> Result<(), Untold>
    requires width { session.old.view.screen.width ≡ size.width }
    requires height { session.old.view.screen.height ≡ size.height }
    ensures width { session.new.view.screen.width ≡ size.width }
    ensures height { session.new.view.screen.height ≡ size.height }
{
    let first = session.position();
    if first > 1_000_000 {
        return Err(Untold::NoVector);
    }
    session.advance(&slice_of(alloc, first, size, update)?)?;
    Ok(())
}

// Takes a piece of the viewer's stream, and tells its fault.
fn hear(
    account: &mut Account,
    session: &mut Session,
    number: usize,
    piece: &[u8],
) -> Result<(), NoMemory>
    ensures width { session.new.view.screen.width ≡ session.old.view.screen.width }
    ensures height { session.new.view.screen.height ≡ session.old.view.screen.height }
{
    match session.feed(piece) {
        Ok(()) => Ok(()),
        Err(fault) => account.tell_number_at(number, "fault", fault.number()),
    }
}

// Tells what is put out now, if anything is.
fn tell_out(account: &mut Account, session: &mut Session, number: usize) -> Result<(), NoMemory>
    ensures width { session.new.view.screen.width ≡ session.old.view.screen.width }
    ensures height { session.new.view.screen.height ≡ session.old.view.screen.height }
{
    let mut out = Vec::new(account.alloc);
    session.answer(&Unshared, &mut out)?;
    if out.is_empty() {
        return Ok(());
    }
    account.tell_at(number, "says")?;
    account.add_bytes(&out)
}

// Takes a part of a vector, an update after a plus or a piece of the viewer's stream, and tells
// what is put out then.
fn take_part(
    account: &mut Account,
    session: &mut Session,
    size: ScreenSize,
    number: usize,
    part: &str,
) -> Result<(), Untold>
    requires width { session.old.view.screen.width ≡ size.width }
    requires height { session.old.view.screen.height ≡ size.height }
    ensures width { session.new.view.screen.width ≡ size.width }
    ensures height { session.new.view.screen.height ≡ size.height }
{
    let alloc = account.alloc;
    match part.trim().strip_prefix("+") {
        Some(update) => go_on(alloc, session, size, &bytes(alloc, update)?)?,
        None => hear(account, session, number, &bytes(alloc, part)?)?,
    }
    Ok(tell_out(account, session, number)?)
}

fn take_parts(
    account: &mut Account,
    session: &mut Session,
    size: ScreenSize,
    parts: &str,
) -> Result<(), Untold>
    requires width { session.old.view.screen.width ≡ size.width }
    requires height { session.old.view.screen.height ≡ size.height }
{
    for (number, part) in (1usize..).zip(parts.split(",")) {
        take_part(account, session, size, number, part)?;
    }
    Ok(())
}

/// Tells what a viewer is served that begins with a screen of this size, which an update paints:
/// what is put out, and the faults, after the number of the part. Commas part the update, the
/// pieces of the viewer's stream, and updates by which the recording goes on, each after a plus.
pub(crate) fn run(account: &mut Account, size: ScreenSize, text: &str) -> Result<(), Untold> {
    let (update, parts) = text.split_once(",").unwrap_or((text, ""));
    let mut screen = painted(account.alloc, size, &bytes(account.alloc, update)?)?;
    let start = screen.snapshot(account.alloc)?;
    let mut session = started(account.alloc, size, start)?;
    take_parts(account, &mut session, size, parts)
}
