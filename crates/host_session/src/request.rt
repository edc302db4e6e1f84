//! What a host is asked for.

ghost use Rattle.std.specs.Prelude.{◌≡◌, List, ◌++◌, OnOk};
ghost use Rattle.host_session.specs.Handshake.{first_requests};
ghost use Rattle.host_session.specs.Session.{requests_after};

use client_wire::{write_request, write_set_encodings, write_set_pixel_format};
use pixel_format::PixelFormat;
use rfb_wire::HostMessage;
use terms::{Area, NoMemory, ScreenSize};

// CopyRect, Hextile, RRE and Raw, by their numbers; the host takes the first that it knows.
const ENCODINGS: [i32; 4] = [1, 5, 2, 0];

/// Appends a request for what has changed on the whole screen, for each update among messages.
pub fn write_requests(
    size: ScreenSize,
    messages: &[HostMessage],
    out: &mut Vec<u8>,
) -> Result<(), NoMemory>
    ensures { OnOk result (out.new.items
        ≡ out.old.items ++ requests_after size.width size.height messages.now) }
{
    for message in messages {
        if message.is_update() {
            write_request(true, Area::whole(size), out)?;
        }
    }
    Ok(())
}

/// Appends what is sent once ServerInit is whole: the host format, the encodings, and a request for
/// the whole screen.
pub fn write_first_requests(size: ScreenSize, out: &mut Vec<u8>) -> Result<(), NoMemory>
    ensures { OnOk result (out.new.items ≡ out.old.items ++ first_requests size.width size.height) }
{
    write_set_pixel_format(&PixelFormat::host(), out)?;
    write_set_encodings(&ENCODINGS, out)?;
    write_request(false, Area::whole(size), out)?;
    Ok(())
}
