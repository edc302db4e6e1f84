//! The positions at which seats begin, and their screens, with the values worked by hand; how much
//! they are handed at once, and which slices come with a snapshot.

ghost use Rattle.std.specs.Prelude.{◌≡◌};
ghost use Rattle.book_workers.specs.Receipts.{IsScreenSized, size_of};
ghost use Rattle.flusher_core.specs.State.{accepted_count};
ghost use Rattle.book_tests.specs.OnePixel.{IsOfOnePixel};

use super::UPDATE;
use crate::{ONE_PIXEL, desk_of_one_pixel};
use book_workers::shared_book::{Delivery, Mark, Shared, Sharing, Token};
use broadcast::{Desk, Start};
use disk::{Disk, MemoryDisk};
use flusher_core::BlockStart;
use pixel_format::Color;
use rfb_wire::HostMessage;
use std::alloc::Global;
use std::marker::Brand;
use std::process::Abort;
use std::sync::Wait;
use std::test::Fail;

const BLACK: Color = Color { r: 0, g: 0, b: 0 };

const RED: Color = Color { r: 255, g: 0, b: 0 };

/// What a new seat is handed: its position, the colour of the screen there, and how many messages,
/// each the update.
#[derive(Clone, Copy, PartialEq, Eq)]
struct Begun {
    position: u64,
    start: Color,
    updates: usize,
}

// Records the update, at this time; `None` if that is refused.
fn record<D: Disk, M: Mark, R: Wait>(
    rt: &R,
    alloc: Global,
    sharing: &mut Sharing<D, M>,
    time: u32,
) -> Option<()>
    requires { IsOfOnePixel M.head }
{
    let message = HostMessage::from_bytes(alloc, ONE_PIXEL, &UPDATE).ok()?;
    let Sharing {
        shared,
        host,
        flusher,
    } = sharing;
    shared.host(rt, host, time, message).ok()?;
    shared.take(rt).ok()?;
    shared.body(rt).ok()?;
    shared.gate(rt, flusher).ok()?;
    Some(())
}

// Takes a seat, and what it is handed first; `None` if that is refused, has no screen, or has
// another message than the update.
fn begin<D: Disk, M: Mark, R: Wait>(rt: &R, shared: &Shared<D, M>, start: Start) -> Option<Begun>
    requires { IsOfOnePixel M.head }
{
    let mut seat = shared.join(rt, start).ok()?;
    let position = seat.position();
    let receipt = shared.next(rt, &mut seat, 8).ok()?;
    let slice = receipt.slice();
    for stamped in &slice.messages {
        if stamped.message.bytes() != UPDATE.as_slice() {
            return None;
        }
    }
    Some(Begun {
        position,
        start: slice.start.as_ref()?.color(0, 0),
        updates: slice.messages.len(),
    })
}

// How many messages were delivered, and the colour of the snapshot, if there is one.
fn delivered<M: Mark>(delivery: Delivery<M>) -> (usize, Option<Color>)
    requires one { IsOfOnePixel M.head }
    requires sized { IsScreenSized (size_of M.head) delivery.snapshot }
{
    let (receipt, snapshot) = delivery.split();
    let color = match snapshot {
        Some(snapshot) => Some(snapshot.color(0, 0)),
        None => None,
    };
    (receipt.slice().messages.len(), color)
}

// What a seat before two blocks is delivered: one message of them, all that are left, and then the
// newest screen.
fn deliver<D: Disk, M: Mark, R: Wait>(
    rt: &R,
    shared: &Shared<D, M>,
) -> Option<[(usize, Option<Color>); 4]>
    requires { IsOfOnePixel M.head }
{
    let mut seat = shared.join(rt, Start::At(0)).ok()?;
    let one = delivered(shared.next_part(rt, &mut seat, 1).ok()?);
    let rest = delivered(shared.next_part(rt, &mut seat, 8).ok()?);
    let newest = delivered(shared.newest(rt, &mut seat).ok()?);
    let mut other = shared.join(rt, Start::At(0)).ok()?;
    let both = delivered(shared.next_part(rt, &mut other, 8).ok()?);
    Some([one, rest, newest, both])
}

// Whether a second block has one message, of the time 20, and a viewer is shown another before it.
fn has_second<D: Disk, M: Mark, R: Wait>(
    rt: &R,
    alloc: Global,
    shared: &Shared<D, M>,
) -> Option<bool> {
    let second = BlockStart {
        start: 1,
        end: 2,
        time: 20,
    };
    let starts = shared.block_starts(rt, alloc, 1, 8).ok()?;
    Some(starts.as_slice() == [second].as_slice() && shared.count_at(rt, 19).ok()? == 1)
}

fn begin_all<D: Disk + Drop, M: Mark, R: Wait + Abort>(
    rt: &R,
    alloc: Global,
    token: Token,
    desk: Box<Desk<D>>,
)
    requires head { desk.value.head ≡ M.head }
    requires modelled { (D.is_modelled → M.is_modelled) × (M.is_modelled → D.is_modelled) }
    requires first { accepted_count desk.value.state.book ≡ M.first }
    requires names { token ≡ M.names }
    requires sized { IsOfOnePixel M.head }
{
    let mut sharing = Shared::<D, M>::new(rt, token, desk);
    assert!(rt; record(rt, alloc, &mut sharing, 10).is_some());
    for (start, position, color, updates) in [
        (Start::Live, 1, RED, 0),
        (Start::At(0), 0, BLACK, 1),
    ] {
        let due = Begun {
            position,
            start: color,
            updates,
        };
        assert!(rt; begin(rt, &sharing.shared, start) == Some(due));
    }
    assert!(rt; record(rt, alloc, &mut sharing, 20).is_some());
    let due = Begun {
        position: 2,
        start: RED,
        updates: 0,
    };
    assert!(rt; begin(rt, &sharing.shared, Start::Live) == Some(due));
    assert!(rt; has_second(rt, alloc, &sharing.shared) == Some(true));
    let due = [(1, None), (1, Some(RED)), (0, Some(RED)), (2, Some(RED))];
    assert!(rt; deliver(rt, &sharing.shared) == Some(due));
}

#[test]
fn a_seat_begins_with_the_screen_there(rt: HostRuntime) -> Result<(), Fail> {
    let alloc = rt.alloc();
    let desk = desk_of_one_pixel(alloc, MemoryDisk::new(alloc)).ok_or("no desk")?;
    let token = Token::new(alloc)?;
    begin_all::<MemoryDisk, Brand, _>(&rt, alloc, token, desk);
    Ok(())
}
