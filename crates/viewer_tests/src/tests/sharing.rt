//! Viewers who want the same are sent what was written for one of them.

use super::{BOTH, RED, feed, started};
use std::alloc::Global;
use std::sync::atomic::{AtomicU32, Ordering};
use std::sync::{Arc, Mutex, Wait};
use std::test::Fail;
use viewer_session::shared_updates::{CommonShelf, SharedUpdate, Shelf, Updates, Wanted};

// Hextile, and a request for all of a screen of 2 by 1.
const WANTED: [u8; 18] = *b"\x02\0\0\x01\0\0\0\x05\x03\0\0\0\0\0\0\x02\0\x01";

// What is sent of a screen that RED was painted on.
const RED_AND_BLACK: [u8; 24] = *b"\0\0\0\x01\0\0\0\0\0\x02\0\x01\0\0\0\0\0\0\xff\0\0\0\0\0";

// A shelf, and how many updates were left for it.
#[derive(Drop)]
struct Counted<'a, R> {
    shelf: CommonShelf<'a, R>,
    left: AtomicU32,
}

impl<R: Wait> Updates for Counted<'_, R> {
    fn are_shared(&self) -> bool {
        self.shelf.are_shared()
    }

    fn find(&self, wanted: Wanted<'_>) -> Option<Arc<SharedUpdate>> {
        self.shelf.find(wanted)
    }

    fn leave(&self, update: SharedUpdate) {
        self.left.fetch_add(1, Ordering::SeqCst);
        self.shelf.leave(update);
    }
}

// What one is sent who begins with a screen of 2 by 1 that was painted by one update.
fn sent<U: Updates>(alloc: Global, updates: &U, painted: &[u8]) -> Result<Vec<u8>, Fail> {
    let mut session = started(alloc, 2, painted)?;
    feed(&mut session, &WANTED)?;
    let mut out = Vec::new(alloc);
    session.answer(updates, &mut out)?;
    Ok(out)
}

// The second is sent what was written for the first, of a screen of its own that shows the same; who
// is shown another picture is not; and one who is alone finds none, and leaves none.
#[test]
fn shared(rt: HostRuntime) -> Result<(), Fail> {
    let alloc = rt.alloc();
    let shelf = Mutex::new(Shelf::new(alloc));
    let mut counted = Counted {
        shelf: CommonShelf {
            rt: &rt,
            alloc,
            shelf: &shelf,
            are_several: true,
        },
        left: AtomicU32::new(0),
    };
    let rows: [(&[u8], &[u8], u32); 4] = [
        (&BOTH, &BOTH, 1),
        (&BOTH, &BOTH, 1),
        (&RED, &RED_AND_BLACK, 2),
        (&RED, &RED_AND_BLACK, 2),
    ];
    for (painted, due, left) in rows {
        assert!(rt; sent(alloc, &counted, painted)?.as_slice() == due);
        assert!(rt; counted.left.load(Ordering::SeqCst) == left);
    }
    counted.shelf.are_several = false;
    assert!(rt; sent(alloc, &counted, &BOTH)?.as_slice() == BOTH.as_slice());
    assert!(rt; counted.left.load(Ordering::SeqCst) == 2);
    Ok(())
}
