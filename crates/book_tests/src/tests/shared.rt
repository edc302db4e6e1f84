//! What no clause says: that the workers run beside each other, and that a call through the lock
//! answers what a desk's call answers. Updates and colours are worked by hand.

mod accounts;
mod parallel;
mod row;
mod twins;

use book_workers::shared_book::{Closed, Mark, Receipt, Ticket};
use disk::Disk;
use gated_journal::ReadFault;
use std::process::Abort;

/// An update that paints the one pixel red.
const UPDATE: [u8; 20] = [
    0, 0, 0, 1, 0, 0, 0, 0, 0, 1, 0, 1, 0, 0, 0, 0, 0, 0, 0xff, 0,
];

// Each receipt is confirmed; a reading that meets a fault is made again. How many messages they have.
fn confirm<D: Disk, M: Mark, R: Abort>(
    rt: &R,
    closed: &mut Closed<D, M>,
    receipts: &[Receipt<M>],
) -> Result<u64, ReadFault> {
    let mut handed = 0u64;
    for receipt in receipts {
        let stands = match closed.confirm(receipt) {
            Err(_) => closed.confirm(receipt)?,
            Ok(stands) => stands,
        };
        assert!(rt; stands);
        handed = handed.saturating_add(receipt.slice().messages.len() as u64);
    }
    Ok(handed)
}

// Each ticket is found that is below the closed count, and no other.
fn find<D: Disk, M: Mark, R: Abort>(
    rt: &R,
    closed: &mut Closed<D, M>,
    tickets: &[Ticket<M>],
) -> Result<(), ReadFault> {
    for ticket in tickets {
        let found = match closed.find(ticket) {
            Err(_) => closed.find(ticket)?,
            Ok(found) => found,
        };
        assert!(rt; found.is_some() == (ticket.number() < closed.committed()));
    }
    Ok(())
}
