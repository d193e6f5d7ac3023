// Calls of a book, one each.
use crate::calendar_runs::books::{is_written, key, uri};
use ots_block::Block;
use ots_calendar::{AnchorError, Book, Leaf, PutError, Taken, Ticket, TipError};
use ots_disk::{Disk, MemoryDisk};
use ots_journal::AppendError;
use ots_store::Tip;
use std::alloc::Global;
use std::test::Fail;

/// The most transactions of a block.
const MOST: usize = 4_194_304;

/// A nonce.
pub const NONCE: [u8; 16] = [7; 16];

/// A Unix second.
pub const SECOND: u32 = 1_700_000_000;

/// How many of each a book has.
#[derive(Clone, Copy, Debug, PartialEq, Eq)]
pub struct Counts {
    pub commits: u64,
    pub tips: usize,
    /// Commitments, tips and anchors.
    pub entries: u64,
    pub waiting: u64,
    pub faults: u64,
}

/// How many of each a book has.
pub fn counts_of<D: Disk>(book: &Book<D>) -> Counts {
    let store = book.store();
    Counts {
        commits: store.commits(),
        tips: store.tips().len(),
        entries: store.entries(),
        waiting: book.waiting(),
        faults: book.faults(),
    }
}

/// How many calls were made of a disk.
pub fn calls_of(disk: &MemoryDisk) -> usize {
    disk.calls().len()
}

/// Whether a disk holds these bytes, in hexadecimal.
pub fn is_left(alloc: Global, disk: &MemoryDisk, digits: &str) -> Result<bool, Fail> {
    is_written(alloc, disk.bytes(), digits)
}

/// Puts a digest.
pub fn put<D: Disk>(book: &mut Book<D>, digest: &[u8], nonce: [u8; 16]) -> Result<Ticket, Fail> {
    Ok(book.put(Leaf::new(digest)?, nonce)?)
}

/// Whether one digest more is refused since too many wait.
pub fn is_busy<D: Disk>(book: &mut Book<D>, digest: &[u8]) -> Result<bool, Fail> {
    let put = book.put(Leaf::new(digest)?, NONCE);
    Ok(matches!(put, Err(PutError::Busy)))
}

/// Closes the round at this second.
pub fn close<D: Disk>(
    book: &mut Book<D>,
    second: u32,
) -> Result<Result<Option<u64>, AppendError>, Fail> {
    Ok(book.close(second, &key()?))
}

/// The next tip.
pub fn tip<D: Disk>(book: &mut Book<D>) -> Result<Tip, TipError> {
    book.tip()
}

/// Whether the next tip is over these commitments and has this root.
pub fn is_tip<D: Disk>(
    alloc: Global,
    book: &mut Book<D>,
    first: u64,
    count: u64,
    root: &str,
) -> Result<bool, Fail> {
    match tip(book) {
        Ok(tip) if tip.first == first && tip.count == count => is_written(alloc, &tip.root, root),
        _ => Ok(false),
    }
}

/// Anchors a tip in a block at this height: the first of its commitments, how many there are, and
/// the height.
pub fn anchor_in<D: Disk>(
    book: &mut Book<D>,
    block: &Block,
    height: u32,
) -> Result<Result<[u64; 3], AnchorError>, Fail> {
    if block.count() < 1 || block.count() > MOST {
        return Err(Fail::from("no such block"));
    }
    match book.anchor(block, height as u64) {
        Ok(anchor) => Ok(Ok([anchor.first, anchor.count, anchor.height])),
        Err(why) => Ok(Err(why)),
    }
}

/// Whether a ticket waits.
pub fn is_waiting<D: Disk>(
    alloc: Global,
    book: &mut Book<D>,
    ticket: &Ticket,
) -> Result<bool, Fail> {
    let taken = book.take(ticket, &uri(alloc)?)?;
    Ok(matches!(taken, Taken::Waiting))
}

/// Whether there is no such ticket.
pub fn is_gone<D: Disk>(alloc: Global, book: &mut Book<D>, ticket: &Ticket) -> Result<bool, Fail> {
    let taken = book.take(ticket, &uri(alloc)?)?;
    Ok(matches!(taken, Taken::Unknown))
}

/// Gives a ticket up.
pub fn withdraw<D: Disk>(book: &mut Book<D>, ticket: &Ticket) -> bool {
    book.withdraw(ticket)
}
