// What calls of a book are to answer.
use crate::calendar_runs::calls::{Counts, anchor_in, close, counts_of, is_tip};
use ots_block::Block;
use ots_calendar::{AnchorError, Book};
use ots_disk::Disk;
use ots_journal::AppendError;
use std::alloc::Global;
use std::process::Abort;
use std::test::Fail;

/// The round is closed at this second, and that is answered so.
pub fn expect_close<D: Disk>(
    rt: &impl Abort,
    book: &mut Book<D>,
    second: u32,
    answer: Result<Option<u64>, AppendError>,
) -> Result<(), Fail> {
    assert_eq!(rt; close(book, second)?, answer);
    Ok(())
}

/// The book has so many of each.
pub fn expect_counts<D: Disk>(rt: &impl Abort, book: &Book<D>, counts: Counts) {
    assert_eq!(rt; counts_of(book), counts);
}

/// The next tip is over these commitments and has this root.
pub fn expect_tip<D: Disk>(
    rt: &impl Abort,
    alloc: Global,
    book: &mut Book<D>,
    first: u64,
    root: &str,
) -> Result<(), Fail> {
    assert!(rt; is_tip(alloc, book, first, 1, root)?);
    Ok(())
}

/// A tip is anchored in a block at this height, and that is answered so.
pub fn expect_anchor<D: Disk>(
    rt: &impl Abort,
    book: &mut Book<D>,
    block: &Block,
    height: u32,
    answer: Result<[u64; 3], AnchorError>,
) -> Result<(), Fail> {
    assert_eq!(rt; anchor_in(book, block, height)?, answer);
    Ok(())
}
