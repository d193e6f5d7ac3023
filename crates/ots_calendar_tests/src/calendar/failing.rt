// Each call of the disk failing in turn, and what the next call makes of it. It takes four calls to
// open a new book, and four each to store a commitment, a tip and an anchor: the body, a sync, the
// gate, a sync. Where the last sync fails, the next call finds what was stored; where an earlier one
// fails, it is stored anew.
use crate::calendar_runs::{
    BLOCK, COMMITMENT, COMPLETE, Counts, DIGEST, JOURNAL, NONCE, SECOND, TIP_ROOT, block_of,
    book_on, counts_of, expect_anchor, expect_close, expect_counts, expect_tip, give, handed_back,
    is_complete, is_left, is_pending, is_unknown, is_written, new_disk, put, tip,
};
use ots_block::Block;
use ots_calendar::{AnchorError, Book, Ticket, TipError};
use ots_disk::Disk;
use ots_journal::AppendError;
use std::alloc::Global;
use std::process::Abort;
use std::test::Fail;

/// How many of each there are where one digest waits and this many calls have failed.
fn still_waits(faults: u64) -> Counts {
    Counts {
        commits: 0,
        tips: 0,
        entries: 0,
        waiting: 1,
        faults,
    }
}

/// So many closes are refused and leave the digest waiting.
fn close_refused<D: Disk>(rt: &impl Abort, book: &mut Book<D>, refused: u64) -> Result<(), Fail> {
    for faults in 0..refused {
        expect_close(rt, book, SECOND, Err(AppendError::DiskFault))?;
        expect_counts(rt, book, still_waits(faults + 1));
    }
    Ok(())
}

/// Whether a ticket's receipt has the commitment, at this index.
fn is_given_at<D: Disk>(
    alloc: Global,
    book: &mut Book<D>,
    ticket: &Ticket,
    index: u64,
) -> Result<bool, Fail> {
    let receipt = give(alloc, book, ticket)?.receipt;
    Ok(is_written(alloc, &receipt.commitment, COMMITMENT)? && receipt.index == index)
}

/// So many closes are refused and leave the digest waiting; the next one stores its commitment at this
/// index.
fn close_again<D: Disk>(
    rt: &impl Abort,
    alloc: Global,
    book: &mut Book<D>,
    refused: u64,
    index: u64,
) -> Result<(), Fail> {
    let ticket = put(book, &DIGEST, NONCE)?;
    close_refused(rt, book, refused)?;
    assert!(rt; is_unknown(alloc, book, COMMITMENT)?);
    expect_close(rt, book, SECOND, Ok(Some(index)))?;
    assert!(rt; is_given_at(alloc, book, &ticket, index)?);
    Ok(())
}

/// The same of the book on a disk.
fn close_on<D: Disk + Drop>(
    rt: &impl Abort,
    alloc: Global,
    disk: D,
    refused: u64,
    index: u64,
) -> Result<(), Fail> {
    close_again(rt, alloc, &mut book_on(alloc, disk)?, refused, index)
}

/// These calls of the disk fail.
fn fail_close(
    rt: &impl Abort,
    alloc: Global,
    failing: &[u64],
    refused: u64,
    index: u64,
) -> Result<(), Fail> {
    close_on(rt, alloc, new_disk(alloc, failing)?, refused, index)
}

#[test]
fn a_close_that_fails_leaves_its_ticket_waiting(rt: HostRuntime) -> Result<(), Fail> {
    for (failing, index) in [(5, 0), (6, 0), (7, 0), (8, 1)] {
        fail_close(&rt, rt.alloc(), &[failing], 1, index)?;
    }
    // The next close begins with a read of the gate, which fails too.
    fail_close(&rt, rt.alloc(), &[5, 6], 2, 0)?;
    fail_close(&rt, rt.alloc(), &[8, 9], 2, 1)
}

/// A commitment and its tip, and a call that failed.
const ONE_TIP: Counts = Counts {
    commits: 1,
    tips: 1,
    entries: 2,
    waiting: 0,
    faults: 1,
};

/// The tip is refused, and there is none.
fn tip_refused<D: Disk>(rt: &impl Abort, book: &mut Book<D>) {
    assert_eq!(rt; tip(book), Err(TipError::DiskFault));
    assert_eq!(rt; counts_of(book).tips, 0);
}

/// The tip over the digest alone in its round is refused, and then given twice by one entry.
fn tip_again<D: Disk>(rt: &impl Abort, alloc: Global, book: &mut Book<D>) -> Result<(), Fail> {
    put(book, &DIGEST, NONCE)?;
    expect_close(rt, book, SECOND, Ok(Some(0)))?;
    tip_refused(rt, book);
    expect_tip(rt, alloc, book, 0, TIP_ROOT)?;
    expect_tip(rt, alloc, book, 0, TIP_ROOT)?;
    expect_counts(rt, book, ONE_TIP);
    Ok(())
}

/// The same of the book on a disk.
fn tip_on<D: Disk + Drop>(rt: &impl Abort, alloc: Global, disk: D) -> Result<(), Fail> {
    tip_again(rt, alloc, &mut book_on(alloc, disk)?)
}

/// This call of the disk fails.
fn fail_tip(rt: &impl Abort, alloc: Global, failing: u64) -> Result<(), Fail> {
    tip_on(rt, alloc, new_disk(alloc, &[failing])?)
}

#[test]
fn a_tip_that_failed_is_stored_once(rt: HostRuntime) -> Result<(), Fail> {
    for failing in 9..13 {
        fail_tip(&rt, rt.alloc(), failing)?;
    }
    Ok(())
}

/// The digest alone in its round has its tip.
fn tip_over_one<D: Disk>(rt: &impl Abort, alloc: Global, book: &mut Book<D>) -> Result<(), Fail> {
    put(book, &DIGEST, NONCE)?;
    expect_close(rt, book, SECOND, Ok(Some(0)))?;
    expect_tip(rt, alloc, book, 0, TIP_ROOT)
}

/// The anchor is refused. It may be stored, which the next call finds: then no tip is open.
fn anchor_again<D: Disk>(
    rt: &impl Abort,
    alloc: Global,
    book: &mut Book<D>,
    block: &Block,
    stored: bool,
) -> Result<(), Fail> {
    tip_over_one(rt, alloc, book)?;
    expect_anchor(rt, book, block, 7, Err(AnchorError::DiskFault))?;
    assert!(rt; is_pending(alloc, book, COMMITMENT)?);
    let again = if stored {
        Err(AnchorError::NoTip)
    } else {
        Ok([0, 1, 7])
    };
    expect_anchor(rt, book, block, 7, again)?;
    assert!(rt; is_complete(alloc, book, COMMITMENT, COMPLETE)?);
    Ok(())
}

/// The same with the block that holds the tip's root.
fn anchor_in_block<D: Disk>(
    rt: &impl Abort,
    alloc: Global,
    book: &mut Book<D>,
    stored: bool,
) -> Result<(), Fail> {
    let block = block_of(alloc, BLOCK)?;
    anchor_again(rt, alloc, book, &block, stored)
}

/// The same of the book on a disk, which is handed back.
fn anchor_on<D: Disk + Drop>(
    rt: &impl Abort,
    alloc: Global,
    disk: D,
    stored: bool,
) -> Result<D, Fail> {
    let mut book = book_on(alloc, disk)?;
    let ended = anchor_in_block(rt, alloc, &mut book, stored);
    handed_back(ended, book)
}

/// The bytes of the commitment, its tip and its anchor are left where this call of the disk fails.
fn leaves_the_journal(rt: &impl Abort, alloc: Global, failing: u64) -> Result<bool, Fail> {
    let disk = anchor_on(rt, alloc, new_disk(alloc, &[failing])?, failing == 16)?;
    is_left(alloc, &disk, JOURNAL)
}

/// This call of the disk fails. Then the bytes are those of the commitment, its tip and its anchor.
fn fail_anchor(rt: &impl Abort, alloc: Global, failing: u64) -> Result<(), Fail> {
    assert!(rt; leaves_the_journal(rt, alloc, failing)?, "call {failing}");
    Ok(())
}

#[test]
fn an_anchor_that_failed_is_stored_once(rt: HostRuntime) -> Result<(), Fail> {
    for failing in 13..17 {
        fail_anchor(&rt, rt.alloc(), failing)?;
    }
    Ok(())
}
