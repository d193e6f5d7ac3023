// Rounds and their tickets.
use crate::calendar::values::FULL;
use crate::calendar_runs::{
    Counts, DIGEST, NONCE, SECOND, TICKET_TREE, book_on, calls_of, expect_close, expect_counts,
    give, handed_back, is_busy, is_given, is_gone, is_waiting, is_written, new_disk, put, withdraw,
};
use ots_calendar::{Book, Ticket};
use ots_disk::Disk;
use std::alloc::Global;
use std::process::Abort;
use std::test::Fail;

/// Puts 65,536 digests, each the 8 bytes of its number, the high byte first.
fn fill<D: Disk>(alloc: Global, book: &mut Book<D>) -> Result<Vec<Ticket>, Fail> {
    let mut tickets = Vec::new(alloc);
    for number in 0..65_536u64 {
        tickets.push(put(book, &number.to_be_bytes(), NONCE)?)?;
    }
    Ok(tickets)
}

/// Whether a ticket of a full round is given, in a tree of 37 tokens that leads to its commitment, and
/// is then gone.
fn is_in_full_round<D: Disk>(
    alloc: Global,
    book: &mut Book<D>,
    ticket: &Ticket,
) -> Result<bool, Fail> {
    let given = give(alloc, book, ticket)?;
    let full = is_written(alloc, &given.receipt.commitment, FULL)?;
    Ok(full && given.receipt.index == 0 && given.tokens == 37 && is_gone(alloc, book, ticket)?)
}

/// A round is stored, and nothing waits.
const ONE_ROUND: Counts = Counts {
    commits: 1,
    tips: 0,
    entries: 1,
    waiting: 0,
    faults: 0,
};

/// Some tickets of a full round are given.
fn take_some<D: Disk>(
    rt: &impl Abort,
    alloc: Global,
    book: &mut Book<D>,
    tickets: &[Ticket],
) -> Result<(), Fail> {
    for number in [0, 1, 40_000, 65_535] {
        let ticket = tickets.get(number).ok_or("no ticket")?;
        assert!(rt; is_in_full_round(alloc, book, ticket)?, "ticket {number}");
    }
    Ok(())
}

/// A full round is closed, and then there is none to close.
fn close_round<D: Disk>(rt: &impl Abort, book: &mut Book<D>) -> Result<(), Fail> {
    assert!(rt; is_busy(book, &DIGEST)?);
    expect_close(rt, book, SECOND, Ok(Some(0)))?;
    expect_close(rt, book, SECOND, Ok(None))?;
    expect_counts(rt, book, ONE_ROUND);
    Ok(())
}

/// Closes a full round, and takes some of its tickets.
fn close_full<D: Disk>(rt: &impl Abort, alloc: Global, book: &mut Book<D>) -> Result<(), Fail> {
    let tickets = fill(alloc, book)?;
    close_round(rt, book)?;
    take_some(rt, alloc, book, &tickets)
}

/// Whether one of two tickets is withdrawn, once, and the other still waits.
fn is_withdrawn<D: Disk>(
    alloc: Global,
    book: &mut Book<D>,
    left: &Ticket,
    given_up: &Ticket,
) -> Result<bool, Fail> {
    let is_withdrawn = withdraw(book, given_up) && !withdraw(book, given_up);
    Ok(is_withdrawn && is_gone(alloc, book, given_up)? && is_waiting(alloc, book, left)?)
}

/// One of two tickets is withdrawn, and the other's round is closed.
fn withdraw_one<D: Disk>(rt: &impl Abort, alloc: Global, book: &mut Book<D>) -> Result<(), Fail> {
    let left = put(book, &DIGEST, NONCE)?;
    let given_up = put(book, &DIGEST, NONCE)?;
    assert!(rt; left.number != given_up.number);
    assert!(rt; is_withdrawn(alloc, book, &left, &given_up)?);
    expect_close(rt, book, SECOND, Ok(Some(0)))?;
    // The tree of the digest alone in its round.
    assert!(rt; is_given(alloc, book, &left, TICKET_TREE)? && is_gone(alloc, book, &left)?);
    Ok(())
}

/// One of two tickets whose rounds are closed is withdrawn. Their commitments are the same.
fn withdraw_settled<D: Disk>(
    rt: &impl Abort,
    alloc: Global,
    book: &mut Book<D>,
) -> Result<(), Fail> {
    let first = put(book, &DIGEST, NONCE)?;
    expect_close(rt, book, SECOND, Ok(Some(0)))?;
    let second = put(book, &DIGEST, NONCE)?;
    expect_close(rt, book, SECOND, Ok(Some(1)))?;
    assert!(rt; withdraw(book, &first) && is_gone(alloc, book, &first)?);
    assert_eq!(rt; give(alloc, book, &second)?.receipt.index, 1);
    Ok(())
}

/// What becomes of a new book.
#[derive(Clone, Copy)]
enum Course {
    FullRound,
    WithdrawOne,
    WithdrawSettled,
}

/// Takes such a course.
fn take<D: Disk>(
    rt: &impl Abort,
    alloc: Global,
    book: &mut Book<D>,
    course: Course,
) -> Result<(), Fail> {
    match course {
        Course::FullRound => close_full(rt, alloc, book),
        Course::WithdrawOne => withdraw_one(rt, alloc, book),
        Course::WithdrawSettled => withdraw_settled(rt, alloc, book),
    }
}

/// The same with the book on a disk, which is handed back.
fn take_on<D: Disk + Drop>(
    rt: &impl Abort,
    alloc: Global,
    disk: D,
    course: Course,
) -> Result<D, Fail> {
    let mut book = book_on(alloc, disk)?;
    let ended = take(rt, alloc, &mut book, course);
    handed_back(ended, book)
}

/// How many calls of the disk such a course takes.
fn take_course(rt: &impl Abort, alloc: Global, course: Course) -> Result<usize, Fail> {
    Ok(calls_of(&take_on(rt, alloc, new_disk(alloc, &[])?, course)?))
}

#[test]
fn one_commitment_settles_a_full_round(rt: HostRuntime) -> Result<(), Fail> {
    // It takes four calls to open the book and four to close the round.
    assert_eq!(rt; take_course(&rt, rt.alloc(), Course::FullRound)?, 8);
    Ok(())
}

#[test]
fn a_ticket_that_is_withdrawn_leaves_the_other(rt: HostRuntime) -> Result<(), Fail> {
    take_course(&rt, rt.alloc(), Course::WithdrawOne)?;
    Ok(())
}

#[test]
fn a_ticket_whose_round_is_closed_may_be_withdrawn(rt: HostRuntime) -> Result<(), Fail> {
    take_course(&rt, rt.alloc(), Course::WithdrawSettled)?;
    Ok(())
}
