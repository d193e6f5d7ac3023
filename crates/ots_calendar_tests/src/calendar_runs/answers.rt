// What a book answers.
use crate::calendar_runs::books::bytes_of;
use crate::calendar_runs::ways::is_spelled;
use ots_calendar::{Answer, Book};
use ots_disk::Disk;
use std::alloc::Global;
use std::test::Fail;

/// Whether a commitment is answered by this tree.
pub fn is_complete<D: Disk>(
    alloc: Global,
    book: &Book<D>,
    commitment: &str,
    tree: &str,
) -> Result<bool, Fail> {
    match book.ask(&bytes_of(alloc, commitment)?)? {
        Answer::Complete(answered) => is_spelled(alloc, &answered, tree),
        _ => Ok(false),
    }
}

/// Whether a commitment is pending.
pub fn is_pending<D: Disk>(alloc: Global, book: &Book<D>, commitment: &str) -> Result<bool, Fail> {
    let answer = book.ask(&bytes_of(alloc, commitment)?)?;
    Ok(matches!(answer, Answer::Pending))
}

/// Whether a commitment is not stored.
pub fn is_unknown<D: Disk>(alloc: Global, book: &Book<D>, commitment: &str) -> Result<bool, Fail> {
    let answer = book.ask(&bytes_of(alloc, commitment)?)?;
    Ok(matches!(answer, Answer::Unknown))
}
