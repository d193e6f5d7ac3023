//! What a calendar answers of a commitment, and of its records.
ghost use Rattle.std.specs.Prelude.{◌≡◌, false, [], ◌∷◌, IfOk};
ghost use Rattle.ots_http.specs.ReplyText.{IsReply};
ghost use Rattle.ots_shared.specs.Told.{IsPassOf};
ghost use Rattle.ots_shared.specs.declared.row.Row.{Row};
ghost use Rattle.ots_calendar.specs.Answer.{answer};
ghost use Rattle.ots_store.specs.Page.{page_of};
ghost use Rattle.ots_connection.specs.Holds.{ChangesNothing, Holds};
ghost use Rattle.ots_connection.specs.Replies.{answered, paged, IsShort};

use crate::due::{Due, in_words, with_page, with_tree};
use ots_base::OutOfMemory;
use ots_calendar::{Answer, Book, Prepared};
use ots_disk::Disk;
use ots_http::Word;
use ots_outside::Wanted;
use ots_shared::{Pass, Shared};
use std::sync::Wait;

/// Asks the shared book for a commitment, in one hold. The commitments beside it are hashed when the book is
/// free again.
pub(crate) fn answer_of<D: Disk, R: Wait>(
    rt: &R,
    shared: &Shared<D>,
    pass: &mut Pass,
    wanted: Wanted,
) -> Result<Due, OutOfMemory>
    requires own { IsPassOf shared.now pass.old }
    requires free { pass.old.holding ≡ false }
    ensures holds { (row : Row) × Holds pass.old pass.new (row ∷ []) × ChangesNothing row }
    ensures due { IfOk result (λ due. due ≡ answered (answer pass.new.seen wanted)) }
    ensures reply { IfOk result (λ due. IsReply due.reply) }
{
    let turn = shared.turn_to_ask(rt);
    let mut held = shared.hold(rt, pass);
    let prepared = prepare(held.book(), wanted);
    shared.release(pass, held);
    drop(turn);
    Ok(due_of(prepared?.answer()?))
}

/// What a book answers of a commitment, before those beside it are hashed.
fn prepare<D: Disk>(book: &Book<D>, wanted: Wanted) -> Result<Prepared, OutOfMemory>
    ensures is { IfOk result (λ prepared. prepared ≡ answer book.now.store.records wanted) }
    ensures short { IfOk result IsShort }
{
    let store = book.store();
    store.stands();
    let _ = store.commits();
    book.prepare(wanted.bytes())
}

/// The reply with what a book answers.
fn due_of(answer: Answer) -> Due
    requires { IsShort answer }
    ensures due { result ≡ answered answer }
    ensures reply { IsReply result.reply }
{
    match answer {
        Answer::Complete(tree) => with_tree(tree),
        Answer::Pending => in_words(404, Word::Pending),
        Answer::Unknown => in_words(404, Word::NotFound),
    }
}

/// Asks the shared book for a page of its records, in one hold.
pub(crate) fn page_at<D: Disk, R: Wait>(
    rt: &R,
    shared: &Shared<D>,
    pass: &mut Pass,
    number: u64,
) -> Result<Due, OutOfMemory>
    requires own { IsPassOf shared.now pass.old }
    requires free { pass.old.holding ≡ false }
    ensures holds { (row : Row) × Holds pass.old pass.new (row ∷ []) × ChangesNothing row }
    ensures due { IfOk result (λ due. due ≡ paged (page_of pass.new.seen number)) }
    ensures reply { IfOk result (λ due. IsReply due.reply) }
{
    let turn = shared.turn_to_ask(rt);
    let mut held = shared.hold(rt, pass);
    let due = copy_page(held.book(), number);
    shared.release(pass, held);
    drop(turn);
    due
}

/// Copies a page of a book's records.
fn copy_page<D: Disk>(book: &Book<D>, number: u64) -> Result<Due, OutOfMemory>
    ensures due { IfOk result (λ due. due ≡ paged (page_of book.now.store.records number)) }
    ensures reply { IfOk result (λ due. IsReply due.reply) }
{
    match book.store().page(number)? {
        Some(page) => Ok(with_page(page)),
        None => Ok(in_words(404, Word::NotFound)),
    }
}
