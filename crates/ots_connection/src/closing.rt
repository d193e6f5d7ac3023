//! The round of a ticket, closed while the book is held.
ghost use Rattle.std.specs.Prelude.{◌≡◌, ◌<◌, ◌≤◌, ℕ, List, Err, IfOk, IfSome, MatchOption, OnOk, OnErr, length};
ghost use Rattle.ots_base.specs.Cause.{Rose};
ghost use Rattle.ots_http.specs.ReplyText.{IsReply};
ghost use Rattle.ots_shared.specs.Rows.{row};
ghost use Rattle.ots_shared.specs.declared.row.Row.{Row};
ghost use Rattle.ots_tickets.specs.Tickets.{IsSettled, NoneIs, OneIs, Waits};
ghost use Rattle.ots_connection.specs.Closing.{AllBear, Closed, Goes, IsKept, Owes, kept};
ghost use Rattle.ots_connection.specs.Stamping.{IsFull, IsGone, IsStored, PutsAndSettles, Settles};

use crate::Service;
use crate::due::{Due, in_words, stamp};
use crate::putting::put;
use ots_attest::Uri;
use ots_base::OutOfMemory;
use ots_calendar::{Book, Leaf, PutError, Taken, Ticket, calls_grow};
use ots_disk::Disk;
use ots_http::Word;
use ots_journal::AppendError;

/// Takes a ticket whose round is closed, or closes the round over all that wait where it waits. Either way the ticket is
/// gone then. There is no answer where another caller has given it up.
pub(crate) fn settle<D: Disk>(
    book: &mut Book<D>,
    service: &Service,
    second: u32,
    ticket: &Ticket,
) -> Option<Result<Due, OutOfMemory>>
    ensures goes { Goes book.old book.new }
    ensures gone { IsKept ticket.now book.old.tickets → kept book.new.tickets < kept book.old.tickets }
    ensures owes { Owes ticket.now book.old.tickets result }
    ensures settles { MatchOption result (book.new ≡ book.old) (Settles ticket.now.leaf ticket.now.nonce
        service.now.key service.now.uri second book.old.store.journal.limit book.new.store.records
        (row D.faults book.old book.new)) }
    ensures reply { IfSome result (λ due. IfOk due (λ due. IsReply due.reply)) }
{
    match book.take(ticket, &service.uri) {
        Ok(Taken::Settled(tree, receipt)) => Some(Ok(stamp(tree, receipt))),
        Ok(Taken::Waiting) => Some(close_round(book, service, second, ticket)),
        Ok(Taken::Unknown) => None,
        Err(OutOfMemory) => {
            book.withdraw(ticket);
            Some(Err(OutOfMemory))
        }
    }
}

/// Puts a digest, and closes the round.
pub(crate) fn put_and_close<D: Disk>(
    book: &mut Book<D>,
    service: &Service,
    second: u32,
    leaf: Leaf,
    nonce: [u8; 16],
) -> Result<Due, OutOfMemory>
    ensures goes { Goes book.old book.new }
    ensures settles { PutsAndSettles leaf nonce service.now.key service.now.uri second book.old.store.journal.limit
        book.new.store.records (row D.faults book.old book.new) result }
    ensures reply { IfOk result (λ due. IsReply due.reply) }
{
    match put(book, leaf, nonce) {
        Ok(ticket) => close_round(book, service, second, &ticket),
        Err(PutError::Busy) => Ok(in_words(503, Word::Busy)),
        Err(PutError::OutOfMemory) => Err(OutOfMemory),
    }
}

/// Closes the round over all that wait, of which the ticket is one, and takes it. Where the round is
/// not closed, the ticket is withdrawn.
fn close_round<D: Disk>(
    book: &mut Book<D>,
    service: &Service,
    second: u32,
    ticket: &Ticket,
) -> Result<Due, OutOfMemory>
    requires waits { OneIs (Waits ticket.now) book.old.tickets.waiting }
    requires unsettled { NoneIs (IsSettled ticket.now) book.old.tickets.settled }
    ensures goes { Goes book.old book.new }
    ensures fewer { length book.new.tickets.waiting < length book.old.tickets.waiting }
    ensures gone { kept book.new.tickets < kept book.old.tickets }
    ensures settles { Settles ticket.now.leaf ticket.now.nonce service.now.key service.now.uri second
        book.old.store.journal.limit book.new.store.records (row D.faults book.old book.new) result }
    ensures reply { IfOk result (λ due. IsReply due.reply) }
{
    match close(book, service, second) {
        Ok(()) => take_settled(book, &service.uri, ticket),
        Err(why) => {
            book.withdraw(ticket);
            match why {
                AppendError::DiskFault => Ok(in_words(503, Word::Disk)),
                AppendError::Full { need: _, limit: _ } => Ok(in_words(507, Word::JournalFull)),
                AppendError::OutOfMemory => Err(OutOfMemory),
            }
        }
    }
}

/// Closes the round over all that wait, some of them.
fn close<D: Disk>(book: &mut Book<D>, service: &Service, second: u32) -> Result<(), AppendError>
    requires { 0 < length book.old.tickets.waiting }
    ensures goes { Goes book.old book.new }
    ensures closed { OnOk result (Closed service.now.key second book.old book.new) }
    ensures more { OnOk result (length book.old.store.records < length book.new.store.records) }
    ensures none { OnOk result (length book.new.tickets.waiting ≡ 0) }
    ensures kept { OnOk result (kept book.new.tickets ≡ kept book.old.tickets) }
    ensures fits { OnOk result (book.new.store.journal.gate < book.old.store.journal.limit) }
    ensures refused { OnErr result ((book.new.tickets.waiting ≡ book.old.tickets.waiting)
        × (book.new.tickets.settled ≡ book.old.tickets.settled)) }
    ensures disk { result ≡ Err AppendError.DiskFault → Rose (D.faults book.old.store.journal.disk)
        (D.faults book.new.store.journal.disk) }
    ensures full { (need limit : ℕ) → result ≡ Err (AppendError.Full need limit)
        → IsFull book.old.store.journal.limit book.new.store.journal.gate }
{
    calls_grow::<D>();
    book.store().stands();
    match book.close(second, &service.key) {
        Ok(_) => Ok(()),
        Err(why) => Err(why),
    }
}

/// Takes a ticket whose round is closed. Where memory runs out, it is given up.
fn take_settled<D: Disk>(book: &mut Book<D>, uri: &Uri, ticket: &Ticket) -> Result<Due, OutOfMemory>
    requires { NoneIs (IsSettled ticket.now) book.old.tickets.settled → ⊥ }
    ensures store { book.new.store ≡ book.old.store }
    ensures waiting { length book.new.tickets.waiting ≤ length book.old.tickets.waiting }
    ensures gone { kept book.new.tickets < kept book.old.tickets }
    ensures settles { (key : List ℕ) (second limit : ℕ) (row : Row) → AllBear ticket.now
        (IsStored ticket.now.leaf ticket.now.nonce key second limit book.new.store.records row) book.old.tickets.settled
        → IsGone row → Settles ticket.now.leaf ticket.now.nonce key uri.now second limit book.new.store.records row result }
    ensures reply { IfOk result (λ due. IsReply due.reply) }
{
    match book.take(ticket, uri) {
        Ok(Taken::Settled(tree, receipt)) => Ok(stamp(tree, receipt)),
        Ok(_) => unreachable!(),
        Err(OutOfMemory) => {
            book.withdraw(ticket);
            Err(OutOfMemory)
        }
    }
}
