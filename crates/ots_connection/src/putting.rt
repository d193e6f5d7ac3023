//! A ticket that is put while the book is held.
ghost use Rattle.std.specs.Prelude.{◌≡◌, IfOk};
ghost use Rattle.ots_shared.specs.Rows.{row};
ghost use Rattle.ots_tickets.specs.Tickets.{IsSettled, NoneIs, OneIs, Waits};
ghost use Rattle.ots_connection.specs.Putting.{Puts};

use ots_calendar::{Book, Leaf, PutError, Ticket};
use ots_disk::Disk;

/// Puts a digest: the ticket waits, and no round of it is closed.
pub(crate) fn put<D: Disk>(
    book: &mut Book<D>,
    leaf: Leaf,
    nonce: [u8; 16],
) -> Result<Ticket, PutError>
    ensures store { book.new.store ≡ book.old.store }
    ensures puts { Puts (row D.faults book.old book.new) result }
    ensures ticket { IfOk result (λ t. (t.leaf ≡ leaf) × (t.nonce ≡ nonce)) }
    ensures waits { IfOk result (λ t. OneIs (Waits t) book.new.tickets.waiting) }
    ensures unsettled { IfOk result (λ t. NoneIs (IsSettled t) book.new.tickets.settled) }
{
    book.stands();
    match book.put(leaf, nonce) {
        Ok(ticket) => Ok(ticket),
        Err(PutError::Busy) => Err(PutError::Busy),
        Err(PutError::OutOfMemory) => Err(PutError::OutOfMemory),
    }
}
