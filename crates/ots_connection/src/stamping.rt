//! What comes of a digest.
ghost use Rattle.std.specs.Prelude.{◌≡◌, ◌≤◌, false, List, [], ◌∷◌, IfOk, IfSome, MatchOption};
ghost use Rattle.ots_http.specs.ReplyText.{IsReply};
ghost use Rattle.ots_http.specs.declared.request.Request.TheVariants.{Digest};
ghost use Rattle.ots_shared.specs.Told.{IsPassOf};
ghost use Rattle.ots_shared.specs.declared.row.Row.{Row};
ghost use Rattle.ots_connection.specs.Connection.{Handles};
ghost use Rattle.ots_connection.specs.Holds.{ChangesNothing, Holds};
ghost use Rattle.ots_connection.specs.Putting.{Puts};
ghost use Rattle.ots_connection.specs.Stamping.{Comes, PutsAndSettles, Settles};

use crate::Service;
use crate::closing::{put_and_close, settle};
use crate::due::{Due, in_words};
use crate::putting::put;
use ots_base::OutOfMemory;
use ots_calendar::{Leaf, PutError, Ticket};
use ots_disk::Disk;
use ots_http::Word;
use ots_outside::{Clock, Failed, Nonces};
use ots_shared::{Pass, Shared};
use std::sync::Wait;

/// Timestamps a digest: draws its nonce, reads the clock, and goes on with both.
pub(crate) fn stamp_digest<D: Disk, C: Clock, N: Nonces, R: Wait>(
    rt: &R,
    shared: &Shared<D>,
    pass: &mut Pass,
    service: &Service,
    leaf: Leaf,
    clock: &mut C,
    nonces: &mut N,
) -> Result<Due, OutOfMemory>
    requires own { IsPassOf shared.now pass.old }
    requires free { pass.old.holding ≡ false }
    ensures handles { Handles service.now.key service.now.uri shared.now.limit (Digest leaf)
        (record { left = N.left nonces.old; faults = N.faults nonces.old; second = C.coming clock.old })
        (record { left = N.left nonces.new; faults = N.faults nonces.new; second = C.coming clock.new })
        pass.old pass.new result }
    ensures reply { IfOk result (λ due. IsReply due.reply) }
{
    let mut nonce = [0; 16];
    match nonces.fill16(&mut nonce) {
        Err(Failed) => Ok(in_words(503, Word::Nonce)),
        Ok(()) => {
            let second = clock.second();
            if second > u64::from(u32::MAX) {
                return Ok(in_words(500, Word::Clock));
            }
            stamp_at(rt, shared, pass, service, second as u32, leaf, nonce)
        }
    }
}

/// Timestamps a digest at this second. The book is held twice, so that many callers that have put
/// theirs share the round that the first of them closes; and once more where another caller has given the ticket up.
fn stamp_at<D: Disk, R: Wait>(
    rt: &R,
    shared: &Shared<D>,
    pass: &mut Pass,
    service: &Service,
    second: u32,
    leaf: Leaf,
    nonce: [u8; 16],
) -> Result<Due, OutOfMemory>
    requires own { IsPassOf shared.now pass.old }
    requires free { pass.old.holding ≡ false }
    ensures comes { (rows : List Row) × Holds pass.old pass.new rows
        × Comes leaf nonce service.now.key service.now.uri second shared.now.limit pass.new.seen rows result }
    ensures reply { IfOk result (λ due. IsReply due.reply) }
{
    match put_held(rt, shared, pass, leaf, nonce) {
        Ok(ticket) => match settle_held(rt, shared, pass, service, second, &ticket) {
            Some(due) => due,
            None => put_again(rt, shared, pass, service, second, leaf, nonce),
        },
        Err(PutError::Busy) => Ok(in_words(503, Word::Busy)),
        Err(PutError::OutOfMemory) => Err(OutOfMemory),
    }
}

/// Puts a digest, in one hold.
fn put_held<D: Disk, R: Wait>(
    rt: &R,
    shared: &Shared<D>,
    pass: &mut Pass,
    leaf: Leaf,
    nonce: [u8; 16],
) -> Result<Ticket, PutError>
    requires own { IsPassOf shared.now pass.old }
    requires free { pass.old.holding ≡ false }
    ensures puts { (row : Row) × Holds pass.old pass.new (row ∷ []) × Puts row result }
    ensures ticket { IfOk result (λ t. (t.leaf ≡ leaf) × (t.nonce ≡ nonce)) }
{
    let mut held = shared.hold(rt, pass);
    let ticket = put(held.book(), leaf, nonce);
    shared.release(pass, held);
    ticket
}

/// Takes the tree of a ticket, in one hold, in which its round is closed where it was not. There is no answer where
/// another caller has given it up.
fn settle_held<D: Disk, R: Wait>(
    rt: &R,
    shared: &Shared<D>,
    pass: &mut Pass,
    service: &Service,
    second: u32,
    ticket: &Ticket,
) -> Option<Result<Due, OutOfMemory>>
    requires own { IsPassOf shared.now pass.old }
    requires free { pass.old.holding ≡ false }
    ensures settles { (row : Row) × Holds pass.old pass.new (row ∷ []) × (row.waiting_left ≤ row.waiting_found)
        × MatchOption result (ChangesNothing row) (Settles ticket.now.leaf ticket.now.nonce service.now.key
        service.now.uri second shared.now.limit pass.new.seen row) }
    ensures reply { IfSome result (λ due. IfOk due (λ due. IsReply due.reply)) }
{
    let mut held = shared.hold(rt, pass);
    let due = settle(held.book(), service, second, ticket);
    shared.release(pass, held);
    due
}

/// Puts a digest and closes its round, in one hold.
fn put_again<D: Disk, R: Wait>(
    rt: &R,
    shared: &Shared<D>,
    pass: &mut Pass,
    service: &Service,
    second: u32,
    leaf: Leaf,
    nonce: [u8; 16],
) -> Result<Due, OutOfMemory>
    requires own { IsPassOf shared.now pass.old }
    requires free { pass.old.holding ≡ false }
    ensures settles { (row : Row) × Holds pass.old pass.new (row ∷ []) × PutsAndSettles leaf nonce service.now.key
        service.now.uri second shared.now.limit pass.new.seen row result }
    ensures reply { IfOk result (λ due. IsReply due.reply) }
{
    let mut held = shared.hold(rt, pass);
    let due = put_and_close(held.book(), service, second, leaf, nonce);
    shared.release(pass, held);
    due
}
