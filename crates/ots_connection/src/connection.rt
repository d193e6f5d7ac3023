//! One connection.
ghost use Rattle.std.specs.Prelude.{◌≡◌, ◌≤◌, false, true, IfOk};
ghost use Rattle.ots_http.specs.ReplyText.{IsReply};
ghost use Rattle.ots_outside.specs.Link.{IsFresh};
ghost use Rattle.ots_shared.specs.Records.{StartsWith, StandsAt};
ghost use Rattle.ots_shared.specs.Told.{IsPassOf};
ghost use Rattle.ots_connection.specs.Answered.{IsAnsweredWithin, is_answer};
ghost use Rattle.ots_connection.specs.Connection.{Handles, IfStamped, Serves};

use crate::asking::{answer_of, page_at};
use crate::due::{Due, refusal};
use crate::sending::send;
use crate::stamping::stamp_digest;
use crate::{Served, Service};
use ots_base::OutOfMemory;
use ots_disk::Disk;
use ots_http::{Request, RequestError, read_request};
use ots_outside::{Clock, Link, Nonces};
use ots_shared::{Pass, Shared};
use std::alloc::Global;
use std::sync::Wait;

/// Serves one connection: reads its request, does on the shared book what it asks, and writes the reply. It ends each
/// connection by saying that nothing more is written, also where there was no request, a call failed or memory ran out;
/// this may wait for the other side, and the book is free.
///
/// For a digest it draws a nonce and reads the clock, puts the digest in one hold of the book, and in a
/// second takes its tree, where another caller has closed the round, or closes it first for all that
/// wait. Where another caller has given its ticket up, it puts it once more in a third hold. Where it
/// gives no tree, its ticket is withdrawn. For a commitment it holds the book once, and so for a page
/// of records, which is written when the book is free again.
#[expect(clippy::too_many_arguments)]
pub fn serve_connection<L: Link, D: Disk, C: Clock, N: Nonces, R: Wait>(
    rt: &R,
    _alloc: Global,
    shared: &Shared<D>,
    pass: &mut Pass,
    service: &Service,
    link: &mut L,
    clock: &mut C,
    nonces: &mut N,
) -> Served
    requires own { IsPassOf shared.now pass.old }
    requires free { pass.old.holding ≡ false }
    // what is read, done and written, each answer with its cause
    ensures serves { Serves service.now.key service.now.uri shared.now.limit
        (record {
          pass = pass.old;
          link = record { told = L.told link.old; faults = L.faults link.old };
          sources = record { left = N.left nonces.old; faults = N.faults nonces.old; second = C.coming clock.old };
        })
        (record {
          pass = pass.new;
          link = record { told = L.told link.new; faults = L.faults link.new };
          sources = record { left = N.left nonces.new; faults = N.faults nonces.new; second = C.coming clock.new };
        })
        result }
    ensures stamped { IfStamped result (λ receipt. StandsAt pass.new.seen receipt.index receipt.commitment) }
    ensures answered { IsFresh (L.told link.old) (L.faults link.old) → is_answer result ≡ true
        → IsAnsweredWithin pass.new.seen (L.told link.new) (L.faults link.new) }
    ensures own { IsPassOf shared.now pass.new }
    ensures seat { (pass.new.seat ≡ pass.old.seat) × (pass.new.holding ≡ false) }
    ensures seen { StartsWith pass.new.seen pass.old.seen }
    ensures told { pass.new.told ≡ pass.old.told }
    ensures later { L.faults link.old ≤ L.faults link.new }
    ensures same { L.same link.old link.new }
{
    let served = serve(rt, shared, pass, service, link, clock, nonces);
    link.finish();
    served
}

/// The same, but for the end of the link.
fn serve<L: Link, D: Disk, C: Clock, N: Nonces, R: Wait>(
    rt: &R,
    shared: &Shared<D>,
    pass: &mut Pass,
    service: &Service,
    link: &mut L,
    clock: &mut C,
    nonces: &mut N,
) -> Served
    requires own { IsPassOf shared.now pass.old }
    requires free { pass.old.holding ≡ false }
    ensures serves { Serves service.now.key service.now.uri shared.now.limit
        (record {
          pass = pass.old;
          link = record { told = L.told link.old; faults = L.faults link.old };
          sources = record { left = N.left nonces.old; faults = N.faults nonces.old; second = C.coming clock.old };
        })
        (record {
          pass = pass.new;
          link = record { told = L.told link.new; faults = L.faults link.new };
          sources = record { left = N.left nonces.new; faults = N.faults nonces.new; second = C.coming clock.new };
        })
        result }
    ensures stamped { IfStamped result (λ receipt. StandsAt pass.new.seen receipt.index receipt.commitment) }
    ensures answered { IsFresh (L.told link.old) (L.faults link.old) → is_answer result ≡ true
        → IsAnsweredWithin pass.new.seen (L.told link.new) (L.faults link.new) }
    ensures own { IsPassOf shared.now pass.new }
    ensures seat { (pass.new.seat ≡ pass.old.seat) × (pass.new.holding ≡ false) }
    ensures seen { StartsWith pass.new.seen pass.old.seen }
    ensures told { pass.new.told ≡ pass.old.told }
    ensures later { L.faults link.old ≤ L.faults link.new }
    ensures same { L.same link.old link.new }
{
    match read_request(link) {
        Err(RequestError::Closed) => Served::Closed,
        Err(RequestError::LinkFault) => Served::LinkFault,
        Ok(request) => match handle(rt, shared, pass, service, request, clock, nonces) {
            Ok(due) => send(link, due),
            Err(OutOfMemory) => Served::OutOfMemory,
        },
    }
}

/// What is due for a request, once what it asks is done.
fn handle<D: Disk, C: Clock, N: Nonces, R: Wait>(
    rt: &R,
    shared: &Shared<D>,
    pass: &mut Pass,
    service: &Service,
    request: Request,
    clock: &mut C,
    nonces: &mut N,
) -> Result<Due, OutOfMemory>
    requires own { IsPassOf shared.now pass.old }
    requires free { pass.old.holding ≡ false }
    ensures handles { Handles service.now.key service.now.uri shared.now.limit request
        (record { left = N.left nonces.old; faults = N.faults nonces.old; second = C.coming clock.old })
        (record { left = N.left nonces.new; faults = N.faults nonces.new; second = C.coming clock.new })
        pass.old pass.new result }
    ensures reply { IfOk result (λ due. IsReply due.reply) }
{
    match request {
        Request::Refused(status) => Ok(refusal(status)),
        Request::Timestamp(wanted) => answer_of(rt, shared, pass, wanted),
        Request::Records(number) => page_at(rt, shared, pass, number),
        Request::Digest(leaf) => stamp_digest(rt, shared, pass, service, leaf, clock, nonces),
    }
}
