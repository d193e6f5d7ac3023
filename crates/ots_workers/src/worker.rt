//! One worker.
ghost use Rattle.std.specs.Prelude.{◌≡◌, true, false, IfSome};
ghost use Rattle.ots_outside.specs.Link.{IsFresh};
ghost use Rattle.ots_connection.specs.Answered.{IsAnsweredWithin};
ghost use Rattle.ots_shared.specs.Records.{StartsWith};
ghost use Rattle.ots_shared.specs.Told.{IsPassOf};
ghost use Rattle.ots_workers.specs.Over.{IsOver};
ghost use Rattle.ots_workers.specs.Turns.{ServesTurn};

use crate::desk::{Desk, Server};
use crate::front::Turn;
use ots_connection::{Service, serve_connection};
use ots_disk::Disk;
use ots_outside::{Accepter, Clock, FixedClock, Link, Nonces};
use ots_shared::{Pass, Shared};
use std::alloc::Global;
use std::sync::{Mutex, Wait};

/// Serves the connection of a turn, with its second and its nonce, and says whether the link is
/// answered.
fn serve_turn<D: Disk, L: Link, R: Wait>(
    rt: &R,
    alloc: Global,
    shared: &Shared<D>,
    service: &Service,
    pass: &mut Pass,
    turn: Turn<L>,
) -> (L, bool)
    requires own { IsPassOf shared.now pass.old }
    requires free { pass.old.holding ≡ false }
    requires fresh { IsFresh (L.told turn.link) (L.faults turn.link) }
    ensures serves { ServesTurn (λ link. record { told = L.told link; faults = L.faults link }) service.now.key
        service.now.uri shared.now.limit pass.old turn pass.new result.0 result.1 }
    ensures answered { result.1 ≡ true → IsAnsweredWithin pass.new.seen (L.told result.0) (L.faults result.0) }
    ensures seat { (pass.new.seat ≡ pass.old.seat) × (pass.new.holding ≡ false) }
    ensures seen { StartsWith pass.new.seen pass.old.seen }
{
    let Turn {
        mut link,
        second,
        mut nonce,
    } = turn;
    let mut clock = FixedClock { second };
    let served = serve_connection(
        rt, alloc, shared, pass, service, &mut link, &mut clock, &mut nonce,
    );
    (link, served.is_answer())
}

/// Gives the last link back, if there is one, and begins the next turn, in one hold of the lock: a worker that
/// waits for a connection holds it, and so each connection waits for it once.
fn next_turn<S: Server, D: Disk, A: Accepter, C: Clock, N: Nonces, R: Wait>(
    rt: &R,
    desk: &Mutex<Desk<S, A, C, N>>,
    shared: &Shared<D>,
    pass: &mut Pass,
    most: Option<u64>,
    last: Option<(A::Link, bool)>,
) -> Option<Turn<A::Link>>
    requires book { shared.now ≡ S.book }
    requires own { IsPassOf S.book pass.old }
    requires free { pass.old.holding ≡ false }
    requires answered { IfSome last (λ last. last.1 ≡ true
        → IsAnsweredWithin pass.old.seen (A.Link.told last.0) (A.Link.faults last.0)) }
    ensures fresh { IfSome result (λ turn. IsFresh (A.Link.told turn.link) (A.Link.faults turn.link)) }
    ensures seat { (pass.new.seat ≡ pass.old.seat) × (pass.new.holding ≡ false) }
    ensures seen { StartsWith pass.new.seen pass.old.seen }
{
    let mut desk = desk.lock(rt);
    if let Some((link, answered)) = last {
        desk.give_back(shared, pass, link, answered);
    }
    desk.next(most)
}

/// One worker: a turn, its connection, and the link given back with the next turn, until serving is over.
pub(crate) fn work<S: Server, D: Disk, A: Accepter, C: Clock, N: Nonces, R: Wait>(
    rt: &R,
    alloc: Global,
    desk: &Mutex<Desk<S, A, C, N>>,
    shared: &Shared<D>,
    service: &Service,
    mut pass: Pass,
    most: Option<u64>,
) -> Pass
    requires book { shared.now ≡ S.book }
    requires own { IsPassOf S.book pass }
    requires free { pass.holding ≡ false }
    ensures seat { (result.seat ≡ pass.seat) × (result.holding ≡ false) }
    ensures seen { StartsWith result.seen pass.seen }
{
    let mut last = None;
    for _ in rt.forever() {
        let Some(turn) = next_turn(rt, desk, shared, &mut pass, most, last) else {
            return pass;
        };
        last = Some(serve_turn(rt, alloc, shared, service, &mut pass, turn));
    }
    unreachable!()
}

/// Goes on with turns alone, until serving is over.
pub(crate) fn work_alone<S: Server, D: Disk, A: Accepter, C: Clock, N: Nonces, R: Wait>(
    rt: &R,
    alloc: Global,
    mut desk: Desk<S, A, C, N>,
    shared: &Shared<D>,
    service: &Service,
    mut pass: Pass,
    most: Option<u64>,
) -> (Desk<S, A, C, N>, Pass)
    requires book { shared.now ≡ S.book }
    requires own { IsPassOf S.book pass }
    requires free { pass.holding ≡ false }
    ensures over { IsOver result.0.front.failed (A.coming result.0.front.accepter) most
        (A.accepted result.0.front.accepter) }
    ensures seat { (result.1.seat ≡ pass.seat) × (result.1.holding ≡ false) }
    ensures seen { StartsWith result.1.seen pass.seen }
{
    for _ in rt.forever() {
        let Some(turn) = desk.next(most) else {
            return (desk, pass);
        };
        let (link, answered) = serve_turn(rt, alloc, shared, service, &mut pass, turn);
        desk.give_back(shared, &mut pass, link, answered);
    }
    unreachable!()
}
