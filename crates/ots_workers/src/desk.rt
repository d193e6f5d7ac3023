//! What the workers of one server share beside the book.
ghost use Rattle.std.proofs.Props.{props};
ghost use Rattle.std.specs.Prelude.{◌≡◌, true, false, IfSome, IfNone};
ghost use Rattle.ots_connection.specs.Answered.{IsAnsweredWithin};
ghost use Rattle.ots_outside.specs.Link.{IsFresh};
ghost use Rattle.ots_shared.specs.Records.{StartsWith};
ghost use Rattle.ots_shared.specs.Told.{IsPassOf};
ghost use Rattle.ots_workers.specs.Over.{IsOver};
ghost use Rattle.ots_workers.specs.Returned.{AllWithin, NoneReturned};

use crate::front::{Front, Turn};
use ots_disk::Disk;
use ots_outside::{Accepter, Clock, Nonces};
use ots_shared::{Pass, Shared};
use std::marker::{Brand, PhantomData};

/// The one server that workers belong to, as their clauses name it: which shared book they serve, and whether no link
/// had come back before they began.
pub(crate) trait Server {
    ghost use Rattle.ots_shared.specs.Told.{SharedTold};

    ghost book: { SharedTold };

    ghost fresh: { Type 0 };
}

impl Server for Brand {
    ghost use Rattle.std.specs.Prelude.{[]};

    ghost book = { record {
      table = record {
        words = 0;
        slots = 0;
        views_name = 0;
        atom = 0;
        block = 0;
        offset = 0;
        slot_names = [];
      };
      callers = 0;
      limit = 0;
    } };

    ghost fresh = { Unit {0} };
}

/// A front, with a pass that has seen all records by which its links were answered.
pub(crate) struct Desk<S: Server, A: Accepter, C: Clock, N: Nonces> {
    pub front: Front<A, C, N>,
    pub pass: Pass,
    pub server: PhantomData<S>,
    ghost own: { IsPassOf S.book pass } by { Prim.hlevel props },
    ghost free: { pass.holding ≡ false } by { Prim.hlevel props },
    ghost one: { pass.seat.share ≡ 1 } by { Prim.hlevel props },
    ghost answered: { S.fresh → front.short ≡ false
        → AllWithin pass.seen A.Link.told A.Link.faults (A.returned front.accepter) } by { Prim.hlevel props },
}

impl<S: Server, A: Accepter, C: Clock, N: Nonces> Desk<S, A, C, N> {
    /// A desk at which no link has come back yet.
    pub fn new(front: Front<A, C, N>, pass: Pass) -> Desk<S, A, C, N>
        requires own { IsPassOf S.book pass }
        requires free { pass.holding ≡ false }
        requires one { pass.seat.share ≡ 1 }
        requires none { S.fresh → NoneReturned (A.returned front.accepter) }
        ensures parts { (result.front ≡ front) × (result.pass ≡ pass) }
    {
        Desk {
            front,
            pass,
            server: PhantomData,
        }
    }

    /// Gives a link back, which was answered by what the worker's pass has seen, and lets the desk see that.
    pub fn give_back<D: Disk>(
        &mut self,
        shared: &Shared<D>,
        pass: &mut Pass,
        link: A::Link,
        answered: bool,
    )
        requires book { shared.now ≡ S.book }
        requires own { IsPassOf S.book pass.old }
        requires free { pass.old.holding ≡ false }
        requires answered { answered ≡ true
            → IsAnsweredWithin pass.old.seen (A.Link.told link) (A.Link.faults link) }
        ensures seat { (pass.new.seat ≡ pass.old.seat) × (pass.new.holding ≡ false) }
        ensures seen { StartsWith pass.new.seen pass.old.seen }
    {
        shared.share_seen(pass, &mut self.pass);
        self.front.give_back(link, answered);
    }

    /// A turn, unless an accept has failed or `most` links were accepted. `None` comes only where
    /// serving is over.
    pub fn next(&mut self, most: Option<u64>) -> Option<Turn<A::Link>>
        ensures fresh { IfSome result (λ turn. IsFresh (A.Link.told turn.link) (A.Link.faults turn.link)) }
        ensures over { IfNone result (IsOver self.new.front.failed (A.coming self.new.front.accepter) most
            (A.accepted self.new.front.accepter)) }
    {
        self.front.next(most)
    }
}
