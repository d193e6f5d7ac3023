//! Serving with several workers.
ghost use Rattle.std.specs.Prelude.{◌≡◌, ◌≢◌, ◌+◌, ◌<◌, ◌≤◌, ◌⊎◌, true, false};
ghost use Rattle.ots_shared.specs.Records.{StartsWith};
ghost use Rattle.ots_shared.specs.Told.{IsPassOf};
ghost use Rattle.ots_workers.specs.Over.{IsDone, IsOver};
ghost use Rattle.ots_workers.specs.Returned.{AllAnswered, AllWithin, NoneReturned};
ghost use Rattle.ots_workers.specs.declared.limits.TheConstants.{MAX_WORKERS};

use crate::crew::crew;
use crate::desk::{Desk, Server};
use crate::front::Front;
use crate::worker::work_alone;
use ots_calendar::Book;
use ots_connection::Service;
use ots_disk::Disk;
use ots_outside::{Accepter, Clock, Nonces};
use ots_shared::{Pass, RefusedShared, Shared};
use std::alloc::Global;
use std::marker::Brand;
use std::sync::{Mutex, Wait};
use std::thread::Threads;

/// How serving ended.
#[derive(Clone, Copy, Debug, PartialEq, Eq)]
pub enum ServeEnd {
    /// No link is to come, or as many were accepted as were asked for. Every link that was given back
    /// is answered.
    Done,
    /// An accept failed, and the accepter has counted the fault.
    AcceptFault,
    /// Memory ran out: before the book was shared, and then no link was accepted, or in a
    /// connection, and the others were served.
    OutOfMemory,
}

/// What serving hands back.
pub struct Ended<D: Disk, A: Accepter, C: Clock, N: Nonces> {
    pub ending: ServeEnd,
    /// How many links the accepter has accepted.
    pub count: u64,
    pub front: Front<A, C, N>,
    pub book: Book<D>,
}

/// Serves connections with `workers` workers, 1 to 64, until no link is to come, `most` were accepted,
/// or an accept failed. Each worker has a pass of its own, and the front is locked for each accept
/// and each giving back. Where memory runs out in a connection, serving goes on.
///
/// Where serving is done, each link was answered by what the records of the book that is handed back begin with: so
/// each commitment that was acknowledged is among them.
pub fn serve_links<
    D: Disk + Send,
    A: Accepter + Send,
    C: Clock + Send,
    N: Nonces + Send,
    R: Threads + Wait + Sync,
>(
    rt: &R,
    alloc: Global,
    service: &Service,
    front: Front<A, C, N>,
    book: Book<D>,
    workers: u32,
    most: Option<u64>,
) -> Ended<D, A, C, N>
    requires some { 0 < workers }
    requires few { workers ≤ MAX_WORKERS }
    ensures done { result.ending ≡ ServeEnd.Done → IsDone (A.coming result.front.accepter) most
        (A.accepted result.front.accepter) }
    ensures answered { result.ending ≡ ServeEnd.Done → AllAnswered A.Link.told A.Link.faults
        (A.returned result.front.accepter) }
    ensures within { NoneReturned (A.returned front.accepter) → result.ending ≡ ServeEnd.Done
        → AllWithin result.book.store.records A.Link.told A.Link.faults (A.returned result.front.accepter) }
    ensures fault { result.ending ≡ ServeEnd.AcceptFault → A.faults result.front.accepter ≢ 0 }
    ensures count { result.count ≡ A.accepted result.front.accepter }
    ensures records { StartsWith result.book.store.records book.store.records }
    ensures limit { result.book.store.journal.limit ≡ book.store.journal.limit }
    ensures memory { result.ending ≡ ServeEnd.OutOfMemory → (result.front.short ≡ true)
        ⊎ ((result.front ≡ front) × (result.book ≡ book)) }
    ensures over { IsOver result.front.failed (A.coming result.front.accepter) most (A.accepted result.front.accepter)
        ⊎ ((result.ending ≡ ServeEnd.OutOfMemory) × (result.front ≡ front) × (result.book ≡ book)) }
{
    match Shared::open(alloc, book, workers + 1) {
        Ok((shared, pass)) => {
            let (front, pass) = serve_shared::<Brand, D, A, C, N, R>(
                rt, alloc, service, front, &shared, pass, workers, most,
            );
            let ending = ending_of(&front);
            end(ending, front, shared.close(pass))
        }
        Err(RefusedShared { book }) => end(ServeEnd::OutOfMemory, front, book),
    }
}

/// Serves connections with `workers` workers over a book that is shared. The pass that is handed back has seen all
/// records by which links were answered.
#[expect(clippy::too_many_arguments)]
fn serve_shared<
    S: Server + Send + Sync,
    D: Disk + Send,
    A: Accepter + Send,
    C: Clock + Send,
    N: Nonces + Send,
    R: Threads + Wait + Sync,
>(
    rt: &R,
    alloc: Global,
    service: &Service,
    front: Front<A, C, N>,
    shared: &Shared<D>,
    pass: Pass,
    workers: u32,
    most: Option<u64>,
) -> (Front<A, C, N>, Pass)
    requires book { shared.now ≡ S.book }
    requires fresh { S.fresh → NoneReturned (A.returned front.accepter) }
    requires own { IsPassOf S.book pass }
    requires free { pass.holding ≡ false }
    requires some { 0 < workers }
    requires share { pass.seat.share ≡ workers + 1 }
    ensures over { IsOver result.0.failed (A.coming result.0.accepter) most (A.accepted result.0.accepter) }
    ensures own { IsPassOf S.book result.1 }
    ensures share { result.1.seat.share ≡ pass.seat.share }
    ensures free { result.1.holding ≡ false }
    ensures seen { StartsWith result.1.seen pass.seen }
    ensures within { S.fresh → result.0.short ≡ false
        → AllWithin result.1.seen A.Link.told A.Link.faults (A.returned result.0.accepter) }
{
    let (own, pass) = shared.split(pass);
    let desk: Mutex<Desk<S, A, C, N>> = Mutex::new(Desk::new(front, own));
    let pass = crew(rt, alloc, &desk, shared, service, pass, most, workers - 1);
    let desk = desk.into_inner();
    let (desk, pass) = work_alone(rt, alloc, desk, shared, service, pass, most);
    let Desk {
        front,
        pass: own,
        server: _,
    } = desk;
    (front, shared.join(pass, own))
}

/// How serving ended, once it is over.
fn ending_of<A: Accepter, C: Clock, N: Nonces>(front: &Front<A, C, N>) -> ServeEnd
    ensures done { result ≡ ServeEnd.Done → (front.now.failed ≡ false) × (front.now.short ≡ false) }
    ensures fault { result ≡ ServeEnd.AcceptFault → front.now.failed ≡ true }
    ensures short { result ≡ ServeEnd.OutOfMemory → front.now.short ≡ true }
{
    if front.failed {
        ServeEnd::AcceptFault
    } else if front.short {
        ServeEnd::OutOfMemory
    } else {
        ServeEnd::Done
    }
}

fn end<D: Disk, A: Accepter, C: Clock, N: Nonces>(
    ending: ServeEnd,
    front: Front<A, C, N>,
    book: Book<D>,
) -> Ended<D, A, C, N>
    ensures parts { (result.ending ≡ ending) × (result.front ≡ front) × (result.book ≡ book) }
    ensures count { result.count ≡ A.accepted front.accepter }
{
    Ended {
        ending,
        count: front.accepter.accepted(),
        front,
        book,
    }
}
