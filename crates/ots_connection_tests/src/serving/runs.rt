//! A run of a server in memory, and what is left of it.
ghost use Rattle.std.specs.Prelude.{◌≡◌, ◌<◌, ◌≤◌, [], true, IfOk};
ghost use Rattle.ots_workers.specs.Returned.{NoneReturned};

use crate::books::{AMPLE, book_on, new_disk, service};
use crate::serving::forms::{CountedLink, Reads, WaitingDisk, add_links};
use ots_calendar::Book;
use ots_connection::Service;
use ots_disk::Disk;
use ots_io::{Accepter, ListAccepter, ListNonces};
use ots_outside::{Clock, FixedClock, Nonces};
use ots_workers::{Ended, Front, ServeEnd, serve_links};
use std::alloc::Global;
use std::collections::VecDeque;
use std::sync::atomic::AtomicU64;
use std::sync::{Arc, Wait};
use std::test::Fail;
use std::thread::Threads;

/// What is served: so many links that hand in a digest, and after them so many that ask for an
/// unknown commitment. A sync waits for so many turns.
#[derive(Clone, Copy)]
pub struct Plan {
    pub digests: u32,
    pub queries: u32,
    pub turns: u64,
}

/// What is left: how it ended, how many links were accepted, how many are left, how many that were
/// given back took a reply of status 200 and of 404, how many tickets wait, and whether a sync found
/// two links read.
#[derive(Clone, Copy)]
pub struct Left {
    pub ending: ServeEnd,
    pub count: u64,
    pub coming: usize,
    pub stamped: usize,
    pub unknown: usize,
    pub waiting: u64,
    pub met: bool,
}

/// What serving left of the book and of the front.
#[derive(Drop)]
pub struct Over<D, A> {
    pub ending: ServeEnd,
    count: u64,
    waiting: u64,
    disk: D,
    pub accepter: A,
}

/// Serves over any objects. What its clauses say is left here.
fn serve_over<
    D: Disk + Send + Drop,
    A: Accepter + Send + Drop,
    C: Clock + Send + Drop,
    N: Nonces + Send + Drop,
    R: Threads + Wait + Sync,
>(
    rt: &R,
    alloc: Global,
    service: &Service,
    front: Front<A, C, N>,
    book: Book<D>,
    workers: u32,
) -> Over<D, A>
    requires { (0 < workers) × (workers ≤ 64) }
{
    let Ended {
        ending,
        count,
        front,
        book,
    } = serve_links(rt, alloc, service, front, book, workers, None);
    let Front {
        accepter,
        clock: _,
        nonces: _,
        failed: _,
        short: _,
    } = front;
    Over {
        ending,
        count,
        waiting: book.waiting(),
        disk: book.into_disk(),
        accepter,
    }
}

/// The same at second 1700000000, with nonces of 16 bytes 7.
pub fn serve_drawing<D: Disk + Send + Drop, A: Accepter + Send + Drop, R: Threads + Wait + Sync>(
    rt: &R,
    alloc: Global,
    accepter: A,
    disk: D,
    workers: u32,
) -> Result<Over<D, A>, Fail>
    requires none_returned { NoneReturned (A.returned accepter) }
    requires workers { (0 < workers) × (workers ≤ 64) }
{
    let service = service(alloc)?;
    let book = book_on(alloc, disk, AMPLE)?;
    let clock = FixedClock {
        second: 1_700_000_000,
    };
    let nonces = ListNonces::new(alloc, &[7; 320], &[])?;
    let front = Front::new(accepter, clock, nonces);
    Ok(serve_over(rt, alloc, &service, front, book, workers))
}

/// The same on a new disk whose syncs wait: what is left, where the links are not counted yet, and the
/// accepter.
fn serve_waiting<A: Accepter + Send + Drop, R: Threads + Wait + Sync>(
    rt: &R,
    alloc: Global,
    accepter: A,
    reads: Reads,
    turns: u64,
    workers: u32,
) -> Result<(Left, A), Fail>
    requires none_returned { NoneReturned (A.returned accepter) }
    requires workers { (0 < workers) × (workers ≤ 64) }
{
    let disk = WaitingDisk {
        disk: new_disk(alloc)?,
        reads,
        turns,
        met: false,
    };
    let over = serve_drawing(rt, alloc, accepter, disk, workers)?;
    let left = Left {
        ending: over.ending,
        count: over.count,
        coming: 0,
        stamped: 0,
        unknown: 0,
        waiting: over.waiting,
        met: over.disk.met,
    };
    Ok((left, over.accepter))
}

/// The links of a plan.
fn new_accepter(alloc: Global, reads: &Reads, plan: Plan) -> Result<ListAccepter<CountedLink>, Fail>
    ensures { IfOk result (λ accepter. (accepter.kept ≡ []) × (accepter.tells ≡ true)) }
{
    let mut digest = Vec::from_slice(
        alloc,
        b"POST /digest HTTP/1.1\r\nContent-Length: 32\r\n\r\n",
    )?;
    digest.extend_from_slice(&[1; 32])?;
    let links = add_links(alloc, reads, &digest, plan.digests, VecDeque::new(alloc))?;
    let query = b"GET /timestamp/00 HTTP/1.1\r\n\r\n";
    let links = add_links(alloc, reads, query, plan.queries, links)?;
    Ok(ListAccepter::new(alloc, links, &[])?)
}

/// How many links took a reply that begins so.
fn count_replies(links: &[CountedLink], head: &[u8]) -> usize {
    let mut count = 0usize;
    for link in links {
        if link.link.taken().starts_with(head) {
            count = count.saturating_add(1);
        }
    }
    count
}

/// Serves the links of a plan with so many workers.
pub fn run<R: Threads + Wait + Sync>(
    rt: &R,
    alloc: Global,
    plan: Plan,
    workers: u32,
) -> Result<Left, Fail>
    requires { (0 < workers) × (workers ≤ 64) }
{
    let reads = Arc::new(alloc, AtomicU64::new(0))?;
    let accepter = new_accepter(alloc, &reads, plan)?;
    let (left, accepter) = serve_waiting(rt, alloc, accepter, reads, plan.turns, workers)?;
    let returned = accepter.returned();
    Ok(Left {
        coming: accepter.coming(),
        stamped: count_replies(returned, b"HTTP/1.1 200 OK\r\n"),
        unknown: count_replies(returned, b"HTTP/1.1 404 Not Found\r\n"),
        ..left
    })
}
