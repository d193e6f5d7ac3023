//! Connections to a shared book. Each hands in the digest of 32 bytes 1 at second 1700000000, and draws the nonce of
//! 16 bytes 7.
ghost use Rattle.std.specs.Prelude.{◌≡◌, ◌<◌, ◌≤◌, false, IfOk};
ghost use Rattle.ots_shared.specs.Told.{IsPassOf};
ghost use Rattle.ots_shared.specs.declared.limits.TheConstants.{MAX_CALLERS};

use ots_calendar::Book;
use ots_connection::{Served, Service, serve_connection};
use ots_disk::Disk;
use ots_io::BytesLink;
use ots_outside::{Clock, FixedClock, Link, Nonces, OneNonce};
use ots_shared::{Pass, RefusedShared, Shared};
use std::alloc::{AllocError, Global};
use std::sync::Wait;

/// The request.
pub const REQUEST: &[u8] = b"POST /digest HTTP/1.1\r\nContent-Length: 32\r\n\r\n\
    \x01\x01\x01\x01\x01\x01\x01\x01\x01\x01\x01\x01\x01\x01\x01\x01\x01\x01\x01\x01\x01\x01\x01\x01\
    \x01\x01\x01\x01\x01\x01\x01\x01";

/// How a connection ended, and the bytes that its link took.
#[derive(Drop)]
pub struct Told {
    pub served: Served,
    pub taken: Vec<u8>,
}

/// The same, and how many commitments are stored then, and how many tickets wait.
#[derive(Drop)]
pub struct Ended {
    pub told: Told,
    pub commits: u64,
    pub waiting: u64,
}

/// Shares a book among so many callers.
pub fn share<D: Disk + Drop>(
    alloc: Global,
    book: Book<D>,
    callers: u32,
) -> Result<(Shared<D>, Pass), AllocError>
    requires some { 0 < callers }
    requires most { callers ≤ MAX_CALLERS }
    ensures callers { IfOk result (λ r. r.0.callers ≡ callers) }
    ensures own { IfOk result (λ r. IsPassOf r.0 r.1) }
    ensures share { IfOk result (λ r. r.1.seat.share ≡ callers) }
    ensures free { IfOk result (λ r. r.1.holding ≡ false) }
{
    match Shared::open(alloc, book, callers) {
        Ok(opened) => Ok(opened),
        Err(RefusedShared { book: _ }) => Err(AllocError),
    }
}

/// Takes the book back from its callers: how many commitments are stored, and how many tickets wait.
pub fn close<D: Disk + Drop>(shared: Shared<D>, pass: Pass) -> (u64, u64)
    requires own { IsPassOf shared pass }
    requires free { pass.holding ≡ false }
    requires whole { pass.seat.share ≡ shared.callers }
{
    let book = shared.close(pass);
    (book.store().commits(), book.waiting())
}

/// Serves a connection over any objects. What its clauses say is left here.
#[expect(clippy::too_many_arguments)]
fn serve_over<L: Link, D: Disk, C: Clock, N: Nonces, R: Wait>(
    rt: &R,
    alloc: Global,
    shared: &Shared<D>,
    pass: &mut Pass,
    service: &Service,
    link: &mut L,
    clock: &mut C,
    nonces: &mut N,
) -> Served
    requires own { IsPassOf shared.now pass.old }
    requires free { pass.old.holding ≡ false }
    ensures seat { (pass.new.seat ≡ pass.old.seat) × (pass.new.holding ≡ false) }
{
    serve_connection(rt, alloc, shared, pass, service, link, clock, nonces)
}

/// The same with this clock, and the nonce of 16 bytes 7. Each object in memory is made in a function of its own, over
/// any others, so that no function is proved with the clauses of two of them at hand.
fn serve_at<L: Link, D: Disk, C: Clock, R: Wait>(
    rt: &R,
    alloc: Global,
    shared: &Shared<D>,
    pass: &mut Pass,
    service: &Service,
    link: &mut L,
    clock: &mut C,
) -> Served
    requires own { IsPassOf shared.now pass.old }
    requires free { pass.old.holding ≡ false }
    ensures seat { (pass.new.seat ≡ pass.old.seat) × (pass.new.holding ≡ false) }
{
    let mut nonces = OneNonce::new(Some([7; 16]));
    serve_over(rt, alloc, shared, pass, service, link, clock, &mut nonces)
}

/// Serves a connection over any link, at second 1700000000 and with the nonce of 16 bytes 7.
pub fn serve_link<L: Link, D: Disk, R: Wait>(
    rt: &R,
    alloc: Global,
    shared: &Shared<D>,
    pass: &mut Pass,
    service: &Service,
    link: &mut L,
) -> Served
    requires own { IsPassOf shared.now pass.old }
    requires free { pass.old.holding ≡ false }
    ensures seat { (pass.new.seat ≡ pass.old.seat) × (pass.new.holding ≡ false) }
{
    let mut clock = FixedClock {
        second: 1_700_000_000,
    };
    serve_at(rt, alloc, shared, pass, service, link, &mut clock)
}

/// Serves a connection.
pub fn serve_one<D: Disk, R: Wait>(
    rt: &R,
    alloc: Global,
    shared: &Shared<D>,
    pass: &mut Pass,
    service: &Service,
) -> Result<Told, AllocError>
    requires own { IsPassOf shared.now pass.old }
    requires free { pass.old.holding ≡ false }
    ensures seat { (pass.new.seat ≡ pass.old.seat) × (pass.new.holding ≡ false) }
{
    let Ok(mut link) = BytesLink::new(alloc, REQUEST, &[], 2000, &[]) else {
        return Err(AllocError);
    };
    let served = serve_link(rt, alloc, shared, pass, service, &mut link);
    Ok(Told {
        served,
        taken: link.taken().to_vec(alloc)?,
    })
}

/// Serves a connection to a book that has no other caller.
pub fn serve_alone<D: Disk + Drop, R: Wait>(
    rt: &R,
    alloc: Global,
    book: Book<D>,
    service: &Service,
) -> Result<Ended, AllocError> {
    let (shared, mut pass) = share(alloc, book, 1)?;
    let told = serve_one(rt, alloc, &shared, &mut pass, service);
    let (commits, waiting) = close(shared, pass);
    Ok(Ended {
        told: told?,
        commits,
        waiting,
    })
}
