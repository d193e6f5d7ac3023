//! A connection to a book in which digests of another caller wait.
ghost use Rattle.std.specs.Prelude.{◌≡◌, false};
ghost use Rattle.ots_shared.specs.Told.{IsPassOf};

use crate::service::connections::{Ended, close, serve_one, share};
use ots_attest::Uri;
use ots_calendar::{Book, Leaf, Receipt, Taken, Ticket};
use ots_connection::Service;
use ots_disk::Disk;
use ots_shared::{Pass, Shared};
use std::alloc::{AllocError, Global};
use std::sync::Wait;

/// What came of the connection, and of the other caller.
#[derive(Drop)]
pub struct Beside {
    pub ended: Ended,
    /// The receipt of the other's last ticket, where its round is closed.
    pub receipt: Option<Receipt>,
    /// Of how many records the other was told before it held the book again, and the one that served
    /// after that.
    pub acknowledged: (u64, u64),
}

/// Puts a digest with the nonce of 16 bytes 8.
fn put<D: Disk, R: Wait>(rt: &R, shared: &Shared<D>, pass: &mut Pass, leaf: Leaf) -> Option<Ticket>
    requires own { IsPassOf shared.now pass.old }
    requires free { pass.old.holding ≡ false }
    ensures seat { (pass.new.seat ≡ pass.old.seat) × (pass.new.holding ≡ false) }
{
    let mut held = shared.hold(rt, pass);
    let ticket = held.book().put(leaf, [8; 16]);
    shared.release(pass, held);
    ticket.ok()
}

/// Puts it so many times: the last ticket.
fn fill<D: Disk, R: Wait>(
    rt: &R,
    shared: &Shared<D>,
    mut pass: Pass,
    leaf: Leaf,
    times: u32,
) -> (Pass, Option<Ticket>)
    requires own { IsPassOf shared.now pass }
    requires free { pass.holding ≡ false }
    ensures seat { (result.0.seat ≡ pass.seat) × (result.0.holding ≡ false) }
{
    let mut last = None;
    for _ in 0..times {
        last = put(rt, shared, &mut pass, leaf);
    }
    (pass, last)
}

/// Takes the receipt of a ticket whose round is closed.
fn take<D: Disk, R: Wait>(
    rt: &R,
    shared: &Shared<D>,
    pass: &mut Pass,
    ticket: &Ticket,
    uri: &Uri,
) -> Option<Receipt>
    requires own { IsPassOf shared.now pass.old }
    requires free { pass.old.holding ≡ false }
    ensures seat { (pass.new.seat ≡ pass.old.seat) × (pass.new.holding ≡ false) }
{
    let mut held = shared.hold(rt, pass);
    let taken = held.book().take(ticket, uri);
    shared.release(pass, held);
    match taken {
        Ok(Taken::Settled(_, receipt)) => Some(receipt),
        _ => None,
    }
}

/// The same, where there is a ticket.
fn take_last<D: Disk, R: Wait>(
    rt: &R,
    shared: &Shared<D>,
    pass: &mut Pass,
    ticket: Option<Ticket>,
    uri: &Uri,
) -> Option<Receipt>
    requires own { IsPassOf shared.now pass.old }
    requires free { pass.old.holding ≡ false }
    ensures seat { (pass.new.seat ≡ pass.old.seat) × (pass.new.holding ≡ false) }
{
    match ticket {
        Some(ticket) => take(rt, shared, pass, &ticket, uri),
        None => None,
    }
}

/// Another caller puts a digest so many times; a connection is served; and the other takes its last
/// ticket.
pub fn serve_beside<D: Disk + Drop, R: Wait>(
    rt: &R,
    alloc: Global,
    book: Book<D>,
    service: &Service,
    leaf: Leaf,
    times: u32,
) -> Result<Beside, AllocError> {
    let (shared, pass) = share(alloc, book, 2)?;
    let (mut one, other) = shared.split(pass);
    let (mut other, ticket) = fill(rt, &shared, other, leaf, times);
    let told = serve_one(rt, alloc, &shared, &mut one, service);
    let before = shared.acknowledged(&mut other);
    let receipt = take_last(rt, &shared, &mut other, ticket, &service.uri);
    let after = shared.acknowledged(&mut one);
    let pass = shared.join(one, other);
    let (commits, waiting) = close(shared, pass);
    Ok(Beside {
        ended: Ended {
            told: told?,
            commits,
            waiting,
        },
        receipt,
        acknowledged: (before, after),
    })
}
