//! A caller that is told counts, while another adds records.
ghost use Rattle.std.specs.Prelude.{◌≡◌, false};
ghost use Rattle.ots_shared.specs.Told.{IsPassOf};

use crate::service::connections::{close, serve_one, share};
use ots_calendar::Book;
use ots_connection::Service;
use ots_disk::Disk;
use ots_shared::{Pass, Shared};
use std::alloc::{AllocError, Global};
use std::sync::Wait;
use std::thread::{Threads, join};

/// Whether no fewer records are found than were told of.
fn finds_as_told<D: Disk, R: Wait>(rt: &R, shared: &Shared<D>, pass: &mut Pass) -> bool
    requires own { IsPassOf shared.now pass.old }
    requires free { pass.old.holding ≡ false }
    ensures seat { (pass.new.seat ≡ pass.old.seat) × (pass.new.holding ≡ false) }
{
    let told = shared.acknowledged(pass);
    let mut held = shared.hold(rt, pass);
    let found = held.book().store().entries();
    shared.release(pass, held);
    told <= found
}

/// Looks so many times: whether no fewer records were found than were told of, each time.
pub fn watch<D: Disk, R: Wait>(
    rt: &R,
    shared: &Shared<D>,
    mut pass: Pass,
    times: u32,
) -> (Pass, bool)
    requires own { IsPassOf shared.now pass }
    requires free { pass.holding ≡ false }
    ensures seat { (result.0.seat ≡ pass.seat) × (result.0.holding ≡ false) }
{
    let mut all = true;
    for _ in 0..times {
        all = finds_as_told(rt, shared, &mut pass) && all;
    }
    (pass, all)
}

/// Serves so many connections, each of which adds a record.
fn add<D: Disk, R: Wait>(
    rt: &R,
    alloc: Global,
    shared: &Shared<D>,
    mut pass: Pass,
    service: &Service,
    times: u32,
) -> Pass
    requires own { IsPassOf shared.now pass }
    requires free { pass.holding ≡ false }
    ensures seat { (result.seat ≡ pass.seat) × (result.holding ≡ false) }
{
    for _ in 0..times {
        let _ = serve_one(rt, alloc, shared, &mut pass, service);
    }
    pass
}

/// Whether a caller never found fewer records than it was told of, while another added 100, and how many commitments
/// are stored.
pub fn watch_while_added<D: Disk + Send + Drop, R: Threads + Wait + Sync>(
    rt: &R,
    alloc: Global,
    book: Book<D>,
    service: &Service,
) -> Result<(bool, u64), AllocError> {
    let (shared, pass) = share(alloc, book, 2)?;
    let (one, other) = shared.split(pass);
    let (one, (other, as_told)) = join(
        rt,
        || -> Pass
            requires { IsPassOf shared one × (one.holding ≡ false) }
            ensures { (result.seat ≡ one.seat) × (result.holding ≡ false) }
        { add(rt, alloc, &shared, one, service, 100) },
        || -> (Pass, bool)
            requires { IsPassOf shared other × (other.holding ≡ false) }
            ensures { (result.0.seat ≡ other.seat) × (result.0.holding ≡ false) }
        { watch(rt, &shared, other, 400) },
    );
    let pass = shared.join(one, other);
    let (commits, _) = close(shared, pass);
    Ok((as_told, commits))
}
