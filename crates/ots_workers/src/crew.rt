//! Workers over one desk and one book.
ghost use Rattle.std.specs.Prelude.{◌≡◌, ◌<◌, false};
ghost use Rattle.std.specs.Thread.{IsSync};
ghost use Rattle.ots_shared.specs.Records.{StartsWith};
ghost use Rattle.ots_shared.specs.Told.{IsPassOf};

use crate::desk::{Desk, Server};
use crate::worker::work;
use ots_connection::Service;
use ots_disk::Disk;
use ots_outside::{Accepter, Clock, Nonces};
use ots_shared::{Pass, Shared};
use std::alloc::Global;
use std::sync::{Mutex, Wait};
use std::thread::{Threads, join};

/// One worker, and `more` in threads of their own. Where a thread can't be started, its work is done
/// here.
#[expect(clippy::too_many_arguments)]
pub(crate) fn crew<
    S: Server + Send + Sync,
    D: Disk + Send,
    A: Accepter + Send,
    C: Clock + Send,
    N: Nonces + Send,
    R: Threads + Wait + Sync,
>(
    rt: &R,
    alloc: Global,
    desk: &Mutex<Desk<S, A, C, N>>,
    shared: &Shared<D>,
    service: &Service,
    pass: Pass,
    most: Option<u64>,
    more: u32,
) -> Pass
    requires book { shared.now ≡ S.book }
    requires own { IsPassOf S.book pass }
    requires free { pass.holding ≡ false }
    requires enough { more < pass.seat.share }
    ensures seat { (result.seat ≡ pass.seat) × (result.holding ≡ false) }
    ensures seen { StartsWith result.seen pass.seen }
{
    if more == 0 {
        return work(rt, alloc, desk, shared, service, pass, most);
    }
    let fewer = more - 1;
    let (one, rest) = shared.split(pass);
    let (one, rest) = join(
        rt,
        || -> Pass
            requires { (shared.now ≡ S.book) × IsPassOf S.book one × (one.holding ≡ false) }
            ensures { (result.seat ≡ one.seat) × (result.holding ≡ false) × StartsWith result.seen one.seen }
        { work(rt, alloc, desk, shared, service, one, most) },
        || -> Pass
            requires { IsSync R.row × (shared.now ≡ S.book) × IsPassOf S.book rest × (rest.holding ≡ false)
                × (fewer < rest.seat.share) }
            ensures { (result.seat ≡ rest.seat) × (result.holding ≡ false) × StartsWith result.seen rest.seen }
        { crew(rt, alloc, desk, shared, service, rest, most, fewer) },
    );
    shared.join(one, rest)
}
