//! A round.
ghost use Rattle.std.specs.Prelude.{◌≡◌, ◌≤◌, length, map, IfOk, OnErr};
ghost use Rattle.ots_gateway.specs.Arrived.{waiting_in};
ghost use Rattle.ots_gateway.specs.Round.{EachMayServe, IsRound};
ghost use Rattle.ots_gateway.specs.Ways.{leaves};
ghost use Rattle.ots_http.specs.Seen.{LinkSeen};

use crate::answer::ask;
use crate::arrived::Arrived;
use crate::hearing::hear_all;
use crate::replying::reply_all;
use crate::served::GateServed;
use ots_address::Address;
use ots_asking::Outcome;
use ots_base::OutOfMemory;
use ots_outside::{Dialer, Link, Nonces};
use std::alloc::Global;

/// How a round was served.
#[derive(Debug, Drop)]
pub struct Round {
    /// How each link was served, in their order.
    pub served: Vec<GateServed>,
    /// What came of asking each calendar, in their order; none where no link had a digest.
    pub outcomes: Vec<Outcome>,
}

/// Serves 1 to 1024 links as one round, of which each calendar is sent one root.
///
/// A request is read from each link in order. One that is refused is answered at once, and so is each
/// GET, by 404 `not found`. A digest waits with a nonce of its own; where none can be drawn it is
/// answered 503 `nonce`. The root over the digests that wait is sent to each of the 1 to 16 calendars in
/// order, and of the trees that they answer those are taken that fit, as [`take_trees`](crate::take_trees)
/// tells. Where these are fewer than `min`, 1 to 16, each digest is answered 503 `upstream`; else with
/// a tree: its own way to the root, and below it the items of the taken trees.
///
/// To each link it is said that nothing more is written once all replies of the round are, also where memory ran out:
/// this may wait for the other side, and no other link waits for its reply meanwhile.
///
/// After `OutOfMemory` each link has taken nothing, or its whole reply, or a prefix of it where its
/// count of faults rose.
pub fn serve_round<L: Link, T: Dialer, N: Nonces>(
    alloc: Global,
    links: &mut [L],
    calendars: &[Address],
    min: u32,
    dialer: &mut T,
    nonces: &mut N,
) -> Result<Round, OutOfMemory>
    requires links { length links.old ≤ 1024 }
    requires min { 1 ≤ min }
    ensures round { IfOk result (λ round. IsRound T.told T.faults calendars.now min
        (map (λ l. record { told = L.told l; faults = L.faults l }) links.old)
        (map (λ l. record { told = L.told l; faults = L.faults l }) links.new)
        (record { left = N.left nonces.old; faults = N.faults nonces.old })
        (record { left = N.left nonces.new; faults = N.faults nonces.new }) dialer.old dialer.new round.served.items
        round.outcomes.items) }
    ensures broken_off { OnErr result (EachMayServe
        (map (λ l. record { told = L.told l; faults = L.faults l }) links.old)
        (map (λ l. record { told = L.told l; faults = L.faults l }) links.new)) }
{
    let round = serve_all(alloc, links, calendars, min, dialer, nonces);
    finish_all(links);
    round
}

/// The same, but for the end of the links.
fn serve_all<L: Link, T: Dialer, N: Nonces>(
    alloc: Global,
    links: &mut [L],
    calendars: &[Address],
    min: u32,
    dialer: &mut T,
    nonces: &mut N,
) -> Result<Round, OutOfMemory>
    requires links { length links.old ≤ 1024 }
    requires min { 1 ≤ min }
    ensures round { IfOk result (λ round. IsRound T.told T.faults calendars.now min
        (map (λ l. record { told = L.told l; faults = L.faults l }) links.old)
        (map (λ l. record { told = L.told l; faults = L.faults l }) links.new)
        (record { left = N.left nonces.old; faults = N.faults nonces.old })
        (record { left = N.left nonces.new; faults = N.faults nonces.new }) dialer.old dialer.new round.served.items
        round.outcomes.items) }
    ensures broken_off { OnErr result (EachMayServe
        (map (λ l. record { told = L.told l; faults = L.faults l }) links.old)
        (map (λ l. record { told = L.told l; faults = L.faults l }) links.new)) }
{
    let arrived = hear_all(alloc, links, nonces)?;
    let leaves = leaves_of(alloc, &arrived)?;
    let (answer, outcomes) = ask(alloc, leaves, calendars, min, dialer)?;
    let served = reply_all(alloc, links, &arrived, &answer)?;
    Ok(Round { served, outcomes })
}

/// Says to each link that nothing more is written. A link that was told so is done with before the next.
fn finish_all<L: Link>(links: &mut [L])
    ensures { map {B = LinkSeen} (λ l. record { told = L.told l; faults = L.faults l }) links.new
        ≡ map {B = LinkSeen} (λ l. record { told = L.told l; faults = L.faults l }) links.old }
{
    for i in 0..links.len() {
        links[i].finish();
    }
}

/// The leaves of the digests that wait, in order.
fn leaves_of(alloc: Global, arrived: &[Arrived]) -> Result<Vec<[u8; 32]>, OutOfMemory>
    ensures leaves { IfOk result (λ made. made.items ≡ leaves (waiting_in arrived.now)) }
    ensures few { IfOk result (λ made. length made.items ≤ length arrived.now) }
{
    let mut leaves = Vec::with_capacity(alloc, arrived.len())?;
    for one in arrived {
        if let Arrived::Waits(waiting) = one {
            leaves.push(waiting.leaf())?;
        }
    }
    Ok(leaves)
}
