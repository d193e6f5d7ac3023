//! The replies to the digests of a round.
ghost use Rattle.std.specs.Prelude.{◌≡◌, ◌≤◌, ◌<◌, ◌+◌, List, [], ◌∷◌, length, map, IfOk, IfSome, OnErr};
ghost use Rattle.ots_http.specs.Seen.{LinkSeen};
ghost use Rattle.ots_tree.specs.Wire.{Node, pre};
ghost use Rattle.ots_gateway.specs.Answer.{IsAnswer, Keeps};
ghost use Rattle.ots_gateway.specs.Arrived.{HearAll, IsHeard, waiting_in};
ghost use Rattle.ots_gateway.specs.Round.{EachMayServe, Given, Heard, Sends, ServeAll, Serves, due, next, tree_from};

use crate::answer::Answer;
use crate::arrived::Arrived;
use crate::sending::send;
use crate::served::GateServed;
use crate::waiting::Waiting;
use ots_base::OutOfMemory;
use ots_http::{Reply, Word};
use ots_outside::Link;
use ots_tree::{Tree, under};
use std::alloc::Global;

/// Answers each link whose digest waits, in order.
pub(crate) fn reply_all<L: Link>(
    alloc: Global,
    links: &mut [L],
    arrived: &[Arrived],
    answer: &Option<Answer>,
) -> Result<Vec<GateServed>, OutOfMemory>
    requires links { length arrived.now ≡ length links.old }
    requires few { length links.old ≤ 1024 }
    requires answer { IfSome answer.now (Keeps (length (waiting_in arrived.now))) }
    ensures served { (heard : List Heard) (olds : List LinkSeen) (given : Given)
        → HearAll heard olds (map (λ l. record { told = L.told l; faults = L.faults l }) links.old) arrived.now
        → IsAnswer given answer.now
        → IfOk result (λ served. ServeAll given 0 heard olds
        (map (λ l. record { told = L.told l; faults = L.faults l }) links.new) served.items) }
    ensures broken_off { (heard : List Heard) (olds : List LinkSeen) (given : Given)
        → HearAll heard olds (map (λ l. record { told = L.told l; faults = L.faults l }) links.old) arrived.now
        → IsAnswer given answer.now
        → OnErr result (EachMayServe olds (map (λ l. record { told = L.told l; faults = L.faults l }) links.new)) }
{
    let mut served = Vec::with_capacity(alloc, links.len())?;
    let mut place = 0;
    for i in 0..links.len() {
        let (one, next) = serve(alloc, &mut links[i], &arrived[i], answer, place)?;
        place = next;
        served.push(one)?;
    }
    Ok(served)
}

/// Answers a link whose digest waits, at this place among those of the round, and tells how it is served,
/// as is told of any other; and the place of the next digest.
fn serve<L: Link>(
    alloc: Global,
    link: &mut L,
    arrived: &Arrived,
    answer: &Option<Answer>,
    place: usize,
) -> Result<(GateServed, usize), OutOfMemory>
    requires answer { IfSome answer.now (Keeps (place + length (waiting_in (arrived.now ∷ [])))) }
    requires few { place ≤ 1024 }
    ensures served { (heard : Heard) (old : LinkSeen) (given : Given)
        → IsHeard heard old (record { told = L.told link.old; faults = L.faults link.old }) arrived.now
        → IsAnswer given answer.now
        → IfOk result (λ made. Serves given place heard old
        (record { told = L.told link.new; faults = L.faults link.new }) made.0 × (made.1 ≡ next heard place)) }
    ensures place { IfOk result (λ made. made.1 ≡ place + length (waiting_in (arrived.now ∷ []))) }
    ensures nothing { OnErr result ((L.told link.new ≡ L.told link.old) × (L.faults link.new ≡ L.faults link.old)) }
{
    match arrived {
        Arrived::Waits(waiting) => {
            let served = reply_to(alloc, link, waiting, place, answer)?;
            Ok((served, place + 1))
        }
        Arrived::Replied(status) => Ok((GateServed::Replied(*status), place)),
        Arrived::Closed => Ok((GateServed::Closed, place)),
        Arrived::LinkFault => Ok((GateServed::LinkFault, place)),
    }
}

/// Answers the digest that waits at this place among those of the round.
fn reply_to<L: Link>(
    alloc: Global,
    link: &mut L,
    waiting: &Waiting,
    place: usize,
    answer: &Option<Answer>,
) -> Result<GateServed, OutOfMemory>
    requires { IfSome answer.now (Keeps (place + 1)) }
    ensures sends { (given : Given) → IsAnswer given answer.now
        → IfOk result (Sends (due given place waiting.now)
        (record { told = L.told link.old; faults = L.faults link.old })
        (record { told = L.told link.new; faults = L.faults link.new })) }
    ensures nothing { OnErr result ((L.told link.new ≡ L.told link.old) × (L.faults link.new ≡ L.faults link.old)) }
    ensures later { L.faults link.old ≤ L.faults link.new }
{
    let reply = match answer {
        Some(answer) => Reply::Tree(tree_of(alloc, answer, place, waiting)?),
        None => Reply::Text(503, Word::Upstream),
    };
    Ok(send(link, reply))
}

/// The tree of the digest at this place.
fn tree_of(
    alloc: Global,
    answer: &Answer,
    place: usize,
    waiting: &Waiting,
) -> Result<Tree, OutOfMemory>
    requires { place < length answer.now.ways }
    ensures { (node : Node) → pre node ≡ answer.now.tree
        → IfOk result (λ tree. tree ≡ tree_from answer.now.ways node place waiting.now.nonce) }
{
    let way = answer.ways.way(alloc, place, &waiting.nonce)?;
    under(alloc, way.items(), answer.tree.copy()?)
}
