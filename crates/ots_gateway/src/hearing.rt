//! The requests of a round's links.
ghost use Rattle.std.specs.Prelude.{◌≡◌, ◌≤◌, ◌∷◌, [], List, length, map, IfOk, IfErr, OnErr};
ghost use Rattle.ots_base.specs.Cause.{Rose};
ghost use Rattle.ots_http.specs.declared.request.Request.TheVariants.{Digest};
ghost use Rattle.ots_http.specs.declared.word.Word.TheVariants.{Nonce};
ghost use Rattle.ots_gateway.specs.declared.served.GateServed.{GateServed};
ghost use Rattle.ots_outside.specs.Streams.{Gives};
ghost use Rattle.ots_gateway.specs.Arrived.{HasWords, HearAll, IsHeard, IsServed};
ghost use Rattle.ots_gateway.specs.Round.{Draws, EachMayServe, Heard, Sends, in_words};

use crate::arrived::Arrived;
use crate::sending::send;
use crate::served::GateServed;
use crate::waiting::Waiting;
use ots_base::OutOfMemory;
use ots_http::{Reply, Request, RequestError, Word, read_request};
use ots_outside::{Leaf, Link, Nonces};
use std::alloc::Global;

/// Reads a request from each link in order, and answers at once whatever is no digest that waits.
pub(crate) fn hear_all<L: Link, N: Nonces>(
    alloc: Global,
    links: &mut [L],
    nonces: &mut N,
) -> Result<Vec<Arrived>, OutOfMemory>
    ensures heard { IfOk result (λ arrived. (heard : List Heard)
        × HearAll heard (map (λ l. record { told = L.told l; faults = L.faults l }) links.old)
        (map (λ l. record { told = L.told l; faults = L.faults l }) links.new) arrived.items
        × Draws heard (record { left = N.left nonces.old; faults = N.faults nonces.old })
        (record { left = N.left nonces.new; faults = N.faults nonces.new })) }
    ensures broken_off { OnErr result (EachMayServe
        (map (λ l. record { told = L.told l; faults = L.faults l }) links.old)
        (map (λ l. record { told = L.told l; faults = L.faults l }) links.new)) }
    ensures count { length links.new ≡ length links.old }
{
    let mut arrived = Vec::with_capacity(alloc, links.len())?;
    for i in 0..links.len() {
        arrived.push(hear(&mut links[i], nonces))?;
    }
    Ok(arrived)
}

/// Reads a link's request. A digest waits with a nonce of its own; anything else is answered at once.
fn hear<L: Link, N: Nonces>(link: &mut L, nonces: &mut N) -> Arrived
    ensures { (heard : Heard) × IsHeard heard (record { told = L.told link.old; faults = L.faults link.old })
        (record { told = L.told link.new; faults = L.faults link.new }) result
        × Draws (heard ∷ []) (record { left = N.left nonces.old; faults = N.faults nonces.old })
        (record { left = N.left nonces.new; faults = N.faults nonces.new }) }
{
    match read_request(link) {
        Err(RequestError::Closed) => Arrived::Closed,
        Err(RequestError::LinkFault) => Arrived::LinkFault,
        Ok(request) => match take_up(request, nonces) {
            Ok(waiting) => Arrived::Waits(waiting),
            Err(word) => tell(link, word),
        },
    }
}

/// A digest with its nonce, or the words of the reply to a request.
fn take_up<N: Nonces>(request: Request, nonces: &mut N) -> Result<Waiting, Word>
    ensures waits { IfOk result (λ w. (request ≡ Digest w.digest) × Gives (N.left nonces.old) (N.left nonces.new)
        w.nonce) }
    ensures told { IfErr result (HasWords request (Rose (N.faults nonces.old) (N.faults nonces.new))) }
    ensures kept { OnErr result (N.left nonces.new ≡ N.left nonces.old) }
    ensures later { N.faults nonces.old ≤ N.faults nonces.new }
{
    match request {
        Request::Digest(digest) => draw(digest, nonces),
        Request::Timestamp(_) | Request::Records(_) => Err(Word::NotFound),
        Request::Refused(status) => Err(Word::of_refused(status)),
    }
}

/// A digest with the next nonce, or that there is none.
fn draw<N: Nonces>(digest: Leaf, nonces: &mut N) -> Result<Waiting, Word>
    ensures waits { IfOk result (λ w. (w.digest ≡ digest) × Gives (N.left nonces.old) (N.left nonces.new) w.nonce) }
    ensures told { IfErr result (λ word. (word ≡ Nonce) × Rose (N.faults nonces.old) (N.faults nonces.new)) }
    ensures kept { OnErr result (N.left nonces.new ≡ N.left nonces.old) }
    ensures later { N.faults nonces.old ≤ N.faults nonces.new }
{
    let mut nonce = [0; 16];
    match nonces.fill16(&mut nonce) {
        Ok(()) => Ok(Waiting { digest, nonce }),
        Err(_) => Err(Word::Nonce),
    }
}

/// Writes the reply with these words.
fn tell<L: Link>(link: &mut L, word: Word) -> Arrived
    ensures sends { (served : GateServed)
        × Sends (in_words word) (record { told = L.told link.old; faults = L.faults link.old })
        (record { told = L.told link.new; faults = L.faults link.new }) served × IsServed result served }
    ensures later { L.faults link.old ≤ L.faults link.new }
{
    let status = word.status();
    match send(link, Reply::Text(status, word)) {
        GateServed::LinkFault => Arrived::LinkFault,
        _ => Arrived::Replied(status),
    }
}
