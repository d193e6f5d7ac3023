//! The rounds of a run.
ghost use Rattle.std.specs.Prelude.{◌≡◌, ◌≤◌, ◌<◌, ◌^◌, ℕ, List, [], length, vec_capacity, MatchResult, Option};
ghost use Rattle.ots_base.specs.Cause.{Rose};
ghost use Rattle.ots_outputs.specs.Printed.{SinkStays};
ghost use Rattle.ots_outside.specs.Streams.{Takes, TakesPrefix};
ghost use Rattle.ots_gateway_words.specs.Lines.{round_lines};
ghost use Rattle.ots_gateway_run.specs.Accepted.{StaysWithin};
ghost use Rattle.ots_gateway_run.specs.Going.{Going, Steps};
ghost use Rattle.ots_gateway_run.specs.Rounds.{LinesPrinted, Moment, RoundsEnd, Serves, stamped};
ghost use Rattle.ots_gateway_run.specs.Serving.{ServesOne, status_of};

use crate::accepting::{Accepting, accept_links};
use crate::giving_back::give_all_back;
use ots_address::Address;
use ots_base::OutOfMemory;
use ots_gateway::{GateServed, Round, serve_round};
use ots_gateway_words::{GateStatus, print_round};
use ots_outside::{Accepter, Dialer, Failed, Nonces, Sink};
use std::alloc::Global;
use std::sync::Wait;

/// What a gateway is asked to do in each round.
#[derive(Clone, Copy)]
pub(crate) struct Rounds<'a> {
    /// The calendars that are asked, 1 to 16.
    pub(crate) calendars: &'a [Address],
    /// How many of their trees a round needs, 1 to 16.
    pub(crate) min: u32,
    /// How many links a round has at most, 1 to 1024.
    pub(crate) round: u32,
    /// The count of accepted links at which no more are accepted, where there is one.
    pub(crate) until: Option<u64>,
    pub ghost min_some: { 1 ≤ min },
    pub ghost round_some: { 1 ≤ round },
    pub ghost round_few: { round ≤ 1024 },
}

/// Serves rounds of links, until no link is to come, as many were accepted as were asked for, or an accept
/// failed; then the links that were accepted before are served. `links` is empty and has room for a round.
pub(crate) fn serve_rounds<A: Accepter, T: Dialer, N: Nonces, K: Sink, R: Wait>(
    rt: &R,
    alloc: Global,
    rounds: &Rounds<'_>,
    links: &mut Vec<A::Link>,
    accepter: &mut A,
    dialer: &mut T,
    nonces: &mut N,
    out: &mut K,
) -> GateStatus
    requires empty { links.old.items ≡ [] }
    requires room { rounds.now.round ≤ vec_capacity links.old }
    requires count { A.accepted accepter.old < 2 ^ 64 }
    ensures empty { links.new.items ≡ [] }
    ensures within { StaysWithin rounds.now.until (A.accepted accepter.old) (A.accepted accepter.new) }
    ensures serves { (e : RoundsEnd) × (e.status ≡ result) × Serves
        (record {
          coming = A.coming;
          returned = A.returned;
          accepted = A.accepted;
          accept_faults = A.faults;
          link_told = A.Link.told;
          link_faults = A.Link.faults;
          told = T.told;
          dial_faults = T.faults;
        })
        rounds.now.calendars.now rounds.now.min rounds.now.round rounds.now.until
        (Rose (K.faults out.old) (K.faults out.new))
        (record {
          accepter = accepter.old;
          dialer = dialer.old;
          nonces = record { left = N.left nonces.old; faults = N.faults nonces.old };
        })
        (record {
          accepter = accepter.new;
          dialer = dialer.new;
          nonces = record { left = N.left nonces.new; faults = N.faults nonces.new };
        })
        e
        × LinesPrinted (Rose (K.faults out.old) (K.faults out.new)) e (K.taken out.old) (K.taken out.new) }
    ensures sink { SinkStays K.faults K.same out.old out.new }
{
    for _ in rt.forever() {
        if let Some(status) = serve_next(alloc, rounds, links, accepter, dialer, nonces, out) {
            return status;
        }
    }
    unreachable!()
}

/// Accepts the links of the next round and serves them, and tells the status with which the run ends
/// where this was the last round, or none.
fn serve_next<A: Accepter, T: Dialer, N: Nonces, K: Sink>(
    alloc: Global,
    rounds: &Rounds<'_>,
    links: &mut Vec<A::Link>,
    accepter: &mut A,
    dialer: &mut T,
    nonces: &mut N,
    out: &mut K,
) -> Option<GateStatus>
    requires empty { links.old.items ≡ [] }
    requires room { rounds.now.round ≤ vec_capacity links.old }
    ensures empty { links.new.items ≡ [] }
    ensures room { vec_capacity links.new ≡ vec_capacity links.old }
    ensures within { StaysWithin rounds.now.until (A.accepted accepter.old) (A.accepted accepter.new) }
    ensures steps { (start : ℕ) → start ≤ K.faults out.old → (first : Moment A T) (before : Option (List ℕ))
        → Going
        (record {
          coming = A.coming;
          returned = A.returned;
          accepted = A.accepted;
          accept_faults = A.faults;
          link_told = A.Link.told;
          link_faults = A.Link.faults;
          told = T.told;
          dial_faults = T.faults;
        })
        rounds.now.calendars.now rounds.now.min rounds.now.round first
        (record {
          accepter = accepter.old;
          dialer = dialer.old;
          nonces = record { left = N.left nonces.old; faults = N.faults nonces.old };
        })
        before (K.taken out.old)
        → Steps
        (record {
          coming = A.coming;
          returned = A.returned;
          accepted = A.accepted;
          accept_faults = A.faults;
          link_told = A.Link.told;
          link_faults = A.Link.faults;
          told = T.told;
          dial_faults = T.faults;
        })
        rounds.now.calendars.now rounds.now.min rounds.now.round rounds.now.until
        (Rose start (K.faults out.new)) first before
        (record {
          accepter = accepter.new;
          dialer = dialer.new;
          nonces = record { left = N.left nonces.new; faults = N.faults nonces.new };
        })
        (K.taken out.new) result }
    ensures sink { SinkStays K.faults K.same out.old out.new }
{
    let accepting = accept_links(links, rounds.round as usize, rounds.until, accepter);
    if links.is_empty() {
        return status_of(accepting);
    }
    match serve_links(alloc, rounds, links, accepter, dialer, nonces, out) {
        Ok(()) => status_of(accepting),
        Err(status) => Some(status),
    }
}

/// The status with which a run ends where no more links are accepted.
fn status_of(accepting: Accepting) -> Option<GateStatus>
    ensures { result ≡ status_of accepting }
{
    match accepting {
        Accepting::Full => None,
        Accepting::Over => Some(GateStatus::Done),
        Accepting::Fault => Some(GateStatus::AcceptFault),
    }
}

/// Serves the links of a round, gives them back, and prints the round's lines.
fn serve_links<A: Accepter, T: Dialer, N: Nonces, K: Sink>(
    alloc: Global,
    rounds: &Rounds<'_>,
    links: &mut Vec<A::Link>,
    accepter: &mut A,
    dialer: &mut T,
    nonces: &mut N,
    out: &mut K,
) -> Result<(), GateStatus>
    requires few { length links.old.items ≤ 1024 }
    ensures serves { ServesOne
        (record {
          coming = A.coming;
          returned = A.returned;
          accepted = A.accepted;
          accept_faults = A.faults;
          link_told = A.Link.told;
          link_faults = A.Link.faults;
          told = T.told;
          dial_faults = T.faults;
        })
        rounds.now.calendars.now rounds.now.min (Rose (K.faults out.old) (K.faults out.new)) links.old.items
        (record {
          accepter = accepter.old;
          dialer = dialer.old;
          nonces = record { left = N.left nonces.old; faults = N.faults nonces.old };
        })
        (record {
          accepter = accepter.new;
          dialer = dialer.new;
          nonces = record { left = N.left nonces.new; faults = N.faults nonces.new };
        })
        (K.taken out.old) (K.taken out.new) result }
    ensures empty { links.new.items ≡ [] }
    ensures room { vec_capacity links.new ≡ vec_capacity links.old }
    ensures coming { A.coming accepter.new ≡ A.coming accepter.old }
    ensures accepted { A.accepted accepter.new ≡ A.accepted accepter.old }
    ensures faults { A.faults accepter.new ≡ A.faults accepter.old }
    ensures sink { SinkStays K.faults K.same out.old out.new }
{
    let served = serve_round(
        alloc,
        links.as_mut_slice(),
        rounds.calendars,
        rounds.min,
        dialer,
        nonces,
    );
    give_all_back(links, accepter);
    match served {
        Ok(round) => print(rounds, &round, out),
        Err(OutOfMemory) => Err(GateStatus::OutOfMemory),
    }
}

/// Prints the lines of a round.
fn print<K: Sink>(rounds: &Rounds<'_>, round: &Round, out: &mut K) -> Result<(), GateStatus>
    ensures printed { MatchResult result
        (λ _. Takes (K.taken out.old) (K.taken out.new)
        (round_lines rounds.now.calendars.now round.now.outcomes.items (stamped round.now.served.items)))
        (λ e. (e ≡ GateStatus.WriteFault) × Rose (K.faults out.old) (K.faults out.new)
        × TakesPrefix (K.taken out.old) (K.taken out.new)
        (round_lines rounds.now.calendars.now round.now.outcomes.items (stamped round.now.served.items))) }
    ensures sink { SinkStays K.faults K.same out.old out.new }
{
    let stamped = stamped(&round.served) as u64;
    match print_round(rounds.calendars, &round.outcomes, stamped, out) {
        Ok(()) => Ok(()),
        Err(Failed) => Err(GateStatus::WriteFault),
    }
}

/// How many links were stamped.
fn stamped(served: &[GateServed]) -> usize
    ensures count { result ≡ stamped served.now }
    ensures few { result ≤ length served.now }
{
    let mut stamped = 0;
    for one in served {
        if let GateServed::Stamped(_) = one {
            stamped += 1;
        }
    }
    stamped
}
