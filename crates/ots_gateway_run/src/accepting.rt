//! The links of one round.
ghost use Rattle.std.specs.Prelude.{◌≡◌, ◌≤◌, ◌↔◌, [], IsTrue, length, vec_capacity};
ghost use Rattle.ots_base.specs.Cause.{Rose};
ghost use Rattle.ots_gateway_run.specs.Accepted.{AreFresh, Comes, IsOver, Reaches, StaysWithin, counted};

use ots_outside::{Accepter, Failed};

/// Why no more links are accepted for a round.
#[derive(Clone, Copy, Debug, PartialEq, Eq)]
pub(crate) enum Accepting {
    /// The round has as many links as it may have.
    Full,
    /// No link is to come, or as many were accepted as were asked for.
    Over,
    /// An accept failed, and the accepter has counted the fault.
    Fault,
}

/// Accepts the links of a round, at most `round`, into a list that has room for so many, and not beyond
/// the count `until`, where there is one.
pub(crate) fn accept_links<A: Accepter>(
    links: &mut Vec<A::Link>,
    round: usize,
    until: Option<u64>,
    accepter: &mut A,
) -> Accepting
    requires empty { links.old.items ≡ [] }
    requires room { round ≤ vec_capacity links.old }
    ensures comes { Comes links.new.items (A.coming accepter.old) (A.coming accepter.new) }
    ensures fresh { AreFresh A.Link.told A.Link.faults links.new.items }
    ensures returned { A.returned accepter.new ≡ A.returned accepter.old }
    ensures count { A.accepted accepter.new ≡ counted (A.accepted accepter.old) (length links.new.items) }
    ensures within { StaysWithin until (A.accepted accepter.old) (A.accepted accepter.new) }
    ensures later { A.faults accepter.old ≤ A.faults accepter.new }
    ensures few { length links.new.items ≤ round }
    ensures full { result ≡ Accepting.Full → length links.new.items ≡ round }
    ensures over { result ≡ Accepting.Over → IsOver (A.coming accepter.new) until (A.accepted accepter.new) }
    ensures fault { result ≡ Accepting.Fault → Rose (A.faults accepter.old) (A.faults accepter.new) }
    ensures room { vec_capacity links.new ≡ vec_capacity links.old }
{
    while !has_all(until, accepter.accepted()) {
        if links.len() == round {
            return Accepting::Full;
        }
        match accepter.accept() {
            Ok(Some(link)) => links.push_reserved(link),
            Ok(None) => return Accepting::Over,
            Err(Failed) => return Accepting::Fault,
        }
    }
    Accepting::Over
}

/// Whether as many links were accepted as were asked for.
fn has_all(until: Option<u64>, count: u64) -> bool
    ensures { IsTrue result ↔ Reaches until count }
{
    until.is_some_and(|until| until <= count)
}
