//! Links that are given back.
ghost use Rattle.std.specs.Prelude.{◌≡◌, [], vec_capacity};
ghost use Rattle.ots_gateway_run.specs.Accepted.{GivesAllBack};

use ots_outside::Accepter;

/// Gives these links back, in their order, and leaves the list empty, with its room.
pub(crate) fn give_all_back<A: Accepter>(links: &mut Vec<A::Link>, accepter: &mut A)
    ensures empty { links.new.items ≡ [] }
    ensures room { vec_capacity links.new ≡ vec_capacity links.old }
    ensures returned { GivesAllBack (A.returned accepter.old) links.old.items (A.returned accepter.new) }
    ensures coming { A.coming accepter.new ≡ A.coming accepter.old }
    ensures accepted { A.accepted accepter.new ≡ A.accepted accepter.old }
    ensures faults { A.faults accepter.new ≡ A.faults accepter.old }
{
    links.as_mut_slice().reverse();
    while !links.is_empty() {
        accepter.give_back(links.take_last());
    }
}
