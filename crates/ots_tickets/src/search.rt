//! Tickets sought among others.
ghost use Rattle.std.specs.Prelude.{◌≡◌, ◌<◌, ◌≤◌, true, false, length, MatchOption, IfSome, slice_index_or, slice_get};
ghost use Rattle.std.specs.Prelude.{Some};
ghost use Rattle.std.specs.List.{AllByRecursion};
ghost use Rattle.ots_tickets.specs.Tickets.{Waits, IsSettled, NoneIs};
ghost use Rattle.ots_tickets.specs.Search.{IsPlace};
ghost use Rattle.ots_tickets.specs.Slots.{IsHere};

use crate::Settled;
use crate::slots::Slot;
use ots_round::Ticket;

/// The place of a ticket among those that wait. Numbers rise, so that a ticket that is there stands
/// where the search by numbers ends: only for one that is not there it walks over all.
pub(crate) fn place_of_waiting(waiting: &[Slot<Ticket>], ticket: &Ticket) -> Option<usize>
    ensures { MatchOption result (NoneIs (IsHere (Waits ticket.now)) waiting.now)
        (IsPlace (IsHere (Waits ticket.now)) waiting.now) }
{
    if let Some(place) = waiting_by_number(waiting, ticket) {
        return Some(place);
    }
    for i in 0..waiting.len() {
        if waits(&waiting[i], ticket) {
            return Some(i);
        }
    }
    None
}

/// The place of a ticket among those whose round is closed, likewise.
pub(crate) fn place_of_settled(settled: &[Slot<Settled>], ticket: &Ticket) -> Option<usize>
    ensures { MatchOption result (NoneIs (IsHere (IsSettled ticket.now)) settled.now)
        (IsPlace (IsHere (IsSettled ticket.now)) settled.now) }
{
    if let Some(place) = settled_by_number(settled, ticket) {
        return Some(place);
    }
    for i in 0..settled.len() {
        if is_settled(&settled[i], ticket) {
            return Some(i);
        }
    }
    None
}

/// Where a ticket waits, where the search by its number finds it.
fn waiting_by_number(waiting: &[Slot<Ticket>], ticket: &Ticket) -> Option<usize>
    ensures { IfSome result (IsPlace (IsHere (Waits ticket.now)) waiting.now) }
{
    let place = waiting.partition_point(|slot| slot.item.number < ticket.number);
    if place < waiting.len() && waits(&waiting[place], ticket) {
        return Some(place);
    }
    None
}

/// Where a ticket is settled, where the search by its number finds it.
fn settled_by_number(settled: &[Slot<Settled>], ticket: &Ticket) -> Option<usize>
    ensures { IfSome result (IsPlace (IsHere (IsSettled ticket.now)) settled.now) }
{
    let place = settled.partition_point(|slot| slot.item.ticket.number < ticket.number);
    if place < settled.len() && is_settled(&settled[place], ticket) {
        return Some(place);
    }
    None
}

/// Whether this is the ticket, and it waits.
fn waits(slot: &Slot<Ticket>, ticket: &Ticket) -> bool
    ensures yes { result ≡ true → IsHere (Waits ticket.now) slot.now }
    ensures no { result ≡ false → IsHere (Waits ticket.now) slot.now → ⊥ }
{
    !slot.is_gone && is_same(&slot.item, ticket)
}

/// Whether this is the ticket, and its round is closed.
fn is_settled(slot: &Slot<Settled>, ticket: &Ticket) -> bool
    ensures yes { result ≡ true → IsHere (IsSettled ticket.now) slot.now }
    ensures no { result ≡ false → IsHere (IsSettled ticket.now) slot.now → ⊥ }
{
    !slot.is_gone && is_same(&slot.item.ticket, ticket)
}

/// Whether two tickets are the same: their numbers, digests and nonces.
fn is_same(first: &Ticket, second: &Ticket) -> bool
    ensures yes { result ≡ true → first.now ≡ second.now }
    ensures no { result ≡ false → first.now ≡ second.now → ⊥ }
{
    first.number == second.number
        && first.leaf.bytes() == second.leaf.bytes()
        && first.nonce == second.nonce
}
