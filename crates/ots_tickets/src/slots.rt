//! Lists from which items are gone while the others stay where they are.
ghost use Rattle.std.specs.Prelude.{◌≡◌, ◌<◌, ◌≤◌, ◌+◌, ◌++◌, ◌∷◌, [], true, IfOk, OnOk, OnErr, slice_set, length};
ghost use Rattle.std.specs.Prelude.{vec_capacity, vec_len};
ghost use Rattle.ots_round.specs.declared.ticket.Ticket.{Ticket};
ghost use Rattle.ots_tickets.specs.declared.settled.Settled.{Settled};
ghost use Rattle.ots_tickets.specs.Slots.{present};

use crate::settled::Settled;
use ots_base::OutOfMemory;
use ots_ops::Ops;
use ots_round::Ticket;
use std::alloc::Global;

/// A place in a list. Its item may be gone.
#[derive(Drop)]
pub(crate) struct Slot<T> {
    pub item: T,
    pub is_gone: bool,
}

/// The tickets that are there.
pub(crate) fn present(alloc: Global, slots: &[Slot<Ticket>]) -> Result<Vec<Ticket>, OutOfMemory>
    ensures { IfOk result (λ tickets. tickets.items ≡ present slots.now) }
{
    let mut tickets = Vec::with_capacity(alloc, slots.len())?;
    for slot in slots {
        add_present(&mut tickets, slot)?;
    }
    Ok(tickets)
}

/// Adds a ticket, if it is there.
fn add_present(tickets: &mut Vec<Ticket>, slot: &Slot<Ticket>) -> Result<(), OutOfMemory>
    ensures { OnOk result (tickets.new.items ≡ tickets.old.items ++ present (slot.now ∷ [])) }
{
    if !slot.is_gone {
        tickets.push(slot.item)?;
    }
    Ok(())
}

/// Gives back the places of tickets that are gone, where the list is full.
fn close_up_waiting(slots: &mut Vec<Slot<Ticket>>)
    ensures { present slots.new.items ≡ present slots.old.items }
{
    if slots.len() == slots.capacity() {
        remove_withdrawn(slots);
    }
}

/// Removes the tickets that are gone.
fn remove_withdrawn(slots: &mut Vec<Slot<Ticket>>)
    ensures { present slots.new.items ≡ present slots.old.items }
{
    slots.retain(|slot| !slot.is_gone);
}

/// Removes the tickets that are gone, where rounds are closed.
fn remove_taken(slots: &mut Vec<Slot<Settled>>)
    ensures { present slots.new.items ≡ present slots.old.items }
{
    slots.retain(|slot| !slot.is_gone);
}

/// Adds a ticket that waits. Where memory ran out they are as before.
pub(crate) fn add_waiting(slots: &mut Vec<Slot<Ticket>>, ticket: &Ticket) -> Result<(), OutOfMemory>
    ensures ok { OnOk result (present slots.new.items ≡ present slots.old.items ++ ticket.now ∷ []) }
    ensures err { OnErr result (present slots.new.items ≡ present slots.old.items) }
{
    close_up_waiting(slots);
    slots.push(Slot {
        item: *ticket,
        is_gone: false,
    })?;
    Ok(())
}

/// Makes room for so many more tickets whose round is closed. Those that are there stay.
pub(crate) fn make_room(slots: &mut Vec<Slot<Settled>>, count: usize) -> Result<(), OutOfMemory>
    ensures items { present slots.new.items ≡ present slots.old.items }
    ensures room { OnOk result (vec_len slots.new + count ≤ vec_capacity slots.new) }
{
    if slots.capacity() - slots.len() < count {
        remove_taken(slots);
    }
    slots.reserve(count)?;
    Ok(())
}

/// Adds tickets whose round is closed, where there is room for them.
pub(crate) fn add_settled(slots: &mut Vec<Slot<Settled>>, settled: Vec<Settled>)
    requires { vec_len slots.old + vec_len settled ≤ vec_capacity slots.old }
    ensures { present slots.new.items ≡ present slots.old.items ++ settled.items }
{
    let mut rest = settled;
    rest.reverse();
    while let Some(item) = rest.pop() {
        slots
            .push(Slot {
                item,
                is_gone: false,
            })
            .unwrap();
    }
}

/// A ticket that waited is gone.
pub(crate) fn leave_waiting(slots: &mut [Slot<Ticket>], i: usize)
    requires { i < length slots.old }
    ensures { (ticket : Ticket) × (slots.new ≡ slice_set slots.old i (record { item = ticket; is_gone = true })) }
{
    slots[i].is_gone = true;
}

/// A ticket whose round is closed is gone, and the memory of its path is given back.
pub(crate) fn leave_settled(alloc: Global, slots: &mut [Slot<Settled>], i: usize)
    requires { i < length slots.old }
    ensures { (settled : Settled) × (slots.new ≡ slice_set slots.old i (record { item = settled; is_gone = true })) }
{
    let ticket = slots[i].item.ticket;
    let receipt = slots[i].item.receipt;
    let item = Settled {
        ticket,
        receipt,
        path: Ops::new(alloc),
    };
    slots[i] = Slot {
        item,
        is_gone: true,
    };
}
