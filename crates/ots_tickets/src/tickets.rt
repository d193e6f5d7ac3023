//! Tickets that wait, and tickets whose round is closed.
ghost use Rattle.std.specs.Prelude.{◌≡◌, ◌≤◌, ◌<◌, ◌^◌, ◌++◌, ◌∷◌, [], ℕ, List, Err, IfOk, IfErr, OnOk, OnErr, IfSome};
ghost use Rattle.std.specs.Prelude.{MatchOption, Some, length, map, slice_get, slice_set, true};
ghost use Rattle.ots_tickets.specs.declared.settled.Settled.{Settled};
ghost use Rattle.ots_tickets.specs.declared.slots.Slot.{Slot};
ghost use Rattle.std.specs.List.{AllByRecursion};
ghost use Rattle.ots_tickets.specs.Tickets.{IsNew, Leads};
ghost use Rattle.ots_tickets.specs.Calls.{tree_of, IfSettled, LeadsTo, Takes, Withdraws};
ghost use Rattle.ots_tickets.specs.Ready.{at_index, IsReady};

use crate::rounds::{Ready, round_over, stored_at};
use crate::search::{place_of_settled, place_of_waiting};
use crate::settled::Settled;
use crate::slots::{
    Slot, add_settled, add_waiting, leave_settled, leave_waiting, make_room, present,
};
use ots_attest::{Attestation, Uri};
use ots_base::OutOfMemory;
use ots_outside::Leaf;
use ots_round::{Key, Receipt, Ticket, way_to_commitment};
use ots_tree::{Tree, single};
use std::alloc::Global;
use std::marker::Model;

/// The most tickets that wait at a time. The limit is this project's.
pub const MAX_WAITING: usize = 65_536;

/// Why a ticket was not put.
#[derive(Clone, Copy, Debug, PartialEq, Eq)]
pub enum PutError {
    /// As many tickets wait as may, 65,536.
    Busy,
    /// Memory ran out.
    OutOfMemory,
}

/// What comes of asking for a ticket.
#[derive(Debug, Drop)]
pub enum Taken {
    /// Its round is closed: the one path from its digest to the commitment, and where that is
    /// stored. The ticket is gone.
    Settled(Tree, Receipt),
    /// It waits.
    Waiting,
    /// There is no such ticket.
    Unknown,
}

/// The tickets of a calendar.
///
/// Contracts see those that wait, those whose round is closed, and how many more can be settled
/// without taking memory.
#[derive(Drop)]
pub struct Tickets {
    alloc: Global,
    // the number of the next ticket, above those of all others
    next: u64,
    // Both by rising numbers, so that a ticket is found, and none is moved when another one goes.
    waiting: Vec<Slot<Ticket>>,
    settled: Vec<Slot<Settled>>,
    // how many wait
    count: usize,
}

impl Model for Tickets {
    ghost use Rattle.std.specs.Prelude.{◌≡◌, ◌-◌, length, vec_capacity};
    ghost use Rattle.ots_tickets.specs.Tickets.{TicketsTold};
    ghost use Rattle.ots_tickets.specs.Numbers.{AreNumbered};
    ghost use Rattle.ots_tickets.specs.Slots.{present};

    ghost Value = { TicketsTold };

    ghost view = { λ t. record {
      waiting = present t.waiting.items;
      settled = present t.settled.items;
      spare = vec_capacity t.settled - length t.settled.items;
    } };

    ghost invariant = { λ t. AreNumbered t.next t.count (present t.waiting.items) (present t.settled.items) };
}

impl Tickets {
    /// No ticket yet.
    pub fn new(alloc: Global) -> Tickets
        ensures waiting { result.waiting ≡ [] }
        ensures settled { result.settled ≡ [] }
    {
        Tickets {
            alloc,
            next: 0,
            waiting: Vec::new(alloc),
            settled: Vec::new(alloc),
            count: 0,
        }
    }

    /// What all tickets keep. It does nothing.
    pub fn stands(&self)
        ensures few { length self.now.waiting ≤ MAX_WAITING }
        ensures leading { AllByRecursion Leads self.now.settled }
    {
        let _ = &self.waiting;
    }

    /// How many tickets wait.
    pub fn waiting(&self) -> u64
        ensures { result ≡ length self.now.waiting }
    {
        self.count as u64
    }

    /// A digest waits, under a number that no other ticket has. `Busy` comes exactly where 65,536
    /// tickets wait. Where it is refused the tickets are as before.
    pub fn put(&mut self, leaf: Leaf, nonce: [u8; 16]) -> Result<Ticket, PutError>
        ensures ticket { IfOk result (λ t. (t.leaf ≡ leaf) × (t.nonce ≡ nonce)) }
        ensures number { IfOk result (λ t. IsNew t.number self.old) }
        ensures waits { IfOk result (λ t. self.new.waiting ≡ self.old.waiting ++ t ∷ []) }
        ensures settled { self.new.settled ≡ self.old.settled }
        ensures err { OnErr result (self.new.waiting ≡ self.old.waiting) }
        ensures busy { result ≡ Err PutError.Busy → MAX_WAITING ≤ length self.old.waiting }
        ensures full { MAX_WAITING ≤ length self.old.waiting → result ≡ Err PutError.Busy }
    {
        if self.count >= MAX_WAITING {
            return Err(PutError::Busy);
        }
        // It has 1 to 64 bytes.
        let _ = leaf.bytes();
        // Numbers run out as memory does, after 2^64 tickets.
        let Some(next) = self.next.checked_add(1) else {
            return Err(PutError::OutOfMemory);
        };
        let ticket = Ticket {
            number: self.next,
            leaf,
            nonce,
        };
        match add_waiting(&mut self.waiting, &ticket) {
            Ok(()) => {
                self.next = next;
                self.count += 1;
                Ok(ticket)
            }
            Err(_) => Err(PutError::OutOfMemory),
        }
    }

    /// A round over all tickets that wait, closed at this second, where one waits, and room for
    /// them among those whose round is closed. The tickets are as before.
    pub fn ready(&mut self, second: u32, key: &Key) -> Result<Option<Ready>, OutOfMemory>
        ensures waiting { self.new.waiting ≡ self.old.waiting }
        ensures settled { self.new.settled ≡ self.old.settled }
        ensures ready { IfOk result (λ made. MatchOption made (self.old.waiting ≡ [])
            (λ r. IsReady key.now second self.old.waiting r.commitment r.settled.items
            × (length r.settled.items ≤ self.new.spare))) }
    {
        if self.count == 0 {
            return Ok(None);
        }
        let waiting = present(self.alloc, &self.waiting)?;
        let made = round_over(self.alloc, &waiting, second, key)?;
        make_room(&mut self.settled, made.settled.len())?;
        Ok(Some(made))
    }

    /// The tickets that waited are settled by their round, whose commitment is stored at an index.
    pub fn settle(&mut self, made: Ready, index: u64)
        requires room { length made.settled.items ≤ self.old.spare }
        requires same { (key : List ℕ) × (second : ℕ) × IsReady key second self.old.waiting made.commitment
            made.settled.items }
        ensures waiting { self.new.waiting ≡ [] }
        ensures settled { self.new.settled ≡ self.old.settled ++ map (at_index index) made.settled.items }
    {
        add_settled(&mut self.settled, stored_at(made.settled, index));
        self.waiting.clear();
        self.count = 0;
    }

    /// The tree of a ticket whose round is closed, from its digest to a pending attestation of this
    /// URI, and its receipt: the ticket is then gone. Or whether it waits. Where memory ran out the
    /// tickets are as before.
    pub fn take(&mut self, ticket: &Ticket, uri: &Uri) -> Result<Taken, OutOfMemory>
        ensures takes { IfOk result (Takes ticket.now uri.now self.old self.new) }
        ensures leads { IfOk result (λ taken. IfSettled taken (LeadsTo ticket.now uri.now)) }
        ensures err { OnErr result (self.new ≡ self.old) }
    {
        match place_of_settled(&self.settled, ticket) {
            Some(i) => {
                let (tree, receipt) = give(self.alloc, &mut self.settled, i, uri)?;
                Ok(Taken::Settled(tree, receipt))
            }
            None => Ok(match place_of_waiting(&self.waiting, ticket) {
                Some(_) => Taken::Waiting,
                None => Taken::Unknown,
            }),
        }
    }

    /// Gives a ticket up: whether it waited or its round was closed, and it is then gone.
    pub fn withdraw(&mut self, ticket: &Ticket) -> bool
        ensures { Withdraws ticket.now self.old self.new result }
    {
        if let Some(i) = place_of_settled(&self.settled, ticket) {
            leave_settled(self.alloc, &mut self.settled, i);
            return true;
        }
        if let Some(i) = place_of_waiting(&self.waiting, ticket) {
            leave_waiting(&mut self.waiting, i);
            self.count -= 1;
            return true;
        }
        false
    }
}

/// The tree of a ticket whose round is closed, and its receipt. The ticket is then gone.
fn give(
    alloc: Global,
    slots: &mut [Slot<Settled>],
    i: usize,
    uri: &Uri,
) -> Result<(Tree, Receipt), OutOfMemory>
    requires { i < length slots.old }
    ensures tree { IfOk result (λ given. (s : Slot Settled) → slice_get slots.old i ≡ Some s
        → given.0 ≡ tree_of s.item uri.now) }
    ensures receipt { IfOk result (λ given. (s : Slot Settled) → slice_get slots.old i ≡ Some s
        → given.1 ≡ s.item.receipt) }
    ensures gone { OnOk result ((settled : Settled)
        × (slots.new ≡ slice_set slots.old i (record { item = settled; is_gone = true }))) }
    ensures err { OnErr result (slots.new ≡ slots.old) }
{
    let settled = &slots[i].item;
    let tree = tree_of(alloc, settled, uri)?;
    let receipt = settled.receipt;
    leave_settled(alloc, slots, i);
    Ok((tree, receipt))
}

/// The tree of the one path from a ticket's digest to its commitment.
fn tree_of(alloc: Global, settled: &Settled, uri: &Uri) -> Result<Tree, OutOfMemory>
    ensures { IfOk result (λ tree. tree ≡ tree_of settled.now uri.now) }
{
    let ops = way_to_commitment(
        alloc,
        &settled.ticket.nonce,
        &settled.path,
        &settled.receipt.commitment,
    )?;
    single(alloc, ops.items(), Attestation::Pending(uri.copy()?))
}
