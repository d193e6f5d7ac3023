//! A round that is ready to be closed.
ghost use Rattle.std.specs.Prelude.{◌≡◌, [], ◌≤◌, ◌<◌, ◌^◌, ℕ, length, map, IfOk, slice_index_or};
ghost use Rattle.ots_merkle.specs.CalendarTree.{path};
ghost use Rattle.ots_round.specs.Round.{leaves, round_commitment};
ghost use Rattle.ots_tickets.specs.Tickets.{settles, settles_from};
ghost use Rattle.ots_tickets.specs.Ready.{at_index, IsReady};

use crate::Settled;
use ots_base::OutOfMemory;
use ots_merkle::paths_and_root;
use ots_ops::Ops;
use ots_round::{Key, Receipt, Ticket, commitment, leaf_hashes};
use std::alloc::Global;
use std::mem::replace;

/// A round over tickets that wait: its commitment, and each ticket with its path. Where the
/// commitment is stored is not known yet.
#[derive(Drop)]
pub struct Ready {
    pub commitment: [u8; 44],
    pub settled: Vec<Settled>,
}

/// The round over these tickets, which is closed at this second. It takes one hash a ticket, one
/// an inner node of the tree over them, and the memory of all their paths.
pub fn round_over(
    alloc: Global,
    tickets: &[Ticket],
    second: u32,
    key: &Key,
) -> Result<Ready, OutOfMemory>
    requires some { 1 ≤ length tickets.now }
    requires few { length tickets.now < 2 ^ 32 }
    ensures { IfOk result (λ made. IsReady key.now second tickets.now made.commitment made.settled.items) }
{
    let leaves = leaf_hashes(alloc, tickets)?;
    let (paths, root) = paths_and_root(alloc, &leaves)?;
    let commitment = commitment(key, second, &root);
    let settled = settled_by(alloc, tickets, paths, commitment)?;
    Ok(Ready {
        commitment,
        settled,
    })
}

/// Each ticket with its path.
fn settled_by(
    alloc: Global,
    tickets: &[Ticket],
    paths: Vec<Ops>,
    commitment: [u8; 44],
) -> Result<Vec<Settled>, OutOfMemory>
    requires count { length paths.items ≡ length tickets.now }
    requires paths { (i : ℕ) → i < length tickets.now → slice_index_or paths.items i [] ≡ path (leaves tickets.now) i }
    ensures { IfOk result (λ made. made.items ≡ settles_from 0 commitment (leaves tickets.now) 0 tickets.now) }
{
    let mut paths = paths;
    let mut settled = Vec::with_capacity(alloc, tickets.len())?;
    for i in 0..tickets.len() {
        let receipt = Receipt {
            index: 0,
            commitment,
        };
        let path = replace(&mut paths[i], Ops::new(alloc));
        settled.push(Settled {
            ticket: tickets[i],
            receipt,
            path,
        })?;
    }
    Ok(settled)
}

/// These, whose commitment is stored at an index.
pub fn stored_at(settled: Vec<Settled>, index: u64) -> Vec<Settled>
    ensures items { result.items ≡ map (at_index index) settled.items }
    ensures len { length result.items ≡ length settled.items }
{
    let mut stored = settled;
    set_index(&mut stored, index);
    stored
}

/// Says where the commitment of all these is stored.
fn set_index(settled: &mut [Settled], index: u64)
    ensures { settled.new ≡ map (at_index index) settled.old }
{
    for i in 0..settled.len() {
        settled[i].receipt.index = index;
    }
}
