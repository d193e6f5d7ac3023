//! Making a round of digests, and taking their trees.
ghost use Rattle.std.specs.Prelude.{◌≡◌, ◌⊎◌, ◌≤◌, ◌<◌, [], List, true, length, IfOk};
ghost use Rattle.ots_base.specs.Cause.{Rose};
ghost use Rattle.ots_disk.specs.Disk.{LeavesOnly};
ghost use Rattle.ots_tickets.specs.Calls.{tree_of};
ghost use Rattle.ots_tickets.specs.declared.settled.Settled.{Settled};
ghost use Rattle.ots_tickets.specs.declared.tickets.TheConstants.{MAX_WAITING};
ghost use Rattle.ots_calendar_batch.specs.Batch.{AddsRound, DrawsFor, Happens, RoundAnswers};
ghost use Rattle.ots_calendar_endings.specs.Moments.{EachStands, StandsWith};
ghost use Rattle.ots_calendar_endings.specs.Ran.{EndsAs};
ghost use Rattle.ots_calendar_batch.specs.Round.{AreSettled, ClosesTo, HasLast, IsLast, IsRound, PutsAll, PutsOne};
ghost use Rattle.ots_calendar_batch.specs.Round.{RoundEnds, SecondOf, TakesAll, batch_status};
ghost use Rattle.ots_outputs.specs.Printed.{SinkStays};

use crate::trees::{Trees, print_trees};
use ots_attest::Uri;
use ots_base::OutOfMemory;
use ots_calendar::{Book, Key, Leaf, PutError, Taken, Ticket};
use ots_calendar_endings::{DaemonStatus, Outside, refuse};
use ots_disk::Disk;
use ots_journal::AppendError;
use ots_outside::{Clock, Nonces, Sink};
use ots_tree::Tree;
use std::alloc::{AllocError, AllocFailed, Global};

/// What is put under one commitment, and what its trees name.
#[derive(Drop)]
pub struct Round {
    pub key: Key,
    /// The calendar's address.
    pub uri: Uri,
    /// 1 to 65,536 of them.
    pub digests: Vec<Leaf>,
}

/// Why a round came to nothing.
#[derive(Clone, Copy, Debug, PartialEq, Eq)]
enum BatchError {
    /// The clock's second is too great for a commitment.
    BadSecond(u64),
    /// The nonces counted a fault.
    NonceFault,
    /// The record is not stored.
    NotStored(AppendError),
    /// Memory ran out.
    OutOfMemory,
}

impl BatchError {
    /// The status of it.
    fn status(self) -> DaemonStatus
        ensures { result ≡ batch_status self }
    {
        match self {
            BatchError::BadSecond(second) => DaemonStatus::BadSecond(second),
            BatchError::NonceFault => DaemonStatus::NonceFault,
            BatchError::NotStored(AppendError::DiskFault) => DaemonStatus::DiskFault,
            BatchError::NotStored(AppendError::Full { need, limit }) => {
                DaemonStatus::Full { need, limit }
            }
            BatchError::NotStored(AppendError::OutOfMemory) => DaemonStatus::OutOfMemory,
            BatchError::OutOfMemory => DaemonStatus::OutOfMemory,
        }
    }
}

impl From<AllocError> for BatchError {
    ghost use Rattle.std.specs.Prelude.{◌≡◌};
    ghost use Rattle.ots_calendar_batch.specs.declared.round.BatchError.TheVariants.{OutOfMemory};

    ghost from_gives = { λ _ e. e ≡ OutOfMemory };

    fn from(_: AllocError) -> Self {
        BatchError::OutOfMemory
    }
}

impl<T: Drop> From<AllocFailed<T>> for BatchError {
    ghost use Rattle.std.specs.Prelude.{◌≡◌};
    ghost use Rattle.ots_calendar_batch.specs.declared.round.BatchError.TheVariants.{OutOfMemory};

    ghost from_gives = { λ _ e. e ≡ OutOfMemory };

    fn from(_: AllocFailed<T>) -> Self {
        BatchError::OutOfMemory
    }
}

impl From<OutOfMemory> for BatchError {
    ghost use Rattle.std.specs.Prelude.{◌≡◌};
    ghost use Rattle.ots_calendar_batch.specs.declared.round.BatchError.TheVariants.{OutOfMemory};

    ghost from_gives = { λ _ e. e ≡ OutOfMemory };

    fn from(_: OutOfMemory) -> Self {
        BatchError::OutOfMemory
    }
}

/// Puts digests under one commitment in a sure book in which nothing waits, and prints the tree of
/// each once the commitment is stored.
pub fn put_round<D: Disk, K: Sink, C: Clock, N: Nonces>(
    alloc: Global,
    round: &Round,
    book: &mut Book<D>,
    clock: &mut C,
    nonces: &mut N,
    out: &mut K,
) -> DaemonStatus
    requires round { IsRound round.now.digests.items }
    requires waiting { book.old.tickets.waiting ≡ [] }
    requires settled { book.old.tickets.settled ≡ [] }
    requires sure { book.old.store.journal.is_sure ≡ true }
    requires stands { EachStands (D.images book.old.store.journal.disk)
        book.old.store.journal.entries }
    ensures ends { EndsAs (RoundAnswers
        (Happens (C.coming clock.old) (N.left nonces.old) (N.left nonces.new))
        (Rose (N.faults nonces.old) (N.faults nonces.new)) book.old.store.journal.limit
        round.now.key round.now.uri round.now.digests.items book.old.store.journal.gate
        book.old.store.journal.entries)
        (⟦<(D, K) as Outside>⟧.told (book.old.store.journal.disk, out.old))
        (⟦<(D, K) as Outside>⟧.told (book.new.store.journal.disk, out.new)) result }
    ensures moments { LeavesOnly D.clock D.images_since book.old.store.journal.disk
        book.new.store.journal.disk (StandsWith (AddsRound
        (Happens (C.coming clock.old) (N.left nonces.old) (N.left nonces.new)) round.now.key
        round.now.digests.items book.old.store.journal.entries) book.old.store.journal.entries) }
    ensures later { D.faults book.old.store.journal.disk ≤ D.faults book.new.store.journal.disk }
    ensures nonces { (nonces.new ≡ nonces.old) ⊎ DrawsFor
        (Happens (C.coming clock.old) (N.left nonces.old) (N.left nonces.new))
        round.now.digests.items }
    ensures nonce_faults { N.faults nonces.old ≤ N.faults nonces.new }
    ensures sink { SinkStays K.faults K.same out.old out.new }
{
    match close_round(alloc, round, book, clock, nonces) {
        Ok(trees) => print_trees(&trees, out),
        Err(error) => refuse("", error.status(), out),
    }
}

/// Draws the nonces, closes the round, and takes the trees.
fn close_round<D: Disk, C: Clock, N: Nonces>(
    alloc: Global,
    round: &Round,
    book: &mut Book<D>,
    clock: &mut C,
    nonces: &mut N,
) -> Result<Trees, BatchError>
    requires round { IsRound round.now.digests.items }
    requires waiting { book.old.tickets.waiting ≡ [] }
    requires settled { book.old.tickets.settled ≡ [] }
    requires sure { book.old.store.journal.is_sure ≡ true }
    requires stands { EachStands (D.images book.old.store.journal.disk)
        book.old.store.journal.entries }
    ensures ends { RoundEnds D.clock D.images D.images_since
        (Happens (C.coming clock.old) (N.left nonces.old) (N.left nonces.new))
        (Rose (N.faults nonces.old) (N.faults nonces.new))
        (Rose (D.faults book.old.store.journal.disk) (D.faults book.new.store.journal.disk))
        round.now.key round.now.uri round.now.digests.items book.old.store.journal
        book.new.store.journal result }
    ensures later { D.faults book.old.store.journal.disk ≤ D.faults book.new.store.journal.disk }
    ensures nonces { (nonces.new ≡ nonces.old) ⊎ DrawsFor
        (Happens (C.coming clock.old) (N.left nonces.old) (N.left nonces.new))
        round.now.digests.items }
    ensures nonce_faults { N.faults nonces.old ≤ N.faults nonces.new }
{
    let second = second_of(clock)?;
    let tickets = put_all(alloc, &round.digests, book, nonces)?;
    let index = close(second, &round.key, book)?;
    let trees = take_all(alloc, tickets, &round.uri, book)?;
    Ok(Trees { index, trees })
}

/// The clock's second, where a commitment can hold it.
fn second_of<C: Clock>(clock: &mut C) -> Result<u32, BatchError>
    ensures { SecondOf (C.coming clock.old) result }
{
    let second = clock.second();
    if second > u32::MAX as u64 {
        return Err(BatchError::BadSecond(second));
    }
    Ok(second as u32)
}

/// Puts the digests, each with a nonce that is drawn for it.
fn put_all<D: Disk, N: Nonces>(
    alloc: Global,
    digests: &[Leaf],
    book: &mut Book<D>,
    nonces: &mut N,
) -> Result<Vec<Ticket>, BatchError>
    requires few { length digests.now ≤ MAX_WAITING }
    requires waiting { book.old.tickets.waiting ≡ [] }
    ensures store { book.new.store ≡ book.old.store }
    ensures settled { book.new.tickets.settled ≡ book.old.tickets.settled }
    ensures puts { PutsAll (N.left nonces.old) (N.left nonces.new)
        (Rose (N.faults nonces.old) (N.faults nonces.new)) digests.now book.new.tickets.waiting
        result }
    ensures nonce_faults { N.faults nonces.old ≤ N.faults nonces.new }
{
    let mut tickets = Vec::with_capacity(alloc, digests.len())?;
    for digest in digests {
        let ticket = put(*digest, book, nonces)?;
        tickets.push(ticket)?;
    }
    Ok(tickets)
}

/// Draws a nonce and puts a digest with it.
fn put<D: Disk, N: Nonces>(
    digest: Leaf,
    book: &mut Book<D>,
    nonces: &mut N,
) -> Result<Ticket, BatchError>
    requires { length book.old.tickets.waiting < MAX_WAITING }
    ensures store { book.new.store ≡ book.old.store }
    ensures settled { book.new.tickets.settled ≡ book.old.tickets.settled }
    ensures puts { PutsOne (N.left nonces.old) (N.left nonces.new)
        (Rose (N.faults nonces.old) (N.faults nonces.new)) digest book.old.tickets book.new.tickets
        result }
    ensures nonce_faults { N.faults nonces.old ≤ N.faults nonces.new }
{
    let mut nonce = [0; 16];
    if nonces.fill16(&mut nonce).is_err() {
        return Err(BatchError::NonceFault);
    }
    match book.put(digest, nonce) {
        Ok(ticket) => Ok(ticket),
        Err(PutError::OutOfMemory) => Err(BatchError::OutOfMemory),
        Err(PutError::Busy) => unreachable!(),
    }
}

/// Closes the round of all that waits, and answers the index of its commitment.
fn close<D: Disk>(second: u32, key: &Key, book: &mut Book<D>) -> Result<u64, BatchError>
    requires some { 0 < length book.old.tickets.waiting }
    requires sure { book.old.store.journal.is_sure ≡ true }
    requires settled { book.old.tickets.settled ≡ [] }
    ensures closes { ClosesTo D.clock D.images D.images_since
        (Rose (D.faults book.old.store.journal.disk) (D.faults book.new.store.journal.disk)) key.now
        second book.old book.new result }
    ensures later { D.faults book.old.store.journal.disk ≤ D.faults book.new.store.journal.disk }
{
    match book.close(second, key) {
        Ok(Some(index)) => Ok(index),
        Ok(None) => unreachable!(),
        Err(why) => Err(BatchError::NotStored(why)),
    }
}

/// Takes the trees of all tickets of a round, from the last one on, so that each stands at the end
/// of those that are left.
fn take_all<D: Disk>(
    alloc: Global,
    tickets: Vec<Ticket>,
    uri: &Uri,
    book: &mut Book<D>,
) -> Result<Vec<Tree>, BatchError>
    requires { AreSettled tickets.items book.old.tickets.settled }
    ensures store { book.new.store ≡ book.old.store }
    ensures trees { TakesAll uri.now book.old.tickets.settled result }
{
    let mut tickets = tickets;
    let mut trees = Vec::with_capacity(alloc, tickets.len())?;
    while let Some(ticket) = tickets.pop() {
        let tree = take(&ticket, uri, book)?;
        trees.push(tree)?;
    }
    trees.reverse();
    Ok(trees)
}

/// Takes the tree of a ticket whose round is closed.
fn take<D: Disk>(ticket: &Ticket, uri: &Uri, book: &mut Book<D>) -> Result<Tree, OutOfMemory>
    requires { HasLast ticket.now book.old.tickets.settled }
    ensures store { book.new.store ≡ book.old.store }
    ensures takes { (before : List Settled) (last : Settled) → IsLast ticket.now before last
        book.old.tickets.settled → IfOk result
        (λ tree. (tree ≡ tree_of last uri.now) × (book.new.tickets.settled ≡ before)) }
{
    match book.take(ticket, uri)? {
        Taken::Settled(tree, _) => Ok(tree),
        Taken::Waiting | Taken::Unknown => unreachable!(),
    }
}
