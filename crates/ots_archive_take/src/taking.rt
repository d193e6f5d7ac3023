//! Taking the proofs in turn.
ghost use Rattle.std.specs.Prelude.{◌≡◌, ◌≤◌, List, Ok, Err, map, IfErr, IfOk};
ghost use Rattle.ots_archive_steps.specs.Entries.{entries_of, entry_as};
ghost use Rattle.ots_archive_steps.specs.Ends.{IfRoom};
ghost use Rattle.ots_archive_steps.specs.Worst.{worst};
ghost use Rattle.ots_archive_take.specs.Names.{made_name};
ghost use Rattle.ots_archive_take.specs.Taking.{MakesTaken, TakesAll, TakesOne, TakesProof, read_job, status_of};
ghost use Rattle.ots_archive_text.specs.declared.status.ArchiveStatus.{ArchiveStatus};

use crate::making::{make_proof, tell_refused, tell_same};
use crate::names::Name;
use ots_archive_steps::{Entries, Entry, try_proof, worse};
use ots_archive_taken::{Taken, taken_by};
use ots_archive_text::ArchiveStatus;
use ots_archive_world::World;
use ots_base::OutOfMemory;
use ots_replies::Replies;
use ots_tree::Detached;
use std::alloc::Global;

/// What proofs are taken by.
#[derive(Clone, Copy)]
pub struct Job<'a> {
    /// The folder that proofs are made in.
    pub into: &'a str,
    /// How many calendars have to timestamp a draft.
    pub least: u32,
    /// What calendars answered.
    pub replies: &'a Replies,
}

/// Takes each proof in turn, and makes it under its name: the worst of their statuses.
pub fn take_all<W: World>(
    alloc: Global,
    job: Job<'_>,
    entries: &Entries<'_>,
    names: &[Name],
    world: &mut W,
) -> Result<ArchiveStatus, ArchiveStatus>
    requires some { 1 ≤ job.least }
    requires named { names.now ≡ map (made_name job.into.now) (entries_of entries.now) }
    ensures taken { IfOk result (λ s. (statuses : List ArchiveStatus)
        × TakesAll (read_job job.entry) (entries_of entries.now) (W.told world.old) (W.told world.new) (Ok statuses)
        × (s ≡ worst statuses)) }
    ensures ends { IfErr result (λ s. TakesAll (read_job job.entry) (entries_of entries.now) (W.told world.old)
        (W.told world.new) (Err s)) }
{
    let mut status = ArchiveStatus::Done;
    for index in 0..entries.len() {
        match take_one(alloc, job, entries.get(index), &names[index], world) {
            Ok(next) => status = worse(status, next),
            Err(stop) => return Err(stop),
        }
    }
    Ok(status)
}

/// Takes one proof, and makes it under its name.
fn take_one<W: World>(
    alloc: Global,
    job: Job<'_>,
    entry: Entry<'_>,
    name: &Name,
    world: &mut W,
) -> Result<ArchiveStatus, ArchiveStatus>
    requires some { 1 ≤ job.least }
    requires named { name.now ≡ made_name job.into.now (entry_as entry) }
    ensures { TakesOne (read_job job.entry) (entry_as entry.entry) (W.told world.old) (W.told world.new) result }
{
    match try_proof(alloc, entry, world) {
        Ok(Ok(proof)) => take_proof(alloc, job, entry, name, &proof, world),
        Ok(Err(why)) => Ok(why),
        Err(status) => Err(status),
    }
}

/// Makes of a proof what the replies make of it.
fn take_proof<W: World>(
    alloc: Global,
    job: Job<'_>,
    entry: Entry<'_>,
    name: &Name,
    proof: &Detached,
    world: &mut W,
) -> Result<ArchiveStatus, ArchiveStatus>
    requires some { 1 ≤ job.least }
    requires named { name.now ≡ made_name job.into.now (entry_as entry) }
    ensures { TakesProof (read_job job.entry) (entry_as entry.entry) proof.now (W.told world.old) (W.told world.new)
        result }
{
    match taken_by(alloc, proof, job.replies, job.least) {
        Ok(taken) => make_taken(job.least, entry, name, &taken, world),
        Err(OutOfMemory) => Err(ArchiveStatus::OutOfMemory),
    }
}

/// Makes what was taken under a name, or tells why nothing is made.
fn make_taken<W: World>(
    least: u32,
    entry: Entry<'_>,
    name: &Name,
    taken: &Taken,
    world: &mut W,
) -> Result<ArchiveStatus, ArchiveStatus>
    ensures { MakesTaken least (entry_as entry.entry) name.now taken.now (W.told world.old) (W.told world.new) result }
{
    match taken {
        Taken::Stamped { proof, complete } => {
            make_proof(name.bytes(), proof, *complete, ArchiveStatus::Done, world)
        }
        Taken::Upgraded { proof, complete } => {
            make_proof(name.bytes(), proof, *complete, status_of(*complete), world)
        }
        Taken::Same { complete } => {
            tell_same(entry.name(), *complete, status_of(*complete), world)
        }
        Taken::TooBig => tell_refused(entry.name(), ArchiveStatus::TooBig, world),
        Taken::TooFew { got } => {
            let few = ArchiveStatus::TooFew {
                got: *got,
                wanted: least,
            };
            tell_refused(entry.name(), few, world)
        }
    }
}

/// The status of a proof that was no draft.
fn status_of(complete: bool) -> ArchiveStatus
    ensures { result ≡ status_of complete }
{
    if complete {
        ArchiveStatus::Done
    } else {
        ArchiveStatus::Pending
    }
}
