//! The command `take`.
ghost use Rattle.std.specs.Prelude.{◌≡◌, ◌≤◌, map};
ghost use Rattle.ots_archive_inputs.specs.Inputs.{RefusesSheet};
ghost use Rattle.ots_archive_steps.specs.Ends.{Ends, IfRoom};
ghost use Rattle.ots_archive_steps.specs.Entries.{entries_of};
ghost use Rattle.ots_archive_steps.specs.Inputs.{Needs};
ghost use Rattle.ots_archive_take.specs.Names.{made_name};
ghost use Rattle.ots_archive_take.specs.Takes.{Takes, TakesBy, TakesDistinct, TakesToEnd, TellsAndTakes};
ghost use Rattle.ots_archive_take.specs.Taking.{read_job};
ghost use Rattle.ots_archive_words.specs.Words.{read_taking};
ghost use Rattle.ots_archive_world.specs.Steps.{Then};
ghost use Rattle.ots_replies.specs.Replies.{IsSheetOf};

use crate::counting::tell_counts;
use crate::names::{Name, first_twice, made_names};
use crate::taking::{Job, take_all};
use ots_archive_inputs::RepliesReader;
use ots_archive_steps::{Entries, need, read_entries, refuse};
use ots_archive_text::ArchiveStatus;
use ots_archive_words::Taking;
use ots_archive_world::World;
use ots_base::OutOfMemory;
use std::alloc::Global;

/// Makes of these proofs and drafts what the replies of a sheet make of them, in a folder, each under its last name. First
/// it is told what the sheet has of each calendar.
///
/// Where the file of sums or the sheet can't be read, or two proofs would have one name, nothing is made.
pub fn take<W: World>(alloc: Global, asked: Taking<'_>, world: &mut W) -> ArchiveStatus
    ensures { Takes (read_taking asked.entry) (W.told world.old) (W.told world.new) result }
{
    let least = asked.least;
    let into = asked.into;
    let sheet = asked.replies;
    match read_entries(alloc, asked.names, world) {
        Ok(entries) => take_entries(alloc, into, least, sheet, &entries, world),
        Err(status) => status,
    }
}

/// The same of these proofs.
fn take_entries<W: World>(
    alloc: Global,
    into: &str,
    least: u32,
    sheet: &str,
    entries: &Entries<'_>,
    world: &mut W,
) -> ArchiveStatus
    requires some { 1 ≤ least }
    ensures { Ends (Then (Needs IsSheetOf RefusesSheet sheet.now) (TakesBy into.now least (entries_of entries.now)))
        (W.told world.old) (W.told world.new) result }
{
    match need(alloc, sheet, &RepliesReader, world) {
        Ok(replies) => {
            let job = Job {
                into,
                least,
                replies: &replies,
            };
            take_named(alloc, job, entries, world)
        }
        Err(status) => status,
    }
}

/// The same by these answers.
fn take_named<W: World>(
    alloc: Global,
    job: Job<'_>,
    entries: &Entries<'_>,
    world: &mut W,
) -> ArchiveStatus
    requires some { 1 ≤ job.least }
    ensures { Ends (TakesBy job.entry.into.now job.entry.least (entries_of entries.now) job.entry.replies.now) (W.told world.old)
        (W.told world.new) result }
{
    match made_names(alloc, job.into, entries) {
        Ok(names) => take_distinct(alloc, job, entries, &names, world),
        Err(OutOfMemory) => ArchiveStatus::OutOfMemory,
    }
}

/// The same under these names.
fn take_distinct<W: World>(
    alloc: Global,
    job: Job<'_>,
    entries: &Entries<'_>,
    names: &[Name],
    world: &mut W,
) -> ArchiveStatus
    requires some { 1 ≤ job.least }
    requires named { names.now ≡ map (made_name job.into.now) (entries_of entries.now) }
    ensures { Ends (IfRoom (TakesDistinct (read_job job.entry) (entries_of entries.now))) (W.told world.old)
        (W.told world.new) result }
{
    match first_twice(alloc, names) {
        Ok(Some(place)) => refuse(names[place].bytes(), ArchiveStatus::Twice, world),
        Ok(None) => take_told(alloc, job, entries, names, world),
        Err(OutOfMemory) => ArchiveStatus::OutOfMemory,
    }
}

/// The same where no two names are the same.
fn take_told<W: World>(
    alloc: Global,
    job: Job<'_>,
    entries: &Entries<'_>,
    names: &[Name],
    world: &mut W,
) -> ArchiveStatus
    requires some { 1 ≤ job.least }
    requires named { names.now ≡ map (made_name job.into.now) (entries_of entries.now) }
    ensures { Ends (TellsAndTakes (read_job job.entry) (entries_of entries.now)) (W.told world.old) (W.told world.new)
        result }
{
    match tell_counts(alloc, job.replies, world) {
        Ok(()) => take_to_end(alloc, job, entries, names, world),
        Err(status) => status,
    }
}

/// The same, once it is told what the sheet has of each calendar.
fn take_to_end<W: World>(
    alloc: Global,
    job: Job<'_>,
    entries: &Entries<'_>,
    names: &[Name],
    world: &mut W,
) -> ArchiveStatus
    requires some { 1 ≤ job.least }
    requires named { names.now ≡ map (made_name job.into.now) (entries_of entries.now) }
    ensures { Ends (TakesToEnd (read_job job.entry) (entries_of entries.now)) (W.told world.old) (W.told world.new)
        result }
{
    match take_all(alloc, job, entries, names, world) {
        Ok(status) => status,
        Err(status) => status,
    }
}
