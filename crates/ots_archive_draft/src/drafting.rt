//! The command `draft`.
ghost use Rattle.std.specs.Prelude.{◌≡◌, ◌≤◌, ◌<◌, ◌^◌, length, map};
ghost use Rattle.ots_archive_draft.specs.Drafts.{Drafts, DraftsFiles, DraftsLines, DraftsNames, WritesBatch};
ghost use Rattle.ots_archive_draft.specs.Files.{AreLong};
ghost use Rattle.ots_archive_draft.specs.Writing.{read_batch};
ghost use Rattle.ots_archive_steps.specs.Ends.{Ends};
ghost use Rattle.ots_archive_words.specs.Names.{AreFew};
ghost use Rattle.ots_archive_words.specs.Words.{given, read_drafting, read_names};
ghost use Rattle.ots_arguments.specs.Values.{texts};
ghost use Rattle.ots_calendar_url.specs.CalendarUrl.{text_of};
ghost use Rattle.ots_merkle.specs.Hashes.{AreHashes};
ghost use Rattle.ots_stamp.specs.Stamped.{leaves};

use crate::drawing::{draw_targets, ways_of};
use crate::files::{digests_of_lines, hash_files, names_of_lines};
use crate::writing::{Batch, write_drafts};
use ots_archive_inputs::SumsReader;
use ots_archive_steps::{need, read_list};
use ots_archive_text::ArchiveStatus;
use ots_archive_words::{Drafting, Names};
use ots_archive_world::World;
use ots_base::OutOfMemory;
use ots_calendar_url::CalendarUrl;
use ots_ops::Digest;
use ots_stamp::Ways;
use ots_sums::Sums;
use std::alloc::Global;

/// Makes a draft of a proof for each of these files, which waits to be sent to the calendars of a list, and tells of each
/// whether it was made, for one that is there stays. One tree stands over all files, and each has a nonce of its own.
///
/// Where the list or a file can't be read, or a nonce can't be drawn, nothing is made.
pub fn draft<W: World>(alloc: Global, asked: Drafting<'_>, world: &mut W) -> ArchiveStatus
    ensures { Drafts (read_drafting asked.entry) (W.told world.old) (W.told world.new) result }
{
    match read_list(alloc, asked.calendars, world) {
        Ok(urls) => draft_names(alloc, &urls, asked.names, world),
        Err(status) => status,
    }
}

/// The same for the calendars of a list.
fn draft_names<W: World>(
    alloc: Global,
    urls: &[CalendarUrl],
    names: Names<'_>,
    world: &mut W,
) -> ArchiveStatus
    requires some { 1 ≤ length urls.now }
    requires few { AreFew names }
    ensures { Ends (DraftsNames (map text_of urls.now) (read_names names.entry)) (W.told world.old) (W.told world.new)
        result }
{
    match names {
        Names::Given(names) => draft_words(alloc, urls, &names, world),
        Names::Sums(name) => match need(alloc, name, &SumsReader, world) {
            Ok(sums) => draft_lines(alloc, urls, &sums, world),
            Err(status) => status,
        },
    }
}

/// The same for files that are named by words.
fn draft_words<W: World>(
    alloc: Global,
    urls: &[CalendarUrl],
    names: &[&str],
    world: &mut W,
) -> ArchiveStatus
    requires some { 1 ≤ length urls.now }
    requires least { 1 ≤ length names.now }
    requires most { length names.now < 2 ^ 32 }
    ensures { Ends (DraftsNames (map text_of urls.now) (given (texts names.now))) (W.told world.old)
        (W.told world.new) result }
{
    match hash_files(alloc, names, world) {
        Ok(digests) => draft_files(alloc, urls, names, &digests, world),
        Err(status) => status,
    }
}

/// The same for files that the lines of a file of sums name.
fn draft_lines<W: World>(
    alloc: Global,
    urls: &[CalendarUrl],
    sums: &Sums,
    world: &mut W,
) -> ArchiveStatus
    requires some { 1 ≤ length urls.now }
    requires least { 1 ≤ length sums.now }
    ensures { Ends (DraftsLines (map text_of urls.now) sums.now) (W.told world.old) (W.told world.new) result }
{
    let names = match names_of_lines(alloc, sums, world) {
        Ok(names) => names,
        Err(status) => return status,
    };
    match digests_of_lines(alloc, sums) {
        Ok(digests) => draft_files(alloc, urls, &names, &digests, world),
        Err(OutOfMemory) => ArchiveStatus::OutOfMemory,
    }
}

/// The same for files of these names, with their digests.
fn draft_files<W: World>(
    alloc: Global,
    urls: &[CalendarUrl],
    names: &[&str],
    digests: &[Digest],
    world: &mut W,
) -> ArchiveStatus
    requires some { 1 ≤ length urls.now }
    requires each { length names.now ≡ length digests.now }
    requires least { 1 ≤ length names.now }
    requires most { length names.now < 2 ^ 32 }
    requires long { AreLong digests.now }
    ensures { Ends (DraftsFiles (map text_of urls.now) (texts names.now) digests.now) (W.told world.old)
        (W.told world.new) result }
{
    let targets = match draw_targets(alloc, digests, world) {
        Ok(targets) => targets,
        Err(status) => return status,
    };
    match ways_of(alloc, &targets) {
        Ok(ways) => {
            let batch = Batch {
                urls,
                names,
                targets: &targets,
            };
            write_batch(alloc, batch, &ways, world)
        }
        Err(OutOfMemory) => ArchiveStatus::OutOfMemory,
    }
}

/// Writes the drafts, with which the run ends.
fn write_batch<W: World>(
    alloc: Global,
    batch: Batch<'_>,
    ways: &Ways,
    world: &mut W,
) -> ArchiveStatus
    requires ways { ways.now ≡ leaves batch.targets.now }
    requires hashes { AreHashes ways.now }
    requires each { length batch.names.now ≡ length batch.targets.now }
    requires some { 1 ≤ length batch.urls.now }
    ensures { Ends (WritesBatch (read_batch batch.entry)) (W.told world.old) (W.told world.new) result }
{
    match write_drafts(alloc, batch, ways, world) {
        Ok(true) => ArchiveStatus::Done,
        Ok(false) => ArchiveStatus::Exists,
        Err(status) => status,
    }
}
