//! The drafts are written.
ghost use Rattle.std.specs.Prelude.{◌≡◌, ◌≤◌, ◌<◌, ◌&&◌, Bool, List, length, string_bytes, IfErr, IfOk};
ghost use Rattle.std.specs.List.{list_all};
ghost use Rattle.ots_archive_draft.specs.Writing.{MakesDraft, WritesAll, WritesAt, draft_name, read_batch};
ghost use Rattle.ots_archive_steps.specs.Ends.{IfRoom};
ghost use Rattle.ots_detached.specs.File.{file_of};
ghost use Rattle.ots_merkle.specs.Hashes.{AreHashes};
ghost use Rattle.ots_stamp.specs.Stamped.{leaves};

use ots_archive_steps::{make, tell};
use ots_archive_text::{ArchiveStatus, put_refusal, put_wrote};
use ots_archive_world::World;
use ots_base::OutOfMemory;
use ots_calendar_url::CalendarUrl;
use ots_detached::write_file;
use ots_draft::draft_proof;
use ots_outputs::{Contents, PrintedText};
use ots_outside::{Failed, Sink};
use ots_printer::Printer;
use ots_stamp::{Target, Ways};
use ots_tree::{Detached, WriteFault};
use std::alloc::Global;

/// Files of which drafts are written, with the calendars that these wait to be sent to.
#[derive(Clone, Copy)]
pub struct Batch<'a> {
    /// The calendars.
    pub urls: &'a [CalendarUrl],
    /// The names of the files.
    pub names: &'a [&'a str],
    /// Their digests, each with a nonce.
    pub targets: &'a [Target],
}

/// The file of a draft.
#[derive(Clone, Copy)]
struct DraftFile<'a>(&'a Detached);

impl Contents for DraftFile<'_> {
    ghost use Rattle.ots_detached.specs.File.{file_of};

    ghost bytes = { λ f. file_of f.0.now };

    fn write_to<K: Sink>(&self, sink: &mut K) -> Result<(), Failed> {
        match write_file(self.0, sink) {
            Ok(()) => Ok(()),
            Err(WriteFault) => Err(Failed),
        }
    }
}

/// The line that tells whether a file was made.
#[derive(Clone, Copy)]
struct MadeLine<'a> {
    name: &'a str,
    made: bool,
}

impl PrintedText for MadeLine<'_> {
    ghost use Rattle.std.specs.Prelude.{◌≡◌};
    ghost use Rattle.ots_archive_draft.specs.Writing.{made_line};

    ghost is_text = { λ t bytes. bytes ≡ made_line t.made t.name.now };

    fn put<K: Sink>(&self, out: &mut Printer<'_, K>) {
        if self.made {
            put_wrote(self.name.as_bytes(), out)
        } else {
            put_refusal(self.name.as_bytes(), &ArchiveStatus::Exists, out)
        }
    }
}

/// Writes the draft of each file, in order, and tells of each whether it was made, for one that is there stays: whether
/// all were made.
pub fn write_drafts<W: World>(
    alloc: Global,
    batch: Batch<'_>,
    ways: &Ways,
    world: &mut W,
) -> Result<bool, ArchiveStatus>
    requires ways { ways.now ≡ leaves batch.targets.now }
    requires hashes { AreHashes ways.now }
    requires each { length batch.names.now ≡ length batch.targets.now }
    requires some { 1 ≤ length batch.urls.now }
    ensures made { IfOk result (λ all. (made : List Bool)
        × WritesAll (read_batch batch.entry) (W.told world.old) (W.told world.new) (Ok made)
        × (all ≡ list_all (λ one. one) made)) }
    ensures ends { IfErr result (λ s. WritesAll (read_batch batch.entry) (W.told world.old) (W.told world.new) (Err s)) }
{
    let mut all_made = true;
    for index in 0..batch.names.len() {
        match write_draft(alloc, batch, ways, index, world) {
            Ok(made) => all_made = both(all_made, made),
            Err(status) => return Err(status),
        }
    }
    Ok(all_made)
}

/// Whether both are true.
fn both(first: bool, second: bool) -> bool
    ensures { result ≡ (first && second) }
{
    first && second
}

/// Writes the draft of the file at this place.
fn write_draft<W: World>(
    alloc: Global,
    batch: Batch<'_>,
    ways: &Ways,
    index: usize,
    world: &mut W,
) -> Result<bool, ArchiveStatus>
    requires ways { ways.now ≡ leaves batch.targets.now }
    requires hashes { AreHashes ways.now }
    requires each { length batch.names.now ≡ length batch.targets.now }
    requires some { 1 ≤ length batch.urls.now }
    requires place { index < length batch.names.now }
    ensures { IfRoom (WritesAt (read_batch batch.entry) index) (W.told world.old) (W.told world.new) result }
{
    let Ok(proof) = draft_proof(alloc, ways, index, &batch.targets[index], batch.urls) else {
        return Err(ArchiveStatus::OutOfMemory);
    };
    let Ok(name) = draft_name(alloc, batch.names[index]) else {
        return Err(ArchiveStatus::OutOfMemory);
    };
    make_draft(name.as_str(), &proof, world)
}

/// The name of the draft of a file.
fn draft_name(alloc: Global, name: &str) -> Result<String, OutOfMemory>
    ensures { IfOk result (λ text. string_bytes text ≡ draft_name name.now) }
{
    let mut text = String::from_str(alloc, name)?;
    text.push_str(".draft")?;
    Ok(text)
}

/// Makes the file of a draft, and tells whether it was made.
fn make_draft<W: World>(name: &str, proof: &Detached, world: &mut W) -> Result<bool, ArchiveStatus>
    ensures { MakesDraft name.now (file_of proof.now) (W.told world.old) (W.told world.new) result }
{
    let made = match make(name, &DraftFile(proof), world) {
        Ok(made) => made,
        Err(status) => return Err(status),
    };
    match tell(&MadeLine { name, made }, world) {
        Ok(()) => Ok(made),
        Err(status) => Err(status),
    }
}
