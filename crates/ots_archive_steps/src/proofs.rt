//! The proofs that are named.
ghost use Rattle.std.specs.Prelude.{◌≡◌, ◌++◌, IfOk, string_bytes};
ghost use Rattle.ots_archive_steps.specs.Entries.{entry_as};
ghost use Rattle.ots_archive_steps.specs.Proofs.{DraftOrProof, ReadsLine, ReadsNamed, ReadsProof, Tries};
ghost use Rattle.ots_archive_steps.specs.Ends.{IfRoom};

use crate::entries::Entry;
use crate::inputs::look;
use crate::printing::tell_refusal;
use ots_archive_inputs::ProofReader;
use ots_archive_text::ArchiveStatus;
use ots_archive_world::World;
use ots_base::OutOfMemory;
use ots_tree::Detached;
use std::alloc::Global;

/// The proof that is named, or the status that its refusal has; no line is printed. That of a line of a file of sums is
/// `NAME.draft` where that is there, else `NAME.ots`: and a name that isn't UTF-8 is `BadName`, and no file is opened.
pub fn read_proof<W: World>(
    alloc: Global,
    entry: Entry<'_>,
    world: &mut W,
) -> Result<Detached, ArchiveStatus>
    ensures { ReadsProof (entry_as entry.entry) (W.told world.old) (W.told world.new) result }
{
    match entry {
        Entry::Word(name) => look(alloc, name, &ProofReader, world),
        Entry::Line(name) => read_line(alloc, name, world),
    }
}

/// The proof of a file that a line names.
fn read_line<W: World>(alloc: Global, name: &[u8], world: &mut W) -> Result<Detached, ArchiveStatus>
    ensures { ReadsLine name.now (W.told world.old) (W.told world.new) result }
{
    match str::from_utf8(name) {
        Ok(name) => draft_or_proof(alloc, name, world),
        Err(_) => Err(ArchiveStatus::BadName),
    }
}

/// The draft of a file, or where there is none its proof.
fn draft_or_proof<W: World>(
    alloc: Global,
    name: &str,
    world: &mut W,
) -> Result<Detached, ArchiveStatus>
    ensures { DraftOrProof name.now (W.told world.old) (W.told world.new) result }
{
    match look_ending(alloc, name, ".draft", world) {
        Ok(draft) => Ok(draft),
        Err(status) => match status {
            ArchiveStatus::NoFile => look_ending(alloc, name, ".ots", world),
            _ => Err(status),
        },
    }
}

/// The proof whose file is under a name with an ending.
fn look_ending<W: World>(
    alloc: Global,
    name: &str,
    ending: &str,
    world: &mut W,
) -> Result<Detached, ArchiveStatus>
    ensures { IfRoom (ReadsNamed (name.now ++ ending.now)) (W.told world.old) (W.told world.new) result }
{
    match ending_in(alloc, name, ending) {
        Ok(name) => look(alloc, name.as_str(), &ProofReader, world),
        Err(OutOfMemory) => Err(ArchiveStatus::OutOfMemory),
    }
}

/// A name with an ending.
fn ending_in(alloc: Global, name: &str, ending: &str) -> Result<String, OutOfMemory>
    ensures { IfOk result (λ text. string_bytes text ≡ name.now ++ ending.now) }
{
    let mut text = String::from_str(alloc, name)?;
    text.push_str(ending)?;
    Ok(text)
}

/// The proof that is named; or its refusal, whose line was printed, and the run goes on.
///
/// The run ends with `OutOfMemory`, or with `WriteFault` where the sink fails.
pub fn try_proof<W: World>(
    alloc: Global,
    entry: Entry<'_>,
    world: &mut W,
) -> Result<Result<Detached, ArchiveStatus>, ArchiveStatus>
    ensures { Tries (entry_as entry.entry) (W.told world.old) (W.told world.new) result }
{
    match read_proof(alloc, entry, world) {
        Ok(proof) => Ok(Ok(proof)),
        Err(why) => match why {
            ArchiveStatus::OutOfMemory => Err(why),
            _ => match tell_refusal(entry.name(), &why, world) {
                Ok(()) => Ok(Err(why)),
                Err(status) => Err(status),
            },
        },
    }
}
