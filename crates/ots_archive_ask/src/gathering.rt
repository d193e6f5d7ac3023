//! What the proofs want is gathered.
ghost use Rattle.std.specs.Prelude.{◌+◌, ◌≤◌, ℕ, List, Ok, Err, IfErr, IfOk, length, map};
ghost use Rattle.ots_archive_ask.specs.Total.{Total, Tried, TriesAll};
ghost use Rattle.ots_archive_ask.specs.inner.Held.{AddsProof, AddsTried, HasRoom, Holds};
ghost use Rattle.ots_archive_steps.specs.Ends.{IfRoom};
ghost use Rattle.ots_archive_steps.specs.Entries.{entries_of, entry_as};
ghost use Rattle.ots_archive_steps.specs.Proofs.{Tries};
ghost use Rattle.ots_base.specs.declared.limits.TheConstants.{MAX_PROOF_FILE};
ghost use Rattle.ots_calendar_url.specs.CalendarUrl.{text_of};
ghost use Rattle.ots_calendar_url.specs.UrlList.{AreUrls};
ghost use Rattle.ots_detached.specs.File.{IsFileOf};
ghost use Rattle.ots_sums.specs.declared.reading.TheConstants.{MAX_LINES};

use ots_archive_steps::{Entries, Entry, try_proof, worse};
use ots_archive_text::ArchiveStatus;
use ots_archive_world::World;
use ots_base::OutOfMemory;
use ots_calendar_url::CalendarUrl;
use ots_request_set::RequestSet;
use ots_tree::Detached;
use ots_wanted::add_wanted;
use std::alloc::Global;

/// What proofs want in all.
#[derive(Drop)]
pub struct Gathered {
    /// The requests to the calendars of the list.
    pub set: RequestSet,
    /// How many pairs of the proofs have another address.
    pub skipped: u64,
    /// The worst of the statuses of the proofs: the first refusal, or `Done`.
    pub status: ArchiveStatus,
}

/// Reads the proofs in order, and gathers what they want of the calendars of these URLs. A proof that can't be read has
/// its line printed, and the run goes on.
pub fn gather<W: World>(
    alloc: Global,
    urls: Vec<CalendarUrl>,
    all: bool,
    entries: &Entries<'_>,
    world: &mut W,
) -> Result<Gathered, ArchiveStatus>
    requires urls { AreUrls (map text_of urls.items) }
    requires few { length (entries_of entries.now) ≤ MAX_LINES }
    ensures gathers { IfOk result (λ gathered. (total : Total) × TriesAll (map text_of urls.items) all
        (entries_of entries.now) (W.told world.old) (W.told world.new) (Ok total)
        × Holds urls.items total gathered) }
    ensures ends { IfErr result (λ s. TriesAll (map text_of urls.items) all (entries_of entries.now)
        (W.told world.old) (W.told world.new) (Err s)) }
{
    let mut gathered = Gathered {
        set: RequestSet::new(alloc, urls),
        skipped: 0,
        status: ArchiveStatus::Done,
    };
    for index in 0..entries.len() {
        match add_entry(alloc, entries.get(index), all, &mut gathered, world) {
            Ok(()) => {}
            Err(status) => return Err(status),
        }
    }
    Ok(gathered)
}

/// Adds what the proof that is named wants, or its refusal.
fn add_entry<W: World>(
    alloc: Global,
    entry: Entry<'_>,
    all: bool,
    gathered: &mut Gathered,
    world: &mut W,
) -> Result<(), ArchiveStatus>
    requires { HasRoom gathered.old }
    ensures few { IfOk result (λ done. gathered.new.skipped ≤ gathered.old.skipped + MAX_PROOF_FILE) }
    ensures adds { IfOk result (λ done. (tried : Tried) × IfRoom (Tries (entry_as entry.entry)) (W.told world.old)
        (W.told world.new) (Ok tried) × AddsTried all gathered.old gathered.new tried) }
    ensures ends { IfErr result (λ s. IfRoom (Tries (entry_as entry.entry)) (W.told world.old) (W.told world.new)
        (Err s)) }
{
    match try_proof(alloc, entry, world) {
        Ok(Ok(proof)) => match add_proof(alloc, &proof, all, gathered) {
            Ok(()) => Ok(()),
            Err(OutOfMemory) => Err(ArchiveStatus::OutOfMemory),
        },
        Ok(Err(status)) => {
            gathered.status = worse(gathered.status, status);
            Ok(())
        }
        Err(status) => Err(status),
    }
}

/// Adds what a proof wants.
fn add_proof(
    alloc: Global,
    proof: &Detached,
    all: bool,
    gathered: &mut Gathered,
) -> Result<(), OutOfMemory>
    requires room { HasRoom gathered.old }
    requires file { (bytes : List ℕ) × IsFileOf bytes proof.now }
    ensures few { IfOk result (λ done. gathered.new.skipped ≤ gathered.old.skipped + MAX_PROOF_FILE) }
    ensures adds { IfOk result (λ done. AddsProof all gathered.old gathered.new proof.now) }
{
    let skipped = add_wanted(alloc, proof, all, &mut gathered.set)?;
    gathered.skipped += skipped;
    Ok(())
}
