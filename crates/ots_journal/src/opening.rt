//! Opening a journal: its bytes are read once, and its file grown to a whole one where it is new.
ghost use Rattle.std.specs.Prelude.{◌≡◌, ◌⊎◌, ◌<◌, ◌≤◌, ℕ, List, [], length, true, Some, IfOk, IfErr, MatchResult};
ghost use Rattle.std.specs.Prelude.{OnOk, IsErrOf};
ghost use Rattle.ots_base.specs.Cause.{HasCause, HasCauseWhere};
ghost use Rattle.ots_base.specs.Told.{IfTold};
ghost use Rattle.ots_disk.specs.Disk.{LeavesOnly};
ghost use Rattle.ots_journal.specs.declared.limits.TheConstants.{MAX_JOURNAL};
ghost use Rattle.ots_journal.specs.Image.{Stands};
ghost use Rattle.ots_journal.specs.Journal.{IsAtMost, Keeps};
ghost use Rattle.ots_journal.specs.Opening.{Refuses, OpenedFrom, IsFullOrCause, IsGate};

use crate::device::write_durably;
use crate::finding::{MAGIC_2, find_entries};
use crate::stored::Stored;
use crate::{EMPTY_JOURNAL, JournalError};
use ots_base::OutOfMemory;
use ots_disk::Disk;
use ots_outside::Failed;
use std::alloc::Global;

/// The bytes of an empty journal: the magic and a closed gate.
const EMPTY: [u8; 9] = *b"OTSCAL\x02\n\0";

/// What a journal holds, with a disk on which every image stands for it. It writes to a file of at
/// most `EMPTY_JOURNAL` bytes alone.
pub fn find_journal<D: Disk>(
    alloc: Global,
    disk: &mut D,
    limit: u64,
) -> Result<Stored, JournalError>
    requires least { EMPTY_JOURNAL ≤ limit }
    requires most { limit ≤ MAX_JOURNAL }
    ensures keeps { IfOk result (λ s. Keeps (D.images disk.new) s.entries s.flight true s.size) }
    ensures within { IfOk result (λ s. s.size < limit) }
    ensures at_most { OnOk result ((c : List ℕ) → D.images disk.new c → IsAtMost limit c) }
    ensures settled { IfOk result (λ s. (s.flight ≡ []) × (s.staged ≡ [])) }
    ensures list { IfTold (D.bytes disk.old) (λ b. IfOk result (λ s. Stands b s.entries)) }
    ensures gate { IfTold (D.bytes disk.old) (λ b. IfOk result (λ s. IsGate b s.size)) }
    ensures why { IfTold (D.bytes disk.old) (λ b. IfErr result (Refuses limit b)) }
    ensures full { IfTold (D.bytes disk.old) (λ b. limit < length b → MatchResult result (λ _. ⊥) IsFullOrCause) }
    ensures stays { IfTold (D.bytes disk.old) (λ b. EMPTY_JOURNAL < length b → D.bytes disk.new ≡ Some b) }
    ensures any_moment { LeavesOnly D.clock D.images_since disk.old disk.new (OpenedFrom (D.images disk.old)) }
    ensures cause { HasCauseWhere (IsErrOf result JournalError.DiskFault) (D.faults disk.old) (D.faults disk.new) }
{
    let length = settled_length(disk)?;
    if length <= EMPTY_JOURNAL {
        let magic = copy_of(alloc, &MAGIC_2)?;
        write_durably(disk, 0, &EMPTY)?;
        return Ok(Stored::of_file(magic, Vec::new(alloc)));
    }
    if length > limit {
        return Err(JournalError::Full {
            need: length,
            limit,
        });
    }
    let mut bytes = read_whole(alloc, disk, length as usize)?;
    let found = find_entries(alloc, &bytes)?;
    bytes.truncate(found.gate);
    Ok(Stored::of_file(bytes, found.places))
}

/// The length, once all is durable.
fn settled_length<D: Disk>(disk: &mut D) -> Result<u64, Failed>
    ensures any_moment { LeavesOnly D.clock D.images_since disk.old disk.new (D.images disk.old) }
    ensures no_more { (c : List ℕ) → D.images disk.new c → D.images disk.old c }
    ensures same { D.bytes disk.new ≡ D.bytes disk.old }
    ensures only { OnOk result ((c : List ℕ) → D.images disk.new c → D.bytes disk.new ≡ Some c) }
    ensures length { IfTold (D.bytes disk.old) (λ b. IfOk result (λ n. n ≡ length b)) }
    ensures cause { HasCause (D.faults disk.old) (D.faults disk.new) result }
{
    disk.sync()?;
    Ok(disk.len()?)
}

/// All the bytes of a file of this length, in one read. A disk that tells its bytes gives them all.
fn read_whole<D: Disk>(alloc: Global, disk: &mut D, count: usize) -> Result<Vec<u8>, JournalError>
    requires { EMPTY_JOURNAL < count }
    ensures any_moment { LeavesOnly D.clock D.images_since disk.old disk.new (D.images disk.old) }
    ensures no_more { (c : List ℕ) → D.images disk.new c → D.images disk.old c }
    ensures same { D.bytes disk.new ≡ D.bytes disk.old }
    ensures size { IfOk result (λ bytes. length bytes.items ≡ count) }
    ensures bytes { IfTold (D.bytes disk.old) (λ b. length b ≡ count → IfOk result (λ bytes. bytes.items ≡ b)) }
    ensures why { IfTold (D.bytes disk.old) (λ b. length b ≡ count
        → IfErr result (λ e. (e ≡ JournalError.DiskFault) ⊎ (e ≡ JournalError.OutOfMemory))) }
    ensures cause { HasCauseWhere (IsErrOf result JournalError.DiskFault) (D.faults disk.old) (D.faults disk.new) }
{
    let mut bytes = zeros(alloc, count)?;
    if disk.read_at(0, &mut bytes)? < count {
        return Err(JournalError::NotAJournal);
    }
    Ok(bytes)
}

fn zeros(alloc: Global, count: usize) -> Result<Vec<u8>, OutOfMemory>
    ensures { IfOk result (λ bytes. length bytes.items ≡ count) }
{
    Ok(vec![in alloc; 0; count]?)
}

fn copy_of(alloc: Global, bytes: &[u8]) -> Result<Vec<u8>, OutOfMemory>
    ensures { IfOk result (λ copy. copy.items ≡ bytes.now) }
{
    Ok(bytes.to_vec(alloc)?)
}
