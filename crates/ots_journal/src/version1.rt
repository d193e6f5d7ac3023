//! Reading a journal of version 1, which had no gates.
ghost use Rattle.std.specs.Prelude.{◌≡◌, ◌<◌, ◌+◌, ◌++◌, ◌∷◌, [], length, drop, IfOk, IfErr, OnOk, MatchOption};
ghost use Rattle.ots_journal.specs.Version1.{Stands1, Refuses1, HasEntry, AddsEntry};

use crate::finding::MAGIC_1;
use crate::reading::read_entry;
use crate::spelling::OPEN_GATE;
use crate::{EMPTY_JOURNAL, Entry, OldError};
use ots_base::OutOfMemory;
use ots_outside::Bytes;
use std::alloc::Global;

/// The entries that the bytes of a journal of version 1 stand for. At most
/// `EMPTY_JOURNAL` bytes stand for none.
pub fn read_version1(alloc: Global, bytes: &[u8]) -> Result<Vec<Entry>, OldError>
    ensures ok { IfOk result (λ entries. Stands1 bytes.now entries.items) }
    ensures err { IfErr result (Refuses1 bytes.now) }
{
    if bytes.len() as u64 <= EMPTY_JOURNAL {
        return Ok(Vec::new(alloc));
    }
    if bytes[..8] != MAGIC_1[..] {
        return Err(OldError::NotAJournal);
    }
    let mut entries = Vec::new(alloc);
    let mut gate = 8;
    while bytes[gate] == OPEN_GATE {
        match next_entry(alloc, &mut entries, &bytes[gate + 1..])? {
            Some(size) => gate += 1 + size,
            None => return Err(OldError::Damaged(gate as u64)),
        }
    }
    Ok(entries)
}

/// Adds the entry at the start of these bytes, with one more byte after it, and answers its size;
/// `None` where there is none.
fn next_entry(
    alloc: Global,
    entries: &mut Vec<Entry>,
    bytes: &[u8],
) -> Result<Option<usize>, OutOfMemory>
    ensures { IfOk result (λ found. MatchOption found (HasEntry bytes.now
        → ⊥) (AddsEntry bytes.now entries.old.items entries.new.items)) }
{
    let Some((kind, payload, after)) = read_entry(bytes) else {
        return Ok(None);
    };
    if after.is_empty() {
        return Ok(None);
    }
    add_copy(alloc, entries, kind, payload)?;
    Ok(Some(5 + payload.len()))
}

fn add_copy(
    alloc: Global,
    entries: &mut Vec<Entry>,
    kind: u8,
    payload: &[u8],
) -> Result<(), OutOfMemory>
    ensures { OnOk result (entries.new.items ≡ entries.old.items ++ (record { kind = kind; payload = payload.now })
        ∷ []) }
{
    let payload = Bytes::from_vec(payload.to_vec(alloc)?);
    entries.push(Entry { kind, payload })?;
    Ok(())
}
