//! Reading one group, and one entry, from bytes.
ghost use Rattle.std.specs.Prelude.{◌≡◌, ◌≤◌, ◌<◌, ◌+◌, ◌^◌, ◌++◌, List, ℕ, length, take, drop, true, false, IfOk};
ghost use Rattle.std.specs.Prelude.{IfSome, IfNone, MatchOption};
ghost use Rattle.std.specs.Int.{w16, w32, to_be_bytes};
ghost use Rattle.std.specs.List.{AllByRecursion};
ghost use Rattle.ots_journal.specs.declared.entry.Entry.{Entry};
ghost use Rattle.ots_journal.specs.declared.limits.TheConstants.{MAX_JOURNAL};
ghost use Rattle.ots_journal.specs.Image.{entries_bytes, FitsEntry};
ghost use Rattle.ots_journal.specs.Opening.{HasGroup, ReadsGroup, ReadsEntries, ReadsEntry};
ghost use Rattle.ots_journal.specs.Stored.{entries_at, EndsBy};

use crate::place::Place;
use crate::{MAX_ENTRY_PAYLOAD, MAX_GROUP, MIN_ENTRY_PAYLOAD};
use ots_base::OutOfMemory;

/// Reads a group's body from a place on, with one more byte after it, and answers its size;
/// `None` where there is none.
pub fn read_group(
    places: &mut Vec<Place>,
    bytes: &[u8],
    from: usize,
) -> Result<Option<usize>, OutOfMemory>
    requires most { length bytes.now ≤ MAX_JOURNAL }
    requires there { from ≤ length bytes.now }
    requires within { AllByRecursion (EndsBy from) places.old.items }
    ensures found { IfOk result (λ found. MatchOption found (HasGroup (drop from bytes.now)
        → ⊥) (ReadsGroup (drop from bytes.now) (entries_at bytes.now places.old.items)
        (entries_at bytes.now places.new.items))) }
    ensures within { IfOk result
        (λ found. IfSome found (λ size. AllByRecursion (EndsBy (from + size)) places.new.items)) }
{
    let Some((count, size, rest)) = split_head(&bytes[from..]) else {
        return Ok(None);
    };
    if count < 1 || count > MAX_GROUP || size >= rest.len() {
        return Ok(None);
    }
    if read_entries(places, bytes, from + 6, count, &rest[..size])? {
        Ok(Some(6 + size))
    } else {
        Ok(None)
    }
}

/// The number of entries, the number of their bytes, and what stands after these numbers.
fn split_head(bytes: &[u8]) -> Option<(usize, usize, &[u8])>
    ensures count { IfSome result (λ r. r.0 < 2 ^ 16) }
    ensures size { IfSome result (λ r. r.1 < 2 ^ 32) }
    ensures whole { IfSome result (λ r. bytes.now ≡ to_be_bytes w16 r.0 ++ (to_be_bytes w32 r.1 ++ r.2.now)) }
    ensures none { IfNone result (length bytes.now < 6) }
{
    let [c1, c2, s1, s2, s3, s4, rest @ ..] = bytes else {
        return None;
    };
    let count = u16::from_be_bytes([*c1, *c2]) as usize;
    let size = u32::from_be_bytes([*s1, *s2, *s3, *s4]) as usize;
    Some((count, size, rest))
}

/// Reads the entries that the bytes from a place on are, and says whether their number is `count`.
fn read_entries(
    places: &mut Vec<Place>,
    bytes: &[u8],
    from: usize,
    count: usize,
    entries: &[u8],
) -> Result<bool, OutOfMemory>
    requires most { length bytes.now ≤ MAX_JOURNAL }
    requires there { entries.now ≡ take (length entries.now) (drop from bytes.now) }
    requires within { AllByRecursion (EndsBy from) places.old.items }
    ensures yes { IfOk result (λ found. found ≡ true → ReadsEntries entries.now (entries_at bytes.now places.old.items)
        (entries_at bytes.now places.new.items) count) }
    ensures no { IfOk result (λ found. found ≡ false → (group : List Entry) → length group ≡ count
        → AllByRecursion FitsEntry group → entries.now ≡ entries_bytes group → ⊥) }
    ensures within { IfOk result (λ found. AllByRecursion (EndsBy (from + length entries.now)) places.new.items) }
{
    let mut rest = entries;
    let mut start = from;
    for _ in 0..count {
        let Some((kind, payload, after)) = read_entry(rest) else {
            return Ok(false);
        };
        places.push(Place {
            kind,
            start: start as u32 + 5,
            length: payload.len() as u32,
        })?;
        start += 5 + payload.len();
        rest = after;
    }
    Ok(rest.is_empty())
}

/// Splits an entry from the start of the bytes.
pub fn read_entry(bytes: &[u8]) -> Option<(u8, &[u8], &[u8])>
    ensures some { IfSome result (λ r. ReadsEntry bytes.now (record { kind = r.0; payload = r.1.now }) r.2.now) }
    ensures none { IfNone result ((entry : Entry) (rest : List ℕ) → ReadsEntry bytes.now entry rest → ⊥) }
{
    let [kind, s1, s2, s3, s4, rest @ ..] = bytes else {
        return None;
    };
    let size = u32::from_be_bytes([*s1, *s2, *s3, *s4]) as usize;
    if size < MIN_ENTRY_PAYLOAD || size > MAX_ENTRY_PAYLOAD || size > rest.len() {
        return None;
    }
    Some((*kind, &rest[..size], &rest[size..]))
}
