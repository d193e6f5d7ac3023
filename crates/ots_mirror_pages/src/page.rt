//! A page of a calendar's records, as it is read.
ghost use Rattle.std.specs.Prelude.{◌≡◌, ◌<◌, ◌^◌, ◌++◌, ℕ, List, Err, IfOk, IfNone, IfSome};
ghost use Rattle.std.specs.Int.{w64, to_be_bytes};
ghost use Rattle.ots_journal.specs.declared.entry.Entry.{Entry as AnyEntry};
ghost use Rattle.ots_mirror_pages.specs.Page.{AreEntries, BeginsWith, IsPage};
ghost use Rattle.ots_mirror_pages.specs.declared.page.PageError.TheVariants.{OutOfMemory};

use crate::Entries;
use ots_journal::Entry;
use ots_outside::Bytes;
use ots_store::MAX_PAGE_ENTRIES;
use std::alloc::{AllocError, Global};

/// A page of a calendar's records.
#[derive(Debug, Drop)]
pub struct Page {
    /// The number of the first record, counted from 0.
    pub first: u64,
    /// The entries of the records from that number on: at most
    /// [`MAX_PAGE_ENTRIES`](ots_store::MAX_PAGE_ENTRIES), 128.
    pub entries: Entries,
}

/// Why no page was read.
#[derive(Clone, Copy, Debug, PartialEq, Eq)]
pub enum PageError {
    /// The bytes are no page.
    BadPage,
    /// Memory ran out.
    OutOfMemory,
}

impl From<AllocError> for PageError {
    ghost from_gives = { λ _ e. e ≡ OutOfMemory };

    fn from(_: AllocError) -> Self {
        PageError::OutOfMemory
    }
}

impl From<ots_base::OutOfMemory> for PageError {
    ghost from_gives = { λ _ e. e ≡ OutOfMemory };

    fn from(_: ots_base::OutOfMemory) -> Self {
        PageError::OutOfMemory
    }
}

/// The page that bytes are: the number of its first record in 8 big-endian bytes, and then 0 to 128
/// entries, each its kind in one byte, the length of its payload in 4 big-endian bytes, and the
/// payload. What an entry spells is not looked at.
///
/// `BadPage` exactly where the bytes are no page for any number.
pub fn read_page(alloc: Global, bytes: &[u8]) -> Result<Page, PageError>
    ensures page { IfOk result (λ page. IsPage bytes.now page.first page.entries) }
    ensures bad { result ≡ Err PageError.BadPage → (first : ℕ) (entries : List AnyEntry)
        → IsPage bytes.now first entries → ⊥ }
{
    match split_number(bytes) {
        None => Err(PageError::BadPage),
        Some((first, rest)) => Ok(Page {
            first,
            entries: read_entries(alloc, rest)?,
        }),
    }
}

/// The number that bytes begin with, and the bytes after it.
fn split_number(bytes: &[u8]) -> Option<(u64, &[u8])>
    ensures some { IfSome result (λ r. bytes.now ≡ to_be_bytes w64 r.0 ++ r.1.now) }
    ensures none { IfNone result ((number : ℕ) (rest : List ℕ) → bytes.now ≡ to_be_bytes w64 number ++ rest → ⊥) }
{
    let [a, b, c, d, e, f, g, h, rest @ ..] = bytes else {
        return None;
    };
    Some((u64::from_be_bytes([*a, *b, *c, *d, *e, *f, *g, *h]), rest))
}

/// The entries that bytes are.
fn read_entries(alloc: Global, bytes: &[u8]) -> Result<Entries, PageError>
    ensures entries { IfOk result (AreEntries bytes.now) }
    ensures bad { result ≡ Err PageError.BadPage → (entries : List AnyEntry) → AreEntries bytes.now entries → ⊥ }
{
    let mut entries = Entries::new(alloc);
    let mut left = bytes;
    while !left.is_empty() {
        if entries.items().len() as u64 == MAX_PAGE_ENTRIES {
            return Err(PageError::BadPage);
        }
        let Some((kind, payload, rest)) = split_entry(left) else {
            return Err(PageError::BadPage);
        };
        entries.push(copy_of(alloc, kind, payload)?)?;
        left = rest;
    }
    Ok(entries)
}

/// The entry that bytes begin with, and the bytes after it.
fn split_entry(bytes: &[u8]) -> Option<(u8, &[u8], &[u8])>
    ensures some { IfSome result (λ r. BeginsWith (record { kind = r.0; payload = r.1.now }) r.2.now bytes.now) }
    ensures none { IfNone result ((entry : AnyEntry) (rest : List ℕ) → BeginsWith entry rest bytes.now → ⊥) }
{
    let [kind, a, b, c, d, rest @ ..] = bytes else {
        return None;
    };
    let size = u32::from_be_bytes([*a, *b, *c, *d]) as usize;
    if size > rest.len() {
        return None;
    }
    Some((*kind, &rest[..size], &rest[size..]))
}

/// A copy of an entry.
fn copy_of(alloc: Global, kind: u8, payload: &[u8]) -> Result<Entry, PageError>
    ensures entry { IfOk result (λ entry. entry ≡ record { kind = kind; payload = payload.now }) }
    ensures memory { result ≡ Err PageError.BadPage → ⊥ }
{
    Ok(Entry {
        kind,
        payload: Bytes::from_vec(Vec::from_slice(alloc, payload)?),
    })
}
