// The words for what calls answer.
use crate::open::Why;
use crate::spelling::spelled;
use ots_base::OutOfMemory;
use ots_journal::{AppendError, Entry, JournalError, OldError, read_version1};
use ots_store::StoreError;
use std::alloc::Global;

/// The words of a fixed answer.
pub fn words(alloc: Global, text: &str) -> Result<String, OutOfMemory> {
    Ok(text.to_string(alloc)?)
}

/// Whether it is so.
pub fn whether(alloc: Global, is_so: bool) -> Result<String, OutOfMemory> {
    words(alloc, if is_so { "so it is" } else { "no" })
}

/// That a call of a disk was done, or not.
pub fn done(alloc: Global, is_done: bool) -> Result<String, OutOfMemory> {
    words(alloc, if is_done { "ok" } else { "disk fault" })
}

/// A number, or that there is none.
pub fn number(alloc: Global, found: Option<u64>) -> Result<String, OutOfMemory> {
    match found {
        Some(number) => Ok(number.to_string(alloc)?),
        None => words(alloc, "none"),
    }
}

/// The index that an append answered, or why there is none.
pub fn appended(alloc: Global, outcome: Result<u64, AppendError>) -> Result<String, OutOfMemory> {
    match outcome {
        Ok(index) => Ok(index.to_string(alloc)?),
        Err(why) => not_appended(alloc, why),
    }
}

/// Why nothing was appended.
pub fn not_appended(alloc: Global, why: AppendError) -> Result<String, OutOfMemory> {
    match why {
        AppendError::DiskFault => words(alloc, "disk fault"),
        AppendError::Full { need, limit } => Ok(format!(in alloc; "full {need} {limit}")?),
        AppendError::OutOfMemory => words(alloc, "out of memory"),
    }
}

/// That a record was added, or why it was not.
pub fn added(alloc: Global, outcome: Result<(), AppendError>) -> Result<String, OutOfMemory> {
    match outcome {
        Ok(()) => words(alloc, "ok"),
        Err(why) => not_appended(alloc, why),
    }
}

/// Which entry may not follow.
pub fn bad(alloc: Global, found: Option<u64>) -> Result<String, OutOfMemory> {
    match found {
        Some(i) => Ok(format!(in alloc; "bad {i}")?),
        None => words(alloc, "none"),
    }
}

/// Why a disk was not opened.
pub fn not_opened(alloc: Global, why: Why) -> Result<String, OutOfMemory> {
    match why {
        Why::Journal(why) => no_journal(alloc, why),
        Why::Store(StoreError::BadRecord(i)) => bad(alloc, Some(i)),
        Why::Store(StoreError::OutOfMemory) => words(alloc, "out of memory"),
    }
}

/// Why a journal was not opened.
fn no_journal(alloc: Global, why: JournalError) -> Result<String, OutOfMemory> {
    match why {
        JournalError::DiskFault => words(alloc, "disk fault"),
        JournalError::Full { need, limit } => Ok(format!(in alloc; "full {need} {limit}")?),
        JournalError::OldVersion => words(alloc, "old version"),
        JournalError::NotAJournal => words(alloc, "not a journal"),
        JournalError::Damaged(place) => Ok(format!(in alloc; "damaged {place}")?),
        JournalError::OutOfMemory => words(alloc, "out of memory"),
    }
}

/// An entry as a script spells it.
pub fn entry(alloc: Global, kind: u8, payload: &[u8]) -> Result<String, OutOfMemory> {
    let bytes = spelled(alloc, payload)?;
    Ok(format!(in alloc; "{kind} {bytes}")?)
}

/// The entries of a journal of version 1, or why it is none.
pub fn old_entries(alloc: Global, bytes: &[u8]) -> Result<String, OutOfMemory> {
    match read_version1(alloc, bytes) {
        Ok(entries) => listed(alloc, entries.as_slice()),
        Err(OldError::NotAJournal) => words(alloc, "not a journal"),
        Err(OldError::Damaged(place)) => Ok(format!(in alloc; "damaged {place}")?),
        Err(OldError::OutOfMemory) => words(alloc, "out of memory"),
    }
}

/// Entries as a script spells them.
fn listed(alloc: Global, entries: &[Entry]) -> Result<String, OutOfMemory> {
    if entries.is_empty() {
        return words(alloc, "none");
    }
    let mut text = String::new(alloc);
    for (i, one) in entries.iter().enumerate() {
        if i > 0 {
            text.push_str(" ; ")?;
        }
        text.push_str(&entry(alloc, one.kind, one.payload.items())?)?;
    }
    Ok(text)
}
