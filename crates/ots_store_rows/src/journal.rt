// The calls of a journal.
use crate::lines::split_word;
use crate::spelling::{entries_of, entry_of, number_of, split_number};
use crate::told;
use ots_base::OutOfMemory;
use ots_disk::Disk;
use ots_journal::{Entry, Journal, MAX_ENTRY_PAYLOAD, MIN_ENTRY_PAYLOAD, is_group};
use std::alloc::Global;

/// Makes the call of a line, and says what it answered.
pub fn answer<D: Disk>(
    alloc: Global,
    journal: &mut Journal<D>,
    line: &str,
) -> Result<String, OutOfMemory> {
    let (word, rest) = split_word(line);
    match word {
        "append" => append(alloc, journal, &entry_of(alloc, rest)?),
        "each" => append_each(alloc, journal, &entries_of(alloc, rest)?),
        "group" => append_group(alloc, journal, &entries_of(alloc, rest)?),
        "reserve" => reserve(alloc, journal, rest),
        "refresh" => refresh(alloc, journal),
        "state" => state(alloc, journal),
        "entry" => entry(alloc, journal, number_of(rest)),
        "entries" => told::whether(alloc, holds(journal, &entries_of(alloc, rest)?)),
        _ => told::words(alloc, "no call"),
    }
}

/// Whether it is sure, and its gate and its counts.
pub fn state<D: Disk>(alloc: Global, journal: &Journal<D>) -> Result<String, OutOfMemory> {
    let sure = if journal.is_sure() { "sure" } else { "unsure" };
    let gate = journal.gate();
    let count = journal.count();
    let faults = journal.faults();
    Ok(format!(in alloc; "{sure}, gate {gate}, entries {count}, faults {faults}")?)
}

/// Appends an entry.
fn append<D: Disk>(
    alloc: Global,
    journal: &mut Journal<D>,
    entry: &Entry,
) -> Result<String, OutOfMemory> {
    let payload = entry.payload.items();
    if payload.len() < MIN_ENTRY_PAYLOAD || payload.len() > MAX_ENTRY_PAYLOAD {
        return told::words(alloc, "no entry");
    }
    told::appended(alloc, journal.append(entry.kind, payload))
}

/// Appends each entry by itself.
fn append_each<D: Disk>(
    alloc: Global,
    journal: &mut Journal<D>,
    entries: &[Entry],
) -> Result<String, OutOfMemory> {
    let mut text = String::new(alloc);
    for entry in entries {
        if !text.is_empty() {
            text.push_str(", ")?;
        }
        text.push_str(&append(alloc, journal, entry)?)?;
    }
    Ok(text)
}

/// Appends entries as one group.
fn append_group<D: Disk>(
    alloc: Global,
    journal: &mut Journal<D>,
    entries: &[Entry],
) -> Result<String, OutOfMemory> {
    if !is_group(entries) {
        return told::words(alloc, "no group");
    }
    told::appended(alloc, journal.append_group(entries))
}

/// Makes room for so many entries and so many bytes.
fn reserve<D: Disk>(
    alloc: Global,
    journal: &mut Journal<D>,
    text: &str,
) -> Result<String, OutOfMemory> {
    let (entries, bytes) = split_number(text);
    match journal.reserve(entries as usize, number_of(bytes) as usize) {
        Ok(()) => told::words(alloc, "ok"),
        Err(OutOfMemory) => told::words(alloc, "out of memory"),
    }
}

fn refresh<D: Disk>(alloc: Global, journal: &mut Journal<D>) -> Result<String, OutOfMemory> {
    match journal.refresh() {
        Ok(()) => told::words(alloc, "ok"),
        Err(_) => told::words(alloc, "disk fault"),
    }
}

/// The entry at an index.
fn entry<D: Disk>(alloc: Global, journal: &Journal<D>, i: u64) -> Result<String, OutOfMemory> {
    if i >= journal.count() {
        return told::words(alloc, "none");
    }
    let (kind, payload) = journal.entry(i);
    told::entry(alloc, kind, payload)
}

/// Whether the entries are these.
fn holds<D: Disk>(journal: &Journal<D>, entries: &[Entry]) -> bool {
    if journal.count() != entries.len() as u64 {
        return false;
    }
    for (i, wanted) in entries.iter().enumerate() {
        let i = i as u64;
        if i >= journal.count() || journal.entry(i) != (wanted.kind, wanted.payload.items()) {
            return false;
        }
    }
    true
}
