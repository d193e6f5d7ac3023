// The calls of a store.
use crate::lines::split_word;
use crate::records::{anchor_of, commitment_of, text_of_anchor, text_of_tips, tip_of};
use crate::spelling::{bytes_of, entries_of, number_of, spelled, spelled_numbers};
use crate::told;
use ots_base::OutOfMemory;
use ots_disk::Disk;
use ots_journal::{Entry, is_group};
use ots_store::{Anchor, Store, Tip};
use std::alloc::Global;

/// Makes the call of a line, and says what it answered.
pub fn answer<D: Disk>(
    alloc: Global,
    store: &mut Store<D>,
    line: &str,
) -> Result<String, OutOfMemory> {
    let (word, rest) = split_word(line);
    match word {
        "commit" => commit(alloc, store, &commitment_of(&bytes_of(alloc, rest)?)),
        "commits" => commit_each(alloc, store, &bytes_of(alloc, rest)?),
        "tip" => add_tip(alloc, store, &tip_of(alloc, rest)?),
        "anchor" => add_anchor(alloc, store, &anchor_of(alloc, rest)?),
        "group" => add_group(alloc, store, &entries_of(alloc, rest)?),
        "reserve" => reserve(alloc, store),
        "refresh" => refresh(alloc, store),
        _ => asked(alloc, store, word, rest),
    }
}

/// Adds a commitment.
fn commit<D: Disk>(
    alloc: Global,
    store: &mut Store<D>,
    commitment: &[u8; 44],
) -> Result<String, OutOfMemory> {
    told::appended(alloc, store.add_commit(commitment))
}

/// Adds the commitment of 44 bytes of each of these values.
fn commit_each<D: Disk>(
    alloc: Global,
    store: &mut Store<D>,
    values: &[u8],
) -> Result<String, OutOfMemory> {
    let mut text = String::new(alloc);
    for value in values {
        if !text.is_empty() {
            text.push_str(", ")?;
        }
        text.push_str(&commit(alloc, store, &[*value; 44])?)?;
    }
    Ok(text)
}

/// Adds a tip, where it may follow.
fn add_tip<D: Disk>(alloc: Global, store: &mut Store<D>, tip: &Tip) -> Result<String, OutOfMemory> {
    if !store.is_sure() {
        return told::words(alloc, "unsure");
    }
    if !store.takes_tip(tip) {
        return told::words(alloc, "may not follow");
    }
    told::added(alloc, store.add_tip(tip))
}

/// Adds an anchor, where it may follow.
fn add_anchor<D: Disk>(
    alloc: Global,
    store: &mut Store<D>,
    anchor: &Anchor,
) -> Result<String, OutOfMemory> {
    if !store.is_sure() {
        return told::words(alloc, "unsure");
    }
    if !store.takes_anchor(anchor) {
        return told::words(alloc, "may not follow");
    }
    told::added(alloc, store.add_anchor(anchor))
}

/// Adds a group, of which no entry is bad.
fn add_group<D: Disk>(
    alloc: Global,
    store: &mut Store<D>,
    entries: &[Entry],
) -> Result<String, OutOfMemory> {
    if !store.is_sure() {
        return told::words(alloc, "unsure");
    }
    if !is_group(entries) {
        return told::words(alloc, "no group");
    }
    match store.first_bad(entries) {
        Some(i) => Ok(format!(in alloc; "bad {i}")?),
        None => told::added(alloc, store.add_group(entries)),
    }
}

/// Takes the memory for one commitment or one tip.
fn reserve<D: Disk>(alloc: Global, store: &mut Store<D>) -> Result<String, OutOfMemory> {
    match store.reserve() {
        Ok(()) => told::words(alloc, "ok"),
        Err(OutOfMemory) => told::words(alloc, "out of memory"),
    }
}

fn refresh<D: Disk>(alloc: Global, store: &mut Store<D>) -> Result<String, OutOfMemory> {
    match store.refresh() {
        Ok(()) => told::words(alloc, "ok"),
        Err(_) => told::words(alloc, "disk fault"),
    }
}

/// What a store says of itself.
fn asked<D: Disk>(
    alloc: Global,
    store: &Store<D>,
    word: &str,
    rest: &str,
) -> Result<String, OutOfMemory> {
    match word {
        "state" => state(alloc, store),
        "bad" => told::bad(alloc, store.first_bad(&entries_of(alloc, rest)?)),
        "index" => told::number(
            alloc,
            store.index_of(&commitment_of(&bytes_of(alloc, rest)?)),
        ),
        "indexes" => indexes(alloc, store, &bytes_of(alloc, rest)?),
        "covering" => covering(alloc, store, number_of(rest)),
        "heights" => heights(alloc, store, number_of(rest)),
        "entry" => entry(alloc, store, number_of(rest)),
        "commitment" => commitment(alloc, store, number_of(rest)),
        "commitments" => commitments(alloc, store, &bytes_of(alloc, rest)?),
        "tips" => text_of_tips(alloc, store.tips()),
        _ => told::words(alloc, "no call"),
    }
}

/// Whether it is sure, and its gate and its counts.
pub fn state<D: Disk>(alloc: Global, store: &Store<D>) -> Result<String, OutOfMemory> {
    let sure = if store.is_sure() { "sure" } else { "unsure" };
    let gate = store.gate();
    let records = store.entries();
    let commits = store.commits();
    let covered = store.covered();
    let tips = store.tips().len();
    let faults = store.faults();
    Ok(format!(in alloc;
        "{sure}, gate {gate}, records {records}, commitments {commits}, covered {covered}, tips {tips}, faults {faults}"
    )?)
}

/// The indexes of the commitments of 44 bytes of these values.
fn indexes<D: Disk>(alloc: Global, store: &Store<D>, values: &[u8]) -> Result<String, OutOfMemory> {
    let mut found = Vec::new(alloc);
    for value in values {
        found.push(store.index_of(&[*value; 44]))?;
    }
    spelled_numbers(alloc, &found)
}

/// The first anchor that covers an index.
fn covering<D: Disk>(alloc: Global, store: &Store<D>, i: u64) -> Result<String, OutOfMemory> {
    match store.anchor_of(i) {
        Some(anchor) => text_of_anchor(alloc, anchor),
        None => told::words(alloc, "none"),
    }
}

/// The heights of the first anchors that cover the indexes up to a number.
fn heights<D: Disk>(alloc: Global, store: &Store<D>, count: u64) -> Result<String, OutOfMemory> {
    let mut found = Vec::new(alloc);
    for i in 0..count {
        found.push(height_at(store, i))?;
    }
    spelled_numbers(alloc, &found)
}

fn height_at<D: Disk>(store: &Store<D>, i: u64) -> Option<u64> {
    match store.anchor_of(i) {
        Some(anchor) => Some(anchor.height),
        None => None,
    }
}

/// The entry of a record.
fn entry<D: Disk>(alloc: Global, store: &Store<D>, i: u64) -> Result<String, OutOfMemory> {
    if i >= store.entries() {
        return told::words(alloc, "none");
    }
    let (kind, payload) = store.entry(i);
    told::entry(alloc, kind, payload)
}

/// The commitment of an index.
fn commitment<D: Disk>(alloc: Global, store: &Store<D>, i: u64) -> Result<String, OutOfMemory> {
    if i >= store.commits() {
        return told::words(alloc, "none");
    }
    spelled(alloc, &store.commit(i))
}

/// Whether the commitments are those of 44 bytes of these values.
fn commitments<D: Disk>(
    alloc: Global,
    store: &Store<D>,
    values: &[u8],
) -> Result<String, OutOfMemory> {
    let stored = store.commitments();
    let same = stored.len() == values.len()
        && stored
            .iter()
            .zip(values.iter())
            .all(|(commitment, value)| *commitment == [*value; 44]);
    told::whether(alloc, same)
}
