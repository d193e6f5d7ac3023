//! The names under which proofs are made.
ghost use Rattle.std.specs.Prelude.{◌≡◌, ◌<◌, ◌++◌, ◌∷◌, codes, length, map, IfOk, IfSome, IfNone};
ghost use Rattle.ots_archive_steps.specs.Entries.{entries_of, entry_as};
ghost use Rattle.ots_archive_take.specs.Names.{AreDistinct, IsTwice, last_of, made_last, made_name, proof_name};

use memchr::memrchr;
use ots_archive_steps::{Entries, Entry};
use ots_base::OutOfMemory;
use std::alloc::Global;
use std::collections::BTreeSet;
use std::marker::Model;

/// What ends the name of a draft.
const DRAFT: &[u8] = b".draft";

/// What ends the name of a proof.
const PROOF: &[u8] = b".ots";

/// The name of a file, of any bytes. Contracts see these.
#[derive(Drop)]
pub struct Name {
    bytes: Vec<u8>,
}

impl Model for Name {
    ghost use Rattle.std.specs.Prelude.{ℕ, List};

    ghost Value = { List ℕ };

    ghost view = { λ n. n.bytes.items };
}

impl Name {
    /// Its bytes.
    pub fn bytes(&self) -> &[u8]
        ensures { result.now ≡ self.now }
    {
        &self.bytes
    }
}

/// The names under which the proofs of these entries are made in a folder, in order.
pub fn made_names(
    alloc: Global,
    into: &str,
    entries: &Entries<'_>,
) -> Result<Vec<Name>, OutOfMemory>
    ensures { IfOk result (λ names. names.items ≡ map (made_name into.now) (entries_of entries.now)) }
{
    let mut names = Vec::with_capacity(alloc, entries.len())?;
    for index in 0..entries.len() {
        names.push(name_of(alloc, into, entries.get(index))?)?;
    }
    Ok(names)
}

/// The name under which the proof of an entry is made in a folder.
fn name_of(alloc: Global, into: &str, entry: Entry<'_>) -> Result<Name, OutOfMemory>
    ensures { IfOk result (λ name. name ≡ made_name into.now (entry_as entry.entry)) }
{
    let mut bytes = Vec::new(alloc);
    bytes.extend_from_slice(into.as_bytes())?;
    bytes.push(b'/')?;
    match entry {
        Entry::Word(name) => put_proof_name(last_of(name.as_bytes()), &mut bytes)?,
        Entry::Line(name) => {
            bytes.extend_from_slice(last_of(name))?;
            bytes.extend_from_slice(PROOF)?;
        }
    }
    Ok(Name { bytes })
}

/// Puts the name of the proof of a file of this name: that of a draft has another ending.
fn put_proof_name(name: &[u8], out: &mut Vec<u8>) -> Result<(), OutOfMemory>
    ensures { IfOk result (λ _. out.new.items ≡ out.old.items ++ proof_name name.now) }
{
    match name.strip_suffix(DRAFT) {
        Some(stem) => {
            out.extend_from_slice(stem)?;
            out.extend_from_slice(PROOF)?;
        }
        None => out.extend_from_slice(name)?,
    }
    Ok(())
}

/// What follows the last slash of a name, or all of it where it has none.
fn last_of(name: &[u8]) -> &[u8]
    ensures { result.now ≡ last_of name.now }
{
    match memrchr(b'/', name) {
        Some(place) => &name[place + 1..],
        None => name,
    }
}

/// The place of the first name that one before it has too.
pub fn first_twice(alloc: Global, names: &[Name]) -> Result<Option<usize>, OutOfMemory>
    ensures some { IfOk result (λ found. IfSome found (IsTwice names.now)) }
    ensures none { IfOk result (λ found. IfNone found (AreDistinct names.now)) }
{
    let mut seen = BTreeSet::new(alloc);
    for index in 0..names.len() {
        match seen.insert(names[index].bytes()) {
            Ok(true) => {}
            Ok(false) => return Ok(Some(index)),
            Err(_) => return Err(OutOfMemory),
        }
    }
    Ok(None)
}
