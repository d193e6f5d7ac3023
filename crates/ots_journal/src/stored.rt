//! What a journal keeps in memory of what its disk holds.
ghost use Rattle.std.specs.Prelude.{◌≡◌, ◌≤◌, ◌<◌, ◌+◌, ◌*◌, ◌^◌, [], ◌∷◌, ◌++◌, length, take, drop, min, slice_get};
ghost use Rattle.std.specs.Prelude.{Some, IsOk, IfOk, OnOk, OnErr};
ghost use Rattle.std.specs.List.{AllByRecursion};
ghost use Rattle.ots_journal.specs.Image.{entries_bytes, payload_bytes, group_body, FitsGroup, FitsEntry};
ghost use Rattle.ots_journal.specs.Stored.{StoredTold, entries_at, EndsBy, staged_bytes, IsReserved, Stages};

use crate::Entry;
use crate::place::Place;
use crate::spelling::{CLOSED_GATE, add_entries, add_entry, add_head};
use ots_base::OutOfMemory;
use std::marker::Model;

/// The entries of a journal in memory, in bytes as the file has them, and after them at most one
/// group that is staged.
#[derive(Drop)]
pub struct Stored {
    file: Vec<u8>,
    places: Vec<Place>,
    // how many entries are acknowledged, and how many bytes they have with the magic
    held: usize,
    mark: usize,
    spare_entries: usize,
    spare_bytes: usize,
}

impl Model for Stored {
    ghost use Rattle.std.specs.Prelude.{take, drop};
    ghost use Rattle.ots_journal.specs.Stored.{StoredTold, entries_at, IsStored};

    ghost Value = { StoredTold };

    ghost view = { λ s. record {
      entries = entries_at s.file.items (take s.held s.places.items);
      flight = entries_at s.file.items (drop s.held s.places.items);
      size = s.mark;
      staged = drop s.mark s.file.items;
      spare_entries = s.spare_entries;
      spare_bytes = s.spare_bytes;
    } };

    ghost invariant = { λ s. IsStored s.file s.places s.held s.mark s.spare_entries s.spare_bytes };
}

impl Stored {
    /// The entries at these places, all acknowledged, whose groups with the magic are these bytes.
    pub fn of_file(file: Vec<u8>, places: Vec<Place>) -> Stored
        requires { AllByRecursion (EndsBy (length file.items)) places.items }
        ensures entries { result.entries ≡ entries_at file.items places.items }
        ensures flight { result.flight ≡ [] }
        ensures size { result.size ≡ length file.items }
        ensures staged { result.staged ≡ [] }
    {
        let held = places.len();
        let mark = file.len();
        Stored {
            file,
            places,
            held,
            mark,
            spare_entries: 0,
            spare_bytes: 0,
        }
    }

    /// The number of acknowledged entries.
    pub fn count(&self) -> usize
        ensures { result ≡ length self.now.entries }
    {
        self.held
    }

    /// The number of bytes of the magic and the acknowledged groups.
    pub fn size(&self) -> usize
        ensures size { result ≡ self.now.size }
        ensures bound { result < 2 ^ 63 }
    {
        self.mark
    }

    /// An acknowledged entry: its kind and its payload.
    pub fn entry(&self, i: usize) -> (u8, &[u8])
        requires { i < length self.now.entries }
        ensures { slice_get self.now.entries i ≡ Some (record { kind = result.0; payload = result.1.now }) }
    {
        let place = self.places[i];
        let start = place.start as usize;
        (place.kind, &self.file[start..start + place.length as usize])
    }

    /// What stands after the gate of the staged group, with the next gate.
    pub fn body(&self) -> &[u8]
        requires { self.now.staged ≡ staged_bytes self.now.flight }
        ensures { result.now ≡ group_body self.now.flight ++ 0 ∷ [] }
    {
        &self.file[self.mark + 1..]
    }

    /// Makes room for at least `entries` entries, with `bytes` bytes of payloads, after those that are there.
    pub fn reserve(&mut self, entries: usize, bytes: usize) -> Result<(), OutOfMemory>
        ensures ok { OnOk result (IsReserved self.old self.new entries bytes) }
        ensures err { OnErr result (self.new ≡ self.old) }
        ensures enough { entries ≤ self.old.spare_entries → bytes ≤ self.old.spare_bytes
            → IsOk result × (self.new ≡ self.old) }
    {
        if entries <= self.spare_entries && bytes <= self.spare_bytes {
            return Ok(());
        }
        let entries = entries.max(self.spare_entries);
        let bytes = bytes.max(self.spare_bytes);
        let in_file = room_in_file(entries, bytes)?;
        self.places.reserve(entries)?;
        self.file.reserve(in_file)?;
        self.spare_entries = entries;
        self.spare_bytes = bytes;
        Ok(())
    }

    /// Stages an entry as a group of one, in room that is spare.
    pub fn stage_entry(&mut self, kind: u8, payload: &[u8])
        requires fits { FitsEntry (record { kind = kind; payload = payload.now }) }
        requires none { self.old.staged ≡ [] }
        requires no_flight { self.old.flight ≡ [] }
        requires entry_room { 1 ≤ self.old.spare_entries }
        requires byte_room { length payload.now ≤ self.old.spare_bytes }
        requires small { self.old.size + 13 + length payload.now < 2 ^ 32 }
        ensures { Stages self.old self.new ((record { kind = kind; payload = payload.now }) ∷ []) }
    {
        add_head(&mut self.file, 1, payload.len() as u32 + 5);
        add_entry(&mut self.file, &mut self.places, kind, payload);
        self.file.push(CLOSED_GATE).unwrap();
        self.spare_entries -= 1;
        self.spare_bytes -= payload.len();
    }

    /// Stages a group, in room that is spare. Its entries have `size` bytes, and their payloads
    /// `bytes`.
    pub fn stage(&mut self, entries: &[Entry], size: u32, bytes: usize)
        requires fits { FitsGroup entries.now }
        requires none { self.old.staged ≡ [] }
        requires no_flight { self.old.flight ≡ [] }
        requires size_is { size ≡ length (entries_bytes entries.now) }
        requires bytes_is { bytes ≡ payload_bytes entries.now }
        requires entry_room { length entries.now ≤ self.old.spare_entries }
        requires byte_room { bytes ≤ self.old.spare_bytes }
        requires small { self.old.size + 8 + size < 2 ^ 32 }
        ensures { Stages self.old self.new entries.now }
    {
        add_head(&mut self.file, entries.len() as u16, size);
        add_entries(&mut self.file, &mut self.places, entries);
        self.file.push(CLOSED_GATE).unwrap();
        self.spare_entries -= entries.len();
        self.spare_bytes -= bytes;
    }

    /// Takes the staged group in.
    pub fn keep(&mut self)
        requires { self.old.staged ≡ staged_bytes self.old.flight }
        ensures entries { self.new.entries ≡ self.old.entries ++ self.old.flight }
        ensures flight { self.new.flight ≡ [] }
        ensures size { self.new.size + 1 ≡ self.old.size + length self.old.staged }
        ensures staged { self.new.staged ≡ [] }
        ensures spare_entries { self.new.spare_entries ≡ self.old.spare_entries }
        ensures spare_bytes { self.new.spare_bytes ≡ self.old.spare_bytes }
    {
        self.file.pop();
        self.held = self.places.len();
        self.mark = self.file.len();
    }

    /// Forgets the staged group.
    pub fn forget(&mut self)
        ensures entries { self.new.entries ≡ self.old.entries }
        ensures flight { self.new.flight ≡ [] }
        ensures size { self.new.size ≡ self.old.size }
        ensures staged { self.new.staged ≡ [] }
        ensures spare_entries { self.new.spare_entries ≡ self.old.spare_entries }
        ensures spare_bytes { self.new.spare_bytes ≡ self.old.spare_bytes }
    {
        self.places.truncate(self.held);
        self.file.truncate(self.mark);
    }
}

/// The most bytes that `entries` entries with `bytes` bytes of payloads take, each in a group of its
/// own: two gates, the two numbers of the group, a kind and a length beside the payload.
fn room_in_file(entries: usize, bytes: usize) -> Result<usize, OutOfMemory>
    ensures { IfOk result (λ room. room ≡ 13 * entries + bytes) }
{
    match entries.checked_mul(13) {
        Some(beside) => match beside.checked_add(bytes) {
            Some(room) => Ok(room),
            None => Err(OutOfMemory),
        },
        None => Err(OutOfMemory),
    }
}
