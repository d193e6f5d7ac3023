//! The bytes of a group, spelled into memory that is there.
ghost use Rattle.std.specs.Prelude.{◌≡◌, ◌≤◌, ◌<◌, ◌+◌, ◌^◌, [], ◌∷◌, ◌++◌, length, vec_capacity};
ghost use Rattle.std.specs.Int.{w16, w32, to_be_bytes};
ghost use Rattle.std.specs.List.{AllByRecursion};
ghost use Rattle.ots_journal.specs.Image.{entry_bytes, entries_bytes, payload_bytes, open_gate, FitsGroup};
ghost use Rattle.ots_journal.specs.Stored.{Adds, EndsBy};

use crate::Entry;
use crate::place::Place;

/// The gate of a group that counts.
pub const OPEN_GATE: u8 = 0xa5;

/// A gate after which nothing counts. Any byte but `a5` is one.
pub const CLOSED_GATE: u8 = 0;

/// The number of bytes of a group's entries.
pub fn entries_size(entries: &[Entry]) -> u64
    requires { FitsGroup entries.now }
    ensures size { result ≡ length (entries_bytes entries.now) }
    ensures bound { result < 2 ^ 32 }
{
    let mut size = 0;
    for entry in entries {
        size += 5 + entry.payload.items().len() as u64;
    }
    size
}

/// The number of bytes of all payloads.
pub fn payloads_size(entries: &[Entry]) -> u64
    requires { FitsGroup entries.now }
    ensures size { result ≡ payload_bytes entries.now }
    ensures bound { result < 2 ^ 32 }
{
    let mut size = 0;
    for entry in entries {
        size += entry.payload.items().len() as u64;
    }
    size
}

/// Adds an open gate, the number of a group's entries and the number of their bytes.
pub fn add_head(file: &mut Vec<u8>, count: u16, size: u32)
    requires { length file.old.items + 7 ≤ vec_capacity file.old }
    ensures bytes { file.new.items ≡ file.old.items ++ (open_gate ∷ (to_be_bytes w16 count ++ to_be_bytes w32 size)) }
    ensures room { vec_capacity file.old ≤ vec_capacity file.new }
{
    file.push(OPEN_GATE).unwrap();
    file.extend_from_slice(&count.to_be_bytes()).unwrap();
    file.extend_from_slice(&size.to_be_bytes()).unwrap();
}

/// Adds an entry, and notes its place.
pub fn add_entry(file: &mut Vec<u8>, places: &mut Vec<Place>, kind: u8, payload: &[u8])
    requires file_room { length file.old.items + 5 + length payload.now ≤ vec_capacity file.old }
    requires places_room { length places.old.items < vec_capacity places.old }
    requires fits { length file.old.items + 5 + length payload.now < 2 ^ 32 }
    ensures bytes { file.new.items ≡ file.old.items ++ entry_bytes (record { kind = kind; payload = payload.now }) }
    ensures places { places.new.items ≡ places.old.items ++ (record {
      kind = kind;
      start = length file.old.items + 5;
      length = length payload.now;
    }) ∷ [] }
    ensures file_room { vec_capacity file.old ≤ vec_capacity file.new }
    ensures places_room { vec_capacity places.old ≤ vec_capacity places.new }
{
    let length = payload.len() as u32;
    let start = file.len() as u32 + 5;
    file.push(kind).unwrap();
    file.extend_from_slice(&length.to_be_bytes()).unwrap();
    file.extend_from_slice(payload).unwrap();
    places
        .push(Place {
            kind,
            start,
            length,
        })
        .unwrap();
}

/// Adds entries, and notes their places.
pub fn add_entries(file: &mut Vec<u8>, places: &mut Vec<Place>, entries: &[Entry])
    requires fits { FitsGroup entries.now }
    requires file_room { length file.old.items + length (entries_bytes entries.now) ≤ vec_capacity file.old }
    requires places_room { length places.old.items + length entries.now ≤ vec_capacity places.old }
    requires small { length file.old.items + length (entries_bytes entries.now) < 2 ^ 32 }
    requires within { AllByRecursion (EndsBy (length file.old.items)) places.old.items }
    ensures bytes { file.new.items ≡ file.old.items ++ entries_bytes entries.now }
    ensures entries { Adds file.old.items file.new.items places.old.items places.new.items entries.now }
    ensures file_room { vec_capacity file.old ≤ vec_capacity file.new }
    ensures places_room { vec_capacity places.old ≤ vec_capacity places.new }
{
    for entry in entries {
        add_entry(file, places, entry.kind, entry.payload.items());
    }
}
