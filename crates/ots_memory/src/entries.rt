ghost use Rattle.std.specs.Prelude.{◌≡◌, ◌<◌, ◌≤◌, ◌+◌, ◌-◌, ◌^◌, ◌++◌, ◌∷◌, [], All, IfOk, MatchOption, Some, None};
ghost use Rattle.std.specs.Prelude.{length, vec_capacity};
ghost use Rattle.std.specs.FinMap as map;
ghost use Rattle.ots_memory.specs.Entries.{names_of, name_at, bytes_at, IsSpare, AddsEntry};

use crate::ShelfRoom;
use ots_base::OutOfMemory;
use ots_outside::Slot;
use std::alloc::Global;

/// A name and its bytes.
#[derive(Drop)]
pub struct Entry {
    pub name: String,
    pub bytes: Vec<u8>,
}

/// What a slot is in use for. A name that is read is read up to where it ended when it was opened.
#[derive(Clone, Copy)]
pub enum SlotState {
    Closed,
    Reading {
        entry: usize,
        place: usize,
        end: usize,
    },
    Writing {
        entry: usize,
    },
}

/// The memory for all the names that a shelf can hold.
pub fn spare_entries(alloc: Global, room: ShelfRoom) -> Result<Vec<Entry>, OutOfMemory>
    ensures count { IfOk result (λ spare. length spare.items ≡ room.names) }
    ensures spare { IfOk result (λ spare. All (IsSpare room.name_length room.bytes) spare.items) }
{
    let mut spare = Vec::with_capacity(alloc, room.names)?;
    for _ in 0..room.names {
        spare.push(Entry {
            name: String::with_capacity(alloc, room.name_length)?,
            bytes: Vec::with_capacity(alloc, room.bytes)?,
        })?;
    }
    Ok(spare)
}

/// Where a name stands.
pub fn find_entry(entries: &[Entry], name: &str) -> Option<usize>
    ensures { MatchOption result (map.get (names_of entries.now) name.now ≡ None)
        (λ i. (i < length entries.now) × (name_at entries.now i ≡ name.now)
        × (map.get (names_of entries.now) name.now ≡ Some (bytes_at entries.now i))) }
{
    for (i, entry) in entries.iter().enumerate() {
        if entry.name.as_str() == name {
            return Some(i);
        }
    }
    None
}

/// Adds a name with these bytes, in the memory of a spare entry.
pub fn add_entry(
    entries: &mut Vec<Entry>,
    spare: &mut Vec<Entry>,
    room: ShelfRoom,
    name: &str,
    bytes: &[u8],
)
    requires spare { All (IsSpare room.name_length room.bytes) spare.old.items }
    requires some { 0 < length spare.old.items }
    requires room { length entries.old.items < vec_capacity entries.old }
    requires name_fits { length name.now ≤ room.name_length }
    requires bytes_fit { length bytes.now ≤ room.bytes }
    ensures added { AddsEntry entries.old.items entries.new.items name.now bytes.now room.bytes }
    ensures capacity { vec_capacity entries.old ≤ vec_capacity entries.new }
    ensures taken { length spare.new.items + 1 ≡ length spare.old.items }
    ensures spare { All (IsSpare room.name_length room.bytes) spare.new.items }
{
    let mut entry = spare.pop().unwrap();
    entry.name.push_str(name).unwrap();
    entry.bytes.extend_from_slice(bytes).unwrap();
    entries.push(entry).unwrap();
}

/// Takes the next slot.
pub fn add_slot(slots: &mut Vec<SlotState>, slots_left: &mut u32, state: SlotState) -> Slot
    requires some { 0 < slots_left.old }
    requires room { length slots.old.items + slots_left.old ≤ vec_capacity slots.old }
    requires fits { length slots.old.items + slots_left.old < 2 ^ 32 }
    ensures number { result.0 ≡ length slots.old.items }
    ensures added { slots.new.items ≡ slots.old.items ++ state ∷ [] }
    ensures left { slots_left.new ≡ slots_left.old - 1 }
    ensures capacity { vec_capacity slots.old ≤ vec_capacity slots.new }
{
    let slot = Slot(slots.len() as u32);
    slots.push(state).unwrap();
    *slots_left -= 1;
    slot
}
