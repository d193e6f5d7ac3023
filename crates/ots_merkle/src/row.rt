//! The row of level hashes.
ghost use Rattle.std.specs.Prelude.{◌≡◌, ◌<◌, ◌≤◌, None, IsTrue, IsOk, is_ok, length, vec_capacity, if◌then◌else◌};
ghost use Rattle.std.specs.Option.{is_none};
ghost use Rattle.std.specs.List.{list_any};
ghost use Rattle.ots_merkle.specs.Row.{added, with_room, folded};

use crate::hashes::node;
use ots_base::OutOfMemory;

/// What stands at one place of the row: at place h the root of 2^h leaves, or nothing.
pub(crate) type Level = Option<[u8; 32]>;

/// Whether a place of the row is free.
pub(crate) fn has_room(row: &[Level]) -> bool
    ensures { result ≡ list_any is_none row.now }
{
    row.iter().any(|level| level.is_none())
}

/// Adds a leaf to a row with a free place.
pub(crate) fn add(row: &mut [Level], leaf: &[u8; 32])
    requires { IsTrue (list_any is_none row.old) }
    ensures { row.new ≡ added row.old leaf.now }
{
    let mut carried = *leaf;
    for place in 0..row.len() {
        match row[place] {
            None => {
                row[place] = Some(carried);
                return;
            }
            Some(before) => {
                row[place] = None;
                carried = node(&before, &carried);
            }
        }
    }
}

/// Adds a leaf to a row that grows by a place where none is free. Where memory ran out the row is
/// as before.
pub(crate) fn add_growing(row: &mut Vec<Level>, leaf: &[u8; 32]) -> Result<(), OutOfMemory>
    ensures added { row.new.items ≡ (if is_ok result then added row.old.items leaf.now else row.old.items) }
    ensures capacity { vec_capacity row.old ≤ vec_capacity row.new }
    ensures room { IsTrue (list_any is_none row.old.items) → IsOk result }
    ensures capacity_left { length row.old.items < vec_capacity row.old → IsOk result }
{
    make_room(row)?;
    add(row.as_mut_slice(), leaf);
    Ok(())
}

/// Grows the row by a place where none is free. Where memory ran out the row is as before.
fn make_room(row: &mut Vec<Level>) -> Result<(), OutOfMemory>
    ensures items { row.new.items ≡ (if is_ok result then with_room row.old.items else row.old.items) }
    ensures capacity { vec_capacity row.old ≤ vec_capacity row.new }
    ensures room { IsTrue (list_any is_none row.old.items) → IsOk result }
    ensures capacity_left { length row.old.items < vec_capacity row.old → IsOk result }
{
    if !has_room(row) {
        row.push(None)?;
    }
    Ok(())
}

/// The hash over all that stands in the row, where anything does.
pub(crate) fn fold(row: &[Level]) -> Level
    ensures { result ≡ folded row.now None }
{
    let mut after: Level = None;
    for level in row {
        if let Some(before) = level {
            after = Some(match after {
                None => *before,
                Some(hash) => node(before, &hash),
            });
        }
    }
    after
}
