//! The root of a calendar's tree.
ghost use Rattle.std.specs.Prelude.{◌≡◌, ◌^◌, ◌≤◌, ◌<◌, length};
ghost use Rattle.ots_merkle.specs.CalendarTree.{root};

use crate::row::{Level, add, fold};

/// The most places of the row for fewer than 2^32 leaves.
const PLACES: usize = 32;

/// The root of the calendar's tree of these leaves, in order. There is at least one leaf, and there
/// are fewer than 2^32.
///
/// It takes no memory, one hash an inner node, and a row of 32 hashes.
pub fn root(leaves: &[[u8; 32]]) -> [u8; 32]
    requires least { 1 ≤ length leaves.now }
    requires most { length leaves.now < 2 ^ 32 }
    ensures { result ≡ root leaves.now }
{
    let mut row: [Level; PLACES] = [None; PLACES];
    for leaf in leaves {
        add(&mut row, leaf);
    }
    match fold(&row) {
        Some(root) => root,
        None => unreachable!(),
    }
}
