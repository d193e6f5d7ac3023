// The shelf in memory, and what is tried with it.
use super::shelves::{failing_calls, names, refusals};
use super::slots::{in_turn, through_slots};
use ots_io::{MapShelf, PutError, Shelf, ShelfRoom};
use std::process::Abort;
use std::test::Fail;

const ROOM: ShelfRoom = ShelfRoom {
    names: 3,
    name_length: 4,
    bytes: 8,
    slots: 6,
};

/// A shelf that is filled and looked at past its calls.
pub trait Held {
    /// Puts a name.
    fn put_name(&mut self, name: &str, bytes: &[u8]) -> Result<(), PutError>;

    /// Whether a name holds exactly these bytes.
    fn holds(&self, name: &str, bytes: &[u8]) -> bool;

    /// Whether there is no such name.
    fn lacks(&self, name: &str) -> bool;
}

impl Held for MapShelf {
    fn put_name(&mut self, name: &str, bytes: &[u8]) -> Result<(), PutError> {
        self.put(name, bytes)
    }

    fn holds(&self, name: &str, bytes: &[u8]) -> bool {
        self.bytes_of(name) == Some(bytes)
    }

    fn lacks(&self, name: &str) -> bool {
        self.bytes_of(name).is_none()
    }
}

/// What is tried with a new shelf.
#[derive(Clone, Copy)]
pub enum Trial {
    ThroughSlots,
    InTurn,
    Names,
    Refusals,
    FailingCalls,
}

/// Tries this with a shelf that is new.
fn try_shelf<S: Shelf + Held>(
    rt: &(impl Abort + AllocGlobal),
    shelf: &mut S,
    trial: Trial,
) -> Result<(), Fail> {
    match trial {
        Trial::ThroughSlots => through_slots(rt, shelf),
        Trial::InTurn => in_turn(rt, shelf),
        Trial::Names => names(rt, shelf),
        Trial::Refusals => refusals(rt, shelf),
        Trial::FailingCalls => failing_calls(rt, shelf),
    }
}

/// Tries this with a new shelf in memory, of which these calls fail.
pub fn try_in_memory(
    rt: &(impl Abort + AllocGlobal),
    failing: &[u64],
    trial: Trial,
) -> Result<(), Fail> {
    let mut shelf = MapShelf::new(rt.alloc(), ROOM, failing)?;
    try_shelf(rt, &mut shelf, trial)
}
