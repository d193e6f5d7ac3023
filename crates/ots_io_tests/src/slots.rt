// A created slot of a shelf as a sink.
ghost use Rattle.std.specs.Prelude.{IsTrue, OnOk};
ghost use Rattle.ots_io.specs.Shelf.{is_writing};
ghost use Rattle.ots_io.specs.Streams.{Takes, TakesPrefix};
ghost use Rattle.ots_io.specs.Written.{SameButSlotBytes, slot_bytes};

use super::held::{Held, Trial, try_in_memory};
use ots_io::{CreateError, Failed, Shelf, Sink, Slot, SlotSink, write_all};
use std::process::Abort;
use std::test::Fail;

/// Writes a text to a created name. Any shelf can be written so, and is known whole again
/// afterwards.
fn write_slot<S: Shelf>(shelf: &mut S, slot: Slot, text: &[u8]) -> Result<(), Failed>
    requires { IsTrue (is_writing ((S.told shelf.old).slots slot.0)) }
    ensures whole { OnOk result (Takes (slot_bytes (S.told shelf.old) slot.0) (slot_bytes (S.told shelf.new) slot.0)
        text.now) }
    ensures prefix { TakesPrefix (slot_bytes (S.told shelf.old) slot.0) (slot_bytes (S.told shelf.new) slot.0)
        text.now }
    ensures same { SameButSlotBytes slot.0 (S.told shelf.old) (S.told shelf.new) }
{
    write_all(&mut SlotSink::new(shelf, slot), text)
}

/// Creates a name with this text.
pub fn write_named<S: Shelf>(shelf: &mut S, name: &str, text: &[u8]) -> Result<(), CreateError> {
    let slot = shelf.create(name)?;
    let written = write_slot(shelf, slot, text);
    shelf.close(slot);
    match written {
        Ok(()) => Ok(()),
        Err(Failed) => Err(CreateError::Failed),
    }
}

/// A name is written so, and then holds this text.
fn expect_written<S: Shelf + Held>(
    rt: &impl Abort,
    shelf: &mut S,
    name: &str,
    text: &str,
    answer: Result<(), CreateError>,
    held: &str,
) {
    assert_eq!(rt; write_named(shelf, name, text.as_bytes()), answer);
    assert!(rt; shelf.holds(name, held.as_bytes()));
}

pub fn through_slots<S: Shelf + Held>(rt: &impl Abort, shelf: &mut S) -> Result<(), Fail> {
    shelf.put_name("a", b"old")?;
    expect_written(rt, shelf, "b", "abcdefgh", Ok(()), "abcdefgh");
    expect_written(rt, shelf, "c", "", Ok(()), "");
    expect_written(rt, shelf, "a", "new", Err(CreateError::Exists), "old");
    assert!(rt; shelf.holds("b", b"abcdefgh"));
    Ok(())
}

#[test]
fn a_name_is_written_through_its_slot(rt: HostRuntime) -> Result<(), Fail> {
    try_in_memory(&rt, &[], Trial::ThroughSlots)
}

/// Creates two names, and writes to the one and the other in turn.
fn write_in_turn<S: Shelf>(shelf: &mut S) -> Result<[Result<(), Failed>; 4], CreateError> {
    let a = shelf.create("a")?;
    let b = shelf.create("b")?;
    let answers = [
        write_slot(shelf, a, b"ab"),
        write_slot(shelf, b, b"x"),
        write_slot(shelf, a, b"cd"),
        write_slot(shelf, b, b"yz"),
    ];
    shelf.close(a);
    shelf.close(b);
    Ok(answers)
}

pub fn in_turn<S: Shelf + Held>(rt: &impl Abort, shelf: &mut S) -> Result<(), Fail> {
    let answers = write_in_turn(shelf);
    assert_eq!(rt; answers, Ok([Ok(()), Ok(()), Ok(()), Err(Failed)]));
    assert!(rt; shelf.holds("a", b"abcd"));
    assert!(rt; shelf.holds("b", b"x"));
    Ok(())
}

#[test]
fn two_slots_are_written_in_turn(rt: HostRuntime) -> Result<(), Fail> {
    // The last write is to fail.
    try_in_memory(&rt, &[6], Trial::InTurn)
}
