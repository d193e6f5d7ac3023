// The shelf in memory, and a slot of it as a source.
ghost use Rattle.std.specs.Prelude.{◌≡◌, ◌++◌, ◌∷◌, [], ℕ, OnOk};
ghost use Rattle.std.specs.Option.{option_map};

use super::held::{Held, Trial, try_in_memory};
use ots_io::{CreateError, Failed, OpenError, PutError, Shelf, SlotSource, read_all};
use std::alloc::Global;
use std::process::Abort;
use std::test::Fail;

/// All that a name holds. Any shelf can be read so, and is known whole again afterwards.
fn read_named<S: Shelf>(alloc: Global, shelf: &mut S, name: &str) -> Result<Vec<u8>, Fail>
    ensures names { (S.told shelf.new).names ≡ (S.told shelf.old).names }
    ensures slots { (k : ℕ) → (S.told shelf.new).slots k ≡ (S.told shelf.old).slots k }
    ensures opened { OnOk result ((S.told shelf.new).opened ≡ option_map (λ names. names ++ name.now ∷ [])
        (S.told shelf.old).opened) }
{
    let slot = shelf.open(name)?;
    let bytes = read_all(alloc, &mut SlotSource::new(shelf, slot), 100);
    shelf.close(slot);
    Ok(bytes?)
}

/// Opens a name, and reads it by two calls.
pub fn read_twice<S: Shelf>(
    shelf: &mut S,
    name: &str,
    buf: &mut [u8],
) -> Result<[Result<usize, Failed>; 2], OpenError> {
    let slot = shelf.open(name)?;
    let first = shelf.read(slot, buf);
    let second = shelf.read(slot, buf);
    shelf.close(slot);
    Ok([first, second])
}

/// Creates a name, and writes the same piece to it by two calls.
fn write_twice<S: Shelf>(
    shelf: &mut S,
    name: &str,
    piece: &[u8],
) -> Result<[Result<usize, Failed>; 2], CreateError> {
    let slot = shelf.create(name)?;
    let first = shelf.write(slot, piece);
    let second = shelf.write(slot, piece);
    shelf.close(slot);
    Ok([first, second])
}

/// A name is read so by two calls.
fn expect_read_twice<S: Shelf + Held>(
    rt: &impl Abort,
    shelf: &mut S,
    name: &str,
    answer: Result<[Result<usize, Failed>; 2], OpenError>,
) {
    assert_eq!(rt; read_twice(shelf, name, &mut [0; 6]), answer);
}

/// A piece is written so by two calls to a name that is created.
fn expect_written_twice<S: Shelf + Held>(
    rt: &impl Abort,
    shelf: &mut S,
    name: &str,
    piece: &[u8],
    answer: Result<[Result<usize, Failed>; 2], CreateError>,
) {
    assert_eq!(rt; write_twice(shelf, name, piece), answer);
}

/// A name holds these bytes.
fn expect_read<S: Shelf + Held>(
    rt: &(impl Abort + AllocGlobal),
    shelf: &mut S,
    name: &str,
    bytes: &[u8],
) -> Result<(), Fail> {
    assert_eq!(rt; read_named(rt.alloc(), shelf, name)?.as_slice(), bytes);
    Ok(())
}

/// Puts two names and creates a third, and reads all three.
fn expect_names<S: Shelf + Held>(
    rt: &(impl Abort + AllocGlobal),
    shelf: &mut S,
) -> Result<(), Fail> {
    shelf.put_name("a", b"abcdef")?;
    shelf.put_name("b", b"")?;
    expect_written_twice(rt, shelf, "c", b"xyz", Ok([Ok(3), Ok(3)]));
    expect_read(rt, shelf, "a", b"abcdef")?;
    expect_read(rt, shelf, "b", b"")?;
    expect_read(rt, shelf, "c", b"xyzxyz")
}

pub fn names<S: Shelf + Held>(rt: &(impl Abort + AllocGlobal), shelf: &mut S) -> Result<(), Fail> {
    expect_names(rt, shelf)?;
    assert!(rt; shelf.holds("c", b"xyzxyz"));
    assert!(rt; shelf.lacks("d"));
    Ok(())
}

#[test]
fn names_are_put_created_and_read(rt: HostRuntime) -> Result<(), Fail> {
    try_in_memory(&rt, &[], Trial::Names)
}

/// A name is put or refused so.
fn expect_put<S: Shelf + Held>(
    rt: &impl Abort,
    shelf: &mut S,
    name: &str,
    bytes: &[u8],
    answer: Result<(), PutError>,
) {
    assert_eq!(rt; shelf.put_name(name, bytes), answer);
}

/// Puts one name of the greatest length, with as many bytes as a name can have.
fn expect_puts<S: Shelf + Held>(rt: &impl Abort, shelf: &mut S) {
    expect_put(rt, shelf, "long!", b"", Err(PutError::NoRoom));
    expect_put(rt, shelf, "a", b"123456789", Err(PutError::NoRoom));
    expect_put(rt, shelf, "long", b"12345678", Ok(()));
    expect_put(rt, shelf, "long", b"", Err(PutError::Exists));
}

/// Creates two names after it, which are the last that the shelf has room for.
fn expect_creations<S: Shelf + Held>(rt: &impl Abort, shelf: &mut S) {
    let once = Ok([Ok(5), Err(Failed)]);
    expect_written_twice(rt, shelf, "long", b"12345", Err(CreateError::Exists));
    expect_written_twice(rt, shelf, "long!", b"12345", Err(CreateError::Failed));
    expect_written_twice(rt, shelf, "b", b"12345", once);
    expect_written_twice(rt, shelf, "c", b"12345", once);
    expect_written_twice(rt, shelf, "d", b"12345", Err(CreateError::Failed));
    assert!(rt; shelf.holds("b", b"12345"));
}

/// Opens the name four times, which takes the slots that are left.
fn expect_openings<S: Shelf + Held>(rt: &impl Abort, shelf: &mut S) {
    let whole = Ok([Ok(6), Ok(2)]);
    expect_read_twice(rt, shelf, "long", whole);
    expect_read_twice(rt, shelf, "long", whole);
    expect_read_twice(rt, shelf, "long", whole);
    expect_read_twice(rt, shelf, "long", whole);
    expect_read_twice(rt, shelf, "long", Err(OpenError::Failed));
    expect_read_twice(rt, shelf, "e", Err(OpenError::NotThere));
}

pub fn refusals<S: Shelf + Held>(rt: &impl Abort, shelf: &mut S) -> Result<(), Fail> {
    expect_puts(rt, shelf);
    expect_creations(rt, shelf);
    expect_openings(rt, shelf);
    Ok(())
}

#[test]
fn a_name_is_refused_by_what_the_shelf_holds(rt: HostRuntime) -> Result<(), Fail> {
    try_in_memory(&rt, &[], Trial::Refusals)
}

/// The first opening and the first read fail.
fn expect_failing_reads<S: Shelf + Held>(rt: &impl Abort, shelf: &mut S) {
    let mut buf = [0; 8];
    let first = read_twice(shelf, "a", &mut buf);
    let second = read_twice(shelf, "a", &mut buf);
    assert_eq!(rt; first, Err(OpenError::Failed));
    assert_eq!(rt; second, Ok([Err(Failed), Ok(6)]));
    assert_eq!(rt; buf, *b"abcdef\0\0");
}

pub fn failing_calls<S: Shelf + Held>(rt: &impl Abort, shelf: &mut S) -> Result<(), Fail> {
    shelf.put_name("a", b"abcdef")?;
    expect_failing_reads(rt, shelf);
    expect_written_twice(rt, shelf, "b", b"xy", Err(CreateError::Failed));
    expect_written_twice(rt, shelf, "b", b"xy", Ok([Err(Failed), Ok(2)]));
    assert!(rt; shelf.holds("b", b"xy"));
    Ok(())
}

#[test]
fn a_failing_call_leaves_the_next_one_whole(rt: HostRuntime) -> Result<(), Fail> {
    try_in_memory(&rt, &[1, 3, 5, 7], Trial::FailingCalls)
}
