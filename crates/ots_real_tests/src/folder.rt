// What is done with the names of a folder.
ghost use Rattle.std.specs.Prelude.{◌≡◌, IsTrue};
ghost use Rattle.ots_io.specs.Cause.{Rose};
ghost use Rattle.ots_io.specs.Shelf.{OnlyWriting};

use ots_io::{CreateError, DirShelf, Failed, OpenError, Shelf, SlotSink, write_all};
use std::process::Abort;

/// What is done with the names of the current folder.
#[derive(Clone, Copy)]
pub enum Visit {
    /// One that holds `abcdef` is read, one that is not there, and the first again.
    Read(&'static str),
    /// One is created with the text `abcdef`, is not created again, and then read.
    Create(&'static str),
    /// Two are created, and written in turn.
    WriteInTurn(&'static str, &'static str),
    /// One is opened, and can't be read.
    OpenUnreadable(&'static str),
    /// One can't be created.
    FailToCreate(&'static str),
    /// One is opened by who may read it, and by anyone else it isn't, which is a fault.
    OpenOrFail(&'static str),
}

/// Opens a name, and reads it by two calls.
fn read_twice<S: Shelf>(
    shelf: &mut S,
    name: &str,
    buf: &mut [u8],
) -> Result<[Result<usize, Failed>; 2], OpenError> {
    let slot = shelf.open(name)?;
    let first = shelf.read(slot, buf);
    let second = shelf.read(slot, buf);
    shelf.close(slot);
    Ok([first, second])
}

/// Creates a name with this text.
fn write_named<S: Shelf>(shelf: &mut S, name: &str, text: &[u8]) -> Result<(), CreateError> {
    let slot = shelf.create(name)?;
    let written = write_all(&mut SlotSink::new(shelf, slot), text);
    shelf.close(slot);
    match written {
        Ok(()) => Ok(()),
        Err(Failed) => Err(CreateError::Failed),
    }
}

/// Whether a name is read as `abcdef` by two calls, each of at most four bytes.
fn gives_abcdef<S: Shelf>(shelf: &mut S, name: &str) -> bool {
    let mut buf = [0; 4];
    read_twice(shelf, name, &mut buf) == Ok([Ok(4), Ok(2)]) && buf == *b"efcd"
}

/// Whether a name is not there.
fn is_absent<S: Shelf>(shelf: &mut S, name: &str) -> bool {
    read_twice(shelf, name, &mut [0; 4]) == Err(OpenError::NotThere)
}

/// Creates two names, and writes to the one and the other in turn.
fn write_in_turn<S: Shelf>(
    shelf: &mut S,
    first: &str,
    second: &str,
) -> Result<[Result<usize, Failed>; 4], CreateError> {
    let first = shelf.create(first)?;
    let second = shelf.create(second)?;
    let answers = [
        shelf.write(first, b"ab"),
        shelf.write(second, b"xyz"),
        shelf.write(first, b""),
        shelf.write(first, b"cd"),
    ];
    shelf.close(first);
    shelf.close(second);
    Ok(answers)
}

/// Whether a name is opened and can't be read. That is a counted fault of reading, and none of writing.
fn opens_unreadable<S: Shelf>(shelf: &mut S, name: &str) -> bool
    ensures counted { IsTrue result → Rose (S.faults shelf.old).reading (S.faults shelf.new).reading }
    ensures writing { (S.faults shelf.new).writing ≡ (S.faults shelf.old).writing }
{
    let Ok(slot) = shelf.open(name) else {
        return false;
    };
    let failed = shelf.read(slot, &mut [0; 4]) == Err(Failed);
    shelf.close(slot);
    failed
}

/// Whether a name can't be created. That is a counted fault of writing alone.
fn fails_to_create<S: Shelf>(shelf: &mut S, name: &str) -> bool
    ensures counted { IsTrue result → Rose (S.faults shelf.old).writing (S.faults shelf.new).writing }
    ensures counts { OnlyWriting (S.faults shelf.old) (S.faults shelf.new) }
{
    match shelf.create(name) {
        Err(CreateError::Failed) => true,
        _ => false,
    }
}

/// Whether a name is opened, or not for a fault and never since it isn't there.
fn opens_or_fails<S: Shelf>(shelf: &mut S, name: &str) -> bool {
    match shelf.open(name) {
        Ok(slot) => {
            shelf.close(slot);
            true
        }
        Err(error) => error == OpenError::Failed,
    }
}

/// Reads a name, one that is not there, and the first again.
fn read<S: Shelf>(rt: &impl Abort, shelf: &mut S, name: &str) {
    assert!(rt; gives_abcdef(shelf, name));
    assert!(rt; is_absent(shelf, "ots_real_tests.absent"));
    assert!(rt; gives_abcdef(shelf, name));
}

/// Creates a name, and a second time, and reads it.
fn create<S: Shelf>(rt: &impl Abort, shelf: &mut S, name: &str) {
    assert!(rt; write_named(shelf, name, b"abcdef") == Ok(()));
    assert!(rt; write_named(shelf, name, b"uvwxyz") == Err(CreateError::Exists));
    assert!(rt; gives_abcdef(shelf, name));
}

/// Visits any folder.
fn visit_shelf<S: Shelf>(rt: &impl Abort, shelf: &mut S, visit: Visit) {
    match visit {
        Visit::Read(name) => read(rt, shelf, name),
        Visit::Create(name) => create(rt, shelf, name),
        Visit::WriteInTurn(first, second) => {
            let answers = write_in_turn(shelf, first, second);
            assert_eq!(rt; answers, Ok([Ok(2), Ok(3), Ok(0), Ok(2)]));
        }
        Visit::OpenUnreadable(name) => assert!(rt; opens_unreadable(shelf, name)),
        Visit::FailToCreate(name) => assert!(rt; fails_to_create(shelf, name)),
        Visit::OpenOrFail(name) => assert!(rt; opens_or_fails(shelf, name)),
    }
}

/// Visits the current folder.
pub fn visit_folder(rt: &impl Abort, host: HostRuntime, visit: Visit) {
    visit_shelf(rt, &mut DirShelf::new(&host, host.alloc()), visit);
}
