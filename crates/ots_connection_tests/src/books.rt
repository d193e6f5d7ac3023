//! New books on any disk, and the calendar that serves them.
ghost use Rattle.std.specs.Prelude.{◌≡◌, true, IfOk};

use ots_attest::Uri;
use ots_calendar::{Book, Key};
use ots_connection::Service;
use ots_disk::{Disk, DiskRoom, MemoryDisk};
use ots_journal::Journal;
use ots_store::Store;
use std::alloc::Global;
use std::test::Fail;

/// A limit of a journal that no test reaches.
pub const AMPLE: u64 = 8000;

/// A commitment takes 56 bytes and four calls of the disk.
const ROOM: DiskRoom = DiskRoom {
    calls: 600,
    write: 64,
    file: 8000,
};

/// The disk of an empty file in memory.
pub fn new_disk(alloc: Global) -> Result<MemoryDisk, Fail> {
    Ok(MemoryDisk::new(alloc, &[], ROOM, &[])?)
}

/// The journal on a disk, with this limit.
fn journal_on<D: Disk + Drop>(alloc: Global, disk: D, limit: u64) -> Result<Journal<D>, Fail>
    ensures { IfOk result (λ j. j.is_sure ≡ true) }
{
    // The magic and a gate, and the room of the disk.
    if limit < 9 || limit > AMPLE {
        return Err(Fail::from("no such limit"));
    }
    match Journal::open(alloc, disk, limit) {
        Ok(journal) => Ok(journal),
        Err(_) => Err(Fail::from("no journal")),
    }
}

/// Its store.
fn store_on<D: Disk + Drop>(alloc: Global, disk: D, limit: u64) -> Result<Store<D>, Fail>
    ensures { IfOk result (λ s. s.journal.is_sure ≡ true) }
{
    match Store::open(alloc, journal_on(alloc, disk, limit)?) {
        Ok(store) => Ok(store),
        Err(_) => Err(Fail::from("no store")),
    }
}

/// The book on a disk, whose journal has this limit.
pub fn book_on<D: Disk + Drop>(alloc: Global, disk: D, limit: u64) -> Result<Book<D>, Fail> {
    match Book::open(alloc, store_on(alloc, disk, limit)?) {
        Ok(book) => Ok(book),
        Err(_) => Err(Fail::from("no book")),
    }
}

/// A calendar, with the key of 32 bytes 1.
pub fn service(alloc: Global) -> Result<Service, Fail> {
    Ok(Service {
        key: Key::new(&[1; 32])?,
        uri: Uri::new(alloc, "http://127.0.0.1:14788")?,
    })
}
