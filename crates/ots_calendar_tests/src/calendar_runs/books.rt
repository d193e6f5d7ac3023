// Books on any disk, and disks in memory.
ghost use Rattle.std.specs.Prelude.{◌≡◌, true, IfOk};

use hex::decode;
use ots_attest::Uri;
use ots_block::Block;
use ots_calendar::{Book, Key};
use ots_disk::{Disk, DiskRoom, MemoryDisk};
use ots_journal::Journal;
use ots_store::Store;
use std::alloc::Global;
use std::test::Fail;

/// A commitment takes 56 bytes, a tip 60, an anchor in these blocks at most 300, and each four calls
/// of the disk.
const ROOM: DiskRoom = DiskRoom {
    calls: 200,
    write: 300,
    file: 4000,
};

/// The bytes that these digits write.
pub fn bytes_of(alloc: Global, digits: &str) -> Result<Vec<u8>, Fail> {
    Ok(decode(alloc, digits)?)
}

/// Whether these digits write the bytes.
pub fn is_written(alloc: Global, bytes: &[u8], digits: &str) -> Result<bool, Fail> {
    Ok(bytes_of(alloc, digits)?.as_slice() == bytes)
}

/// The calendar's key.
pub fn key() -> Result<Key, Fail> {
    Ok(Key::new(b"Jefe")?)
}

/// The calendar's URI.
pub fn uri(alloc: Global) -> Result<Uri, Fail> {
    Ok(Uri::new(alloc, "http://127.0.0.1:14788")?)
}

/// The block of these bytes, in hexadecimal.
pub fn block_of(alloc: Global, digits: &str) -> Result<Block, Fail> {
    Ok(Block::read(alloc, &bytes_of(alloc, digits)?)?)
}

/// A disk with these bytes, of which these calls fail.
pub fn disk_of(alloc: Global, bytes: &[u8], failing: &[u64]) -> Result<MemoryDisk, Fail> {
    Ok(MemoryDisk::new(alloc, bytes, ROOM, failing)?)
}

/// The disk of a book with no record, of which these calls fail. To open it takes four calls.
pub fn new_disk(alloc: Global, failing: &[u64]) -> Result<MemoryDisk, Fail> {
    disk_of(alloc, &[], failing)
}

/// The journal on a disk.
fn journal_on<D: Disk + Drop>(alloc: Global, disk: D) -> Result<Journal<D>, Fail>
    ensures { IfOk result (λ j. j.is_sure ≡ true) }
{
    match Journal::open(alloc, disk, 4000) {
        Ok(journal) => Ok(journal),
        Err(_) => Err(Fail::from("no journal")),
    }
}

/// Its store.
fn store_on<D: Disk + Drop>(alloc: Global, disk: D) -> Result<Store<D>, Fail>
    ensures { IfOk result (λ s. s.journal.is_sure ≡ true) }
{
    match Store::open(alloc, journal_on(alloc, disk)?) {
        Ok(store) => Ok(store),
        Err(_) => Err(Fail::from("no store")),
    }
}

/// The book on a disk.
pub fn book_on<D: Disk + Drop>(alloc: Global, disk: D) -> Result<Book<D>, Fail> {
    match Book::open(alloc, store_on(alloc, disk)?) {
        Ok(book) => Ok(book),
        Err(_) => Err(Fail::from("no book")),
    }
}

/// The disk of a book that came to its end.
pub fn handed_back<D: Disk + Drop>(ended: Result<(), Fail>, book: Book<D>) -> Result<D, Fail> {
    let disk = book.into_disk();
    ended?;
    Ok(disk)
}
