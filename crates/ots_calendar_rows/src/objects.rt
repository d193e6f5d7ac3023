// The objects in memory that a run is done on.
ghost use Rattle.std.specs.Prelude.{◌≡◌, Some, All, IfOk, []};
ghost use Rattle.ots_memory.specs.ListAccepterTold.{returned_of};
ghost use Rattle.ots_outside.specs.Link.{IsFresh};

use crate::on::{Coming, On};
use ots_disk::{DiskRoom, MemoryDisk};
use ots_file::{FileDisk, MemoryFile};
use ots_io::{
    BytesLink, BytesSink, FixedClock, ListAccepter, ListNonces, MapShelf, OutOfMemory, ShelfRoom,
};
use std::alloc::Global;
use std::collections::VecDeque;

const DISK_ROOM: DiskRoom = DiskRoom {
    calls: 200,
    write: 8000,
    file: 40000,
};

/// How many bytes a link takes, and a name has, at most.
const LINK_ROOM: usize = 16_384;

const NAME_LENGTH: usize = 16;

/// How many bytes a call of a file reads or writes at most.
const AT_A_TIME: usize = 7;

/// What a run is done on beside the disk.
#[derive(Drop)]
pub struct Objects {
    pub shelf: MapShelf,
    pub out: BytesSink,
    pub accepter: ListAccepter<BytesLink>,
    pub clock: FixedClock,
    pub nonces: ListNonces,
}

/// All that a run is done on beside the disk.
pub fn objects_of(alloc: Global, on: &On) -> Result<Objects, OutOfMemory>
    ensures { IfOk result (λ objects. returned_of objects.accepter ≡ Some []) }
{
    let accepter = accepter_of(alloc, on)?;
    Ok(Objects {
        shelf: shelf_of(alloc, on)?,
        out: sink_of(alloc, on)?,
        accepter,
        clock: FixedClock { second: on.second },
        nonces: nonces_of(alloc, on)?,
    })
}

/// The journal in memory.
pub fn memory_disk(alloc: Global, on: &On) -> Result<MemoryDisk, OutOfMemory> {
    MemoryDisk::new(alloc, &on.journal, DISK_ROOM, &on.faults.disk)
}

/// The journal on a device under a file.
pub fn file_disk(alloc: Global, on: &On) -> Result<FileDisk<MemoryFile>, OutOfMemory> {
    let file = MemoryFile::new(alloc, &on.journal, &on.faults.disk, AT_A_TIME)?;
    Ok(FileDisk::new(file))
}

/// The shelf with the files.
fn shelf_of(alloc: Global, on: &On) -> Result<MapShelf, OutOfMemory> {
    let room = ShelfRoom {
        names: on.files.len(),
        name_length: NAME_LENGTH,
        bytes: longest(on),
        slots: 2,
    };
    let mut shelf = MapShelf::new(alloc, room, &on.faults.shelf)?;
    for (name, bytes) in &on.files {
        if shelf.put(name.as_str(), bytes.as_slice()).is_err() {
            return Err(OutOfMemory);
        }
    }
    Ok(shelf)
}

/// How many bytes the longest file has.
fn longest(on: &On) -> usize {
    let mut most = 0usize;
    for bytes in on.files.values() {
        most = most.max(bytes.len());
    }
    most
}

/// The sink.
fn sink_of(alloc: Global, on: &On) -> Result<BytesSink, OutOfMemory> {
    BytesSink::new(alloc, on.room, &on.faults.sink)
}

/// The nonces.
fn nonces_of(alloc: Global, on: &On) -> Result<ListNonces, OutOfMemory> {
    ListNonces::new(alloc, &on.nonces, &on.faults.nonces)
}

/// Where the links come in.
fn accepter_of(alloc: Global, on: &On) -> Result<ListAccepter<BytesLink>, OutOfMemory>
    ensures { IfOk result (λ accepter. returned_of accepter ≡ Some []) }
{
    let links = links_of(alloc, &on.links)?;
    ListAccepter::new(alloc, links, &on.faults.accepter)
}

/// The links, of which none was read or written yet.
fn links_of(alloc: Global, coming: &[Coming]) -> Result<VecDeque<BytesLink>, OutOfMemory>
    ensures { IfOk result (λ links. All (λ link. IsFresh (Some link.link) link.faults) links.items) }
{
    let mut links = VecDeque::new(alloc);
    for link in coming {
        links.push_back(new_link(alloc, link)?)?;
    }
    Ok(links)
}

/// A link with these bytes.
fn new_link(alloc: Global, link: &Coming) -> Result<BytesLink, OutOfMemory>
    ensures { IfOk result (λ link. IsFresh (Some link.link) link.faults) }
{
    BytesLink::new(alloc, &link.bytes, &[], LINK_ROOM, &link.failing)
}
