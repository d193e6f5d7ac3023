// A run of the calendar over a journal in memory.
ghost use Rattle.std.specs.Prelude.{◌≡◌, []};
ghost use Rattle.ots_base.specs.Told.{IfTold};

use ots_disk::{Disk, DiskRoom, MemoryDisk};
use ots_io::{
    Accepter, BytesSink, Clock, FixedClock, ListNonces, MapShelf, Nonces, Shelf, ShelfRoom, Sink,
};
use ots_server::run_calendar;
use std::alloc::Global;
use std::sync::Wait;
use std::test::Fail;
use std::thread::Threads;

const ROOM: DiskRoom = DiskRoom {
    calls: 200,
    write: 8000,
    file: 40000,
};

/// How a run ended, what it printed, what the journal holds then, and where its connections came in.
#[derive(Drop)]
pub struct Ended<A> {
    pub status: u8,
    pub text: Vec<u8>,
    pub journal: Vec<u8>,
    pub accepter: A,
}

/// The shelf with the key, 64 times the letter k, under the name `k`.
fn new_shelf(alloc: Global) -> Result<MapShelf, Fail> {
    let room = ShelfRoom {
        names: 1,
        name_length: 1,
        bytes: 64,
        slots: 1,
    };
    let mut shelf = MapShelf::new(alloc, room, &[])?;
    shelf.put("k", &[b'k'; 64])?;
    Ok(shelf)
}

/// The words, owned.
fn words_of(alloc: Global, words: &[&str]) -> Result<Vec<String>, Fail> {
    let mut owned = Vec::new(alloc);
    for word in words {
        owned.push(word.to_string(alloc)?)?;
    }
    Ok(owned)
}

/// A run on any objects: the number of its status, the disk, and the accepter.
#[expect(clippy::too_many_arguments)]
fn run_over<
    D: Disk + Send,
    S: Shelf,
    K: Sink,
    A: Accepter + Send + Drop,
    C: Clock + Drop + Send,
    N: Nonces + Send + Drop,
    R: Threads + Wait + Sync,
>(
    rt: &R,
    alloc: Global,
    words: &[String],
    disk: D,
    shelf: &mut S,
    out: &mut K,
    accepter: A,
    clock: C,
    nonces: N,
) -> (u8, D, A)
    requires { IfTold (A.returned accepter) (λ links. links ≡ []) }
{
    let (status, returned) = run_calendar(
        rt, alloc, words, disk, shelf, out, accepter, clock, nonces,
    );
    (status.number(), returned.disk, returned.accepter)
}

/// The same on an empty journal, with these objects: each that is in memory is made in a function of its own,
/// so that no function is proved with the clauses of two of them at hand.
fn serve_on<
    D: Disk + Send + Drop,
    S: Shelf,
    A: Accepter + Send + Drop,
    N: Nonces + Send + Drop,
    R: AllocGlobal + Threads + Wait + Sync,
>(
    rt: &R,
    words: &[String],
    disk: D,
    shelf: &mut S,
    accepter: A,
    nonces: N,
) -> Result<(u8, Vec<u8>, D, A), Fail>
    requires { IfTold (A.returned accepter) (λ links. links ≡ []) }
{
    let alloc = rt.alloc();
    let mut out = BytesSink::new(alloc, 1000, &[])?;
    let clock = FixedClock {
        second: 1_700_000_000,
    };
    let (status, disk, accepter) = run_over(
        rt, alloc, words, disk, shelf, &mut out, accepter, clock, nonces,
    );
    Ok((status, out.bytes().to_vec(alloc)?, disk, accepter))
}

/// The same on a disk in memory.
fn serve_in_memory<
    S: Shelf,
    A: Accepter + Send + Drop,
    N: Nonces + Send + Drop,
    R: AllocGlobal + Threads + Wait + Sync,
>(rt: &R, words: &[String], shelf: &mut S, accepter: A, nonces: N) -> Result<Ended<A>, Fail>
    requires { IfTold (A.returned accepter) (λ links. links ≡ []) }
{
    let disk = MemoryDisk::new(rt.alloc(), &[], ROOM, &[])?;
    let (status, text, disk, accepter) = serve_on(rt, words, disk, shelf, accepter, nonces)?;
    Ok(Ended {
        status,
        text,
        journal: disk.bytes().to_vec(rt.alloc())?,
        accepter,
    })
}

/// The same with the nonce of the bytes 64 to 79.
fn serve_drawing<S: Shelf, A: Accepter + Send + Drop, R: AllocGlobal + Threads + Wait + Sync>(
    rt: &R,
    words: &[String],
    shelf: &mut S,
    accepter: A,
) -> Result<Ended<A>, Fail>
    requires { IfTold (A.returned accepter) (λ links. links ≡ []) }
{
    let nonces = ListNonces::new(rt.alloc(), b"@ABCDEFGHIJKLMNO", &[])?;
    serve_in_memory(rt, words, shelf, accepter, nonces)
}

/// A run on an empty journal, whose connections come in here, at second 1700000000. The nonces are the bytes 64 to 79.
pub fn serve<A: Accepter + Send + Drop, R: AllocGlobal + Threads + Wait + Sync>(
    rt: &R,
    words: &[&str],
    accepter: A,
) -> Result<Ended<A>, Fail>
    requires { IfTold (A.returned accepter) (λ links. links ≡ []) }
{
    let words = words_of(rt.alloc(), words)?;
    let mut shelf = new_shelf(rt.alloc())?;
    serve_drawing(rt, &words, &mut shelf, accepter)
}
