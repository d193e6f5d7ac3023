// A run of the calendar, and what is left of it.
use crate::call::call;
use crate::objects::{Objects, file_disk, memory_disk, objects_of};
use crate::on::{On, Place};
use ots_disk::{Disk, MemoryDisk};
use ots_file::{FileDisk, MemoryFile};
use ots_io::{Accepter, BytesLink, BytesSink, ListAccepter, OutOfMemory};
use std::alloc::Global;
use std::sync::Wait;
use std::thread::Threads;

/// What a run did with its links.
#[derive(Drop)]
pub struct Links {
    pub accepted: u64,
    pub coming: usize,
    /// What each link has taken that was given back, in order.
    pub replies: Vec<Vec<u8>>,
}

/// How a run ended: its status, what it printed, and its links.
#[derive(Drop)]
pub struct Ended {
    pub status: u8,
    pub text: Vec<u8>,
    pub links: Links,
}

/// What is known of the disk when a run has ended.
#[derive(Clone, Copy)]
pub enum Known {
    /// It was called.
    Called,
    /// It was not called.
    NotCalled,
    /// What its device holds.
    Device,
}

/// What a run left of the journal.
#[derive(Drop)]
pub struct Left {
    pub known: Known,
    pub bytes: Vec<u8>,
}

/// A run of these words on that.
pub fn run_on<R: AllocGlobal + Threads + Wait + Sync>(
    rt: &R,
    words: &[String],
    on: &On,
) -> Result<(Ended, Left), OutOfMemory> {
    let alloc = rt.alloc();
    match on.place {
        Place::Memory => {
            let (ended, disk) = run_over(rt, alloc, words, on, memory_disk(alloc, on)?)?;
            Ok((ended, left_in_memory(alloc, &disk)?))
        }
        Place::File => {
            let (ended, disk) = run_over(rt, alloc, words, on, file_disk(alloc, on)?)?;
            Ok((ended, left_on_device(alloc, &disk)?))
        }
    }
}

/// A run over any disk.
fn run_over<D: Disk + Send + Drop, R: Threads + Wait + Sync>(
    rt: &R,
    alloc: Global,
    words: &[String],
    on: &On,
    disk: D,
) -> Result<(Ended, D), OutOfMemory> {
    let Objects {
        mut shelf,
        mut out,
        accepter,
        clock,
        nonces,
    } = objects_of(alloc, on)?;
    let (status, returned) = call(
        rt, alloc, words, disk, &mut shelf, &mut out, accepter, clock, nonces,
    );
    let ended = ended_of(alloc, status.number(), &out, &returned.accepter)?;
    Ok((ended, returned.disk))
}

/// What a run left of its sink and its accepter.
fn ended_of(
    alloc: Global,
    status: u8,
    out: &BytesSink,
    accepter: &ListAccepter<BytesLink>,
) -> Result<Ended, OutOfMemory> {
    Ok(Ended {
        status,
        text: out.bytes().to_vec(alloc)?,
        links: what_links_took(alloc, accepter)?,
    })
}

/// What was done with the links.
fn what_links_took(
    alloc: Global,
    accepter: &ListAccepter<BytesLink>,
) -> Result<Links, OutOfMemory> {
    let mut replies = Vec::new(alloc);
    for link in accepter.returned() {
        replies.push(link.taken().to_vec(alloc)?)?;
    }
    Ok(Links {
        accepted: accepter.accepted(),
        coming: accepter.coming(),
        replies,
    })
}

/// What is left of a journal in memory.
fn left_in_memory(alloc: Global, disk: &MemoryDisk) -> Result<Left, OutOfMemory> {
    let known = if disk.calls().is_empty() {
        Known::NotCalled
    } else {
        Known::Called
    };
    Ok(Left {
        known,
        bytes: disk.bytes().to_vec(alloc)?,
    })
}

/// What is left of a journal over a file.
fn left_on_device(alloc: Global, disk: &FileDisk<MemoryFile>) -> Result<Left, OutOfMemory> {
    Ok(Left {
        known: Known::Device,
        bytes: disk.file().device().to_vec(alloc)?,
    })
}
