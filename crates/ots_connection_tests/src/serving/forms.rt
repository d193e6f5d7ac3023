//! A link whose first read is counted, and a disk whose sync waits for two of them.
ghost use Rattle.std.specs.Prelude.{◌∷◌, [], All, Some, IfOk};
ghost use Rattle.ots_outside.specs.Link.{IsFresh};

use ots_disk::Disk;
use ots_io::{BytesLink, OutOfMemory};
use ots_outside::{Failed, Link};
use std::alloc::Global;
use std::collections::VecDeque;
use std::sync::Arc;
use std::sync::atomic::{AtomicU64, Ordering};
use std::thread;

/// How many links were read.
pub type Reads = Arc<AtomicU64, Global>;

/// A link in memory, which is counted once it is read.
#[derive(Drop)]
pub struct CountedLink {
    pub link: BytesLink,
    pub reads: Reads,
    pub is_read: bool,
}

impl Link for CountedLink {
    ghost use Rattle.std.specs.Prelude.{Some};

    ghost told = { λ s. Some s.link.link };

    ghost faults = { λ s. s.link.faults };

    ghost same = { λ s t. Unit {0} };

    ghost same_refl = { λ s. tt };

    ghost same_trans = { λ s t u first second. tt };

    fn read(&mut self, buf: &mut [u8]) -> Result<usize, Failed> {
        let answer = self.link.read(buf);
        if !self.is_read {
            self.reads.fetch_add(1, Ordering::SeqCst);
            self.is_read = true;
        }
        answer
    }

    fn write(&mut self, piece: &[u8]) -> Result<usize, Failed> {
        self.link.write(piece)
    }

    fn finish(&mut self) {
        self.link.finish();
    }
}

/// A disk whose syncs wait, once a link was read, until two were, or for so many turns.
#[derive(Drop)]
pub struct WaitingDisk<D: Disk> {
    pub disk: D,
    pub reads: Reads,
    pub turns: u64,
    /// A sync that waited found two links read.
    pub met: bool,
}

impl<D: Disk> Disk for WaitingDisk<D> {
    ghost bytes = { λ d. D.bytes d.disk };

    ghost images = { λ d. D.images d.disk };

    ghost clock = { λ d. D.clock d.disk };

    ghost images_since = { λ d. D.images_since d.disk };

    ghost faults = { λ d. D.faults d.disk };

    ghost read_is_image = { λ d. D.read_is_image d.disk };

    ghost counts_now = { λ d. D.counts_now d.disk };

    ghost only_now = { λ d. D.only_now d.disk };

    fn faults(&self) -> u64 {
        self.disk.faults()
    }

    fn len(&mut self) -> Result<u64, Failed> {
        self.disk.len()
    }

    fn read_at(&mut self, place: u64, buf: &mut [u8]) -> Result<usize, Failed> {
        self.disk.read_at(place, buf)
    }

    fn write_at(&mut self, place: u64, piece: &[u8]) -> Result<(), Failed> {
        self.disk.write_at(place, piece)
    }

    fn sync(&mut self) -> Result<(), Failed> {
        if 0 < self.reads.load(Ordering::SeqCst) && waited(&self.reads, self.turns) {
            self.met = true;
        }
        self.disk.sync()
    }
}

/// Whether two links were read before so many turns had passed.
fn waited(reads: &Reads, turns: u64) -> bool {
    for _ in 0..turns {
        if 2 <= reads.load(Ordering::SeqCst) {
            return true;
        }
        thread::yield_now();
    }
    false
}

/// A link with this request.
fn link(alloc: Global, reads: &Reads, request: &[u8]) -> Result<CountedLink, OutOfMemory>
    ensures { IfOk result (λ link. IsFresh (Some link.link.link) link.link.faults) }
{
    Ok(CountedLink {
        link: BytesLink::new(alloc, request, &[], 2000, &[])?,
        reads: Arc::try_clone(reads)?,
        is_read: false,
    })
}

/// So many links with this request, after those that are there.
pub fn add_links(
    alloc: Global,
    reads: &Reads,
    request: &[u8],
    count: u32,
    links: VecDeque<CountedLink>,
) -> Result<VecDeque<CountedLink>, OutOfMemory>
    requires { All (λ link. IsFresh (Some link.link.link) link.link.faults) links.items }
    ensures { IfOk result (λ links. All (λ link. IsFresh (Some link.link.link) link.link.faults) links.items) }
{
    let mut links = links;
    for _ in 0..count {
        links.push_back(link(alloc, reads, request)?)?;
    }
    Ok(links)
}
