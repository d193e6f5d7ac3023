//! A link that is written while another connection's digest is stored.
ghost use Rattle.std.specs.Prelude.{◌≡◌, [], Some, true, IfOk};
ghost use Rattle.ots_outside.specs.Link.{IsFresh};

use crate::books::new_disk;
use crate::service::connections::REQUEST;
use crate::serving::runs::serve_drawing;
use ots_disk::Disk;
use ots_io::{Accepter, BytesLink, ListAccepter, OutOfMemory};
use ots_outside::{Failed, Link};
use ots_workers::ServeEnd;
use std::alloc::Global;
use std::collections::VecDeque;
use std::sync::atomic::{AtomicBool, Ordering};
use std::sync::{Arc, Wait};
use std::test::Fail;
use std::thread;
use std::thread::Threads;

/// Something that has happened.
type Event = Arc<AtomicBool, Global>;

/// How often a caller looks whether something has happened, with the other threads in between: so often that it is sure
/// to see what can happen.
const TURNS: u64 = 5_000_000;

/// What a link awaits.
#[derive(Clone, Copy, PartialEq, Eq)]
enum Part {
    /// Its first write says that a reply is being written, and waits until a digest is stored.
    Asks,
    /// Its first read waits until a reply is being written.
    HandsIn,
}

/// A link in memory that waits for another one.
#[derive(Drop)]
struct StagedLink {
    link: BytesLink,
    part: Part,
    writing: Event,
    stored: Event,
    waited: bool,
    /// What it waited for has happened.
    met: bool,
}

impl Link for StagedLink {
    ghost use Rattle.std.specs.Prelude.{Some};

    ghost told = { λ s. Some s.link.link };

    ghost faults = { λ s. s.link.faults };

    ghost same = { λ s t. Unit {0} };

    ghost same_refl = { λ s. tt };

    ghost same_trans = { λ s t u first second. tt };

    fn read(&mut self, buf: &mut [u8]) -> Result<usize, Failed> {
        if self.part == Part::HandsIn && !self.waited {
            self.waited = true;
            self.met = has_happened(&self.writing);
        }
        self.link.read(buf)
    }

    fn write(&mut self, piece: &[u8]) -> Result<usize, Failed> {
        if self.part == Part::Asks && !self.waited {
            self.waited = true;
            self.writing.store(true, Ordering::SeqCst);
            self.met = has_happened(&self.stored);
        }
        self.link.write(piece)
    }

    fn finish(&mut self) {
        self.link.finish();
    }
}

/// Whether it happened before the turns were over.
fn has_happened(event: &Event) -> bool {
    for _ in 0..TURNS {
        if event.load(Ordering::SeqCst) {
            return true;
        }
        thread::yield_now();
    }
    false
}

/// A disk that says that a digest is stored: it is synced while a reply is being written.
#[derive(Drop)]
struct StagedDisk<D: Disk> {
    disk: D,
    writing: Event,
    stored: Event,
}

impl<D: Disk> Disk for StagedDisk<D> {
    ghost bytes = { λ d. D.bytes d.disk };

    ghost images = { λ d. D.images d.disk };

    ghost clock = { λ d. D.clock d.disk };

    ghost images_since = { λ d. D.images_since d.disk };

    ghost faults = { λ d. D.faults d.disk };

    ghost read_is_image = { λ d. D.read_is_image d.disk };

    ghost counts_now = { λ d. D.counts_now d.disk };

    ghost only_now = { λ d. D.only_now d.disk };

    fn faults(&self) -> u64 {
        self.disk.faults()
    }

    fn len(&mut self) -> Result<u64, Failed> {
        self.disk.len()
    }

    fn read_at(&mut self, place: u64, buf: &mut [u8]) -> Result<usize, Failed> {
        self.disk.read_at(place, buf)
    }

    fn write_at(&mut self, place: u64, piece: &[u8]) -> Result<(), Failed> {
        self.disk.write_at(place, piece)
    }

    fn sync(&mut self) -> Result<(), Failed> {
        let answer = self.disk.sync();
        if self.writing.load(Ordering::SeqCst) {
            self.stored.store(true, Ordering::SeqCst);
        }
        answer
    }
}

/// A link with this request and this part.
fn link(
    alloc: Global,
    request: &[u8],
    part: Part,
    writing: &Event,
    stored: &Event,
) -> Result<StagedLink, OutOfMemory>
    ensures { IfOk result (λ link. IsFresh (Some link.link.link) link.link.faults) }
{
    Ok(StagedLink {
        link: BytesLink::new(alloc, request, &[], 2000, &[])?,
        part,
        writing: Arc::try_clone(writing)?,
        stored: Arc::try_clone(stored)?,
        waited: false,
        met: false,
    })
}

/// One that asks for an unknown commitment, and one that hands in a digest.
fn new_accepter(
    alloc: Global,
    writing: &Event,
    stored: &Event,
) -> Result<ListAccepter<StagedLink>, Fail>
    ensures { IfOk result (λ accepter. (accepter.kept ≡ []) × (accepter.tells ≡ true)) }
{
    let question = b"GET /timestamp/00 HTTP/1.1\r\n\r\n";
    let mut links = VecDeque::new(alloc);
    links.push_back(link(alloc, question, Part::Asks, writing, stored)?)?;
    links.push_back(link(alloc, REQUEST, Part::HandsIn, writing, stored)?)?;
    Ok(ListAccepter::new(alloc, links, &[])?)
}

/// What is left: how it ended, how many links met what they waited for, and how many took a reply of status 200 and of
/// 404.
#[derive(Clone, Copy)]
pub struct Met {
    pub ending: ServeEnd,
    pub met: usize,
    pub stamped: usize,
    pub unknown: usize,
}

/// What the links that were given back say.
fn looked_at(ending: ServeEnd, links: &[StagedLink]) -> Met {
    let mut left = Met {
        ending,
        met: 0,
        stamped: 0,
        unknown: 0,
    };
    for link in links {
        let taken = link.link.taken();
        left.met = left.met.saturating_add(usize::from(link.met));
        let is_stamped = taken.starts_with(b"HTTP/1.1 200 OK\r\n");
        left.stamped = left.stamped.saturating_add(usize::from(is_stamped));
        let is_unknown = taken.starts_with(b"HTTP/1.1 404 Not Found\r\n");
        left.unknown = left.unknown.saturating_add(usize::from(is_unknown));
    }
    left
}

/// Serves a question with one of two workers, whose reply is not taken before the other has stored a digest, which is
/// not handed in before the reply is being written.
pub fn write_while_storing<R: Threads + Wait + Sync>(rt: &R, alloc: Global) -> Result<Met, Fail> {
    let writing = Arc::new(alloc, AtomicBool::new(false))?;
    let stored = Arc::new(alloc, AtomicBool::new(false))?;
    let accepter = new_accepter(alloc, &writing, &stored)?;
    let disk = StagedDisk {
        disk: new_disk(alloc)?,
        writing,
        stored,
    };
    let over = serve_drawing(rt, alloc, accepter, disk, 2)?;
    Ok(looked_at(over.ending, over.accepter.returned()))
}
