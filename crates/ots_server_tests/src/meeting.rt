//! Links that wait for one another.
ghost use Rattle.std.specs.Prelude.{◌≡◌, [], All, Some, true, IfOk};
ghost use Rattle.ots_outside.specs.Link.{IsFresh};

use ots_io::{Accepter, BytesLink, Failed, Link, ListAccepter, OutOfMemory};
use std::alloc::Global;
use std::collections::VecDeque;
use std::sync::Arc;
use std::sync::atomic::{AtomicU64, Ordering};
use std::test::Fail;
use std::thread;

/// How many links were read.
type Reads = Arc<AtomicU64, Global>;

/// How often a link looks whether others were read, with the other threads in between: so often that it is sure to see
/// those that are read at once.
const TURNS: u64 = 5_000_000;

/// A link in memory whose first read waits until so many links were read, itself among them.
#[derive(Drop)]
pub struct MeetingLink {
    link: BytesLink,
    reads: Reads,
    awaited: u64,
    is_read: bool,
    /// As many were read before its turns were over.
    met: bool,
}

impl Link for MeetingLink {
    ghost use Rattle.std.specs.Prelude.{Some};

    ghost told = { λ s. Some s.link.link };

    ghost faults = { λ s. s.link.faults };

    ghost same = { λ s t. Unit {0} };

    ghost same_refl = { λ s. tt };

    ghost same_trans = { λ s t u first second. tt };

    fn read(&mut self, buf: &mut [u8]) -> Result<usize, Failed> {
        if !self.is_read {
            self.is_read = true;
            self.reads.fetch_add(1, Ordering::SeqCst);
            self.met = have_met(&self.reads, self.awaited);
        }
        self.link.read(buf)
    }

    fn write(&mut self, piece: &[u8]) -> Result<usize, Failed> {
        self.link.write(piece)
    }

    fn finish(&mut self) {
        self.link.finish();
    }
}

/// Whether so many links were read before the turns were over.
fn have_met(reads: &Reads, awaited: u64) -> bool {
    for _ in 0..TURNS {
        if reads.load(Ordering::SeqCst) >= awaited {
            return true;
        }
        thread::yield_now();
    }
    false
}

/// A link that asks for an unknown commitment, and waits for so many reads.
fn link(alloc: Global, reads: &Reads, awaited: u64) -> Result<MeetingLink, OutOfMemory>
    ensures { IfOk result (λ link. IsFresh (Some link.link.link) link.link.faults) }
{
    let question = b"GET /timestamp/00 HTTP/1.1\r\n\r\n";
    Ok(MeetingLink {
        link: BytesLink::new(alloc, question, &[], 200, &[])?,
        reads: Arc::try_clone(reads)?,
        awaited,
        is_read: false,
        met: false,
    })
}

/// So many links that wait until all of them and so many before were read, after those that are there.
fn add_links(
    alloc: Global,
    reads: &Reads,
    count: u32,
    before: u32,
    links: VecDeque<MeetingLink>,
) -> Result<VecDeque<MeetingLink>, OutOfMemory>
    requires { All (λ link. IsFresh (Some link.link.link) link.link.faults) links.items }
    ensures { IfOk result (λ links. All (λ link. IsFresh (Some link.link.link) link.link.faults) links.items) }
{
    let awaited = u64::from(count) + u64::from(before);
    let mut links = links;
    for _ in 0..count {
        links.push_back(link(alloc, reads, awaited)?)?;
    }
    Ok(links)
}

/// Two groups of so many links each: a link is answered once all of its group were read.
pub fn two_groups(alloc: Global, count: u32) -> Result<ListAccepter<MeetingLink>, Fail>
    ensures { IfOk result (λ accepter. (accepter.kept ≡ []) × (accepter.tells ≡ true)) }
{
    let reads = Arc::new(alloc, AtomicU64::new(0))?;
    let links = add_links(alloc, &reads, count, 0, VecDeque::new(alloc))?;
    let links = add_links(alloc, &reads, count, count, links)?;
    Ok(ListAccepter::new(alloc, links, &[])?)
}

/// How many links of those that were given back met all of their group, and were told that what they asked for is not
/// found.
pub fn count_met(accepter: &ListAccepter<MeetingLink>) -> usize {
    let mut count = 0usize;
    for link in accepter.returned() {
        if link.met && link.link.taken().starts_with(b"HTTP/1.1 404 Not Found\r\n") {
            count = count.saturating_add(1);
        }
    }
    count
}
