//! Connections that end in each way, over a link that notes when it is finished.

use crate::service::connections::{close, serve_link, share};
use ots_calendar::Book;
use ots_connection::{Served, Service};
use ots_disk::Disk;
use ots_io::BytesLink;
use ots_outside::{Failed, Link};
use std::alloc::{AllocError, Global};
use std::sync::Wait;

/// A link in memory that notes how often it was finished, and how many bytes it had taken by then.
#[derive(Drop)]
struct NotingLink {
    link: BytesLink,
    finishes: u32,
    taken: usize,
}

impl Link for NotingLink {
    ghost use Rattle.std.specs.Prelude.{Some};

    ghost told = { λ s. Some s.link.link };

    ghost faults = { λ s. s.link.faults };

    ghost same = { λ s t. Unit {0} };

    ghost same_refl = { λ s. tt };

    ghost same_trans = { λ s t u first second. tt };

    fn read(&mut self, buf: &mut [u8]) -> Result<usize, Failed> {
        self.link.read(buf)
    }

    fn write(&mut self, piece: &[u8]) -> Result<usize, Failed> {
        self.link.write(piece)
    }

    fn finish(&mut self) {
        self.finishes = self.finishes.saturating_add(1);
        self.taken = self.link.taken().len();
        self.link.finish();
    }
}

/// How a connection ended, and how often its link was finished; and how many bytes the link had taken when it was
/// finished last, and has taken now.
#[derive(Drop)]
pub struct Noted {
    pub served: Served,
    pub finishes: u32,
    pub taken_then: usize,
    pub taken: usize,
}

/// Serves one connection over a book that has no other caller.
fn serve_shared<L: Link, D: Disk + Drop, R: Wait>(
    rt: &R,
    alloc: Global,
    book: Book<D>,
    service: &Service,
    link: &mut L,
) -> Result<Served, AllocError> {
    let (shared, mut pass) = share(alloc, book, 1)?;
    let served = serve_link(rt, alloc, &shared, &mut pass, service, link);
    close(shared, pass);
    Ok(served)
}

/// Serves one connection with this request over a book. The calls of its link with these numbers fail.
pub fn serve_noting<D: Disk + Drop, R: Wait>(
    rt: &R,
    alloc: Global,
    book: Book<D>,
    service: &Service,
    request: &[u8],
    failing: &[u64],
) -> Result<Noted, AllocError> {
    let Ok(link) = BytesLink::new(alloc, request, &[], 2000, failing) else {
        return Err(AllocError);
    };
    let mut link = NotingLink {
        link,
        finishes: 0,
        taken: 0,
    };
    let served = serve_shared(rt, alloc, book, service, &mut link)?;
    Ok(Noted {
        served,
        finishes: link.finishes,
        taken_then: link.taken,
        taken: link.link.taken().len(),
    })
}
