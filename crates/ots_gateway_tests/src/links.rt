//! Links that note when they are finished.

use ots_base::OutOfMemory;
use ots_memory::BytesLink;
use ots_outside::{Failed, Link};
use std::alloc::Global;
use std::sync::Arc;
use std::sync::atomic::{AtomicU64, Ordering};

/// How many bytes the links of a round have taken in all.
pub type Written = Arc<AtomicU64, Global>;

/// A link in memory that notes how often it was finished, and how many bytes all links had taken by then.
#[derive(Drop)]
pub struct NotingLink {
    pub link: BytesLink,
    pub written: Written,
    pub finishes: u32,
    pub written_then: u64,
}

impl Link for NotingLink {
    ghost use Rattle.std.specs.Prelude.{Some};

    ghost told = { λ s. Some s.link.link };

    ghost faults = { λ s. s.link.faults };

    ghost same = { λ s t. Unit {0} };

    ghost same_refl = { λ s. tt };

    ghost same_trans = { λ s t u first second. tt };

    fn read(&mut self, buf: &mut [u8]) -> Result<usize, Failed> {
        self.link.read(buf)
    }

    fn write(&mut self, piece: &[u8]) -> Result<usize, Failed> {
        let answer = self.link.write(piece);
        if let Ok(count) = answer {
            self.written.fetch_add(count as u64, Ordering::SeqCst);
        }
        answer
    }

    fn finish(&mut self) {
        self.finishes = self.finishes.saturating_add(1);
        self.written_then = self.written.load(Ordering::SeqCst);
        self.link.finish();
    }
}

/// A link that sends this request, and whose calls of these numbers fail.
pub fn noting(
    alloc: Global,
    written: &Written,
    request: &[u8],
    failing: &[u64],
) -> Result<NotingLink, OutOfMemory> {
    Ok(NotingLink {
        link: BytesLink::new(alloc, request, &[], 2000, failing)?,
        written: Arc::try_clone(written)?,
        finishes: 0,
        written_then: 0,
    })
}
