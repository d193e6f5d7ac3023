//! Where a caller sleeps until its number is served. A number has a bell of its own, so a release wakes the caller
//! whose turn is next and no other, and makes no call of the system where that caller does not sleep.
//!
//! A bell is `AWAITED` from when its caller says that it waits until the bell is rung. The caller looks for its number
//! once more after it has said so, and whoever serves a number looks at its bell after that: one of the two sees what
//! the other did, so no caller sleeps on when its number is served. Proofs see nothing of this.
ghost use Rattle.std.specs.Prelude.{◌≡◌, ◌%◌};

use std::array;
use std::sync::Wait;
use std::sync::atomic::{AtomicU64, Ordering};

/// How many bells there are. The numbers that are out follow one another and are at most `MAX_CALLERS`, 65, so no two
/// of them have one bell.
const BELLS: usize = 128;

/// The caller of the bell does not wait, or the bell was rung.
const QUIET: u64 = 0;

/// The caller of the bell says that it waits, and may sleep.
const AWAITED: u64 = 1;

/// A bell for each number that is out, in turn.
#[derive(Drop)]
pub(crate) struct Bells {
    bells: [AtomicU64; BELLS],
}

impl Bells {
    pub(crate) fn new() -> Bells {
        Bells {
            bells: array::from_fn(|_| AtomicU64::new(QUIET)),
        }
    }

    fn of(&self, number: u64) -> &AtomicU64 {
        &self.bells[place_of(number)]
    }

    /// Says that the caller with this number waits. Where it has said so and its bell was not rung since, it sleeps
    /// until the bell is rung, or returns for no reason. Before each call it has looked for its number.
    pub(crate) fn wait<R: Wait>(&self, rt: &R, number: u64) {
        let bell = self.of(number);
        if bell.swap(AWAITED, Ordering::SeqCst) == AWAITED {
            bell.park(rt, AWAITED as u32);
        }
    }

    /// Says that the caller with this number waits no more, so that nobody wakes it for nothing.
    pub(crate) fn leave(&self, number: u64) {
        let bell = self.of(number);
        if bell.load(Ordering::SeqCst) == AWAITED {
            bell.store(QUIET, Ordering::SeqCst);
        }
    }

    /// Wakes the caller with this number, which is served now, where it says that it waits.
    pub(crate) fn ring(&self, number: u64) {
        let bell = self.of(number);
        if bell.load(Ordering::SeqCst) == AWAITED {
            bell.store(QUIET, Ordering::SeqCst);
            bell.wake_one();
        }
    }
}

/// The place of a number's bell.
fn place_of(number: u64) -> usize
    ensures { result ≡ number % 128 }
{
    (number % BELLS as u64) as usize
}
