//! The entries of a journal found in its bytes.
ghost use Rattle.std.specs.Prelude.{◌≡◌, ◌≢◌, ◌<◌, ◌≤◌, length, IfOk, IfErr};
ghost use Rattle.std.specs.List.{AllByRecursion};
ghost use Rattle.ots_journal.specs.declared.limits.TheConstants.{EMPTY_JOURNAL, MAX_JOURNAL};
ghost use Rattle.ots_journal.specs.Opening.{FoundTo, Refuses};
ghost use Rattle.ots_journal.specs.Stored.{entries_at, EndsBy};

use crate::JournalError;
use crate::place::Place;
use crate::reading::read_group;
use crate::spelling::OPEN_GATE;
use std::alloc::Global;

/// What a file of version 1 begins with: `OTSCAL`, 1, and a line feed.
pub const MAGIC_1: [u8; 8] = *b"OTSCAL\x01\n";

/// What a file of version 2 begins with: `OTSCAL`, 2, and a line feed.
pub const MAGIC_2: [u8; 8] = *b"OTSCAL\x02\n";

/// Where the entries of a journal lie, and the place of the closed gate after them.
#[derive(Drop)]
pub struct Found {
    pub places: Vec<Place>,
    pub gate: usize,
}

/// Finds the entries of a file of more than `EMPTY_JOURNAL` bytes.
pub fn find_entries(alloc: Global, bytes: &[u8]) -> Result<Found, JournalError>
    requires long { EMPTY_JOURNAL < length bytes.now }
    requires most { length bytes.now ≤ MAX_JOURNAL }
    ensures ok { IfOk result (λ f. FoundTo bytes.now (entries_at bytes.now f.places.items) f.gate) }
    ensures within { IfOk result (λ f. AllByRecursion (EndsBy f.gate) f.places.items) }
    ensures err { IfErr result (Refuses (length bytes.now) bytes.now) }
    ensures no_fault { IfErr result (λ e. e ≢ JournalError.DiskFault) }
{
    if bytes[..8] == MAGIC_1[..] {
        return Err(JournalError::OldVersion);
    }
    if bytes[..8] != MAGIC_2[..] {
        return Err(JournalError::NotAJournal);
    }
    let mut places = Vec::new(alloc);
    let mut gate = 8;
    while bytes[gate] == OPEN_GATE {
        match read_group(&mut places, bytes, gate + 1)? {
            Some(size) => gate += 1 + size,
            None => return Err(JournalError::Damaged(gate as u64)),
        }
    }
    Ok(Found { places, gate })
}
