// Digests and files that calendars are asked to timestamp.
ghost use Rattle.std.specs.Prelude.{◌<◌, length};
ghost use Rattle.ots_stamp.specs.Stamped.{AreSoundBelow};

use crate::outcomes::say_outcomes;
use crate::runs::no_memory;
use ots_address::Address;
use ots_asking::Outcome;
use ots_base::{MAX_OPERATIONS, OutOfMemory};
use ots_io::Dialer;
use ots_ops::Digest;
use ots_row_words::{Said, malformed, number_of};
use ots_stamp::{Batch, Target, gather_good, stamp_with};
use ots_tree::Detached;
use sha2::{Digest as _, Sha256};
use std::alloc::Global;
use std::io;

/// The most files that are stamped together.
const MOST_FILES: usize = 1024;

/// Posts a digest to calendars, and says what came of it.
pub fn stamp<D: Dialer>(
    alloc: Global,
    dialer: &mut D,
    calendars: &[Address],
    digest: &Digest,
    depth: u32,
    said: &mut Said,
) -> Result<(), OutOfMemory> {
    let depth = depth.min(MAX_OPERATIONS);
    let outcomes = stamp_with(alloc, dialer, calendars, digest, depth)?;
    say_outcomes(&outcomes, said);
    Ok(())
}

/// Posts the root of the first files to calendars, says what came of it, and gives the proof of the file at this
/// place, unless no calendar answered a tree.
pub fn prove<D: Dialer>(
    alloc: Global,
    dialer: &mut D,
    calendars: &[Address],
    count: u64,
    place: usize,
    said: &mut Said,
) -> io::Result<Option<Detached>> {
    let batch = batch_of(alloc, count)?;
    if place >= batch.targets().len() {
        return Err(malformed());
    }
    prove_in(alloc, dialer, calendars, &batch, place, said).map_err(no_memory)
}

/// The same of the files of a batch.
fn prove_in<D: Dialer>(
    alloc: Global,
    dialer: &mut D,
    calendars: &[Address],
    batch: &Batch,
    place: usize,
    said: &mut Said,
) -> Result<Option<Detached>, OutOfMemory>
    requires { place < length batch.now }
{
    let outcomes = batch.ask(alloc, dialer, calendars)?;
    say_outcomes(&outcomes, said);
    proof_of(alloc, batch, place, &outcomes)
}

/// The proof of one of the files of a batch, by these outcomes, unless none is a tree.
fn proof_of(
    alloc: Global,
    batch: &Batch,
    place: usize,
    outcomes: &[Outcome],
) -> Result<Option<Detached>, OutOfMemory>
    requires inside { place < length batch.now }
    requires sound { AreSoundBelow batch.now outcomes.now }
{
    let Some(good) = gather_good(outcomes)? else {
        return Ok(None);
    };
    Ok(Some(batch.proof(alloc, place, &good)?))
}

/// Says how many operations may stand above the root of the first files, and that.
pub fn say_batch(alloc: Global, words: &[String], said: &mut Said) -> io::Result<()> {
    let count = words.first().ok_or_else(malformed)?;
    let batch = batch_of(alloc, number_of(count.as_str())?)?;
    said.count(batch.targets().len());
    said.word("files, depth");
    said.number(u64::from(batch.depth()));
    said.word("root");
    said.digits(batch.root().bytes());
    Ok(())
}

/// The first files, so many.
fn batch_of(alloc: Global, count: u64) -> io::Result<Batch> {
    let mut targets = Vec::new(alloc);
    for n in 0..count {
        targets.push(target(alloc, n)?)?;
    }
    if targets.is_empty() || targets.len() > MOST_FILES {
        return Err(malformed());
    }
    Batch::new(alloc, targets).map_err(no_memory)
}

/// The file of this number: its text is `file N`, and its nonce the numbers from 16 N on.
fn target(alloc: Global, n: u64) -> io::Result<Target> {
    let text = format!(in alloc; "file {n}")?;
    let digest = Sha256::digest(text.as_bytes());
    let mut nonce = [0; 16];
    for (k, byte) in nonce.iter_mut().enumerate() {
        *byte = (n % 16 * 16 + k as u64 % 16) as u8;
    }
    Ok(Target {
        digest: Digest::new(&digest).ok_or_else(malformed)?,
        nonce,
    })
}
