//! What a calendar answers of a commitment.
ghost use Rattle.std.specs.Prelude.{◌≡◌, ◌<◌, ◌≤◌, ◌+◌, ◌^◌, IfOk, Some, find, length};
ghost use Rattle.ots_base.specs.declared.limits.TheConstants.{MAX_MESSAGE};
ghost use Rattle.ots_attest.specs.declared.attestation.Attestation.TheVariants.{Bitcoin};
ghost use Rattle.ots_store.specs.Index.{least};
ghost use Rattle.ots_store.specs.Order.{anchors_of, commits_of, covers};
ghost use Rattle.ots_tree.specs.Made.{lone};
ghost use Rattle.ots_tree.specs.Wire.{pre};
ghost use Rattle.ots_calendar.specs.Answer.{answer, way_in};
ghost use Rattle.ots_calendar.specs.declared.answer.Answer.TheVariants.{Complete};
ghost use Rattle.ots_kept_trees.specs.Kept.{AreKept};

use crate::Prepared;
use ots_base::OutOfMemory;
use ots_disk::Disk;
use ots_kept_trees::Trees;
use ots_store::{Anchor, Store};
use std::alloc::Global;

/// The number of bytes of a commitment.
const COMMITMENT: usize = 44;

/// What is answered of a commitment, by its least index and the first anchor that covers it.
pub(crate) fn prepare_by<D: Disk>(
    alloc: Global,
    store: &Store<D>,
    trees: &Trees,
    commitment: &[u8],
) -> Result<Prepared, OutOfMemory>
    requires kept { AreKept (commits_of store.now.records) trees.now }
    ensures { IfOk result (λ a. a ≡ answer store.now.records commitment.now) }
{
    let Some(i) = index_of(store, commitment) else {
        return Ok(Prepared::unknown(alloc));
    };
    match store.anchor_of(i) {
        None => Ok(Prepared::pending(alloc)),
        Some(anchor) => complete(alloc, store, trees, i, anchor),
    }
}

/// The least index of these bytes among the commitments.
fn index_of<D: Disk>(store: &Store<D>, commitment: &[u8]) -> Option<u64>
    ensures { result ≡ least commitment.now (commits_of store.now.records) }
{
    store.stands();
    if commitment.len() != COMMITMENT {
        return None;
    }
    let mut key = [0; COMMITMENT];
    key.copy_from_slice(commitment);
    store.index_of(&key)
}

/// Takes into trees what a store's last anchor covers, and what no anchor covers.
pub(crate) fn catch_up<D: Disk>(trees: &mut Trees, store: &Store<D>)
    requires { AreKept (commits_of store.now.records) trees.old }
    ensures { AreKept (commits_of store.now.records) trees.new }
{
    store.stands();
    let covered = store.covered();
    if covered > 0
        && let Some(anchor) = store.anchor_of(covered - 1)
    {
        let (first, end) = bounds(store, covered - 1, anchor);
        trees.keep_anchored(store.commitments(), first, end);
    }
    let end = store.commits();
    trees.keep_newest(store.commitments(), covered as usize, end as usize);
}

/// The tree of the one path from a commitment to the Merkle root of the block of an anchor that
/// covers it.
fn complete<D: Disk>(
    alloc: Global,
    store: &Store<D>,
    trees: &Trees,
    i: u64,
    anchor: &Anchor,
) -> Result<Prepared, OutOfMemory>
    requires kept { AreKept (commits_of store.now.records) trees.now }
    requires covers { find (covers i) (anchors_of store.now.records) ≡ Some anchor.now }
    ensures { IfOk result (λ prepared. prepared ≡ Complete
        (pre (lone (way_in (commits_of store.now.records) i anchor.now) (Bitcoin anchor.now.height)))) }
{
    let (first, end) = bounds(store, i, anchor);
    let way = trees.way_over(store.commitments(), first, end - first, i as usize - first)?;
    Prepared::covered(alloc, way, anchor)
}

/// The index of the first commitment of an anchor that covers an index, and the one after its last.
pub(crate) fn bounds<D: Disk>(store: &Store<D>, i: u64, anchor: &Anchor) -> (usize, usize)
    requires covers { find (covers i) (anchors_of store.now.records) ≡ Some anchor.now }
    ensures first { result.0 ≡ anchor.now.first }
    ensures end { result.1 ≡ anchor.now.first + anchor.now.count }
    ensures begins { result.0 ≤ i }
    ensures ends { i < result.1 }
    ensures within { result.1 ≤ length (commits_of store.now.records) }
    ensures few { length (commits_of store.now.records) < 2 ^ 32 }
    ensures short { length anchor.now.prefix + 32 + length anchor.now.suffix ≤ MAX_MESSAGE }
{
    store.stands();
    let _ = store.commits();
    let first = anchor.first as usize;
    (first, first + anchor.count as usize)
}
