//! Whether the values of records are right.
ghost use Rattle.std.specs.Prelude.{◌≡◌, ◌+◌, ◌++◌, ◌≤◌, ◌<◌, ◌^◌, ℕ, true, false, length, IfOk, OnOk, MatchOption};
ghost use Rattle.std.specs.Prelude.{slice_get, Some};
ghost use Rattle.ots_headers.specs.DoubleSha256.{double_sha256};
ghost use Rattle.ots_merkle.specs.BlockTree.{above_side, climbed};
ghost use Rattle.ots_merkle.specs.Hashes.{block_node};
ghost use Rattle.ots_store.specs.Order.{commits_of};
ghost use Rattle.ots_store.specs.Records.{Record, TipRecord, AnchorRecord};
ghost use Rattle.ots_store.specs.declared.anchor.Anchor.{Anchor};
ghost use Rattle.ots_store.specs.declared.tip.Tip.{Tip};
ghost use Rattle.ots_kept_trees.specs.Kept.{AreKept};
ghost use Rattle.ots_calendar.specs.Seen.{IsSeen, IsTipAt, IsAnchorAt};
ghost use Rattle.ots_calendar.specs.Values.{IsTrueTip, IsTrueAnchor, IsTrue, AreTrue, FirstUntrue};

use ots_base::OutOfMemory;
use ots_disk::Disk;
use ots_kept_trees::Trees;
use ots_merkle::{Branch, Side};
use ots_store::{Anchor, Store, Tip};
use sha2::{Digest, Sha256};

/// The kinds of entries (`ots_store`): a tip.
const TIP: u8 = 2;

/// An anchor.
const ANCHOR: u8 = 3;

/// How far the records are looked at.
#[derive(Clone, Copy)]
pub(crate) struct Seen {
    /// How many of them are tips.
    pub tips: usize,
    /// How many commitments their anchors cover.
    pub covered: u64,
}

/// The first record whose values are not right. The trees take in what is hashed for that.
pub(crate) fn first_untrue<D: Disk>(
    store: &Store<D>,
    trees: &mut Trees,
) -> Result<Option<u64>, OutOfMemory>
    requires kept { AreKept (commits_of store.now.records) trees.old }
    ensures kept { AreKept (commits_of store.now.records) trees.new }
    ensures found { IfOk result
        (λ found. MatchOption found (AreTrue store.now.records) (FirstUntrue store.now.records)) }
{
    let mut seen = Seen {
        tips: 0,
        covered: 0,
    };
    for i in 0..store.entries() {
        if !next_is_true(store, trees, i, &mut seen)? {
            return Ok(Some(i));
        }
    }
    Ok(None)
}

/// Whether the values of the next record are right, after those that were looked at.
fn next_is_true<D: Disk>(
    store: &Store<D>,
    trees: &mut Trees,
    i: u64,
    seen: &mut Seen,
) -> Result<bool, OutOfMemory>
    requires there { i < length store.now.records }
    requires few { i < 2 ^ 32 }
    requires seen { IsSeen store.now.records i seen.old }
    requires kept { AreKept (commits_of store.now.records) trees.old }
    ensures kept { AreKept (commits_of store.now.records) trees.new }
    ensures seen { OnOk result (IsSeen store.now.records (i + 1) seen.new) }
    ensures yes { IfOk result (λ yes. yes ≡ true → (r : Record) → slice_get store.now.records i ≡ Some r
        → IsTrue (commits_of store.now.records) r) }
    ensures no { IfOk result (λ yes. yes ≡ false → (r : Record) → slice_get store.now.records i ≡ Some r
        → IsTrue (commits_of store.now.records) r → ⊥) }
{
    if let Some(tip) = tip_at(store, i, seen) {
        seen.tips += 1;
        return is_true_tip(trees, store.commitments(), &tip);
    }
    if let Some(anchor) = anchor_at(store, i, seen) {
        seen.covered = anchor.first + anchor.count;
        return is_true_anchor(trees, store.commitments(), anchor);
    }
    Ok(true)
}

/// The next record, where it is a tip.
fn tip_at<D: Disk>(store: &Store<D>, i: u64, seen: &Seen) -> Option<Tip>
    requires there { i < length store.now.records }
    requires seen { IsSeen store.now.records i seen.now }
    ensures { MatchOption result ((tip : Tip) → slice_get store.now.records i ≡ Some (TipRecord tip)
        → ⊥) (IsTipAt store.now.records i) }
{
    store.stands();
    let _ = store.commits();
    let (kind, _) = store.entry(i);
    if kind != TIP {
        return None;
    }
    let tips = store.tips();
    if seen.tips < tips.len() {
        Some(tips[seen.tips])
    } else {
        None
    }
}

/// The next record, where it is an anchor.
fn anchor_at<'a, D: Disk>(store: &'a Store<D>, i: u64, seen: &Seen) -> Option<&'a Anchor>
    requires there { i < length store.now.records }
    requires seen { IsSeen store.now.records i seen.now }
    ensures { MatchOption result ((anchor : Anchor) → slice_get store.now.records i ≡ Some (AnchorRecord anchor)
        → ⊥) (λ anchor. IsAnchorAt store.now.records i anchor.now) }
{
    store.stands();
    let _ = store.commits();
    let (kind, _) = store.entry(i);
    if kind != ANCHOR {
        return None;
    }
    store.anchor_of(seen.covered)
}

/// Whether a tip's root is that of the tree over its commitments.
fn is_true_tip(trees: &mut Trees, commitments: &[[u8; 44]], tip: &Tip) -> Result<bool, OutOfMemory>
    requires some { 1 ≤ tip.now.count }
    requires within { tip.now.first + tip.now.count ≤ length commitments.now }
    requires few { length commitments.now < 2 ^ 32 }
    requires kept { AreKept commitments.now trees.old }
    ensures kept { AreKept commitments.now trees.new }
    ensures yes { IfOk result (λ yes. yes ≡ true → IsTrueTip commitments.now tip.now) }
    ensures no { IfOk result (λ yes. yes ≡ false → IsTrueTip commitments.now tip.now → ⊥) }
{
    let (first, count) = (tip.first as usize, tip.count as usize);
    trees.keep_newest(commitments, first, first + count);
    let root = trees.root_over(commitments, first, count)?;
    Ok(tip.root == root)
}

/// Whether an anchor's root is what its path leads to.
fn is_true_anchor(
    trees: &mut Trees,
    commitments: &[[u8; 44]],
    anchor: &Anchor,
) -> Result<bool, OutOfMemory>
    requires some { 1 ≤ anchor.now.count }
    requires within { anchor.now.first + anchor.now.count ≤ length commitments.now }
    requires few { length commitments.now < 2 ^ 32 }
    requires kept { AreKept commitments.now trees.old }
    ensures kept { AreKept commitments.now trees.new }
    ensures yes { IfOk result (λ yes. yes ≡ true → IsTrueAnchor commitments.now anchor.now) }
    ensures no { IfOk result (λ yes. yes ≡ false → IsTrueAnchor commitments.now anchor.now → ⊥) }
{
    let (first, count) = (anchor.first as usize, anchor.count as usize);
    trees.keep_anchored(commitments, first, first + count);
    let root = trees.root_over(commitments, first, count)?;
    let id = transaction_id(anchor.prefix.items(), &root, anchor.suffix.items());
    Ok(anchor.root == climb(&anchor.branch, id))
}

/// The id of a transaction without its witness: the hash of what stands before a root, the root and
/// what stands after it.
fn transaction_id(prefix: &[u8], root: &[u8; 32], suffix: &[u8]) -> [u8; 32]
    ensures { result ≡ double_sha256 (prefix.now ++ root.now ++ suffix.now) }
{
    let mut hasher = Sha256::new();
    hasher.update(prefix);
    hasher.update(root);
    hasher.update(suffix);
    let once = hasher.finalize();
    Sha256::digest(once.as_slice())
}

/// Where a branch leads from a hash.
fn climb(branch: &Branch, hash: [u8; 32]) -> [u8; 32]
    ensures { result ≡ climbed branch.now hash }
{
    let mut reached = hash;
    for (side, other) in branch.items() {
        reached = above(*side, other, &reached);
    }
    reached
}

/// The hash over a hash and its neighbour on this side.
fn above(side: Side, other: &[u8; 32], hash: &[u8; 32]) -> [u8; 32]
    ensures { result ≡ above_side side other.now hash.now }
{
    match side {
        Side::Left => node(other, hash),
        Side::Right => node(hash, other),
    }
}

/// The hash of a node of a block's tree.
fn node(left: &[u8; 32], right: &[u8; 32]) -> [u8; 32]
    ensures { result ≡ block_node left.now right.now }
{
    let mut hasher = Sha256::new();
    hasher.update(left);
    hasher.update(right);
    let once = hasher.finalize();
    Sha256::digest(once.as_slice())
}
