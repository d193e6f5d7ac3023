//! The anchor of a tip in a block.
ghost use Rattle.std.specs.Prelude.{◌≡◌, ◌⊎◌, ◌≤◌, ◌<◌, ◌+◌, ◌++◌, ◌^◌, ◌∷◌, [], IfOk, IfErr, OnOk, length};
ghost use Rattle.std.specs.List.{filter};
ghost use Rattle.ots_anchor.specs.Find.{form_of};
ghost use Rattle.ots_block.specs.Block.{txids};
ghost use Rattle.ots_merkle.specs.BlockTree.{block_root};
ghost use Rattle.ots_calendar.specs.Anchors.{reaches_past, open_tips, roots, anchor_of, FindsAnchor, FindsNone};
ghost use Rattle.ots_calendar.specs.Anchors.{HasBadRoot};
ghost use Rattle.ots_calendar.specs.declared.errors.AnchorError.TheVariants as error;

use crate::AnchorError;
use ots_anchor::{Found, find};
use ots_base::OutOfMemory;
use ots_block::Block;
use ots_disk::Disk;
use ots_merkle::{block_branch, block_root};
use ots_outside::Bytes;
use ots_store::{Anchor, Store, Tip};
use std::alloc::Global;

/// The number of bytes of a root.
const ROOT: usize = 32;

/// The ids of a block's transactions, in order.
pub(crate) fn ids_of(alloc: Global, block: &Block) -> Result<Vec<[u8; 32]>, OutOfMemory>
    ensures { IfOk result (λ ids. ids.items ≡ txids block.now) }
{
    let mut ids = Vec::with_capacity(alloc, block.count())?;
    for i in 0..block.count() {
        ids.push(block.txid(i)?)?;
    }
    Ok(ids)
}

/// Tests the root in a block's header against that over the ids of its transactions.
pub(crate) fn check_root(alloc: Global, block: &Block, ids: &[[u8; 32]]) -> Result<(), AnchorError>
    requires ids { ids.now ≡ txids block.now }
    requires some { 1 ≤ length ids.now }
    requires most { length ids.now < 2 ^ 32 }
    ensures ok { OnOk result (block.now.header.root ≡ block_root (txids block.now)) }
    ensures err { IfErr result (λ e. HasBadRoot block.now e ⊎ (e ≡ error.OutOfMemory)) }
{
    let computed = block_root(alloc, ids)?;
    let header = block.header().root;
    if header != computed {
        return Err(AnchorError::BadRoot { header, computed });
    }
    Ok(())
}

/// The anchor of the open tip whose root a block holds first.
pub(crate) fn find_anchor<D: Disk>(
    alloc: Global,
    store: &Store<D>,
    block: &Block,
    ids: &[[u8; 32]],
    height: u64,
) -> Result<Anchor, AnchorError>
    requires ids { ids.now ≡ txids block.now }
    requires most { length ids.now < 2 ^ 32 }
    ensures found { IfOk result (FindsAnchor store.now.records block.now height) }
    ensures none { IfErr result (FindsNone store.now.records block.now) }
    ensures root { OnOk result (length block.now.header.root ≡ 32) }
{
    store.stands();
    let tips = open_tips(alloc, store)?;
    let roots = roots_of(alloc, &tips)?;
    let found = find(alloc, block, &roots)?;
    Ok(anchor_of(alloc, block, ids, height, &tips[found.which], found)?)
}

/// The tips that reach past what is covered.
fn open_tips<D: Disk>(alloc: Global, store: &Store<D>) -> Result<Vec<Tip>, OutOfMemory>
    ensures { IfOk result (λ tips. tips.items ≡ open_tips store.now.records) }
{
    let covered = store.covered();
    let mut tips = Vec::new(alloc);
    for tip in store.tips() {
        add_open(&mut tips, tip, covered)?;
    }
    Ok(tips)
}

/// Adds a tip where it reaches past what is covered.
fn add_open(tips: &mut Vec<Tip>, tip: &Tip, covered: u64) -> Result<(), OutOfMemory>
    ensures { OnOk result (tips.new.items ≡ tips.old.items ++ filter (reaches_past covered) (tip.now ∷ [])) }
{
    if reaches_past(tip, covered) {
        tips.push(*tip)?;
    }
    Ok(())
}

/// Whether a tip reaches past what is covered.
fn reaches_past(tip: &Tip, covered: u64) -> bool
    ensures { result ≡ reaches_past covered tip.now }
{
    tip.first > covered || tip.count > covered - tip.first
}

/// The roots of tips.
fn roots_of(alloc: Global, tips: &[Tip]) -> Result<Vec<[u8; 32]>, OutOfMemory>
    ensures { IfOk result (λ made. made.items ≡ roots tips.now) }
{
    let mut roots = Vec::with_capacity(alloc, tips.len())?;
    for tip in tips {
        roots.push(tip.root)?;
    }
    Ok(roots)
}

/// The anchor of a tip whose root is found in a block.
fn anchor_of(
    alloc: Global,
    block: &Block,
    ids: &[[u8; 32]],
    height: u64,
    tip: &Tip,
    found: Found,
) -> Result<Anchor, OutOfMemory>
    requires ids { ids.now ≡ txids block.now }
    requires most { length ids.now < 2 ^ 32 }
    requires inside { found.transaction < length block.now.transactions }
    requires stands { found.place + 32 ≤ length (form_of block.now found.transaction) }
    ensures anchor { IfOk result (λ anchor. anchor ≡ anchor_of block.now height tip.now found) }
    ensures root { OnOk result (length block.now.header.root ≡ 32) }
{
    let form = block.stripped(found.transaction)?;
    Ok(Anchor {
        first: tip.first,
        count: tip.count,
        height,
        root: block.header().root,
        prefix: bytes_of(alloc, &form[..found.place])?,
        suffix: bytes_of(alloc, &form[found.place + ROOT..])?,
        branch: block_branch(alloc, ids, found.transaction)?,
    })
}

/// A copy of bytes.
fn bytes_of(alloc: Global, bytes: &[u8]) -> Result<Bytes, OutOfMemory>
    ensures { IfOk result (λ copied. copied ≡ bytes.now) }
{
    Ok(Bytes::from_vec(Vec::from_slice(alloc, bytes)?))
}
