//! The tree of a block's transactions.
ghost use Rattle.std.specs.Prelude.{◌≡◌, ◌+◌, ◌^◌, ◌≤◌, ◌<◌, [], IfOk, length, slice_index_or};
ghost use Rattle.ots_merkle.specs.BlockTree.{paired, neighbour, block_root, block_branch, climbed};

use crate::branch::{Branch, Side};
use crate::hashes::block_node;
use ots_base::OutOfMemory;
use std::alloc::Global;

/// The root of the tree of a block with these transaction ids, in the order in which Bitcoin keeps
/// their bytes. There is at least one id, and there are fewer than 2^32. The levels of the tree lie
/// in memory of `alloc`, until it answers.
pub fn block_root(alloc: Global, txids: &[[u8; 32]]) -> Result<[u8; 32], OutOfMemory>
    requires least { 1 ≤ length txids.now }
    requires most { length txids.now < 2 ^ 32 }
    ensures { IfOk result (λ root. root ≡ block_root txids.now) }
{
    let mut level = Vec::from_slice(alloc, txids)?;
    'levels: while level.len() > 1 {
        level = paired(alloc, &level)?;
    }
    Ok(level[0])
}

/// The branch of the transaction with the index `i`, from its id to the root of the block's tree,
/// in memory of `alloc`. There are fewer than 2^32 ids.
pub fn block_branch(alloc: Global, txids: &[[u8; 32]], i: usize) -> Result<Branch, OutOfMemory>
    requires is_id { i < length txids.now }
    requires most { length txids.now < 2 ^ 32 }
    ensures branch { IfOk result (λ branch. branch ≡ block_branch txids.now i) }
    ensures leads { IfOk result (λ branch. climbed branch (slice_index_or txids.now i []) ≡ block_root txids.now) }
{
    let mut branch = Branch::new(alloc);
    let mut level = Vec::from_slice(alloc, txids)?;
    let mut place = i;
    'levels: while level.len() > 1 {
        branch.push(neighbour(&level, place))?;
        level = paired(alloc, &level)?;
        place /= 2;
    }
    Ok(branch)
}

/// The level above these hashes.
fn paired(alloc: Global, hashes: &[[u8; 32]]) -> Result<Vec<[u8; 32]>, OutOfMemory>
    requires { length hashes.now < 2 ^ 32 }
    ensures { IfOk result (λ above. above.items ≡ paired hashes.now) }
{
    let mut above = Vec::with_capacity(alloc, hashes.len().div_ceil(2))?;
    let mut place = 0;
    while place < hashes.len() {
        let left = hashes[place];
        let right = next_or_same(hashes, place);
        above.push(block_node(&left, &right))?;
        place += 2;
    }
    Ok(above)
}

/// The hash after this place, or the one at it where it is the last.
fn next_or_same(hashes: &[[u8; 32]], place: usize) -> [u8; 32]
    requires within { place < length hashes.now }
    requires most { length hashes.now < 2 ^ 32 }
    ensures { result ≡ slice_index_or hashes.now (place + 1) (slice_index_or hashes.now place []) }
{
    if place + 1 < hashes.len() {
        hashes[place + 1]
    } else {
        hashes[place]
    }
}

/// The neighbour of the hash at this place, and the side on which it stands.
fn neighbour(hashes: &[[u8; 32]], place: usize) -> (Side, [u8; 32])
    requires within { place < length hashes.now }
    requires most { length hashes.now < 2 ^ 32 }
    ensures { result ≡ neighbour hashes.now place }
{
    if place % 2 == 0 {
        (Side::Right, next_or_same(hashes, place))
    } else {
        (Side::Left, hashes[place - 1])
    }
}
