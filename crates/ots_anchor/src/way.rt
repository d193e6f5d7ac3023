//! The path from a commitment to what a block's Merkle root is made of.
ghost use Rattle.std.specs.Prelude.{◌≡◌, ◌+◌, ◌<◌, ◌≤◌, ◌^◌, ◌++◌, ◌∷◌, [], ℕ, Some, IfOk, OnOk, length};
ghost use Rattle.std.specs.Prelude.{slice_index_or};
ghost use Rattle.ots_ops.specs.Value.{value};
ghost use Rattle.ots_ops.specs.declared.op.Op.TheVariants.{Append, Prepend};
ghost use Rattle.ots_anchor.specs.Path.{hashed, before, after, beside, climb, twice, complete_path, complete_way};
ghost use Rattle.ots_anchor.specs.Path.{led_to, AreSteps};

use ots_base::{MAX_MESSAGE, OutOfMemory};
use ots_merkle::{Branch, Side, path};
use ots_ops::{Arg, Op, Ops};
use sha2::{Digest, Sha256};
use std::alloc::Global;

/// The operations that lead from the commitment with the index `i` to what the branch makes of the
/// double hash of a transaction, in memory of `alloc`: SHA-256, the path to the root of the
/// calendar's tree over the SHA-256 of each commitment, the transaction's bytes before and after
/// that root, where there are any, and SHA-256 twice; then for each neighbour of the branch that it
/// stands before or after, and SHA-256 twice.
///
/// There are fewer than 2^32 commitments, and the transaction has at most 4096 bytes.
pub fn complete_path(
    alloc: Global,
    commitments: &[[u8; 44]],
    i: usize,
    prefix: &[u8],
    suffix: &[u8],
    branch: &Branch,
) -> Result<Ops, OutOfMemory>
    requires is_commitment { i < length commitments.now }
    requires most { length commitments.now < 2 ^ 32 }
    requires short { length prefix.now + 32 + length suffix.now ≤ MAX_MESSAGE }
    ensures path { IfOk result (λ ops. ops ≡ complete_path commitments.now i prefix.now suffix.now branch.now) }
    ensures leads { IfOk result (λ ops. value ops (slice_index_or commitments.now i [])
        ≡ Some (led_to commitments.now prefix.now suffix.now branch.now)) }
{
    let leaves = hashed(alloc, commitments)?;
    let way = path(alloc, &leaves, i)?;
    complete_way(alloc, way.items(), prefix, suffix, branch)
}

/// The same where the path to the root of the calendar's tree is made already: `way` leads there from
/// the commitment's SHA-256.
pub fn complete_way(
    alloc: Global,
    way: &[Op],
    prefix: &[u8],
    suffix: &[u8],
    branch: &Branch,
) -> Result<Ops, OutOfMemory>
    requires short { length prefix.now + 32 + length suffix.now ≤ MAX_MESSAGE }
    ensures path { IfOk result (λ ops. ops ≡ complete_way way.now prefix.now suffix.now branch.now) }
    ensures steps { OnOk result (AreSteps branch.now) }
{
    let mut ops = Ops::new(alloc);
    ops.push(Op::Sha256)?;
    ops.extend(way)?;
    add_before(alloc, &mut ops, prefix)?;
    add_after(alloc, &mut ops, suffix)?;
    add_twice(&mut ops)?;
    add_branch(alloc, &mut ops, branch)?;
    Ok(ops)
}

/// The leaves of a calendar's tree: the SHA-256 of each commitment.
pub fn hashed(alloc: Global, commitments: &[[u8; 44]]) -> Result<Vec<[u8; 32]>, OutOfMemory>
    ensures { IfOk result (λ leaves. leaves.items ≡ hashed commitments.now) }
{
    let mut leaves = Vec::with_capacity(alloc, commitments.len())?;
    for commitment in commitments {
        leaves.push(Sha256::digest(commitment.as_slice()))?;
    }
    Ok(leaves)
}

/// Adds that these bytes stand before, where there are any.
fn add_before(alloc: Global, ops: &mut Ops, bytes: &[u8]) -> Result<(), OutOfMemory>
    requires { length bytes.now ≤ MAX_MESSAGE }
    ensures { OnOk result (ops.new ≡ ops.old ++ before bytes.now) }
{
    if bytes.is_empty() {
        return Ok(());
    }
    ops.push(Op::Prepend(Arg::copy_of(alloc, bytes)?))
}

/// Adds that these bytes stand after, where there are any.
fn add_after(alloc: Global, ops: &mut Ops, bytes: &[u8]) -> Result<(), OutOfMemory>
    requires { length bytes.now ≤ MAX_MESSAGE }
    ensures { OnOk result (ops.new ≡ ops.old ++ after bytes.now) }
{
    if bytes.is_empty() {
        return Ok(());
    }
    ops.push(Op::Append(Arg::copy_of(alloc, bytes)?))
}

/// Adds SHA-256 twice.
fn add_twice(ops: &mut Ops) -> Result<(), OutOfMemory>
    ensures { OnOk result (ops.new ≡ ops.old ++ twice) }
{
    ops.push(Op::Sha256)?;
    ops.push(Op::Sha256)?;
    Ok(())
}

/// Adds the way up a branch.
fn add_branch(alloc: Global, ops: &mut Ops, branch: &Branch) -> Result<(), OutOfMemory>
    ensures ops { OnOk result (ops.new ≡ ops.old ++ climb branch.now) }
    ensures steps { OnOk result (AreSteps branch.now) }
{
    for (side, hash) in branch.items() {
        add_step(alloc, ops, *side, hash)?;
    }
    Ok(())
}

/// Adds a neighbour on this side, and SHA-256 twice.
fn add_step(alloc: Global, ops: &mut Ops, side: Side, hash: &[u8; 32]) -> Result<(), OutOfMemory>
    ensures ops { OnOk result (ops.new ≡ ops.old ++ climb ((side, hash.now) ∷ [])) }
    ensures hash { length hash.now ≡ 32 }
{
    let argument = Arg::copy_of(alloc, hash)?;
    ops.push(match side {
        Side::Left => Op::Prepend(argument),
        Side::Right => Op::Append(argument),
    })?;
    add_twice(ops)
}
