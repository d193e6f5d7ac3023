//! The path of a leaf in a calendar's tree.
ghost use Rattle.std.specs.Prelude.{◌≡◌, ◌+◌, ◌^◌, ◌≤◌, ◌<◌, ◌++◌, ◌∷◌, [], Some, IfOk, OnOk, length, slice_index_or};
ghost use Rattle.ots_ops.specs.Value.{value};
ghost use Rattle.ots_merkle.specs.CalendarTree.{root, path, path_within};

use crate::calendar::root;
use ots_base::OutOfMemory;
use ots_ops::{Arg, Op, Ops};
use std::alloc::Global;

/// The height of a tree that fewer than 2^32 leaves fit.
pub(crate) const HEIGHT: u32 = 32;

/// The operations that lead from the leaf of index `i` to the root of the calendar's tree of these
/// leaves, in memory of `alloc`: at each node the root of the other part is put after or before,
/// and then comes SHA-256. There are fewer than 2^32 leaves.
///
/// It takes fewer hashes than there are leaves. The paths of all n leaves, one call each, take n
/// times as many: `paths` makes them at the cost of one.
pub fn path(alloc: Global, leaves: &[[u8; 32]], i: usize) -> Result<Ops, OutOfMemory>
    requires is_leaf { i < length leaves.now }
    requires most { length leaves.now < 2 ^ 32 }
    ensures path { IfOk result (λ ops. ops ≡ path leaves.now i) }
    ensures leads { IfOk result (λ ops. value ops (slice_index_or leaves.now i []) ≡ Some (root leaves.now)) }
    ensures short { IfOk result (λ ops. length ops ≤ 64) }
{
    let mut ops = Ops::new(alloc);
    add_path(alloc, &mut ops, leaves, i)?;
    Ok(ops)
}

/// Adds to these operations the path of the leaf of index `i`, as [`path`] makes it, in memory of
/// `alloc`. Where memory ran out, a part of it may have been added.
pub fn add_path(
    alloc: Global,
    ops: &mut Ops,
    leaves: &[[u8; 32]],
    i: usize,
) -> Result<(), OutOfMemory>
    requires is_leaf { i < length leaves.now }
    requires most { length leaves.now < 2 ^ 32 }
    ensures { OnOk result (ops.new ≡ ops.old ++ path leaves.now i) }
{
    add_path_within(alloc, ops, leaves, i, HEIGHT)
}

/// Adds the path in a tree of this height, which the leaves fit.
fn add_path_within(
    alloc: Global,
    ops: &mut Ops,
    leaves: &[[u8; 32]],
    i: usize,
    height: u32,
) -> Result<(), OutOfMemory>
    requires is_leaf { i < length leaves.now }
    requires fits { length leaves.now ≤ 2 ^ height }
    requires most { length leaves.now < 2 ^ 32 }
    requires height { height ≤ 32 }
    ensures { OnOk result (ops.new ≡ ops.old ++ path_within height leaves.now i) }
{
    if height == 0 {
        return Ok(());
    }
    let half = power_of_two(height - 1);
    if leaves.len() <= half {
        return add_path_within(alloc, ops, leaves, i, height - 1);
    }
    let left = &leaves[..half];
    let right = &leaves[half..];
    if i < half {
        add_path_within(alloc, ops, left, i, height - 1)?;
        add_step(ops, Op::Append(Arg::copy_of(alloc, &root(right))?))
    } else {
        add_path_within(alloc, ops, right, i - half, height - 1)?;
        add_step(ops, Op::Prepend(Arg::copy_of(alloc, &root(left))?))
    }
}

/// Two to this power.
pub(crate) fn power_of_two(exponent: u32) -> usize
    requires { exponent ≤ 32 }
    ensures { result ≡ 2 ^ exponent }
{
    1 << exponent
}

/// Adds a step to the node above: the other part's root, and SHA-256.
pub(crate) fn add_step(ops: &mut Ops, other: Op) -> Result<(), OutOfMemory>
    ensures { OnOk result (ops.new ≡ ops.old ++ other ∷ Op.Sha256 ∷ []) }
{
    ops.push(other)?;
    ops.push(Op::Sha256)?;
    Ok(())
}
