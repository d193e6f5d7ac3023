//! The paths of all leaves in a calendar's tree.
ghost use Rattle.std.specs.Prelude.{◌≡◌, ◌+◌, ◌^◌, ◌≤◌, ◌<◌, ℕ, ◌++◌, [], IfOk, OnOk, length, slice_index_or};
ghost use Rattle.std.specs.Prelude.{replicate};
ghost use Rattle.ots_merkle.specs.CalendarTree.{root, root_within, path, path_within};
ghost use Rattle.ots_merkle.specs.Extended.{Extended, step};

use crate::branch::Side;
use crate::hashes::node;
use crate::way::{HEIGHT, add_step, power_of_two};
use ots_base::OutOfMemory;
use ots_ops::{Arg, Op, Ops};
use std::alloc::Global;

/// The paths of all leaves, each as `path` makes it, in memory of `alloc`. There is at least one
/// leaf, and there are fewer than 2^32.
///
/// It takes one hash an inner node, and the memory of the steps: of n leaves n times the height.
pub fn paths(alloc: Global, leaves: &[[u8; 32]]) -> Result<Vec<Ops>, OutOfMemory>
    requires least { 1 ≤ length leaves.now }
    requires most { length leaves.now < 2 ^ 32 }
    ensures count { IfOk result (λ all. length all.items ≡ length leaves.now) }
    ensures paths { IfOk result (λ all. (i : ℕ) → i < length leaves.now
        → slice_index_or all.items i [] ≡ path leaves.now i) }
{
    let (all, _) = paths_and_root(alloc, leaves)?;
    Ok(all)
}

/// The paths of all leaves, as [`paths`] makes them, and the root to which they lead, by the same hashes.
pub fn paths_and_root(
    alloc: Global,
    leaves: &[[u8; 32]],
) -> Result<(Vec<Ops>, [u8; 32]), OutOfMemory>
    requires least { 1 ≤ length leaves.now }
    requires most { length leaves.now < 2 ^ 32 }
    ensures count { IfOk result (λ made. length made.0.items ≡ length leaves.now) }
    ensures paths { IfOk result (λ made. (i : ℕ) → i < length leaves.now
        → slice_index_or made.0.items i [] ≡ path leaves.now i) }
    ensures root { IfOk result (λ made. made.1 ≡ root leaves.now) }
{
    let mut all = no_steps(alloc, leaves.len())?;
    let root = extend_paths(alloc, all.as_mut_slice(), 0, leaves, HEIGHT)?;
    Ok((all, root))
}

/// So many paths without a step.
fn no_steps(alloc: Global, count: usize) -> Result<Vec<Ops>, OutOfMemory>
    ensures { IfOk result (λ all. all.items ≡ replicate count []) }
{
    let mut all = Vec::with_capacity(alloc, count)?;
    for _ in 0..count {
        all.push(Ops::new(alloc))?;
    }
    Ok(all)
}

/// Adds to the paths of the leaves of a part, from a first path on, what leads to the part's root,
/// and answers that root. The leaves fit a tree of this height.
fn extend_paths(
    alloc: Global,
    paths: &mut [Ops],
    first: usize,
    leaves: &[[u8; 32]],
    height: u32,
) -> Result<[u8; 32], OutOfMemory>
    requires within { first + length leaves.now ≤ length paths.old }
    requires least { 1 ≤ length leaves.now }
    requires fits { length leaves.now ≤ 2 ^ height }
    requires height { height ≤ 32 }
    ensures root { IfOk result (λ root. root ≡ root_within height leaves.now) }
    ensures paths { OnOk result (Extended first (length leaves.now) (λ j. path_within height leaves.now j) paths.old
        paths.new) }
{
    if height == 0 {
        return Ok(leaves[0]);
    }
    let half = power_of_two(height - 1);
    if leaves.len() <= half {
        return extend_paths(alloc, paths, first, leaves, height - 1);
    }
    let left = extend_paths(alloc, paths, first, &leaves[..half], height - 1)?;
    let right = extend_paths(alloc, paths, first + half, &leaves[half..], height - 1)?;
    extend_each(alloc, paths, first, half, Side::Right, &right)?;
    let others = leaves.len() - half;
    extend_each(alloc, paths, first + half, others, Side::Left, &left)?;
    Ok(node(&left, &right))
}

/// Adds one step to each of `count` paths, from that at `first` on.
fn extend_each(
    alloc: Global,
    paths: &mut [Ops],
    first: usize,
    count: usize,
    side: Side,
    other: &[u8; 32],
) -> Result<(), OutOfMemory>
    requires { first + count ≤ length paths.old }
    ensures { OnOk result (Extended first count (λ _. step side other.now) paths.old paths.new) }
{
    for j in 0..count {
        let ops = &mut paths[first + j];
        extend(alloc, ops, side, other)?;
    }
    Ok(())
}

/// Adds a step to a path, by the side on which the other part stands, and that part's root.
fn extend(alloc: Global, ops: &mut Ops, side: Side, other: &[u8; 32]) -> Result<(), OutOfMemory>
    ensures { OnOk result (ops.new ≡ ops.old ++ step side other.now) }
{
    let argument = Arg::copy_of(alloc, other)?;
    match side {
        Side::Left => add_step(ops, Op::Prepend(argument)),
        Side::Right => add_step(ops, Op::Append(argument)),
    }
}
