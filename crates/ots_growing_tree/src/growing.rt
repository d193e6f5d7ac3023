//! A calendar's tree that grows, and the paths of its leaves.
ghost use Rattle.std.specs.Prelude.{◌≡◌, ◌≤◌, ◌<◌, ◌+◌, ◌-◌, ◌*◌, ◌/◌, ◌^◌, ◌++◌, ◌∷◌, ℕ, List, []};
ghost use Rattle.std.specs.Prelude.{◌%◌, length, take, drop, vec_capacity};
ghost use Rattle.std.specs.Prelude.{OnOk, IfOk, is_ok, IsOk, option_to_list, nat_lt, if◌then◌else◌};
ghost use Rattle.std.specs.List.{All};
ghost use Rattle.ots_merkle.specs.CalendarTree.{path, root_if_any};
ghost use Rattle.ots_growing_tree.specs.TreeParts.{AreAbove, AreKept, BeginAbove, HasRoom, IsOf, rest_of};

use ots_base::OutOfMemory;
use ots_merkle::{Pushed, add_path, root};
use ots_ops::Ops;
use std::alloc::Global;
use std::marker::Model;

/// How many leaves make a run, of which the tree keeps the root alone.
pub const RUN: usize = 16;

/// How many nodes of a level make a group, whose root is a node of the level above.
const GROUP: usize = 4;

/// How many levels stand above the roots of the runs of fewer than 2^32 leaves.
const LEVELS: usize = 13;

/// What a tree keeps.
#[derive(Drop)]
struct Parts {
    /// The leaves after the last whole run.
    tail: Vec<[u8; 32]>,
    /// The roots of the whole runs.
    runs: Vec<[u8; 32]>,
    /// The levels above them: each has the roots of the whole groups of the one below it.
    above: Vec<Vec<[u8; 32]>>,
}

impl Parts {
    /// Nothing yet. The memory of a tail and of all levels is taken.
    fn new(alloc: Global) -> Result<Parts, OutOfMemory>
        ensures { IfOk result (IsOf [] 0) }
    {
        Ok(Parts {
            tail: Vec::with_capacity(alloc, RUN)?,
            runs: Vec::new(alloc),
            above: empty_levels(alloc)?,
        })
    }

    /// Adds a leaf, where there is room for it.
    fn push(&mut self, leaf: [u8; 32])
        requires { (leaves : List (List ℕ)) × (total : ℕ) × IsOf leaves total self.old
            × (length leaves < total) }
        ensures { (leaves : List (List ℕ)) (total : ℕ) → IsOf leaves total self.old → length leaves < total
            → IsOf (leaves ++ leaf ∷ []) total self.new }
    {
        self.tail.push(leaf).unwrap();
        if self.tail.len() == RUN {
            self.runs.push(root(&self.tail)).unwrap();
            self.tail.clear();
            close_group(&self.runs, &mut self.above);
        }
    }

    /// Makes room for as many leaves in all.
    fn reserve(&mut self, total: usize) -> Result<(), OutOfMemory>
        requires total { total < 2 ^ 32 }
        requires levels { length self.old.above.items ≡ LEVELS }
        ensures kept { (leaves : List (List ℕ)) (before : ℕ) → IsOf leaves before self.old
            → IsOf leaves before self.new }
        ensures room { OnOk result ((leaves : List (List ℕ)) (before : ℕ) → IsOf leaves before self.old
            → length leaves ≤ total → IsOf leaves total self.new) }
    {
        reserve_to(&mut self.runs, total / RUN)?;
        reserve_levels(&mut self.above, total / RUN)
    }
}

/// As many levels as may ever be needed, without a node.
fn empty_levels(alloc: Global) -> Result<Vec<Vec<[u8; 32]>>, OutOfMemory>
    ensures count { IfOk result (λ levels. length levels.items ≡ LEVELS) }
    ensures empty { IfOk result (λ levels. All (λ level. level.items ≡ []) levels.items) }
{
    let mut levels = Vec::with_capacity(alloc, LEVELS)?;
    for _ in 0..LEVELS {
        levels.push(Vec::new(alloc))?;
    }
    Ok(levels)
}

/// Makes room for as many nodes in all.
fn reserve_to(level: &mut Vec<[u8; 32]>, total: usize) -> Result<(), OutOfMemory>
    ensures items { level.new.items ≡ level.old.items }
    ensures kept { vec_capacity level.old ≤ vec_capacity level.new }
    ensures room { OnOk result (total ≤ vec_capacity level.new) }
{
    level.reserve(total.saturating_sub(level.len()))?;
    Ok(())
}

/// Makes room in each level for what stands above `total` nodes.
fn reserve_levels(levels: &mut [Vec<[u8; 32]>], total: usize) -> Result<(), OutOfMemory>
    requires { total < GROUP ^ (length levels.old + 1) }
    ensures kept { AreKept levels.old levels.new }
    ensures room { OnOk result (HasRoom levels.new total) }
{
    let Some((level, higher)) = levels.split_first_mut() else {
        return Ok(());
    };
    reserve_to(level, total / GROUP)?;
    reserve_levels(higher, total / GROUP)
}

/// Closes the last group of `below`, whose last node is new, where it is whole: its root goes to the
/// level above, and so on.
fn close_group(below: &[[u8; 32]], above: &mut [Vec<[u8; 32]>])
    requires some { 1 ≤ length below.now }
    requires few { length below.now < 2 ^ 32 }
    requires above { AreAbove above.old (take (length below.now - 1) below.now) }
    requires room { (total : ℕ) × HasRoom above.old total × (length below.now ≤ total) }
    ensures above { AreAbove above.new below.now }
    ensures room { (total : ℕ) → HasRoom above.old total → HasRoom above.new total }
    ensures count { length above.new ≡ length above.old }
{
    if below.len() % GROUP != 0 {
        return;
    }
    let Some((level, higher)) = above.split_first_mut() else {
        unreachable!();
    };
    level.push(root(&below[below.len() - GROUP..])).unwrap();
    close_group(level, higher);
}

/// The nodes after the last whole group of a level.
fn rest(level: &[[u8; 32]]) -> &[[u8; 32]]
    ensures rest { result.now ≡ rest_of GROUP level.now }
    ensures few { length result.now < GROUP }
{
    &level[level.len() / GROUP * GROUP..]
}

/// Puts nodes to the start of a room, and then one more, where there is one, and answers how many.
fn fill(room: &mut [[u8; 32]; GROUP], nodes: &[[u8; 32]], last: Option<[u8; 32]>) -> usize
    requires { length nodes.now < GROUP }
    ensures nodes { take result room.new ≡ nodes.now ++ option_to_list last }
    ensures count { result ≡ length nodes.now + length (option_to_list last) }
{
    room[..nodes.len()].copy_from_slice(nodes);
    match last {
        Some(node) => {
            room[nodes.len()] = node;
            nodes.len() + 1
        }
        None => nodes.len(),
    }
}

/// The root of the calendar's tree of these nodes, where there are any.
pub fn root_of(nodes: &[[u8; 32]]) -> Option<[u8; 32]>
    requires { length nodes.now < 2 ^ 32 }
    ensures { result ≡ root_if_any nodes.now }
{
    if nodes.is_empty() {
        return None;
    }
    Some(root(nodes))
}

/// The root over the first nodes of a level and then one more, where there is one.
fn root_above(
    level: &[[u8; 32]],
    above: &[Vec<[u8; 32]>],
    last: Option<[u8; 32]>,
) -> Option<[u8; 32]>
    requires { BeginAbove above.now level.now }
    ensures { result ≡ root_if_any (level.now ++ option_to_list last) }
{
    let mut room = [[0; 32]; GROUP];
    let count = fill(&mut room, rest(level), last);
    let closing = root_of(&room[..count]);
    match above.split_first() {
        Some((next, higher)) => root_above(&next[..level.len() / GROUP], higher, closing),
        None => closing,
    }
}

/// The whole group of this number, or after all of them the nodes that close the level.
fn group_at<'a>(level: &'a [[u8; 32]], closing: &'a [[u8; 32]], number: usize) -> &'a [[u8; 32]]
    ensures { result.now ≡ (if nat_lt number (length level.entry.now / GROUP)
        then take GROUP (drop (GROUP * number) level.entry.now) else closing.entry.now) }
{
    if number < level.len() / GROUP {
        return &level[GROUP * number..][..GROUP];
    }
    closing
}

/// Adds the path of the node of index `i` among the first nodes of a level and then one more, where
/// there is one.
fn add_path_above(
    alloc: Global,
    ops: &mut Ops,
    level: &[[u8; 32]],
    above: &[Vec<[u8; 32]>],
    last: Option<[u8; 32]>,
    i: usize,
) -> Result<(), OutOfMemory>
    requires above { BeginAbove above.now level.now }
    requires inside { i < length level.now + length (option_to_list last) }
    ensures { OnOk result (ops.new ≡ ops.old ++ path (level.now ++ option_to_list last) i) }
{
    let mut room = [[0; 32]; GROUP];
    let count = fill(&mut room, rest(level), last);
    let closing = &room[..count];
    add_path(alloc, ops, group_at(level, closing, i / GROUP), i % GROUP)?;
    match above.split_first() {
        Some((next, higher)) => {
            let first = &next[..level.len() / GROUP];
            add_path_above(alloc, ops, first, higher, root_of(closing), i / GROUP)
        }
        None => Ok(()),
    }
}

/// A calendar's tree that grows leaf by leaf and makes the root over its first leaves, as many as one
/// asks for, and the paths to it. It keeps the roots of the whole runs of 16 leaves and what stands
/// above them, some 2.7 bytes a leaf, and is given the leaves of a run when it needs them. It has fewer
/// than 2^32 leaves.
///
/// Contracts see the list of the leaves that were pushed, and how many pushes can't be refused from
/// here on.
#[derive(Drop)]
pub struct GrowingTree {
    parts: Parts,
    /// How many leaves there is still room for.
    spare: usize,
    // Which leaves were pushed, for contracts alone.
    pushed: Pushed,
}

impl Model for GrowingTree {
    ghost use Rattle.std.specs.Prelude.{◌+◌, length};
    ghost use Rattle.ots_merkle.specs.Grown.{Grown};
    ghost use Rattle.ots_growing_tree.specs.TreeParts.{IsOf};

    ghost Value = { Grown };

    ghost view = { λ t. record { leaves = t.pushed.leaves; spare = t.spare } };

    ghost invariant = { λ t. IsOf t.pushed.leaves (length t.pushed.leaves + t.spare) t.parts };
}

impl GrowingTree {
    /// No leaf yet. What is kept lies in memory of `alloc`.
    pub fn new(alloc: Global) -> Result<GrowingTree, OutOfMemory>
        ensures { IfOk result (λ tree. tree.leaves ≡ []) }
    {
        Ok(GrowingTree {
            parts: Parts::new(alloc)?,
            spare: 0,
            pushed: Pushed::nothing(),
        })
    }

    /// How many leaves there are.
    pub fn len(&self) -> usize
        ensures { result ≡ length self.now.leaves }
    {
        RUN * self.parts.runs.len() + self.parts.tail.len()
    }

    /// Makes room, so that the next `pushes` pushes at least can't be refused. The leaves stay.
    pub fn reserve(&mut self, pushes: usize) -> Result<(), OutOfMemory>
        requires { length self.old.leaves + pushes < 2 ^ 32 }
        ensures leaves { self.new.leaves ≡ self.old.leaves }
        ensures kept { self.old.spare ≤ self.new.spare }
        ensures spare { OnOk result (pushes ≤ self.new.spare) }
        ensures not_refused { pushes ≤ self.old.spare → IsOk result }
    {
        if self.spare < pushes {
            let total = self.len() + pushes;
            self.parts.reserve(total)?;
            self.spare = pushes;
        }
        Ok(())
    }

    /// Adds a leaf after the others, which takes one hash on average. Where memory ran out, the leaves
    /// are as before. It takes memory only where no spare push is left.
    pub fn push(&mut self, leaf: [u8; 32]) -> Result<(), OutOfMemory>
        requires { length self.old.leaves + 1 < 2 ^ 32 }
        ensures leaves { self.new.leaves ≡ (if is_ok result then self.old.leaves ++ leaf ∷ []
            else self.old.leaves) }
        ensures spare { self.old.spare ≤ (if is_ok result then self.new.spare + 1 else self.new.spare) }
        ensures not_refused { 0 < self.old.spare → IsOk result }
    {
        self.reserve(1)?;
        self.parts.push(leaf);
        self.spare -= 1;
        self.pushed = self.pushed.and(&leaf);
        Ok(())
    }

    /// The root of the calendar's tree of the leaves that were pushed: `None` exactly where there is no
    /// leaf. It takes no memory.
    pub fn root(&self) -> Option<[u8; 32]>
        ensures { result ≡ root_if_any self.now.leaves }
    {
        self.root_of_first(self.len(), &self.parts.tail)
    }

    /// The root of the calendar's tree of the first `n` leaves, given those of them after their last
    /// whole run: from index `n / RUN * RUN` on. `None` comes exactly where `n` is 0. It takes no memory,
    /// and at most some 80 hashes, however many leaves there are.
    pub fn root_of_first(&self, n: usize, cut: &[[u8; 32]]) -> Option<[u8; 32]>
        requires most { n ≤ length self.now.leaves }
        requires cut { cut.now ≡ drop (RUN * (n / RUN)) (take n self.now.leaves) }
        ensures { result ≡ root_if_any (take n self.now.leaves) }
    {
        let Parts { runs, above, .. } = &self.parts;
        root_above(&runs[..n / RUN], above, root_of(cut))
    }

    /// The operations that lead from the leaf of index `i` to the root, given the leaves of its run: the
    /// leaves from index `i / RUN * RUN` on, `RUN` of them or as many as there are. It takes at most some
    /// 100 hashes, however many leaves there are.
    pub fn path(&self, alloc: Global, i: usize, run: &[[u8; 32]]) -> Result<Ops, OutOfMemory>
        requires is_leaf { i < length self.now.leaves }
        requires run { run.now ≡ take RUN (drop (RUN * (i / RUN)) self.now.leaves) }
        ensures path { IfOk result (λ ops. ops ≡ path self.now.leaves i) }
    {
        self.path_of_first(alloc, self.len(), i, run, &self.parts.tail)
    }

    /// The operations that lead from the leaf of index `i` to the root over the first `n` leaves, given
    /// those of them that are in its run, and those that [`GrowingTree::root_of_first`] is given.
    pub fn path_of_first(
        &self,
        alloc: Global,
        n: usize,
        i: usize,
        run: &[[u8; 32]],
        cut: &[[u8; 32]],
    ) -> Result<Ops, OutOfMemory>
        requires most { n ≤ length self.now.leaves }
        requires is_leaf { i < n }
        requires run { run.now ≡ take RUN (drop (RUN * (i / RUN)) (take n self.now.leaves)) }
        requires cut { cut.now ≡ drop (RUN * (n / RUN)) (take n self.now.leaves) }
        ensures path { IfOk result (λ ops. ops ≡ path (take n self.now.leaves) i) }
    {
        let above = self.path_above(alloc, n, i, root_of(cut))?;
        let mut ops = Ops::new(alloc);
        add_path(alloc, &mut ops, run, i % RUN)?;
        ops.extend(above.items())?;
        Ok(ops)
    }

    /// The end of that path, from the root of the leaf's run on, given the root over those leaves that
    /// [`GrowingTree::root_of_first`] is given, where there are any. The run itself is not needed.
    pub fn path_above(
        &self,
        alloc: Global,
        n: usize,
        i: usize,
        closing: Option<[u8; 32]>,
    ) -> Result<Ops, OutOfMemory>
        requires most { n ≤ length self.now.leaves }
        requires is_leaf { i < n }
        requires closing { closing ≡ root_if_any (drop (RUN * (n / RUN)) (take n self.now.leaves)) }
        ensures path { IfOk result (λ ops.
            path (take RUN (drop (RUN * (i / RUN)) (take n self.now.leaves))) (i % RUN) ++ ops
            ≡ path (take n self.now.leaves) i) }
    {
        let mut ops = Ops::new(alloc);
        let Parts { runs, above, .. } = &self.parts;
        let first = &runs[..n / RUN];
        add_path_above(alloc, &mut ops, first, above, closing, i / RUN)?;
        Ok(ops)
    }
}
