// Calendars' trees.
//
// | line | its answer |
// |---|---|
// | `tree root N \| LEAVES` | the root over the first N leaves |
// | `tree path N I.. \| LEAVES` | the operations of the path of each of these leaves, as they are spelled |
// | `tree paths N I.. \| LEAVES` | how many paths there are, and these of them |
// | `tree peaks N \| LEAVES` | the root of peaks to which the leaves were pushed, half of them after room was made |
// | `tree growing N I.. \| LEAVES` | the count and the root of a tree that grew so too, and the paths of these leaves |
// | `tree first N K I.. \| LEAVES` | of a tree that grew to N leaves the root over the first K, and these paths to it |
// | `tree firsts N K \| LEAVES` | for each k from 1 to K the SHA-256 of the root over the first k and of all k paths |
ghost use Rattle.std.specs.Prelude.{◌≡◌, ◌+◌, ◌*◌, ◌/◌, ◌^◌, ◌<◌, ◌≤◌, ◌++◌, IfOk, OnOk, length, take, drop};

use crate::names::Names;
use crate::said::Said;
use crate::words::{arrays_of, bytes_of, numbers_of, split_bar, split_number, split_word};
use ots_base::OutOfMemory;
use ots_growing_tree::{GrowingTree, RUN};
use ots_merkle::{Peaks, path, paths, root};
use ots_ops::{MAX_SPELLED_OP, Op, Ops, spell_op};
use sha2::{Digest, Sha256};
use std::alloc::Global;

/// The most leaves of a tree.
const MOST: usize = 100_000;

/// What is asked of a tree.
#[derive(Drop)]
pub struct Question {
    /// Its leaves.
    pub leaves: Vec<[u8; 32]>,
    /// The leaves whose paths are asked for.
    pub indexes: Vec<usize>,
}

/// How many leaves there are, which of them are meant, and after a bar their bytes.
pub fn question_of(names: &Names, text: &str) -> Question {
    let (numbers, words) = split_bar(text);
    let (count, indexes) = split_number(numbers);
    let mut bytes = bytes_of(names, words);
    bytes.truncate(32 * count.min(MOST as u64) as usize);
    Question {
        leaves: arrays_of(names.allocator(), &bytes),
        indexes: numbers_of(names, indexes),
    }
}

/// Answers a question about calendars' trees.
pub fn answer(names: &Names, text: &str, said: &mut Said) {
    let (word, rest) = split_word(text);
    let question = question_of(names, rest);
    let alloc = names.allocator();
    match word {
        "root" => root_of(&question.leaves, said),
        "path" => each_path(alloc, &question.leaves, &question.indexes, said),
        "paths" => all_paths(alloc, &question.leaves, &question.indexes, said),
        "peaks" => peaks(alloc, &question.leaves, said),
        "first" => first(alloc, &question.leaves, &question.indexes, said),
        "firsts" => firsts(alloc, &question.leaves, &question.indexes, said),
        _ => growing(alloc, &question.leaves, &question.indexes, said),
    }
}

fn root_of(leaves: &[[u8; 32]], said: &mut Said) {
    if !leaves.is_empty() && leaves.len() <= MOST {
        said.bytes(&root(leaves));
    }
}

fn each_path(alloc: Global, leaves: &[[u8; 32]], indexes: &[usize], said: &mut Said) {
    for i in indexes {
        if *i < leaves.len()
            && leaves.len() <= MOST
            && let Ok(ops) = path(alloc, leaves, *i)
        {
            say_ops(alloc, ops.items(), said);
        }
    }
}

/// Adds how operations are spelled, one after the other.
fn spell_ops(ops: &[Op], all: &mut Vec<u8>) {
    for op in ops {
        let mut spelled = [0; MAX_SPELLED_OP];
        let length = spell_op(op, &mut spelled);
        let _ = all.extend_from_slice(spelled.get(..length).unwrap_or(&[]));
    }
}

/// Says how operations are spelled, one after the other, `-` where there is none.
pub fn say_ops(alloc: Global, ops: &[Op], said: &mut Said) {
    let mut all = Vec::new(alloc);
    spell_ops(ops, &mut all);
    if ops.is_empty() {
        said.word("-");
    } else {
        said.bytes(&all);
    }
}

fn all_paths(alloc: Global, leaves: &[[u8; 32]], indexes: &[usize], said: &mut Said) {
    if !leaves.is_empty()
        && leaves.len() <= MOST
        && let Ok(all) = paths(alloc, leaves)
    {
        said.count(all.len());
        for i in indexes {
            if let Some(ops) = all.get(*i) {
                say_ops(alloc, ops.items(), said);
            }
        }
    }
}

fn peaks(alloc: Global, leaves: &[[u8; 32]], said: &mut Said) {
    let mut peaks = Peaks::new(alloc);
    let half = leaves.len() / 2;
    for (i, leaf) in leaves.iter().enumerate() {
        if i == half {
            let _ = peaks.reserve(leaves.len() - half);
        }
        let _ = peaks.push(*leaf);
    }
    said.hash(peaks.root());
}

fn growing(alloc: Global, leaves: &[[u8; 32]], indexes: &[usize], said: &mut Said) {
    if leaves.len() <= MOST
        && let Ok(tree) = grown(alloc, leaves)
    {
        said.count(tree.len());
        said.hash(tree.root());
        for i in indexes {
            grown_path(alloc, &tree, leaves, *i, said);
        }
    }
}

/// A tree that grew by these leaves, where room was made for the second half of them.
fn grown(alloc: Global, leaves: &[[u8; 32]]) -> Result<GrowingTree, OutOfMemory>
    requires { length leaves.now ≤ MOST }
    ensures { IfOk result (λ tree. tree.leaves ≡ leaves.now) }
{
    let half = leaves.len() / 2;
    let mut tree = GrowingTree::new(alloc)?;
    grow(&mut tree, &leaves[..half])?;
    tree.reserve(leaves.len() - half)?;
    grow(&mut tree, &leaves[half..])?;
    Ok(tree)
}

/// Pushes these leaves.
fn grow(tree: &mut GrowingTree, leaves: &[[u8; 32]]) -> Result<(), OutOfMemory>
    requires { length tree.old.leaves + length leaves.now < 2 ^ 32 }
    ensures { OnOk result (tree.new.leaves ≡ tree.old.leaves ++ leaves.now) }
{
    for leaf in leaves {
        tree.push(*leaf)?;
    }
    Ok(())
}

/// Says the path of a leaf, which is made of the leaves of its run.
fn grown_path(alloc: Global, tree: &GrowingTree, leaves: &[[u8; 32]], i: usize, said: &mut Said)
    requires { tree.now.leaves ≡ leaves.now }
{
    if i < leaves.len()
        && let Ok(ops) = tree.path(alloc, i, run_of(leaves, i))
    {
        say_ops(alloc, ops.items(), said);
    }
}

fn first(alloc: Global, leaves: &[[u8; 32]], indexes: &[usize], said: &mut Said) {
    if leaves.len() <= MOST
        && let Some((count, asked)) = indexes.split_first()
        && *count <= leaves.len()
        && let Ok(tree) = grown(alloc, leaves)
    {
        said.hash(tree.root_of_first(*count, cut_of(leaves, *count)));
        for i in asked {
            if let Some(ops) = first_path(alloc, &tree, leaves, *count, *i) {
                say_ops(alloc, ops.items(), said);
            }
        }
    }
}

fn firsts(alloc: Global, leaves: &[[u8; 32]], indexes: &[usize], said: &mut Said) {
    if leaves.len() <= MOST
        && let Some(most) = indexes.first()
        && *most < MOST
        && let Ok(tree) = grown(alloc, leaves)
    {
        for count in 1..*most + 1 {
            if count <= leaves.len() {
                said.hash(Some(all_of_first(alloc, &tree, leaves, count)));
            }
        }
    }
}

/// The SHA-256 of the root over the first leaves of a tree, and of the paths of all of them to it.
fn all_of_first(alloc: Global, tree: &GrowingTree, leaves: &[[u8; 32]], count: usize) -> [u8; 32]
    requires leaves { tree.now.leaves ≡ leaves.now }
    requires most { count ≤ length leaves.now }
{
    let mut all = Vec::new(alloc);
    if let Some(root) = tree.root_of_first(count, cut_of(leaves, count)) {
        let _ = all.extend_from_slice(root.as_slice());
    }
    for i in 0..count {
        if let Some(ops) = first_path(alloc, tree, leaves, count, i) {
            spell_ops(ops.items(), &mut all);
        }
    }
    Sha256::digest(&all)
}

/// The path of a leaf to the root over the first leaves of a tree, where it is one of them.
fn first_path(
    alloc: Global,
    tree: &GrowingTree,
    leaves: &[[u8; 32]],
    count: usize,
    i: usize,
) -> Option<Ops>
    requires leaves { tree.now.leaves ≡ leaves.now }
    requires most { count ≤ length leaves.now }
{
    if i >= count {
        return None;
    }
    let run = run_of(&leaves[..count], i);
    tree.path_of_first(alloc, count, i, run, cut_of(leaves, count))
        .ok()
}

/// Those of the first leaves that come after their last whole run.
fn cut_of(leaves: &[[u8; 32]], count: usize) -> &[[u8; 32]]
    requires { count ≤ length leaves.now }
    ensures { result.now ≡ drop (RUN * (count / RUN)) (take count leaves.now) }
{
    &leaves[..count][RUN * (count / RUN)..]
}

/// The run of a leaf: `RUN` leaves, or as many as there are.
fn run_of(leaves: &[[u8; 32]], i: usize) -> &[[u8; 32]]
    requires { i < length leaves.now }
    ensures { result.now ≡ take RUN (drop (RUN * (i / RUN)) leaves.now) }
{
    let rest = &leaves[RUN * (i / RUN)..];
    if rest.len() < RUN {
        return rest;
    }
    &rest[..RUN]
}
