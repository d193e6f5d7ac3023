//! The proof that the answers of calendars complete.
ghost use Rattle.std.specs.Prelude.{◌≡◌, ◌↔◌, ◌≤◌, ◌<◌, ◌-◌, ◌^◌, ℕ, List, Option, Some, length, IfOk, IsTrue, false};
ghost use Rattle.ots_canon.specs.Canonical.{IsCanonOf};
ghost use Rattle.ots_pending.specs.Completed.{AreSoundFor, IsCompleted, IsCompletedWithin, IsToldWithin};
ghost use Rattle.ots_pending.specs.Grown.{ArePut};
ghost use Rattle.ots_pending.specs.Least.{AreCanonical};
ghost use Rattle.ots_pending.specs.Pairs.{ArePairs, PairAt};
ghost use Rattle.ots_pending.specs.Parts.{AreNone, IsFormOfPart, IsPart, SomeArePut};
ghost use Rattle.ots_tree.specs.Sound.{IsSoundPre};
ghost use Rattle.ots_tree.specs.Wire.{Node};
ghost use Rattle.ots_tree.specs.declared.token.Token.{Token};

use crate::forms::forms_of;
use crate::growing::{Growth, Window, grown, ready_trees};
use crate::least::at_least;
use crate::limits::{limits_of_tree, limits_of_trees};
use crate::pairs::Pairs;
use ots_base::OutOfMemory;
use ots_canon::canon;
use ots_ops::Message;
use ots_tree::{Detached, Tree, beside, from_tokens, limits_of_detached, spelled_length};
use std::alloc::Global;

/// The canonical tree of all paths of the proof and, for each of its pending paths whose pair was given
/// a tree, the path's operations followed by each path of that tree. So pending attestations stay.
/// There is one tree, or none, for each of the proof's pairs, as `pending_pairs` answers them, and each
/// tree is sound for the message of its pair and the number of operations before it. So the new tree is
/// sound for the proof's digest.
///
/// Equal items of the proof are made one first, so that a tree is put once into each node whose pair it
/// was given for. It applies each operation above a pending attestation at most once, and no other, and takes
/// memory of `alloc` for the tokens of what it makes. Where no tree was given it is the proof's canonical form,
/// and no operation is applied.
pub fn completed(
    alloc: Global,
    proof: &Detached,
    pairs: &Pairs,
    trees: &[Option<Tree>],
) -> Result<Tree, OutOfMemory>
    requires pairs { ArePairs proof.now pairs.now }
    requires trees { length trees.now ≡ length pairs.now }
    requires sound { AreSoundFor pairs.now trees.now }
    ensures completed { IfOk result (IsCompleted proof.now pairs.now trees.now) }
    ensures sound { IfOk result (IsSoundPre (length proof.now.digest) 0) }
{
    limits_of_detached(proof);
    let form = canon(alloc, &proof.tree)?;
    if are_none(trees) {
        return Ok(form);
    }
    let ready = ready_trees(alloc, pairs, trees)?;
    let window = Window {
        from: 0,
        room: u64::MAX,
    };
    let all = form_of_part(
        alloc,
        grown_part(alloc, proof, &form, pairs, &ready, window)?,
    )?;
    Ok(all.tree)
}

/// The same tree, where its spelling has at most `most` bytes, and none where it has more.
///
/// The trees that were given are put in canonical form. Where those at places of which none stands in the node
/// of another or below it are spelled in more than `most` bytes together, the whole is too, and nothing is put
/// anywhere: that takes memory for the proof and for the forms of the trees.
///
/// Else they are put into the proof part by part: each part until the trees that are put in it are spelled in more
/// than `most` bytes, at least one. It is joined to what the parts before made, and once that is too long, the whole
/// is, and no more is made of it. So it takes memory for the proof, for the forms of the trees, for twice `most`
/// bytes, and for one tree more, also where paths that are put in are there already. Its time is that for all that
/// is put in, with the proof and `most` bytes once for each part.
pub fn completed_within(
    alloc: Global,
    proof: &Detached,
    pairs: &Pairs,
    trees: &[Option<Tree>],
    most: u32,
) -> Result<Option<Tree>, OutOfMemory>
    requires pairs { ArePairs proof.now pairs.now }
    requires trees { length trees.now ≡ length pairs.now }
    requires sound { AreSoundFor pairs.now trees.now }
    ensures { IfOk result (IsCompletedWithin proof.now pairs.now trees.now most) }
{
    if are_none(trees) {
        return Ok(told_within(completed(alloc, proof, pairs, trees)?, most));
    }
    let forms = forms_of(alloc, trees)?;
    within(alloc, proof, pairs, &forms, most)
}

/// Whether no tree was given.
fn are_none(trees: &[Option<Tree>]) -> bool
    ensures { IsTrue result ↔ AreNone trees.now }
{
    for tree in trees {
        if tree.is_some() {
            return false;
        }
    }
    true
}

/// The same, with these very trees in their places.
fn within(
    alloc: Global,
    proof: &Detached,
    pairs: &Pairs,
    trees: &[Option<Tree>],
    most: u32,
) -> Result<Option<Tree>, OutOfMemory>
    requires pairs { ArePairs proof.now pairs.now }
    requires trees { length trees.now ≡ length pairs.now }
    requires sound { AreSoundFor pairs.now trees.now }
    requires canonical { AreCanonical trees.now }
    ensures { IfOk result (IsCompletedWithin proof.now pairs.now trees.now most) }
{
    limits_of_detached(proof);
    limits_of_tree(&proof.tree);
    limits_of_trees(trees);
    let form = canon(alloc, &proof.tree)?;
    if at_least(alloc, proof, &form, pairs, trees)? > most as u64 {
        return Ok(None);
    }
    let ready = ready_trees(alloc, pairs, trees)?;
    let room = most as u64;
    let first = grown_part(alloc, proof, &form, pairs, &ready, Window { from: 0, room })?;
    let mut made = form_of_part(alloc, first)?;
    while !made.is_whole {
        if spelled_length(&made.tree) > room {
            return Ok(None);
        }
        made = with_next(alloc, proof, &form, pairs, &ready, room, made)?;
    }
    Ok(told_within(made.tree, most))
}

/// The tree, where its spelling has at most so many bytes.
fn told_within(tree: Tree, most: u32) -> Option<Tree>
    ensures { IsToldWithin most tree result }
{
    if spelled_length(&tree) > most as u64 {
        return None;
    }
    Some(tree)
}

/// A proof's tree with trees at those places of their pairs that come before a path.
#[derive(Drop)]
pub(crate) struct Part {
    /// The tree.
    pub(crate) tree: Tree,
    /// The number of this path.
    pub(crate) next: usize,
    /// Whether there is no such path.
    pub(crate) is_whole: bool,
}

/// The canonical form of a proof's tree, with the trees at those places of their pairs that are in a window.
fn grown_part(
    alloc: Global,
    proof: &Detached,
    form: &Tree,
    pairs: &Pairs,
    ready: &[Option<Tree>],
    window: Window,
) -> Result<Part, OutOfMemory>
    requires form { IsCanonOf proof.now.tree form.now }
    requires ready { SomeArePut pairs.now ready.now }
    ensures part { (given : List (Option Node)) → ArePut pairs.now given ready.now
        → IfOk result (IsPart pairs.now given (Some proof.now.digest) form.now window.from) }
    ensures goes_on { IfOk result (λ part. part.is_whole ≡ false → window.from < part.next) }
    ensures within { window.from ≤ length form.now → IfOk result (λ part. part.next ≤ length form.now) }
    ensures free { window.room ≡ 2 ^ 64 - 1 → IfOk result (λ part. IsTrue part.is_whole) }
{
    limits_of_detached(proof);
    let digest = Message::new(alloc, proof.digest.bytes())?;
    let Growth {
        tokens,
        next,
        is_whole,
    } = grown(
        alloc,
        form.tokens(),
        form.depths(),
        digest,
        pairs.listing(),
        ready,
        window,
    )?;
    Ok(Part {
        tree: from_tokens(alloc, tokens)?,
        next,
        is_whole,
    })
}

/// The canonical form of a part from the first path on.
fn form_of_part(alloc: Global, part: Part) -> Result<Part, OutOfMemory>
    ensures form { (pairs : List PairAt) (given : List (Option Node)) (m : Option (List ℕ)) (form : List Token)
        → IsPart pairs given m form 0 part → IfOk result (IsFormOfPart pairs given m form) }
    ensures next { IfOk result (λ made. made.next ≡ part.next) }
    ensures whole { IfOk result (λ made. made.is_whole ≡ part.is_whole) }
{
    Ok(Part {
        tree: canon(alloc, &part.tree)?,
        next: part.next,
        is_whole: part.is_whole,
    })
}

/// A part with the next one, in which as many trees are put as there is room for.
fn with_next(
    alloc: Global,
    proof: &Detached,
    form: &Tree,
    pairs: &Pairs,
    ready: &[Option<Tree>],
    room: u64,
    made: Part,
) -> Result<Part, OutOfMemory>
    requires form { IsCanonOf proof.now.tree form.now }
    requires ready { SomeArePut pairs.now ready.now }
    ensures part { (given : List (Option Node)) → ArePut pairs.now given ready.now
        → IsFormOfPart pairs.now given (Some proof.now.digest) form.now made
        → IfOk result (IsFormOfPart pairs.now given (Some proof.now.digest) form.now) }
    ensures goes_on { IfOk result (λ part. part.is_whole ≡ false → made.next < part.next) }
    ensures within { made.next ≤ length form.now → IfOk result (λ part. part.next ≤ length form.now) }
{
    let window = Window {
        from: made.next,
        room,
    };
    let next = grown_part(alloc, proof, form, pairs, ready, window)?;
    let both = Part {
        tree: beside(made.tree, next.tree)?,
        next: next.next,
        is_whole: next.is_whole,
    };
    form_of_part(alloc, both)
}
