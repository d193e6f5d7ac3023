//! The trees of all calendars in one.
ghost use Rattle.std.specs.Prelude.{◌≡◌, ◌≤◌, ◌∷◌, ◌++◌, [], List, IfOk, length};
ghost use Rattle.ots_draft.specs.inner.Gathering.{AreTrees, HasAll, IsFormWithin};
ghost use Rattle.ots_draft.specs.inner.Gathered.{IsGathered, IsGatheredAny};
ghost use Rattle.ots_tree.specs.Wire.{Node, pre};

use ots_base::OutOfMemory;
use ots_canon::canon;
use ots_pending::fewer_paths;
use ots_tree::{Tree, beside, spelled_length};
use std::alloc::Global;

/// Trees that are gathered in one.
#[derive(Drop)]
pub(crate) struct Gathered {
    /// One node with the paths of all.
    pub(crate) tree: Tree,
    /// How many bytes it is spelled in.
    pub(crate) bytes: u64,
    /// How many its canonical form was spelled in when that was last made. However many trees follow, the
    /// form of all is spelled in no fewer.
    pub(crate) least: u64,
}

/// The canonical tree with the paths of all these trees, at least one. None may come only where it is spelled
/// in more than `most` bytes.
///
/// The trees are gathered one after another. Where what is gathered is spelled in more than `most` bytes, and
/// more than twice those of the canonical form that was last made, that is made anew; and once it is too long,
/// no more is gathered. So it takes memory of `alloc` for a few times `most` bytes and for one tree more, and
/// time for all trees.
pub(crate) fn form_within(
    alloc: Global,
    trees: &[Tree],
    most: u32,
) -> Result<Option<Tree>, OutOfMemory>
    requires some { 1 ≤ length trees.now }
    ensures { IfOk result (IsFormWithin trees.now most) }
{
    are_trees(trees);
    let mut gathered: Option<Gathered> = None;
    for tree in trees {
        let more = with_next(alloc, gathered, tree, most as u64)?;
        if more.least > most as u64 {
            return Ok(None);
        }
        gathered = Some(more);
    }
    let all = gathered.unwrap();
    Ok(Some(canon(alloc, &all.tree)?))
}

/// What is gathered, with one tree more.
fn with_next(
    alloc: Global,
    gathered: Option<Gathered>,
    tree: &Tree,
    most: u64,
) -> Result<Gathered, OutOfMemory>
    ensures { (nodes : List Node) (u : Node) → IsGatheredAny nodes gathered → pre u ≡ tree.now
        → IfOk result (IsGathered (nodes ++ u ∷ [])) }
{
    match gathered {
        Some(before) => joined(alloc, before, tree, most),
        None => in_form(alloc, tree),
    }
}

/// What is gathered, with one tree more, in canonical form where it has grown much.
fn joined(alloc: Global, before: Gathered, tree: &Tree, most: u64) -> Result<Gathered, OutOfMemory>
    ensures { (nodes : List Node) (u : Node) → IsGathered nodes before → pre u ≡ tree.now
        → IfOk result (IsGathered (nodes ++ u ∷ [])) }
{
    let bytes = before
        .bytes
        .saturating_add(spelled_length(tree))
        .saturating_add(1);
    let least = before.least;
    let all = beside(before.tree, tree.copy()?)?;
    if bytes > most.max(least.saturating_mul(2)) {
        return in_form(alloc, &all);
    }
    Ok(Gathered {
        tree: all,
        bytes,
        least,
    })
}

/// A tree in canonical form, as what is gathered.
fn in_form(alloc: Global, tree: &Tree) -> Result<Gathered, OutOfMemory>
    ensures { (nodes : List Node) → HasAll nodes tree.now → IfOk result (IsGathered nodes) }
{
    fewer_paths();
    let form = canon(alloc, tree)?;
    let bytes = spelled_length(&form);
    Ok(Gathered {
        tree: form,
        bytes,
        least: bytes,
    })
}

/// Each of these is a tree, whose tokens are within their limits.
fn are_trees(trees: &[Tree])
    ensures { AreTrees trees.now }
{
    for tree in trees {
        let _ = tree.tokens();
    }
}
