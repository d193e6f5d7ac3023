//! Merging nodes: the canonical tree with the paths of all of them.
ghost use Rattle.std.specs.Prelude.{◌≡◌, ◌<◌, ◌-◌, ◌≤◌, ◌++◌, IfOk, OnOk, length, take, drop, true, All};
ghost use Rattle.std.specs.List.{AllByRecursion};
ghost use Rattle.std.specs.List.Sorted.{IsSortedBy};
ghost use Rattle.ots_tree.specs.Wire.{IsToken};
ghost use Rattle.ots_canon.specs.Places.{HasNode, AreNodes, IsItem, AreEnds, Gathers, GathersAfter, AreAfter, IsFormOf};
ghost use Rattle.ots_canon.specs.Chains.{shifted, AreAlike, IsChain};
ghost use Rattle.ots_canon.specs.Frames.{IsFrame, IsRunEnd, comes_before, Leaves, IsSort, Opens, OpensSome, Writes};

use crate::heads::{compare_heads, items_at, places_of};
use crate::tokens::{Tokens, ends_of};
use ots_base::OutOfMemory;
use ots_tree::Token;
use std::alloc::Global;

/// What is still to be written of a node: the places of its items in their order, from `next` on.
/// Those that begin alike are one item of the node.
#[derive(Drop)]
struct Frame {
    places: Vec<usize>,
    next: usize,
}

/// The tokens of the canonical tree with the paths of the nodes that begin at these places.
pub(crate) fn merged_tokens(
    alloc: Global,
    tokens: &Tokens<'_>,
    roots: &[usize],
) -> Result<Vec<Token>, OutOfMemory>
    requires limits { AllByRecursion IsToken tokens.now }
    requires nodes { AreNodes tokens.now }
    requires roots { All (HasNode tokens.now) roots.now }
    requires some { 0 < length roots.now }
    ensures { IfOk result (λ form. IsFormOf tokens.now roots.now form.items) }
{
    let ends = ends_of(alloc, tokens)?;
    let mut places = Vec::new(alloc);
    for root in roots {
        gather_items(tokens, &ends, *root, &mut places)?;
    }
    write_node(alloc, tokens, &ends, places)
}

/// The tokens of the canonical node with the paths of these items.
fn write_node(
    alloc: Global,
    tokens: &Tokens<'_>,
    ends: &[usize],
    places: Vec<usize>,
) -> Result<Vec<Token>, OutOfMemory>
    requires limits { AllByRecursion IsToken tokens.now }
    requires ends { AreEnds tokens.now ends.now }
    requires items { All (IsItem tokens.now) places.items }
    requires some { 0 < length places.items }
    ensures { IfOk result (λ form. IsFormOf tokens.now places.items form.items) }
{
    let mut written = Vec::new(alloc);
    let mut frames = Vec::new(alloc);
    open(alloc, tokens, places, &mut frames)?;
    while let Some(frame) = frames.pop() {
        write_item(alloc, tokens, ends, frame, &mut frames, &mut written)?;
    }
    Ok(written)
}

/// Writes the first item of a frame, and puts what is then still to be written on the stack: what is
/// left of the frame, and on it the node after the item.
fn write_item(
    alloc: Global,
    tokens: &Tokens<'_>,
    ends: &[usize],
    frame: Frame,
    frames: &mut Vec<Frame>,
    written: &mut Vec<Token>,
) -> Result<(), OutOfMemory>
    requires limits { AllByRecursion IsToken tokens.now }
    requires ends { AreEnds tokens.now ends.now }
    requires frame { IsFrame tokens.now frame }
    ensures { OnOk result (Writes tokens.now ends.now frame frames.old.items frames.new.items written.old.items
        written.new.items) }
{
    let Frame { places, next } = frame;
    let first = places[next];
    let end = run_end(tokens, &places, next);
    let steps = common_steps(tokens, &places[next..end]);
    let after = items_after(alloc, tokens, ends, &places[next..end], steps)?;
    leave(places, end, frames, written)?;
    write_line(tokens, first, first + steps + 1, written)?;
    open_some(alloc, tokens, after, frames)
}

/// Puts what is left of a node on the stack. If it is something, a fork is written.
fn leave(
    places: Vec<usize>,
    end: usize,
    frames: &mut Vec<Frame>,
    written: &mut Vec<Token>,
) -> Result<(), OutOfMemory>
    ensures { OnOk result (Leaves places.items end frames.old.items frames.new.items written.old.items
        written.new.items) }
{
    if end < places.len() {
        frames.push(Frame { places, next: end })?;
        written.push(Token::Fork)?;
    }
    Ok(())
}

/// Writes copies of the tokens from one place up to another.
fn write_line(
    tokens: &Tokens<'_>,
    from: usize,
    to: usize,
    written: &mut Vec<Token>,
) -> Result<(), OutOfMemory>
    requires order { from ≤ to }
    requires within { to ≤ length tokens.now }
    ensures { OnOk result (written.new.items ≡ written.old.items ++ take (to - from) (drop from tokens.now)) }
{
    for at in from..to {
        written.push(tokens.at(at).copy()?)?;
    }
    Ok(())
}

/// Puts the node with these items on the stack, if it has any.
fn open_some(
    alloc: Global,
    tokens: &Tokens<'_>,
    places: Vec<usize>,
    frames: &mut Vec<Frame>,
) -> Result<(), OutOfMemory>
    requires { All (IsItem tokens.now) places.items }
    ensures { OnOk result (OpensSome tokens.now places.items frames.old.items frames.new.items) }
{
    if places.is_empty() {
        return Ok(());
    }
    open(alloc, tokens, places, frames)
}

/// Puts the node with these items on the stack.
fn open(
    alloc: Global,
    tokens: &Tokens<'_>,
    places: Vec<usize>,
    frames: &mut Vec<Frame>,
) -> Result<(), OutOfMemory>
    requires { All (IsItem tokens.now) places.items }
    ensures { OnOk result (Opens tokens.now places.items frames.old.items frames.new.items) }
{
    let places = sorted(alloc, tokens, places)?;
    frames.push(Frame { places, next: 0 })?;
    Ok(())
}

/// The places of these items in their order.
fn sorted(alloc: Global, tokens: &Tokens<'_>, places: Vec<usize>) -> Result<Vec<usize>, OutOfMemory>
    requires { All (IsItem tokens.now) places.items }
    ensures { IfOk result (λ sorted. IsSort tokens.now places.items sorted.items) }
{
    if are_in_order(tokens, &places) {
        return Ok(places);
    }
    let mut items = items_at(alloc, tokens, &places)?;
    items.sort_by(|one, two| compare_heads(&one.head, &two.head))?;
    places_of(alloc, &items)
}

/// Whether the items at these places stand in their order already.
fn are_in_order(tokens: &Tokens<'_>, places: &[usize]) -> bool
    ensures { result ≡ true → IsSortedBy (comes_before tokens.now) places.now }
{
    let mut at = 1;
    while at < places.len() {
        if tokens.compare(places[at], places[at - 1]).is_lt() {
            return false;
        }
        at += 1;
    }
    true
}

/// Where the items end that begin as the one at `from` does.
fn run_end(tokens: &Tokens<'_>, places: &[usize], from: usize) -> usize
    requires { from < length places.now }
    ensures { IsRunEnd tokens.now places.now from result }
{
    let mut end = from + 1;
    while end < places.len() && tokens.compare(places[from], places[end]).is_eq() {
        end += 1;
    }
    end
}

/// How many operations, one after the other and no fork between, follow alike on those at all of
/// these places.
///
/// It goes along each chain for itself, and each time looks about twice as far ahead: so it reads
/// tokens that lie side by side, and looks at few that are not written then.
fn common_steps(tokens: &Tokens<'_>, run: &[usize]) -> usize
    requires some { 0 < length run.now }
    requires alike { IsChain tokens.now run.now 0 }
    ensures { IsChain tokens.now run.now result }
{
    let mut steps = 0;
    let mut ahead = 1;
    while ahead < 256 {
        steps = steps_within(tokens, run, steps, ahead);
        if steps < ahead {
            return steps;
        }
        ahead = 2 * ahead + 1;
    }
    steps
}

/// How many of them follow alike among the next `ahead`, where the first `known` are known to.
fn steps_within(tokens: &Tokens<'_>, run: &[usize], known: usize, ahead: usize) -> usize
    requires some { 0 < length run.now }
    requires chain { IsChain tokens.now run.now known }
    requires ahead { known ≤ ahead }
    ensures chain { IsChain tokens.now run.now result }
    ensures few { result ≤ ahead }
{
    let mut steps = ahead;
    for place in run {
        steps = steps_alike(tokens, run[0], *place, known, steps);
    }
    steps
}

/// How many of the next `ahead` operations after one place follow after the other too.
fn steps_alike(tokens: &Tokens<'_>, first: usize, place: usize, known: usize, ahead: usize) -> usize
    requires alike { AreAlike tokens.now first place known }
    requires ahead { known ≤ ahead }
    ensures alike { AreAlike tokens.now first place result }
    ensures more { known ≤ result }
    ensures few { result ≤ ahead }
{
    let count = tokens.len();
    let mut steps = known;
    while steps < ahead
        && first + steps + 1 < count
        && tokens.is_op(first + steps)
        && tokens.is_op(first + steps + 1)
        && tokens.compare(first + steps + 1, place + steps + 1).is_eq()
    {
        steps += 1;
    }
    steps
}

/// The places of the items of all nodes that stand after the operations `steps` steps after these
/// places.
pub(crate) fn items_after(
    alloc: Global,
    tokens: &Tokens<'_>,
    ends: &[usize],
    run: &[usize],
    steps: usize,
) -> Result<Vec<usize>, OutOfMemory>
    requires ends { AreEnds tokens.now ends.now }
    requires items { All (IsItem tokens.now) (shifted steps run.now) }
    ensures { IfOk result (λ after. AreAfter tokens.now ends.now (shifted steps run.now) after.items) }
{
    let mut after = Vec::new(alloc);
    for place in run {
        gather_after(tokens, ends, *place + steps, &mut after)?;
    }
    Ok(after)
}

/// Adds the places of the items after the one at a place: those of the node after an operation, none
/// after an attestation.
fn gather_after(
    tokens: &Tokens<'_>,
    ends: &[usize],
    place: usize,
    after: &mut Vec<usize>,
) -> Result<(), OutOfMemory>
    requires ends { AreEnds tokens.now ends.now }
    requires item { IsItem tokens.now place }
    ensures { OnOk result (GathersAfter tokens.now ends.now place after.old.items after.new.items) }
{
    if tokens.is_op(place) {
        gather_items(tokens, ends, place + 1, after)?;
    }
    Ok(())
}

/// Adds the places of the items of the node that begins at a place.
pub(crate) fn gather_items(
    tokens: &Tokens<'_>,
    ends: &[usize],
    node: usize,
    places: &mut Vec<usize>,
) -> Result<(), OutOfMemory>
    requires ends { AreEnds tokens.now ends.now }
    requires node { HasNode tokens.now node }
    ensures { OnOk result (Gathers tokens.now ends.now node places.old.items places.new.items) }
{
    let mut at = node;
    while tokens.is_fork(at) {
        places.push(at + 1)?;
        at = ends[at + 1];
    }
    places.push(at)?;
    Ok(())
}
