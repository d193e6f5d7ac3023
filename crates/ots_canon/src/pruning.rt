//! Keeping the one path that says most.
ghost use Rattle.std.specs.Prelude.{◌≡◌, ◌+◌, ◌<◌, ◌↔◌, ◌∷◌, [], IfOk, Some, true, length, All, slice_get};
ghost use Rattle.ots_tree.specs.declared.token.Token.{Token};
ghost use Rattle.std.specs.List.{filter};
ghost use Rattle.ots_canon.specs.Leading.{token_height, lower, IsLeastHeight, Leads, AreLeadsFrom, AreLeads};
ghost use Rattle.ots_canon.specs.Leading.{IsFirstMarked, first_of, is_of_run, IsLineOfFirst};
ghost use Rattle.ots_canon.specs.Places.{HasNode, AreNodes, AreEnds};
ghost use Rattle.ots_canon.specs.Prune.{IsPruneOf};

use crate::form::canon;
use crate::merging::{gather_items, items_after};
use crate::tokens::{Tokens, ends_of};
use ots_attest::Attestation;
use ots_base::OutOfMemory;
use ots_tree::{Token, Tree, from_tokens};
use std::alloc::Global;

/// The tree of one path: of those that end in the least Bitcoin height the first in the order of
/// paths. Where no path ends in a Bitcoin attestation, it is the canonical form of the tree. Heights
/// of Litecoin do not count.
pub fn prune(alloc: Global, tree: &Tree) -> Result<Tree, OutOfMemory>
    ensures { IfOk result (λ pruned. IsPruneOf tree.now pruned) }
{
    let tokens = Tokens::new(alloc, tree.tokens(), &[])?;
    match least_height(&tokens) {
        Some(height) => {
            let kept = first_path(alloc, &tokens, height)?;
            from_tokens(alloc, kept)
        }
        None => canon(alloc, tree),
    }
}

/// The least height of the Bitcoin attestations among these tokens.
fn least_height(tokens: &Tokens<'_>) -> Option<u64>
    ensures { IsLeastHeight tokens.now result }
{
    let mut least = None;
    for at in 0..tokens.len() {
        least = lower(least, height_at(tokens, at));
    }
    least
}

/// The lower of two heights, where there are two.
fn lower(one: Option<u64>, other: Option<u64>) -> Option<u64>
    ensures { result ≡ lower one other }
{
    match (one, other) {
        (Some(one), Some(other)) => Some(if other < one { other } else { one }),
        (Some(one), None) => Some(one),
        (None, other) => other,
    }
}

/// The height of the Bitcoin attestation at a place, if one stands there.
fn height_at(tokens: &Tokens<'_>, at: usize) -> Option<u64>
    requires { at < length tokens.now }
    ensures { (x : Token) → slice_get tokens.now at ≡ Some x → result ≡ token_height x }
{
    if tokens.is_fork(at) || tokens.is_op(at) {
        return None;
    }
    match tokens.at(at) {
        Token::Attestation(Attestation::Bitcoin(height)) => Some(*height),
        _ => None,
    }
}

/// The first in the order of paths of those that end in this Bitcoin height: its operations, and its
/// attestation. Nothing where no path does.
///
/// Only nodes that lead there are entered. Those at which paths begin alike are one group.
fn first_path(alloc: Global, tokens: &Tokens<'_>, height: u64) -> Result<Vec<Token>, OutOfMemory>
    requires nodes { AreNodes tokens.now }
    requires root { HasNode tokens.now 0 }
    ensures { IfOk result (λ path. IsLineOfFirst tokens.now height (0 ∷ []) path.items) }
{
    let ends = ends_of(alloc, tokens)?;
    let leads = leads_of(alloc, tokens, &ends, height)?;
    let mut path = Vec::new(alloc);
    let mut items = Vec::new(alloc);
    gather_items(tokens, &ends, 0, &mut items)?;
    while let Some(first) = first_leading(tokens, &leads, &items) {
        let token = tokens.at(first);
        path.push(token.copy()?)?;
        if let Token::Attestation(_) = token {
            return Ok(path);
        }
        let run = run_of(alloc, tokens, &leads, &items, first)?;
        items = items_after(alloc, tokens, &ends, &run, 0)?;
    }
    Ok(path)
}

/// For each token whether the node that begins there has a path that ends in this Bitcoin height.
fn leads_of(
    alloc: Global,
    tokens: &Tokens<'_>,
    ends: &[usize],
    height: u64,
) -> Result<Vec<bool>, OutOfMemory>
    requires nodes { AreNodes tokens.now }
    requires ends { AreEnds tokens.now ends.now }
    ensures { IfOk result (λ leads. AreLeads tokens.now height leads.items) }
{
    let mut leads = Vec::new(alloc);
    leads.resize(tokens.len(), false)?;
    let mut at = tokens.len();
    while at > 0 {
        at -= 1;
        leads[at] = leads_at(tokens, ends, height, at, &leads);
    }
    Ok(leads)
}

/// Whether the node that begins here has such a path, where that is known of those after.
fn leads_at(tokens: &Tokens<'_>, ends: &[usize], height: u64, at: usize, leads: &[bool]) -> bool
    requires nodes { AreNodes tokens.now }
    requires ends { AreEnds tokens.now ends.now }
    requires in_range { at < length tokens.now }
    requires leads { AreLeadsFrom tokens.now height (at + 1) leads.now }
    ensures { (result ≡ true) ↔ Leads tokens.now height at }
{
    if tokens.is_fork(at) {
        leads[at + 1] || leads[ends[at + 1]]
    } else if tokens.is_op(at) {
        leads[at + 1]
    } else {
        is_bitcoin(tokens, at, height)
    }
}

/// Whether the Bitcoin attestation of this height stands at a place.
fn is_bitcoin(tokens: &Tokens<'_>, at: usize, height: u64) -> bool
    requires { at < length tokens.now }
    ensures { (x : Token) → slice_get tokens.now at ≡ Some x → (result ≡ true) ↔ (token_height x ≡ Some height) }
{
    match height_at(tokens, at) {
        Some(other) => other == height,
        None => false,
    }
}

/// Of the items at these places that lead to the height the first in their order.
fn first_leading(tokens: &Tokens<'_>, leads: &[bool], items: &[usize]) -> Option<usize>
    requires { All (λ k. k < length leads.now) items.now }
    ensures { IsFirstMarked tokens.now leads.now items.now result }
{
    let mut first = None;
    for place in items {
        if leads[*place] {
            first = Some(first_of(tokens, first, *place));
        }
    }
    first
}

/// The one of two places that comes first, where there are two.
fn first_of(tokens: &Tokens<'_>, found: Option<usize>, place: usize) -> usize
    ensures { result ≡ first_of tokens.now found place }
{
    match found {
        Some(first) if !tokens.compare(place, first).is_lt() => first,
        _ => place,
    }
}

/// Of the places of items that lead to the height those that begin as the one at `first` does.
fn run_of(
    alloc: Global,
    tokens: &Tokens<'_>,
    leads: &[bool],
    items: &[usize],
    first: usize,
) -> Result<Vec<usize>, OutOfMemory>
    requires { All (λ k. k < length leads.now) items.now }
    ensures { IfOk result (λ run. run.items ≡ filter (is_of_run tokens.now leads.now first) items.now) }
{
    let mut run = Vec::new(alloc);
    for place in items {
        if leads[*place] && tokens.compare(first, *place).is_eq() {
            run.push(*place)?;
        }
    }
    Ok(run)
}
