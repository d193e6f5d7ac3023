//! What items are sorted by, kept beside their places, so that a sort reads no token over and over.
ghost use Rattle.std.specs.Prelude.{◌≡◌, ◌<◌, IfOk, length, map, All};
ghost use Rattle.ots_canon.specs.Order.{step_cmp};
ghost use Rattle.ots_canon.specs.Steps.{token_step};
ghost use Rattle.ots_canon.specs.Heads.{head_step, place_of, AreHeads};

use crate::tokens::{Tokens, compare_steps};
use ots_attest::Attestation;
use ots_base::OutOfMemory;
use ots_ops::Op;
use ots_tree::Token;
use std::alloc::Global;
use std::cmp::Ordering;

/// A token, of which what most are compared by is at hand.
#[derive(Clone, Copy)]
pub(crate) enum Head<'a> {
    /// The Bitcoin attestation of this height.
    Bitcoin(u64),
    /// The operation SHA-256.
    Sha256,
    /// Any token.
    Token(&'a Token),
}

/// The token at a place, and the place.
#[derive(Clone, Copy)]
pub(crate) struct Item<'a> {
    pub(crate) head: Head<'a>,
    pub(crate) place: usize,
}

/// A token as a head.
fn head_of(token: &Token) -> Head<'_>
    ensures { head_step result ≡ token_step token.now }
{
    match token {
        Token::Attestation(Attestation::Bitcoin(height)) => Head::Bitcoin(*height),
        Token::Op(Op::Sha256) => Head::Sha256,
        _ => Head::Token(token),
    }
}

/// How two heads compare.
pub(crate) fn compare_heads(first: &Head<'_>, second: &Head<'_>) -> Ordering
    ensures { result ≡ step_cmp (head_step first.now) (head_step second.now) }
{
    match (first, second) {
        (Head::Bitcoin(one), Head::Bitcoin(two)) => one.cmp(two),
        (Head::Token(one), Head::Token(two)) => compare_steps(one, two),
        (Head::Sha256, Head::Sha256) => Ordering::Equal,
        (_, Head::Bitcoin(height)) => {
            compare_to(first, &Token::Attestation(Attestation::Bitcoin(*height)))
        }
        (_, Head::Sha256) => compare_to(first, &Token::Op(Op::Sha256)),
        (_, Head::Token(token)) => compare_to(first, token),
    }
}

/// How a head compares to a token.
fn compare_to(head: &Head<'_>, token: &Token) -> Ordering
    ensures { result ≡ step_cmp (head_step head.now) (token_step token.now) }
{
    match head {
        Head::Bitcoin(height) => {
            compare_steps(&Token::Attestation(Attestation::Bitcoin(*height)), token)
        }
        Head::Sha256 => compare_steps(&Token::Op(Op::Sha256), token),
        Head::Token(one) => compare_steps(one, token),
    }
}

/// The items at these places.
pub(crate) fn items_at<'a>(
    alloc: Global,
    tokens: &Tokens<'a>,
    places: &[usize],
) -> Result<Vec<Item<'a>>, OutOfMemory>
    requires { All (λ k. k < length tokens.now) places.now }
    ensures { IfOk result (λ items. AreHeads tokens.now places.now items.items) }
{
    let mut items = Vec::with_capacity(alloc, places.len())?;
    for place in places {
        items.push(Item {
            head: head_of(tokens.at(*place)),
            place: *place,
        })?;
    }
    Ok(items)
}

/// Their places.
pub(crate) fn places_of(alloc: Global, items: &[Item<'_>]) -> Result<Vec<usize>, OutOfMemory>
    ensures { IfOk result (λ places. places.items ≡ map place_of items.now) }
{
    let mut places = Vec::with_capacity(alloc, items.len())?;
    for item in items {
        places.push(item.place)?;
    }
    Ok(places)
}
