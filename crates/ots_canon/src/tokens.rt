//! Tokens with their tags beside them, how they compare, and where what begins at each of them ends.
ghost use Rattle.std.specs.Prelude.{◌≡◌, ◌+◌, ◌++◌, ◌<◌, Some, IfOk, OnOk, length, map, slice_get};
ghost use Rattle.ots_tree.specs.Wire.{Node, pre};
ghost use Rattle.ots_canon.specs.Order.{step_cmp};
ghost use Rattle.ots_canon.specs.Steps.{token_step, step_at, rank};
ghost use Rattle.ots_canon.specs.Tags.{tag_of, is_bare, is_fork, is_op};
ghost use Rattle.ots_canon.specs.Places.{IsNodeAt, AreNodes, AreEnds, AreEndsFrom};

use ots_base::OutOfMemory;
use ots_ops::{APPEND_TAG, HEXLIFY_TAG, HashOp, Op, PREPEND_TAG, REVERSE_TAG};
use ots_tree::Token;
use std::alloc::Global;
use std::cmp::Ordering;
use std::marker::Model;

/// The tag of an attestation.
const ATTESTATION: u8 = 0x00;

/// The tag of a fork.
const FORK: u8 = 0xff;

/// The tokens of one tree, or of two, one after the other.
///
/// Beside them stand their tags, the bytes with which they are spelled. These lie close together, so a
/// walk over long chains reads them and no token. Contracts see the list of tokens.
#[derive(Drop)]
pub(crate) struct Tokens<'a> {
    first: &'a [Token],
    second: &'a [Token],
    tags: Vec<u8>,
}

impl<'a> Model for Tokens<'a> {
    ghost use Rattle.std.specs.Prelude.{◌≡◌, ◌++◌, List, map};
    ghost use Rattle.ots_tree.specs.declared.token.Token.{Token};
    ghost use Rattle.ots_canon.specs.Tags.{tag_of};

    ghost Value = { List Token };

    ghost view = { λ t. t.first.now ++ t.second.now };

    ghost invariant = { λ t. t.tags.items ≡ map tag_of (t.first.now ++ t.second.now) };
}

impl<'a> Tokens<'a> {
    /// Those of two trees. Their tags lie in memory of `alloc`.
    pub(crate) fn new(
        alloc: Global,
        first: &'a [Token],
        second: &'a [Token],
    ) -> Result<Tokens<'a>, OutOfMemory>
        ensures { IfOk result (λ tokens. tokens ≡ first.now ++ second.now) }
    {
        let mut tags = Vec::with_capacity(alloc, first.len().saturating_add(second.len()))?;
        push_tags(first, &mut tags)?;
        push_tags(second, &mut tags)?;
        Ok(Tokens {
            first,
            second,
            tags,
        })
    }

    /// How many there are.
    pub(crate) fn len(&self) -> usize
        ensures { result ≡ length self.now }
    {
        self.tags.len()
    }

    /// The token at a place.
    pub(crate) fn at(&self, place: usize) -> &'a Token
        requires { place < length self.now }
        ensures { slice_get self.now place ≡ Some result.now }
    {
        if place < self.first.len() {
            &self.first[place]
        } else {
            &self.second[place - self.first.len()]
        }
    }

    /// Whether a fork stands at a place.
    pub(crate) fn is_fork(&self, place: usize) -> bool
        ensures { result ≡ is_fork (slice_get self.now place) }
    {
        matches!(self.tags.get(place), Some(&FORK))
    }

    /// Whether an operation stands at a place.
    pub(crate) fn is_op(&self, place: usize) -> bool
        ensures { result ≡ is_op (slice_get self.now place) }
    {
        match self.tags.get(place) {
            Some(tag) => *tag != ATTESTATION && *tag != FORK,
            None => false,
        }
    }

    /// How the tokens at two places compare. A place past the last token comes before the others.
    pub(crate) fn compare(&self, first: usize, second: usize) -> Ordering
        ensures { result ≡ step_cmp (step_at self.now first) (step_at self.now second) }
    {
        match (self.tags.get(first), self.tags.get(second)) {
            (Some(one), Some(two)) => match one.cmp(two) {
                Ordering::Equal if !is_bare(*one) => compare_steps(self.at(first), self.at(second)),
                order => order,
            },
            (one, two) => one.is_some().cmp(&two.is_some()),
        }
    }
}

/// Adds the tags of these tokens at the end.
fn push_tags(tokens: &[Token], tags: &mut Vec<u8>) -> Result<(), OutOfMemory>
    ensures { OnOk result (tags.new.items ≡ tags.old.items ++ map tag_of tokens.now) }
{
    for token in tokens {
        tags.push(tag_of(token))?;
    }
    Ok(())
}

/// The byte with which a token is spelled first. Tokens of different tags are in the order of these.
fn tag_of(token: &Token) -> u8
    ensures { result ≡ tag_of token.now }
{
    match token {
        Token::Attestation(_) => ATTESTATION,
        Token::Op(Op::Sha1) => HashOp::Sha1.tag(),
        Token::Op(Op::Ripemd160) => HashOp::Ripemd160.tag(),
        Token::Op(Op::Sha256) => HashOp::Sha256.tag(),
        Token::Op(Op::Append(_)) => APPEND_TAG,
        Token::Op(Op::Prepend(_)) => PREPEND_TAG,
        Token::Op(Op::Reverse) => REVERSE_TAG,
        Token::Op(Op::Hexlify) => HEXLIFY_TAG,
        Token::Fork => FORK,
    }
}

/// Whether all tokens with this tag are equal.
fn is_bare(tag: u8) -> bool
    ensures { result ≡ is_bare tag }
{
    tag != ATTESTATION && tag != APPEND_TAG && tag != PREPEND_TAG
}

/// How two steps compare.
pub(crate) fn compare_steps(first: &Token, second: &Token) -> Ordering
    ensures { result ≡ step_cmp (token_step first.now) (token_step second.now) }
{
    match (first, second) {
        (Token::Op(one), Token::Op(two)) => one.cmp(two),
        (Token::Attestation(one), Token::Attestation(two)) => one.cmp(two),
        _ => rank(first).cmp(&rank(second)),
    }
}

/// An attestation comes before an operation.
fn rank(token: &Token) -> u8
    ensures { result ≡ rank token.now }
{
    match token {
        Token::Attestation(_) => 0,
        Token::Op(_) => 1,
        Token::Fork => 2,
    }
}

/// For each token the place after the node that begins there, which is an item alone where the token
/// is no fork.
pub(crate) fn ends_of(alloc: Global, tokens: &Tokens<'_>) -> Result<Vec<usize>, OutOfMemory>
    requires { AreNodes tokens.now }
    ensures { IfOk result (λ ends. AreEnds tokens.now ends.items) }
{
    let mut ends = Vec::new(alloc);
    ends.resize(tokens.len(), 0)?;
    let mut at = tokens.len();
    while at > 0 {
        at -= 1;
        ends[at] = end_at(tokens, at, &ends);
    }
    Ok(ends)
}

/// The place after the node that begins here, where those after it are known.
fn end_at(tokens: &Tokens<'_>, at: usize, ends: &[usize]) -> usize
    requires nodes { AreNodes tokens.now }
    requires in_range { at < length tokens.now }
    requires ends { AreEndsFrom tokens.now (at + 1) ends.now }
    ensures { (t : Node) → IsNodeAt tokens.now at t → result ≡ at + length (pre t) }
{
    if tokens.is_fork(at) {
        ends[ends[at + 1]]
    } else if tokens.is_op(at) {
        ends[at + 1]
    } else {
        at + 1
    }
}
