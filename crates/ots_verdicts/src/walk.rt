//! A walk over the tokens of a tree that finds the least confirmed heights.
ghost use Rattle.std.specs.Prelude.{◌≡◌, IfOk};
ghost use Rattle.std.specs.Option.{option_copied};
ghost use Rattle.ots_tree.specs.Wire.{IsPre};
ghost use Rattle.ots_tree.specs.Walk.{IsStep};
ghost use Rattle.ots_verdicts.specs.Walked.{messages_by, messages, noted, noted_end, walked, nothing};

use crate::best::Best;
use crate::verdicts::Chain;
use ots_attest::Attestation;
use ots_base::OutOfMemory;
use ots_headers::Headers;
use ots_ops::{Digest, Message};
use ots_tree::{Token, Walk, result_of};
use std::alloc::Global;

/// The least heights that are confirmed by the paths of a tree, whose tokens these are, from the
/// digest.
pub(crate) fn best_of(
    alloc: Global,
    digest: &Digest,
    tokens: &[Token],
    bitcoin: &Headers,
    litecoin: Option<&Headers>,
) -> Result<Best, OutOfMemory>
    requires { IsPre tokens.now }
    ensures { IfOk result (λ best. best ≡ walked bitcoin.now (option_copied litecoin.entry) nothing
        (messages digest.now tokens.now)) }
{
    let message = Message::new(alloc, digest.bytes())?;
    let mut walk = Walk::begin(alloc, Some(message));
    let mut best = Best::nothing();
    for token in tokens {
        best = noted(token, walk.carried(), best, bitcoin, litecoin);
        follow(alloc, &mut walk, token)?;
    }
    Ok(best)
}

/// The least, with what a token after this message adds.
fn noted(
    token: &Token,
    message: &Option<Message>,
    best: Best,
    bitcoin: &Headers,
    litecoin: Option<&Headers>,
) -> Best
    ensures { result ≡ noted bitcoin.now (option_copied litecoin.entry) token.now message.now best }
{
    match (token, message) {
        (Token::Attestation(attestation), Some(message)) => {
            noted_end(attestation, message.bytes(), best, bitcoin, litecoin)
        }
        _ => best,
    }
}

/// The least, with what an attestation that stands on this message adds.
fn noted_end(
    attestation: &Attestation,
    message: &[u8],
    best: Best,
    bitcoin: &Headers,
    litecoin: Option<&Headers>,
) -> Best
    ensures { result ≡ noted_end bitcoin.now (option_copied litecoin.entry) attestation.now message.now best }
{
    let (chain, height) = match attestation {
        Attestation::Bitcoin(height) => (Chain::Bitcoin, *height),
        Attestation::Litecoin(height) => (Chain::Litecoin, *height),
        _ => return best,
    };
    best.noted(chain, height, message, bitcoin, litecoin)
}

/// Follows one more token, with the messages of the open nodes. Whether a node is open after it, as
/// one is after each token of a tree but the last.
fn follow(
    alloc: Global,
    walk: &mut Walk<Option<Message>>,
    token: &Token,
) -> Result<bool, OutOfMemory>
    ensures { IfOk result (IsStep messages_by token.now walk.old walk.new) }
{
    match token {
        Token::Fork => {
            let copy = copy_of(walk.carried())?;
            walk.keep(copy)?;
        }
        Token::Op(op) => {
            let next = result_of(alloc, op, walk.carried().as_ref())?;
            walk.lead(next);
        }
        Token::Attestation(_) => return Ok(walk.close()),
    }
    Ok(true)
}

/// An equal message, where there is one.
fn copy_of(message: &Option<Message>) -> Result<Option<Message>, OutOfMemory>
    ensures { IfOk result (λ copied. copied ≡ message.now) }
{
    match message {
        Some(message) => Ok(Some(message.copy()?)),
        None => Ok(None),
    }
}
