//! What the tokens of a tree confirm, as they come.
ghost use Rattle.std.specs.Prelude.{◌≡◌, ◌+◌, ◌^◌, ◌<◌, List, ℕ, Some, IfOk, length};
ghost use Rattle.std.specs.Option.{option_copied};
ghost use Rattle.ots_tree.specs.TokenRef.{token_of};
ghost use Rattle.ots_reader.specs.Tokens.{so_far};
ghost use Rattle.ots_verdicts.specs.Walked.{noted};
ghost use Rattle.ots_verifier.specs.Following.{Finds, Follows, IsFresh, reserved_by};

use crate::messages::{MESSAGES_BYTES, Messages};
use ots_attest::AttestationRef;
use ots_base::OutOfMemory;
use ots_headers::Headers;
use ots_reader::{Fault, Fed, TOKEN_READER_BYTES, TokenReader};
use ots_tree::{Shape, TokenRef};
use ots_verdicts::{Best, Chain};
use std::alloc::Global;

/// How many bytes of memory the reader and the messages take, all of it when they begin.
pub(crate) const FOLLOWING_BYTES: usize = TOKEN_READER_BYTES + MESSAGES_BYTES;

/// A tree that comes in pieces, the messages of its open nodes, and what its attestations confirm.
#[derive(Drop)]
pub(crate) struct Following {
    pub reader: TokenReader,
    pub messages: Messages,
    pub best: Best,
}

impl Following {
    /// No token yet. It takes the memory for all that comes.
    pub fn begin(alloc: Global) -> Result<Following, OutOfMemory>
        ensures fresh { IfOk result (λ following. IsFresh following) }
        ensures reserved { IfOk result (λ following. reserved_by following ≡ FOLLOWING_BYTES) }
    {
        let shape = Shape {
            length: 32,
            depth: 0,
        };
        Ok(Following {
            reader: TokenReader::begin(alloc, shape)?,
            messages: Messages::begin(alloc)?,
            best: Best::nothing(),
        })
    }

    /// How many bytes of memory the reader and the messages have taken.
    pub fn reserved(&self) -> usize
        ensures is { result ≡ reserved_by self.now }
        ensures always { result ≡ FOLLOWING_BYTES }
    {
        self.reader.reserved() + self.messages.reserved()
    }
}

/// Follows the tokens that end within the piece, up to the tree's last one. It takes no memory.
pub(crate) fn follow_piece(
    following: &mut Following,
    piece: &[u8],
    bitcoin: &Headers,
    litecoin: Option<&Headers>,
) -> Result<Fed, Fault>
    requires follows { (digest : List ℕ) × Follows bitcoin.now (option_copied litecoin) digest following.old.reader
        following.old.messages.position following.old.best }
    requires few { length (so_far following.old.reader) + length piece.now < 2 ^ 64 }
    ensures finds { (digest : List ℕ) → Follows bitcoin.now (option_copied litecoin.entry) digest following.old.reader
        following.old.messages.position following.old.best
        → Finds bitcoin.now (option_copied litecoin.entry) digest following.old.reader piece.now following.new.reader
        following.new.messages.position following.new.best result }
    ensures reserved { reserved_by following.new ≡ reserved_by following.old }
{
    let mut at = 0;
    loop {
        let Some(next) = following.reader.next(&piece[at..])? else {
            return Ok(Fed::More);
        };
        let message = following.messages.last();
        following.best = noted(next.token, message, following.best, bitcoin, litecoin);
        let _open = following.messages.follow(next.token);
        at += next.used;
        if next.last {
            return Ok(Fed::Done(at));
        }
    }
}

/// The least heights, with what a token after this message adds.
fn noted(
    token: TokenRef<'_>,
    message: &[u8],
    best: Best,
    bitcoin: &Headers,
    litecoin: Option<&Headers>,
) -> Best
    ensures { result ≡ noted bitcoin.now (option_copied litecoin.entry) (token_of token.entry) (Some message.now) best }
{
    let TokenRef::Attestation(attestation) = token else {
        return best;
    };
    let (chain, height) = match attestation {
        AttestationRef::Bitcoin(height) => (Chain::Bitcoin, height),
        AttestationRef::Litecoin(height) => (Chain::Litecoin, height),
        _ => return best,
    };
    best.noted(chain, height, message, bitcoin, litecoin)
}
