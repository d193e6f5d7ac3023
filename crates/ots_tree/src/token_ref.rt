//! A token of a tree, whose parts stand elsewhere.
ghost use Rattle.std.specs.Prelude.{◌≡◌, IfOk};
ghost use Rattle.ots_tree.specs.TokenRef.{token_of};

use crate::token::Token;
use ots_attest::AttestationRef;
use ots_base::OutOfMemory;
use ots_ops::OpRef;
use std::alloc::Global;

/// A part of a tree as it is spelled, whose argument, URI or payload stands elsewhere, as in the
/// bytes that it was read from.
///
/// Contracts see the token that it is, `token_of`.
#[derive(Clone, Copy)]
pub enum TokenRef<'a> {
    /// Another item of this node follows the next one. It stands before each item but the last.
    Fork,
    /// An operation, after which the node of its result stands.
    Op(OpRef<'a>),
    /// What a path ends in.
    Attestation(AttestationRef<'a>),
}

impl<'a> TokenRef<'a> {
    /// The same token with parts of its own, in memory of `alloc`, which it keeps.
    pub fn to_owned(self, alloc: Global) -> Result<Token, OutOfMemory>
        ensures { IfOk result (λ owned. owned ≡ token_of self.entry) }
    {
        Ok(match self {
            TokenRef::Fork => Token::Fork,
            TokenRef::Op(op) => Token::Op(op.to_owned(alloc)?),
            TokenRef::Attestation(attestation) => Token::Attestation(attestation.to_owned(alloc)?),
        })
    }
}
