//! The tokens of a tree.
ghost use Rattle.std.specs.Prelude.{◌≡◌, IfOk};
ghost use Rattle.ots_tree.specs.Wire.{IsToken};

use ots_attest::{Attestation, limits_of_attestation};
use ots_base::OutOfMemory;
use ots_ops::{Op, limits_of_operation};

/// A part of a tree as it is spelled.
#[derive(Debug, Drop)]
pub enum Token {
    /// Another item of this node follows the next one. It stands before each item but the last.
    Fork,
    /// An operation, after which the node of its result stands.
    Op(Op),
    /// What a path ends in.
    Attestation(Attestation),
}

impl Token {
    /// An equal token.
    pub fn copy(&self) -> Result<Token, OutOfMemory>
        ensures { IfOk result (λ copied. copied ≡ self.now) }
    {
        Ok(match self {
            Token::Fork => Token::Fork,
            Token::Op(op) => Token::Op(op.copy()?),
            Token::Attestation(attestation) => Token::Attestation(attestation.copy()?),
        })
    }
}

/// Any token is within its limits.
pub fn limits_of_token(token: &Token)
    ensures { IsToken token.now }
{
    match token {
        Token::Fork => {}
        Token::Op(op) => limits_of_operation(op),
        Token::Attestation(attestation) => {
            limits_of_attestation(attestation);
        }
    }
}

/// A token of a tree, with the number of operations before it on its path.
#[derive(Drop)]
pub struct TokenAt {
    /// The token.
    pub token: Token,
    /// The number of operations between the root and the token. One over 2^32 - 1 is given as
    /// 2^32 - 1.
    pub depth: u32,
}
