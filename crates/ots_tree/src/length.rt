//! How long the spelling of a tree is.
ghost use Rattle.std.specs.Prelude.{◌≡◌, ◌-◌, ◌^◌, length, min};
ghost use Rattle.ots_tree.specs.Wire.{spell, spelled};

use crate::token::Token;
use crate::tree::Tree;
use ots_ops::Op;
use ots_varint::varuint_length;

/// How many bytes the spelling of a tree has. A number over 2^64 - 1 is given as 2^64 - 1. It takes
/// no memory.
pub fn spelled_length(tree: &Tree) -> u64
    ensures { result ≡ min (length (spelled tree.now)) (2 ^ 64 - 1) }
{
    length_of_all(tree.tokens())
}

/// How many bytes these tokens are spelled in, at most 2^64 - 1.
fn length_of_all(tokens: &[Token]) -> u64
    ensures { result ≡ min (length (spelled tokens.now)) (2 ^ 64 - 1) }
{
    let mut length: u64 = 0;
    for token in tokens {
        length = length.saturating_add(length_of(token) as u64);
    }
    length
}

/// How many bytes a token is spelled in: 1 to 8203.
#[tactic(auto, using(ots_attest::proofs::Lengths::lengths))]
fn length_of(token: &Token) -> usize
    ensures { result ≡ length (spell token.now) }
{
    match token {
        Token::Fork => 1,
        Token::Op(Op::Append(argument) | Op::Prepend(argument)) => {
            let length = argument.bytes().len();
            1 + varuint_length(length as u64) + length
        }
        Token::Op(_) => 1,
        Token::Attestation(attestation) => attestation.spelled_length(),
    }
}
