//! Whether a tree is complete.
ghost use Rattle.std.specs.Prelude.{◌≡◌, ◌↔◌, IsTrue};
ghost use Rattle.std.specs.List.{list_any};
ghost use Rattle.ots_pending.specs.Bitcoin.{HasBitcoin, is_bitcoin};

use ots_attest::Attestation;
use ots_tree::{Token, Tree};

/// Whether some path of the tree ends in a Bitcoin attestation. It takes no memory.
pub fn has_bitcoin(tree: &Tree) -> bool
    ensures { IsTrue result ↔ HasBitcoin tree.now }
{
    some_bitcoin(tree.tokens())
}

/// Whether one of the tokens is a Bitcoin attestation.
fn some_bitcoin(tokens: &[Token]) -> bool
    ensures { result ≡ list_any is_bitcoin tokens.now }
{
    for token in tokens {
        if is_bitcoin(token) {
            return true;
        }
    }
    false
}

/// Whether the token is a Bitcoin attestation.
fn is_bitcoin(token: &Token) -> bool
    ensures { result ≡ is_bitcoin token.now }
{
    matches!(token, Token::Attestation(Attestation::Bitcoin(_)))
}
