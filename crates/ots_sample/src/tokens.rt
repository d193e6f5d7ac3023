//! The tokens of a sample's tree, before it is brought to canonical form.
ghost use Rattle.std.specs.Prelude.{◌≡◌, ◌++◌, OnOk, IfOk};
ghost use Rattle.ots_sample.specs.Tokens.{tokens_below, item_tokens};

use ots_attest::Attestation;
use ots_base::OutOfMemory;
use ots_ops::{Arg, Op};
use ots_tree::Token;
use std::alloc::Global;

/// The tokens of the tree with `paths` paths, from the last number to 0.
pub fn tokens_of(alloc: Global, paths: u32) -> Result<Vec<Token>, OutOfMemory>
    ensures { IfOk result (λ tokens. tokens.items ≡ tokens_below paths) }
{
    let mut tokens = Vec::new(alloc);
    for number in (0..paths).rev() {
        push_item(alloc, number, &mut tokens)?;
    }
    Ok(tokens)
}

/// Adds the item with the path of this number, after a fork where another one follows.
fn push_item(alloc: Global, number: u32, tokens: &mut Vec<Token>) -> Result<(), OutOfMemory>
    ensures { OnOk result (tokens.new.items ≡ tokens.old.items ++ item_tokens number) }
{
    if number > 0 {
        tokens.push(Token::Fork)?;
    }
    tokens.push(Token::Op(Op::Append(Arg::copy_of(alloc, &number.to_be_bytes())?)))?;
    tokens.push(Token::Op(Op::Sha256))?;
    tokens.push(Token::Attestation(Attestation::Bitcoin(u64::from(number))))?;
    Ok(())
}
