//! Which proofs are drafts.
ghost use Rattle.std.specs.Prelude.{◌≡◌, ◌↔◌, ◌≤◌, List, length, IfOk, IfSome, IsTrue, Some, None};
ghost use Rattle.std.specs.List.{AllByRecursion};
ghost use Rattle.ots_draft.specs.Draft.{IsDraft};
ghost use Rattle.ots_draft.specs.inner.Reading.{IsWaiting, MayWait, leading};
ghost use Rattle.ots_ops.specs.declared.op.Op.{Op};
ghost use Rattle.ots_tree.specs.Sound.{length_after};

use crate::address::post_address;
use ots_attest::Attestation;
use ots_base::OutOfMemory;
use ots_canon::canon;
use ots_ops::{Op, Ops, result_length};
use ots_tree::{Detached, Token};
use std::alloc::Global;

/// How many bytes the message has that a draft sends: those of a SHA-256 digest.
const MESSAGE: usize = 32;

/// The operations of a draft: those that each of its paths has, at the end of which each waits to be sent
/// to a calendar, and which make a message of 32 bytes of the proof's digest. `None` exactly where the
/// proof is no draft.
///
/// It makes the proof's canonical form, in memory of `alloc`, and applies no operation.
pub fn draft_operations(alloc: Global, proof: &Detached) -> Result<Option<Ops>, OutOfMemory>
    ensures some { IfOk result (λ found. IfSome found (IsDraft proof.now)) }
    ensures none { IfOk result (λ found. found ≡ None → (ops : List Op) → IsDraft proof.now ops → ⊥) }
{
    let form = canon(alloc, &proof.tree)?;
    let tokens = form.tokens();
    let ops = leading_operations(alloc, tokens)?;
    if !all_wait(&tokens[ops.items().len()..]) {
        return Ok(None);
    }
    if !make_message(ops.items(), proof.digest.bytes().len()) {
        return Ok(None);
    }
    Ok(Some(ops))
}

/// Copies of the operations at which tokens begin.
fn leading_operations(alloc: Global, tokens: &[Token]) -> Result<Ops, OutOfMemory>
    ensures operations { IfOk result (λ ops. ops ≡ leading tokens.now) }
    ensures within { IfOk result (λ ops. length ops ≤ length tokens.now) }
{
    let mut ops = Ops::new(alloc);
    for token in tokens {
        let Token::Op(op) = token else {
            return Ok(ops);
        };
        ops.push(op.copy()?)?;
    }
    Ok(ops)
}

/// Whether each of the tokens is a fork, or an attestation that waits to be sent.
fn all_wait(tokens: &[Token]) -> bool
    ensures { IsTrue result ↔ AllByRecursion MayWait tokens.now }
{
    for token in tokens {
        if !may_wait(token) {
            return false;
        }
    }
    true
}

/// Whether the token is a fork, or an attestation that waits to be sent.
fn may_wait(token: &Token) -> bool
    ensures { IsTrue result ↔ MayWait token.now }
{
    match token {
        Token::Fork => true,
        Token::Op(_) => false,
        Token::Attestation(attestation) => is_waiting(attestation),
    }
}

/// Whether the attestation waits to be sent.
fn is_waiting(attestation: &Attestation) -> bool
    ensures { IsTrue result ↔ IsWaiting attestation.now }
{
    match attestation {
        Attestation::Pending(uri) => post_address(uri.text()).is_some(),
        _ => false,
    }
}

/// Whether these operations make a message of 32 bytes of one of `length` bytes.
fn make_message(ops: &[Op], length: usize) -> bool
    ensures { IsTrue result ↔ (length_after ops.now length ≡ Some 32) }
{
    matches!(length_after(ops, length), Some(MESSAGE))
}

/// How many bytes these operations make of a message of `length` bytes, where each has a result.
fn length_after(ops: &[Op], length: usize) -> Option<usize>
    ensures { result ≡ length_after ops.now length }
{
    let mut length = length;
    for op in ops {
        match result_length(op, length) {
            Ok(next) => length = next,
            Err(_) => return None,
        }
    }
    Some(length)
}
