//! The result of an operation on a message.
ghost use Rattle.std.specs.Prelude.{◌≡◌, ◌≢◌, ◌+◌, ◌≤◌, ◌++◌, length, reverse, None, IfOk};
ghost use Rattle.std.specs.Result.{result_ok, result_err};
ghost use Rattle.hex.specs.Hex.{encode_lower};
ghost use Rattle.ots_ops.specs.Apply.{applied, apply};
ghost use Rattle.ots_ops.specs.ResultLength.{refusal, made};

use crate::length::{OpError, result_length};
use crate::message::Message;
use crate::op::Op;
use ots_base::MAX_MESSAGE;
use ots_ripemd::ripemd160;
use sha1::Sha1;
use sha2::{Digest, Sha256};
use std::alloc::{AllocError, Global};

/// The result of an operation on a message, in memory of `alloc`, which it keeps.
///
/// It refuses exactly what `result_length` refuses, for the same reason, and `OutOfMemory` never
/// comes in place of such a refusal.
#[tactic(auto, using(crate::proofs::AppliedLength::length_of_applied))]
pub fn apply(alloc: Global, op: &Op, message: &[u8]) -> Result<Message, OpError>
    ensures value { result ≢ Err OpError.OutOfMemory → result_ok result ≡ apply op.now message.now }
    ensures refusal { result ≢ Err OpError.OutOfMemory → result_err result ≡ refusal op.now (length message.now) }
    ensures short { result ≡ Err OpError.OutOfMemory → refusal op.now (length message.now) ≡ None }
{
    result_length(op, message.len())?;
    match applied(alloc, op, message) {
        Ok(bytes) => Ok(Message::kept(bytes)),
        Err(_) => Err(OpError::OutOfMemory),
    }
}

/// What an operation makes of a message that it takes.
fn applied(alloc: Global, op: &Op, message: &[u8]) -> Result<Vec<u8>, AllocError>
    requires message_fits { length message.now ≤ MAX_MESSAGE }
    requires result_fits { made op.now (length message.now) ≤ MAX_MESSAGE }
    ensures { IfOk result (λ bytes. bytes.items ≡ applied op.now message.now) }
{
    match op {
        Op::Sha1 => Vec::from_slice(alloc, &Sha1::digest(message)),
        Op::Ripemd160 => Vec::from_slice(alloc, &ripemd160(message)),
        Op::Sha256 => Vec::from_slice(alloc, &Sha256::digest(message)),
        Op::Append(argument) => joined(alloc, message, argument.bytes()),
        Op::Prepend(argument) => joined(alloc, argument.bytes(), message),
        Op::Reverse => reversed(alloc, message),
        Op::Hexlify => hexlified(alloc, message),
    }
}

/// The first bytes and then the second.
fn joined(alloc: Global, first: &[u8], second: &[u8]) -> Result<Vec<u8>, AllocError>
    requires { length first.now + length second.now ≤ MAX_MESSAGE }
    ensures { IfOk result (λ bytes. bytes.items ≡ first.now ++ second.now) }
{
    let mut bytes = Vec::with_capacity(alloc, first.len() + second.len())?;
    bytes.extend_from_slice(first)?;
    bytes.extend_from_slice(second)?;
    Ok(bytes)
}

/// The bytes in opposite order.
fn reversed(alloc: Global, message: &[u8]) -> Result<Vec<u8>, AllocError>
    ensures { IfOk result (λ bytes. bytes.items ≡ reverse message.now) }
{
    let mut bytes = Vec::from_slice(alloc, message)?;
    bytes.as_mut_slice().reverse();
    Ok(bytes)
}

/// Two lower-case hexadecimal digits for each byte.
fn hexlified(alloc: Global, message: &[u8]) -> Result<Vec<u8>, AllocError>
    ensures { IfOk result (λ bytes. bytes.items ≡ encode_lower message.now) }
{
    Ok(hex::encode(alloc, message)?.into_bytes())
}
