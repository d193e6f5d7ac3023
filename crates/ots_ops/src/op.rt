//! An operation of a proof.
ghost use Rattle.std.specs.Prelude.{◌≡◌, IfOk};
ghost use Rattle.ots_ops.specs.Operation.{tag, argument, IsOp};

use crate::arg::Arg;
use crate::hash_op::HashOp;
use crate::tags::{APPEND_TAG, HEXLIFY_TAG, PREPEND_TAG, REVERSE_TAG};
use ots_base::OutOfMemory;

/// One step of a proof, from a message to the next.
///
/// Operations are ordered by their tags, and those of one tag by the bytes of their arguments.
#[derive(Debug, Drop)]
pub enum Op {
    /// The SHA-1 digest of the message (FIPS 180-4).
    Sha1,
    /// The RIPEMD-160 digest of the message.
    Ripemd160,
    /// The SHA-256 digest of the message (FIPS 180-4).
    Sha256,
    /// The message and then the argument.
    Append(Arg),
    /// The argument and then the message.
    Prepend(Arg),
    /// The bytes of the message in opposite order.
    Reverse,
    /// Two lower-case hexadecimal digits for each byte of the message.
    Hexlify,
}

impl Op {
    /// The same operation once more; an argument is copied with its allocator.
    pub fn copy(&self) -> Result<Op, OutOfMemory>
        ensures { IfOk result (λ copied. copied ≡ self.now) }
    {
        Ok(match self {
            Op::Sha1 => Op::Sha1,
            Op::Ripemd160 => Op::Ripemd160,
            Op::Sha256 => Op::Sha256,
            Op::Append(argument) => Op::Append(argument.copy()?),
            Op::Prepend(argument) => Op::Prepend(argument.copy()?),
            Op::Reverse => Op::Reverse,
            Op::Hexlify => Op::Hexlify,
        })
    }

    /// The byte that stands for the operation.
    pub(crate) fn tag(&self) -> u8
        ensures { result ≡ tag self.now }
    {
        match self {
            Op::Sha1 => HashOp::Sha1.tag(),
            Op::Ripemd160 => HashOp::Ripemd160.tag(),
            Op::Sha256 => HashOp::Sha256.tag(),
            Op::Append(_) => APPEND_TAG,
            Op::Prepend(_) => PREPEND_TAG,
            Op::Reverse => REVERSE_TAG,
            Op::Hexlify => HEXLIFY_TAG,
        }
    }

    /// The bytes of the argument, none where there is no argument.
    pub(crate) fn argument(&self) -> &[u8]
        ensures { result.now ≡ argument self.now }
    {
        match self {
            Op::Append(argument) | Op::Prepend(argument) => argument.bytes(),
            _ => &[],
        }
    }
}
