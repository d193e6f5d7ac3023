//! An operation of a proof, whose argument stands elsewhere.
ghost use Rattle.std.specs.Prelude.{◌≡◌, IfOk};
ghost use Rattle.ots_ops.specs.Operation.{IsOp};
ghost use Rattle.ots_ops.specs.OpRef.{op_of};

use crate::arg_ref::ArgRef;
use crate::op::Op;
use ots_base::OutOfMemory;
use std::alloc::Global;

/// An operation whose argument stands elsewhere, as in the bytes that it was read from.
///
/// Contracts see the operation that it is, `op_of`.
#[derive(Clone, Copy)]
pub enum OpRef<'a> {
    /// The SHA-1 digest of the message (FIPS 180-4).
    Sha1,
    /// The RIPEMD-160 digest of the message.
    Ripemd160,
    /// The SHA-256 digest of the message (FIPS 180-4).
    Sha256,
    /// The message and then the argument.
    Append(ArgRef<'a>),
    /// The argument and then the message.
    Prepend(ArgRef<'a>),
    /// The bytes of the message in opposite order.
    Reverse,
    /// Two lower-case hexadecimal digits for each byte of the message.
    Hexlify,
}

impl Op {
    /// The same operation, whose argument stands in this one. It takes no memory.
    pub fn borrowed(&self) -> OpRef<'_>
        ensures op { op_of result ≡ self.now }
        ensures limits { IsOp self.now }
    {
        match self {
            Op::Sha1 => OpRef::Sha1,
            Op::Ripemd160 => OpRef::Ripemd160,
            Op::Sha256 => OpRef::Sha256,
            Op::Append(argument) => OpRef::Append(argument.borrowed()),
            Op::Prepend(argument) => OpRef::Prepend(argument.borrowed()),
            Op::Reverse => OpRef::Reverse,
            Op::Hexlify => OpRef::Hexlify,
        }
    }
}

impl<'a> OpRef<'a> {
    /// The same operation with an argument of its own, in memory of `alloc`, which it keeps.
    pub fn to_owned(self, alloc: Global) -> Result<Op, OutOfMemory>
        ensures { IfOk result (λ owned. owned ≡ op_of self.entry) }
    {
        Ok(match self {
            OpRef::Sha1 => Op::Sha1,
            OpRef::Ripemd160 => Op::Ripemd160,
            OpRef::Sha256 => Op::Sha256,
            OpRef::Append(argument) => Op::Append(argument.to_owned(alloc)?),
            OpRef::Prepend(argument) => Op::Prepend(argument.to_owned(alloc)?),
            OpRef::Reverse => Op::Reverse,
            OpRef::Hexlify => Op::Hexlify,
        })
    }
}
