//! How long the result of an operation is.
ghost use Rattle.std.specs.Prelude.{◌≡◌, ◌≤◌, nat_lt, if◌then◌else◌, IfOk};
ghost use Rattle.std.specs.Result.{result_ok, result_err};
ghost use Rattle.ots_ops.specs.OpRef.{op_of};
ghost use Rattle.ots_ops.specs.ResultLength.{len, refusal};

use crate::hash_op::HashOp;
use crate::op::Op;
use crate::op_ref::OpRef;
use ots_base::{MAX_HEXLIFIED, MAX_MESSAGE};
use thiserror::Error;

/// Why an operation has no result on a message.
#[derive(Clone, Copy, Debug, PartialEq, Eq, Error)]
pub enum OpError {
    /// The message or the result is longer than it may be.
    #[error("{have} bytes are more than {limit}")]
    TooLong {
        /// How many bytes it has.
        have: usize,
        /// How many it may have: 2048 where it is to be hexlified, else 4096.
        limit: usize,
    },
    /// A message of no bytes is to be reversed or hexlified.
    #[error("an empty message is not reversed or hexlified")]
    Empty,
    /// Memory ran out.
    #[error("out of memory")]
    OutOfMemory,
}

/// How many bytes an operation makes of a message of `length` bytes: at most `MAX_MESSAGE`, 4096.
///
/// `TooLong` exactly where the message has more than 4096 bytes, where it is to be hexlified and
/// has more than 2048, or where the result has more than 4096, tested in this order. `Empty`
/// exactly where a message of no bytes is to be reversed or hexlified. It takes no memory, and
/// never answers `OutOfMemory`.
pub fn result_length(op: &Op, length: usize) -> Result<usize, OpError>
    ensures length { result_ok result ≡ len op.now length }
    ensures refusal { result_err result ≡ refusal op.now length }
    ensures limit { IfOk result (λ answered. answered ≤ MAX_MESSAGE) }
{
    op.borrowed().result_length(length)
}

impl<'a> OpRef<'a> {
    /// How many bytes the operation makes of a message of `length` bytes, as `result_length` of the
    /// same operation, and for the same reasons none.
    pub fn result_length(self, length: usize) -> Result<usize, OpError>
        ensures length { result_ok result ≡ len (op_of self.entry) length }
        ensures refusal { result_err result ≡ refusal (op_of self.entry) length }
        ensures limit { IfOk result (λ answered. answered ≤ MAX_MESSAGE) }
    {
        at_most(length, MAX_MESSAGE)?;
        match self {
            OpRef::Sha1 => Ok(HashOp::Sha1.digest_length()),
            OpRef::Ripemd160 => Ok(HashOp::Ripemd160.digest_length()),
            OpRef::Sha256 => Ok(HashOp::Sha256.digest_length()),
            OpRef::Append(argument) => at_most(length + argument.bytes().len(), MAX_MESSAGE),
            OpRef::Prepend(argument) => at_most(argument.bytes().len() + length, MAX_MESSAGE),
            OpRef::Reverse => at_least_one(length),
            OpRef::Hexlify => Ok(2 * at_least_one(at_most(length, MAX_HEXLIFIED)?)?),
        }
    }
}

/// So many bytes, where they are no more than the limit.
fn at_most(have: usize, limit: usize) -> Result<usize, OpError>
    ensures { result ≡ (if nat_lt limit have then Err (OpError.TooLong have limit) else Ok have) }
{
    if have > limit {
        return Err(OpError::TooLong { have, limit });
    }
    Ok(have)
}

/// So many bytes, where there are any.
fn at_least_one(have: usize) -> Result<usize, OpError>
    ensures { result ≡ (if nat_lt have 1 then Err OpError.Empty else Ok have) }
{
    if have == 0 {
        return Err(OpError::Empty);
    }
    Ok(have)
}
