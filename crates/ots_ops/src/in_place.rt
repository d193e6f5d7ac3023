//! The result of an operation in the place of the message.
ghost use Rattle.std.specs.Prelude.{◌≡◌, ◌≤◌, ◌+◌, ◌*◌, ◌++◌, length, take, drop, reverse, Some, IfOk, OnErr};
ghost use Rattle.std.specs.Result.{result_ok, result_err};
ghost use Rattle.hex.specs.Hex.{encode_lower};
ghost use Rattle.sha2.specs.Sha256.{sha256};
ghost use Rattle.ots_ops.specs.Apply.{applied, apply};
ghost use Rattle.ots_ops.specs.OpRef.{op_of};
ghost use Rattle.ots_ops.specs.ResultLength.{len, made, most, refusal};

use crate::length::OpError;
use crate::op::Op;
use crate::op_ref::OpRef;
use ots_base::{MAX_HEXLIFIED, MAX_MESSAGE};
use ots_ripemd::ripemd160;
use sha1::Sha1;
use sha2::{Digest, Sha256};

/// Puts the result of an operation in the place of the message, which is the first `length` bytes
/// of the buffer, and answers how long it is. The bytes after the result stay.
///
/// It refuses exactly what `result_length` refuses, for the same reason, and the buffer is then as
/// before. It takes no memory, and never answers `OutOfMemory`.
pub fn apply_in_place(
    op: &Op,
    buffer: &mut [u8; MAX_MESSAGE],
    length: usize,
) -> Result<usize, OpError>
    requires { length ≤ MAX_MESSAGE }
    ensures length { result_ok result ≡ len op.now length }
    ensures refusal { result_err result ≡ refusal op.now length }
    ensures limit { IfOk result (λ answered. answered ≤ MAX_MESSAGE) }
    ensures value { IfOk result (λ answered. apply op.now (take length buffer.old) ≡ Some (take answered buffer.new)) }
    ensures after { IfOk result (λ answered. drop answered buffer.new ≡ drop answered buffer.old) }
    ensures as_before { OnErr result (buffer.new ≡ buffer.old) }
{
    op.borrowed().apply_in_place(buffer, length)
}

impl<'a> OpRef<'a> {
    /// Puts the result of the operation in the place of the message, as `apply_in_place` of the same
    /// operation, and refuses for the same reasons.
    #[tactic(auto, using(crate::proofs::AppliedLength::length_of_applied))]
    pub fn apply_in_place(
        self,
        buffer: &mut [u8; MAX_MESSAGE],
        length: usize,
    ) -> Result<usize, OpError>
        requires { length ≤ MAX_MESSAGE }
        ensures length { result_ok result ≡ len (op_of self.entry) length }
        ensures refusal { result_err result ≡ refusal (op_of self.entry) length }
        ensures limit { IfOk result (λ answered. answered ≤ MAX_MESSAGE) }
        ensures value { IfOk result (λ answered. apply (op_of self.entry) (take length buffer.old)
            ≡ Some (take answered buffer.new)) }
        ensures after { IfOk result (λ answered. drop answered buffer.new ≡ drop answered buffer.old) }
        ensures as_before { OnErr result (buffer.new ≡ buffer.old) }
    {
        let answered = self.result_length(length)?;
        self.put(buffer, length);
        Ok(answered)
    }

    /// Puts what the operation makes of the first `filled` bytes in their place.
    fn put(self, buffer: &mut [u8], filled: usize)
        requires room { length buffer.old ≡ MAX_MESSAGE }
        requires message_fits { filled ≤ most (op_of self) }
        requires result_fits { made (op_of self) filled ≤ MAX_MESSAGE }
        ensures { buffer.new ≡ applied (op_of self.entry) (take filled buffer.old)
            ++ drop (made (op_of self.entry) filled) buffer.old }
    {
        match self {
            OpRef::Sha1 => {
                let digest = Sha1::digest(&buffer[..filled]);
                put_prefix(buffer, &digest);
            }
            OpRef::Ripemd160 => {
                let digest = ripemd160(&buffer[..filled]);
                put_prefix(buffer, &digest);
            }
            OpRef::Sha256 => {
                let digest = sha256(&buffer[..filled]);
                put_prefix(buffer, &digest);
            }
            OpRef::Append(argument) => append(buffer, filled, argument.bytes()),
            OpRef::Prepend(argument) => prepend(buffer, filled, argument.bytes()),
            OpRef::Reverse => buffer[..filled].reverse(),
            OpRef::Hexlify => hexlify(buffer, filled),
        }
    }
}

/// The SHA-256 digest of these bytes.
fn sha256(bytes: &[u8]) -> [u8; 32]
    ensures { result ≡ sha256 bytes.now }
{
    Sha256::digest(bytes)
}

/// Puts a digest at the start.
fn put_prefix(buffer: &mut [u8], digest: &[u8])
    requires { length digest.now ≤ length buffer.old }
    ensures { buffer.new ≡ digest.now ++ drop (length digest.now) buffer.old }
{
    buffer[..digest.len()].copy_from_slice(digest);
}

/// Puts the argument after the first `filled` bytes.
fn append(buffer: &mut [u8], filled: usize, argument: &[u8])
    requires { filled + length argument.now ≤ length buffer.old }
    ensures { buffer.new ≡ take filled buffer.old ++ argument.now ++ drop (filled + length argument.now) buffer.old }
{
    buffer[filled..filled + argument.len()].copy_from_slice(argument);
}

/// Puts the argument before the first `filled` bytes.
fn prepend(buffer: &mut [u8], filled: usize, argument: &[u8])
    requires { length argument.now + filled ≤ length buffer.old }
    ensures { buffer.new ≡ argument.now ++ take filled buffer.old ++ drop (length argument.now + filled) buffer.old }
{
    buffer.copy_within(..filled, argument.len());
    buffer[..argument.len()].copy_from_slice(argument);
}

/// Puts two digits in the place of each of the first `filled` bytes.
fn hexlify(buffer: &mut [u8], filled: usize)
    requires fits { filled ≤ MAX_HEXLIFIED }
    requires room { 2 * filled ≤ length buffer.old }
    ensures { buffer.new ≡ encode_lower (take filled buffer.old) ++ drop (2 * filled) buffer.old }
{
    let mut message = [0; MAX_HEXLIFIED];
    message[..filled].copy_from_slice(&buffer[..filled]);
    let Ok(()) = hex::encode_to_slice(&message[..filled], &mut buffer[..2 * filled]) else {
        unreachable!();
    };
}
