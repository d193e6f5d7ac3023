//! The value of operations on a message.
ghost use Rattle.std.specs.Prelude.{◌≡◌, ◌≢◌, ◌≤◌, length, None};
ghost use Rattle.std.specs.Result.{result_ok, result_err};
ghost use Rattle.ots_ops.specs.Value.{value, value_refusal};

use ots_base::MAX_MESSAGE;
use ots_ops::{Message, Op, OpError, apply_in_place};
use std::alloc::Global;

/// What these operations make of a message of at most 4096 bytes, one after the other, in memory of
/// `alloc`, which the value keeps.
///
/// The refusal is that of `result_length` for the first operation in order that it refuses.
/// `OutOfMemory` may come in place of the value, and never of a refusal.
pub fn value(alloc: Global, ops: &[Op], message: &[u8]) -> Result<Message, OpError>
    requires { length message.now ≤ MAX_MESSAGE }
    ensures value { result ≢ Err OpError.OutOfMemory → result_ok result ≡ value ops.now message.now }
    ensures refusal { result ≢ Err OpError.OutOfMemory → result_err result ≡ value_refusal ops.now message.now }
    ensures short { result ≡ Err OpError.OutOfMemory → value_refusal ops.now message.now ≡ None }
{
    let mut buffer = [0; MAX_MESSAGE];
    let mut filled = message.len();
    buffer[..filled].copy_from_slice(message);
    for op in ops {
        filled = apply_in_place(op, &mut buffer, filled)?;
    }
    match Message::new(alloc, &buffer[..filled]) {
        Ok(value) => Ok(value),
        Err(_) => Err(OpError::OutOfMemory),
    }
}
