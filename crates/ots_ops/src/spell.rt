//! How an operation is spelled.
ghost use Rattle.std.specs.Prelude.{◌≡◌, ◌≤◌, ◌++◌, length, drop};
ghost use Rattle.ots_ops.specs.Operation.{spell};

use crate::op::Op;
use ots_base::MAX_ARGUMENT;
use ots_varint::put_varbytes;

/// The most bytes of an operation's spelling, 4099: the tag, and the longest argument after its
/// length, which two bytes spell.
pub const MAX_SPELLED_OP: usize = 3 + MAX_ARGUMENT;

/// Writes the spelling of an operation at the start, leaves the bytes after it as they are, and
/// answers how many bytes it has: 1 without an argument, and at most `MAX_SPELLED_OP`. It takes no
/// memory.
#[tactic(auto, using(crate::proofs::Spelling::argument_fits))]
pub fn spell_op(op: &Op, out: &mut [u8; MAX_SPELLED_OP]) -> usize
    ensures length { result ≡ length (spell op.now) }
    ensures spelled { out.new ≡ spell op.now ++ drop (length (spell op.now)) out.old }
    ensures limit { result ≤ MAX_SPELLED_OP }
{
    out[0] = op.tag();
    match op {
        Op::Append(argument) | Op::Prepend(argument) => {
            1 + put_varbytes(argument.bytes(), &mut out[1..])
        }
        _ => 1,
    }
}
