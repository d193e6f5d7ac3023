//! Laws of the definitions that stand in this crate's `specs/`.
ghost use Rattle.std.specs.Prelude.{◌≡◌, ◌≢◌, ◌++◌, ◌↔◌, ℕ, List, IsTrue, bytes_eq, length};
ghost use Rattle.ots_ops.specs.declared.op.Op.{Op};
ghost use Rattle.ots_ops.specs.Apply.{applied};
ghost use Rattle.ots_ops.specs.HashOp.{digest_length};
ghost use Rattle.ots_ops.specs.Hashed.{hashed};
ghost use Rattle.ots_ops.specs.OpRef.{op_of};
ghost use Rattle.ots_ops.specs.Operation.{tag, spell, key, IsOp};
ghost use Rattle.ots_ops.specs.ResultLength.{made};
ghost use Rattle.ots_ops.specs.declared.hash_op.HashOp.{HashOp};

use crate::op::Op;
use crate::op_ref::OpRef;

/// A spelling determines its operation, and begins no other's.
pub fn one_operation()
    ensures { (o p : Op) (x y : List ℕ) → spell o ++ x ≡ spell p ++ y → (o ≡ p) × (x ≡ y) }
{}

/// Operations are equal, as `==` and the order say it, exactly where they are the same.
pub fn equal_operations()
    ensures { (o p : Op) → IsTrue (bytes_eq (key o) (key p)) ↔ (o ≡ p) }
{}

/// No operation's tag is that of an attestation, `00`, or of a fork, `ff`.
pub fn tags_of_operations()
    ensures attestation { (o : Op) → tag o ≢ 0x00 }
    ensures fork { (o : Op) → tag o ≢ 0xff }
{}

/// The argument of any operation is 1 to 4096 bytes.
pub fn limits_of_operation(op: &Op)
    ensures { IsOp op.now }
{
    match op {
        Op::Append(argument) | Op::Prepend(argument) => {
            let _ = argument.bytes();
        }
        _ => {}
    }
}

/// So is that of any operation whose argument stands elsewhere.
pub fn limits_of_borrowed_operation(op: OpRef<'_>)
    ensures { IsOp (op_of op.entry) }
{
    match op {
        OpRef::Append(argument) | OpRef::Prepend(argument) => {
            let _ = argument.bytes();
        }
        _ => {}
    }
}

/// A digest has its hash's length, and the result of an operation the length that is foretold of it.
pub fn lengths_of_results()
    ensures digests { (h : HashOp) (m : List ℕ) → length (hashed h m) ≡ digest_length h }
    ensures results { (o : Op) (m : List ℕ) → length (applied o m) ≡ made o (length m) }
{}
