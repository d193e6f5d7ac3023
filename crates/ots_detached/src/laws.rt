//! Laws of proof files and their faults.
ghost use Rattle.std.specs.Prelude.{◌≡◌, ◌≤◌, ◌⊎◌, ℕ, List, length};
ghost use Rattle.ots_ops.specs.Arg.{AreBytes};
ghost use Rattle.ots_ops.specs.declared.hash_op.HashOp.{HashOp};
ghost use Rattle.ots_tree.specs.Wire.{Node};
ghost use Rattle.ots_reader.specs.declared.fault.Fault.{Fault};
ghost use Rattle.ots_detached.specs.File.{file, file_of, HasFile, IsFileOf};
ghost use Rattle.ots_detached.specs.FileFault.{HasFault};
ghost use Rattle.ots_detached.specs.OneAnswer.{HasOneFault, HasOneFile};

use ots_base::MAX_PROOF_FILE;
use ots_tree::{Detached, limits_of_detached};

/// At most 4,194,304 bytes have exactly one fault or are exactly one proof's file, and never both.
pub fn fault_or_file()
    ensures either { (b : List ℕ) → AreBytes b → length b ≤ MAX_PROOF_FILE → HasOneFault b ⊎ HasOneFile b }
    ensures never_both { (h : HashOp) (d : List ℕ) (t : Node) (f : Fault) → HasFile h d t → HasFault (file h d t) f
        → ⊥ }
{}

/// No bytes have two faults.
pub fn one_fault()
    ensures { (b : List ℕ) (f g : Fault) → HasFault b f → HasFault b g → f ≡ g }
{}

/// A file determines the hash, the digest and the tree.
pub fn one_file()
    ensures { (h k : HashOp) (d e : List ℕ) (t u : Node) → HasFile h d t → HasFile k e u
        → file h d t ≡ file k e u → (h ≡ k) × (d ≡ e) × (t ≡ u) }
{}

/// What a proof is written as, where it has at most 4,194,304 bytes, is read as that proof. What is
/// read as a proof is what that is written as.
pub fn written_file(proof: &Detached)
    ensures reads { length (file_of proof.now) ≤ MAX_PROOF_FILE → IsFileOf (file_of proof.now) proof.now }
    ensures writes { (b : List ℕ) → IsFileOf b proof.now → b ≡ file_of proof.now }
{
    limits_of_detached(proof);
    let _ = proof.tree.tokens();
}
