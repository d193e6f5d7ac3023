//! Laws of faults and trees: which of the two bytes have.
ghost use Rattle.std.specs.Prelude.{◌≡◌, ◌≢◌, ◌⊎◌, ◌↔◌, ℕ, List, [], ◌++◌, length, take, None};
ghost use Rattle.ots_ops.specs.Arg.{AreBytes};
ghost use Rattle.ots_tree.specs.Wire.{Node, pre, bytes, spelled};
ghost use Rattle.ots_tree.specs.declared.shape.Shape.{Shape};
ghost use Rattle.ots_tree.specs.declared.token.Token.{Token};
ghost use Rattle.ots_tree.specs.declared.tree.Tree.{Tree};
ghost use Rattle.ots_reader.specs.TokenFault.{token_fault};
ghost use Rattle.ots_reader.specs.TreeFault.{HasTreeFault, BeginsWith};
ghost use Rattle.ots_reader.specs.TreeRead.{IsSoundNode, IsTreeAt};
ghost use Rattle.ots_reader.specs.OneAnswer.{IsShape, HasOneFault, HasOneTree, IsTreeReason};
ghost use Rattle.ots_reader.specs.declared.fault.Fault.{Fault};
ghost use Rattle.ots_reader.specs.declared.fault.Reason.{Reason};
ghost use Rattle.ots_reader.specs.declared.fault.ReadError.{ReadError};
ghost use Rattle.ots_reader.specs.Progress.{Progress, reading, refused};
ghost use Rattle.ots_reader.specs.Run.{Run, joined, StandsFor};

/// Bytes have exactly one fault or begin with exactly one sound tree, and never both.
pub fn fault_or_tree()
    ensures either { (n k : ℕ) (input : List ℕ) → IsShape n k → AreBytes input
        → HasOneFault n k input ⊎ HasOneTree n k input }
    ensures never_both { (n k : ℕ) (t : Node) (rest : List ℕ) (f : Fault) → IsShape n k
        → IsSoundNode n k t → HasTreeFault n k (bytes t ++ rest) f → ⊥ }
{}

/// No bytes have two faults, and the reason of a tree's fault is never one of a file's header, nor
/// that bytes follow the tree.
pub fn one_fault()
    ensures one { (n k : ℕ) (input : List ℕ) (f g : Fault) → HasTreeFault n k input f
        → HasTreeFault n k input g → f ≡ g }
    ensures reason { (n k : ℕ) (input : List ℕ) (f : Fault) → HasTreeFault n k input f
        → IsTreeReason f.reason }
{}

/// A fault stays, whatever follows, unless it was that the bytes end.
pub fn faults_stay()
    ensures { (n k : ℕ) (input more : List ℕ) (f : Fault) → f.reason ≢ Reason.Truncated
        → HasTreeFault n k input f → HasTreeFault n k (input ++ more) f }
{}

/// No line of the table of faults fits exactly where a token stands.
pub fn no_fault_at_a_token()
    ensures { (input : List ℕ) → AreBytes input
        → (token_fault input ≡ None) ↔ ((x : Token) × BeginsWith input x) }
{}

/// However the bytes are cut into pieces, a reader that was fed them stands where the bytes joined say,
/// by the definitions that a reader of all bytes has: nothing is wrong with them but that they end, or
/// they begin with the tree that is whole then, or they have the fault that was answered. Bytes say one
/// of these alone, so it comes for each way to cut them unless memory runs out, and a fault comes in the
/// first piece after which they have it.
pub fn pieces()
    ensures stands { (at : Shape) (pieces : List (List ℕ)) (last : Progress) → IsShape at.length at.depth
        → Run at (reading []) pieces last
        → StandsFor at (joined pieces) last }
    ensures one { (at : Shape) (bytes : List ℕ) (p q : Progress) → IsShape at.length at.depth → StandsFor at bytes p
        → StandsFor at bytes q
        → p ≢ refused ReadError.OutOfMemory → q ≢ refused ReadError.OutOfMemory → p ≡ q }
{}

/// The bytes of a sound tree are those of it alone, whatever follows, and they are what its tokens
/// spell. So a tree that is written is read as itself, and one that is read is written as the bytes
/// that it was read from.
pub fn one_tree_at_the_start()
    ensures written { (n k : ℕ) (t : Node) (rest : List ℕ) → IsSoundNode n k t
        → IsTreeAt n k (bytes t ++ rest) (pre t) (length (bytes t)) }
    ensures read { (n k : ℕ) (input : List ℕ) (tree : Tree) (used : ℕ)
        → IsTreeAt n k input tree used → take used input ≡ spelled tree }
    ensures one { (n k : ℕ) (input : List ℕ) (t u : Tree) (used more : ℕ)
        → IsTreeAt n k input t used → IsTreeAt n k input u more → (t ≡ u) × (used ≡ more) }
{}
