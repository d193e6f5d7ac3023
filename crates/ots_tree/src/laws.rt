//! Laws of trees.
ghost use Rattle.std.specs.Prelude.{◌≡◌, ◌≢◌, ℕ, ◌+◌, ◌≤◌, Some, List, [], ◌∷◌, ◌++◌, ◌↔◌, length, map, filter};
ghost use Rattle.std.specs.List.{AllByRecursion};
ghost use Rattle.ots_attest.specs.declared.attestation.Attestation.{Attestation};
ghost use Rattle.ots_ops.specs.declared.op.Op.{Op};
ghost use Rattle.ots_tree.specs.Wire.{Node, pre, bytes, spell, paths, IsToken};
ghost use Rattle.ots_tree.specs.declared.token.Token.{Token};
ghost use Rattle.ots_tree.specs.Front.{Open, opened, start, IsClosed};
ghost use Rattle.ots_tree.specs.Sound.{IsSoundPath, IsSoundPre};
ghost use Rattle.ots_tree.specs.Made.{chain, lone, joined, after, IsUnder, IsBeside, IsSoundAfter};
ghost use Rattle.ots_tree.specs.Listed.{listed, token_of, is_attestation, end_below};
ghost use Rattle.ots_ops.specs.HashOp.{digest_length};

use crate::detached::Detached;
use ots_base::MAX_OPERATIONS;

/// Tokens close every node that they open exactly where they are those of a sound tree.
pub fn fronts()
    ensures { (n k : ℕ) (ts : List Token) → k ≤ MAX_OPERATIONS → IsClosed (opened (start n k) ts) ↔ IsSoundPre n k ts }
{}

/// At most 256 nodes are open besides the last one, and as many fewer as there are operations before
/// the root. For from the root on each open node has an operation more before it, but that one which a
/// fork has just kept open stands twice. So who keeps room for 256 others takes no more memory.
pub fn room_of_fronts()
    ensures { (n k : ℕ) (ts : List Token) (prefix : Open) → k ≤ MAX_OPERATIONS → opened (start n k) ts ≡ Some prefix
        → length prefix.nodes + k ≤ MAX_OPERATIONS + 2 }
{}

/// A token's spelling determines it, and begins no other token's.
pub fn one_token()
    ensures { (a b : Token) (x y : List ℕ) → IsToken a → IsToken b → spell a ++ x ≡ spell b ++ y → (a ≡ b) × (x ≡ y) }
{}

/// Every tree has a path.
pub fn some_path()
    ensures { (t : Node) → paths t ≢ [] }
{}

/// The tokens of a tree determine it, and no tree's tokens begin another's.
pub fn one_tree()
    ensures { (t u : Node) (x y : List Token) → pre t ++ x ≡ pre u ++ y → (t ≡ u) × (x ≡ y) }
{}

/// A listing has the tokens of its tree in their order. Beside each attestation it has the number of
/// the operations on its path.
pub fn one_listing()
    ensures tokens { (k : ℕ) (t : Node) → map token_of (listed k t) ≡ pre t }
    ensures paths { (k : ℕ) (t : Node) → filter (λ l. is_attestation l.token) (listed k t)
        ≡ map (end_below k) (paths t) }
{}

/// The spelling of a tree determines it, and no tree's spelling begins another's.
pub fn one_spelling()
    ensures { (t u : Node) (x y : List ℕ) → AllByRecursion IsToken (pre t) → AllByRecursion IsToken (pre u)
        → bytes t ++ x ≡ bytes u ++ y → (t ≡ u) × (x ≡ y) }
{}

/// The digest of a proof has its hash's length, and the tree is sound for it.
pub fn limits_of_detached(proof: &Detached)
    ensures digest { length proof.now.digest ≡ digest_length proof.now.hash }
    ensures sound { IsSoundPre (length proof.now.digest) 0 proof.now.tree }
{}

/// The paths of trees that are made of others. A tree of one path has this path. In a chain the
/// operations of the chain stand before those of each path. A node with the items of two has the paths
/// of the first, and then those of the second.
pub fn paths_of_made_trees()
    ensures lone { (ops : List Op) (a : Attestation) → paths (lone ops a) ≡ record { ops = ops; end = a } ∷ [] }
    ensures chain { (ops : List Op) (t : Node) → paths (chain ops t) ≡ map (after ops) (paths t) }
    ensures joined { (t u : Node) → paths (joined t u) ≡ paths t ++ paths u }
{}

/// When trees that are made of others are sound: a tree of one path where this path is; a chain where
/// its operations have results and the tree after them is sound on the last of these; and a node with
/// the items of two where both are sound.
pub fn sound_made_trees()
    ensures lone { (n k : ℕ) (ops : List Op) (a : Attestation)
        → IsSoundPre n k (pre (lone ops a)) ↔ IsSoundPath n k (record { ops = ops; end = a }) }
    ensures under { (n k : ℕ) (ops : List Op) (below made : List Token) → IsUnder ops below made
        → IsSoundPre n k made ↔ IsSoundAfter ops n k below }
    ensures beside { (n k : ℕ) (first second made : List Token) → IsBeside first second made
        → IsSoundPre n k made ↔ (IsSoundPre n k first × IsSoundPre n k second) }
{}
