//! Laws of the definitions that stand in this crate's `specs/`.
ghost use Rattle.std.specs.Prelude.{◌≡◌, ◌+◌, ◌*◌, ◌/◌, ◌^◌, ◌<◌, ◌≤◌, ℕ, List, [], ◌∷◌, ◌++◌, Some, length};
ghost use Rattle.std.specs.Prelude.{slice_index_or};
ghost use Rattle.ots_ops.specs.Value.{value};
ghost use Rattle.ots_ops.specs.declared.op.Op.TheVariants.{Sha256, Append, Prepend};
ghost use Rattle.ots_merkle.specs.Hashes.{node, AreHashes};
ghost use Rattle.ots_merkle.specs.CalendarTree.{root, path};
ghost use Rattle.ots_merkle.specs.BlockTree.{paired, neighbour, block_root, block_branch, climbed};

/// A calendar's tree: one leaf is its own root, with no step on its path; and more leaves are split
/// after the greatest power of two that is below their count, into a left and a right part.
pub fn calendar_tree()
    ensures one_leaf { (leaf : List ℕ) → root (leaf ∷ []) ≡ leaf }
    ensures more { (h : ℕ) (left right : List (List ℕ)) → length left ≡ 2 ^ h → 0 < length right → length right ≤ 2 ^ h
        → root (left ++ right) ≡ node (root left) (root right) }
    ensures no_step { (leaf : List ℕ) → path (leaf ∷ []) 0 ≡ [] }
    ensures left { (h : ℕ) (left right : List (List ℕ)) (i : ℕ) → length left ≡ 2 ^ h → 0 < length right
        → length right ≤ 2 ^ h → i < length left → path (left ++ right) i
        ≡ path left i ++ Append (root right) ∷ Sha256 ∷ [] }
    ensures right { (h : ℕ) (left right : List (List ℕ)) (i : ℕ) → length left ≡ 2 ^ h → 0 < length right
        → length right ≤ 2 ^ h → i < length right → path (left ++ right) (length left + i)
        ≡ path right i ++ Prepend (root left) ∷ Sha256 ∷ [] }
{}

/// The path of a leaf leads from it to the root, in any calendar's tree of 32-byte leaves.
pub fn path_leads_to_root()
    ensures { (leaves : List (List ℕ)) (i : ℕ) → AreHashes leaves → i < length leaves
        → value (path leaves i) (slice_index_or leaves i []) ≡ Some (root leaves) }
{}

/// A path has at most as many steps, of two operations, as the tree has levels above its leaves.
pub fn path_is_short()
    ensures { (h : ℕ) (leaves : List (List ℕ)) (i : ℕ) → length leaves ≤ 2 ^ h → length (path leaves i) ≤ 2 * h }
{}

/// A block's tree: one id is its own root, with no neighbour on its branch; and more have the root
/// of the level above them, where their branch goes on.
pub fn block_tree()
    ensures one_id { (id : List ℕ) → block_root (id ∷ []) ≡ id }
    ensures more { (ids : List (List ℕ)) → 1 < length ids → block_root ids ≡ block_root (paired ids) }
    ensures no_step { (id : List ℕ) → block_branch (id ∷ []) 0 ≡ [] }
    ensures step { (ids : List (List ℕ)) (i : ℕ) → 1 < length ids
        → block_branch ids i ≡ neighbour ids i ∷ block_branch (paired ids) (i / 2) }
{}

/// The branch of an id leads from it to the root.
pub fn branch_leads_to_root()
    ensures { (ids : List (List ℕ)) (i : ℕ) → i < length ids
        → climbed (block_branch ids i) (slice_index_or ids i []) ≡ block_root ids }
{}
