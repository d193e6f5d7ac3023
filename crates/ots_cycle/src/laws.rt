//! Where the whole way of a file leads.
ghost use Rattle.std.specs.Prelude.{◌≡◌, ◌≤◌, ◌++◌, ℕ, List, Some, length, slice_get, Contains};
ghost use Rattle.ots_calendar.specs.Cycle.{IsCycle};
ghost use Rattle.ots_cycle.specs.Whole.{whole_path};
ghost use Rattle.ots_headers.specs.HeaderTable.{Table, root_at};
ghost use Rattle.ots_merkle.specs.CalendarTree.{root};
ghost use Rattle.ots_ops.specs.Value.{value};
ghost use Rattle.ots_stamp.specs.Stamped.{leaves};
ghost use Rattle.ots_stamp.specs.declared.target.Target.{Target};
ghost use Rattle.ots_store.specs.Records.{Record};
ghost use Rattle.ots_tree.specs.Wire.{Node, paths, pre};
ghost use Rattle.ots_tree.specs.declared.detached.Detached.{Detached};
ghost use Rattle.ots_tree.specs.declared.token.Token.{Token};
ghost use Rattle.ots_verdicts.specs.Confirmed.{IsConfirmed};
ghost use Rattle.ots_verdicts.specs.declared.verdicts.Chain.TheVariants as chain;

/// Files are stamped together, and the root over them is what a calendar is handed. The tree that it gives for that,
/// and the one that it answers later of the commitment, are joined below the way of a file to the root. This path has
/// at most 223 operations, of the 255 that a path may have, and leads from the file's digest to the Merkle root of the
/// anchor's block. A proof of the file that has it confirms the block's height, where a header of that root is given.
pub fn a_cycle_is_confirmed()
    ensures few { (targets : List Target) (i : ℕ) (t : Target) (records : List Record) (uri commitment : List ℕ)
        (stamped completed : List Token) (c : IsCycle records (root (leaves targets)) uri commitment stamped completed)
        → length targets ≤ 1024 → length (whole_path targets i t c).ops ≤ 223 }
    ensures leads { (targets : List Target) (i : ℕ) (t : Target) (records : List Record) (uri commitment : List ℕ)
        (stamped completed : List Token) (c : IsCycle records (root (leaves targets)) uri commitment stamped completed)
        → slice_get targets i ≡ Some t → value (whole_path targets i t c).ops t.digest ≡ Some c.anchor.root }
    ensures confirmed { (targets : List Target) (i : ℕ) (t : Target) (records : List Record) (uri commitment : List ℕ)
        (stamped completed : List Token) (c : IsCycle records (root (leaves targets)) uri commitment stamped completed)
        (proof : Detached) (node : Node) (table : Table)
        → slice_get targets i ≡ Some t → proof.digest ≡ t.digest → pre node ≡ proof.tree
        → Contains (paths node) (whole_path targets i t c) → root_at table c.anchor.height ≡ Some c.anchor.root
        → IsConfirmed chain.Bitcoin table proof c.anchor.height }
{}
