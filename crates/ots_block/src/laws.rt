//! Laws of blocks and their faults.
ghost use Rattle.std.specs.Prelude.{◌≡◌, ◌⊎◌, ◌<◌, ◌≤◌, ◌++◌, ℕ, List, length};
ghost use Rattle.std.specs.List.{AllByRecursion};
ghost use Rattle.ots_block.specs.Compact.{compact};
ghost use Rattle.ots_block.specs.Block.{Contents, IsBlock};
ghost use Rattle.ots_block.specs.BlockRead.{HasFault};
ghost use Rattle.ots_block.specs.OneAnswer.{HasOneBlock, HasOneFault};
ghost use Rattle.ots_block.specs.declared.fault.BlockReason.{BlockReason};

use crate::limits::MAX_COMPACT;

/// Bytes are exactly one block or have exactly one fault, and never both.
pub fn block_or_fault()
    ensures either { (bytes : List ℕ) → AllByRecursion (λ b. b < 256) bytes → HasOneBlock bytes ⊎ HasOneFault bytes }
    ensures never_both { (bytes : List ℕ) (block : Contents) (place : ℕ) (why : BlockReason) → IsBlock bytes block
        → HasFault bytes place why → ⊥ }
{}

/// The place of a fault lies within the bytes, or at their end.
pub fn fault_within()
    ensures { (bytes : List ℕ) (place : ℕ) (why : BlockReason) → HasFault bytes place why → place ≤ length bytes }
{}

/// A number that may stand in a block has one form, which begins no other's.
pub fn one_form()
    ensures { (m n : ℕ) (x y : List ℕ) → m ≤ MAX_COMPACT → n ≤ MAX_COMPACT → compact m ++ x ≡ compact n ++ y
        → (m ≡ n) × (x ≡ y) }
{}
