//! The way from a transaction's id to the root of a block's tree.
ghost use Rattle.std.specs.Prelude.{◌≡◌, ◌++◌, ◌∷◌, [], IfOk, is_ok, if◌then◌else◌};

use ots_base::OutOfMemory;
use std::alloc::Global;
use std::marker::Model;

/// On which side of a hash its neighbour stands.
#[derive(Clone, Copy, Debug, PartialEq, Eq)]
pub enum Side {
    /// The neighbour comes first.
    Left,
    /// The neighbour comes second.
    Right,
}

/// The neighbours on the way from a transaction's id to the root of a block's tree, the lowest
/// first, each with the side on which it stands.
///
/// Contracts see the list of them.
#[derive(Debug, Drop)]
pub struct Branch {
    items: Vec<(Side, [u8; 32])>,
}

impl Model for Branch {
    ghost use Rattle.std.specs.Prelude.{ℕ, List};
    ghost use Rattle.ots_merkle.specs.declared.branch.Side.{Side};

    ghost Value = { List (Side × List ℕ) };

    ghost view = { λ branch. branch.items.items };
}

impl Branch {
    /// No neighbour yet. Those that are pushed lie in memory of `alloc`.
    pub fn new(alloc: Global) -> Branch
        ensures { result ≡ [] }
    {
        Branch {
            items: Vec::new(alloc),
        }
    }

    /// Adds a neighbour above the others. Where memory ran out they are as before.
    pub fn push(&mut self, item: (Side, [u8; 32])) -> Result<(), OutOfMemory>
        ensures { self.new ≡ (if is_ok result then self.old ++ item ∷ [] else self.old) }
    {
        self.items.push(item)?;
        Ok(())
    }

    /// The neighbours.
    pub fn items(&self) -> &[(Side, [u8; 32])]
        ensures { result.now ≡ self.now }
    {
        self.items.as_slice()
    }

    /// The same neighbours once more, in memory of this branch's allocator.
    pub fn copy(&self) -> Result<Branch, OutOfMemory>
        ensures { IfOk result (λ copied. copied ≡ self.now) }
    {
        let items = self.items.clone()?;
        Ok(Branch { items })
    }
}
