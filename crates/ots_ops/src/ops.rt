//! Operations, one after another.
ghost use Rattle.std.specs.Prelude.{◌≡◌, ◌++◌, ◌∷◌, [], IfOk, OnOk, is_ok, if◌then◌else◌};

use crate::op::Op;
use ots_base::OutOfMemory;
use std::alloc::Global;
use std::marker::Model;

/// Operations in the order in which they are applied.
///
/// Contracts see the list of them.
#[derive(Debug, Drop)]
pub struct Ops {
    items: Vec<Op>,
}

impl Model for Ops {
    ghost use Rattle.std.specs.Prelude.{List};
    ghost use Rattle.ots_ops.specs.declared.op.Op.{Op};

    ghost Value = { List Op };

    ghost view = { λ ops. ops.items.items };
}

impl Ops {
    /// No operation yet. Those that are pushed lie in memory of `alloc`.
    pub fn new(alloc: Global) -> Ops
        ensures { result ≡ [] }
    {
        Ops {
            items: Vec::new(alloc),
        }
    }

    /// Adds an operation after the others. Where memory ran out they are as before.
    pub fn push(&mut self, item: Op) -> Result<(), OutOfMemory>
        ensures { self.new ≡ (if is_ok result then self.old ++ item ∷ [] else self.old) }
    {
        self.items.push(item)?;
        Ok(())
    }

    /// The operations.
    pub fn items(&self) -> &[Op]
        ensures { result.now ≡ self.now }
    {
        self.items.as_slice()
    }

    /// Adds copies of these operations after the others, in memory of this list's allocator. Where
    /// memory ran out, some of them may have been added.
    pub fn extend(&mut self, ops: &[Op]) -> Result<(), OutOfMemory>
        ensures { OnOk result (self.new ≡ self.old ++ ops.now) }
    {
        self.items.reserve(ops.len())?;
        for op in ops {
            self.push(op.copy()?)?;
        }
        Ok(())
    }

    /// The same operations once more, in memory of this list's allocator.
    pub fn copy(&self) -> Result<Ops, OutOfMemory>
        ensures { IfOk result (λ copied. copied ≡ self.now) }
    {
        let mut copied = Ops::new(*self.items.allocator());
        copied.extend(self.items())?;
        Ok(copied)
    }
}
