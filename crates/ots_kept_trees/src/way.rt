//! The path of a commitment, as far as it is known before those beside it are hashed.
ghost use Rattle.std.specs.Prelude.{◌≡◌, ◌++◌, ◌<◌, ◌^◌, [], IfOk, length};
ghost use Rattle.ots_anchor.specs.Path.{hashed};
ghost use Rattle.ots_merkle.specs.CalendarTree.{path};

use ots_anchor::hashed;
use ots_base::OutOfMemory;
use ots_merkle::path;
use ots_ops::Ops;
use std::alloc::Global;
use std::marker::Model;

/// The path of a commitment to the root of a calendar's tree, before the commitments beside it are hashed.
/// It has copies of all that it needs, so that its hashes can be made when the calendar's book is free.
///
/// Contracts see the operations of that path.
#[derive(Drop)]
pub struct Way {
    /// The commitments of its run.
    run: Vec<[u8; 44]>,
    /// The commitment's place among them.
    place: usize,
    /// What leads from the root of the run to that of the tree.
    above: Ops,
}

impl Model for Way {
    ghost use Rattle.std.specs.Prelude.{◌++◌, ◌<◌, ◌^◌, List, length};
    ghost use Rattle.ots_anchor.specs.Path.{hashed};
    ghost use Rattle.ots_merkle.specs.CalendarTree.{path};
    ghost use Rattle.ots_ops.specs.declared.op.Op.{Op};

    ghost Value = { List Op };

    ghost view = { λ way. path (hashed way.run.items) way.place ++ way.above };

    ghost invariant = { λ way. (way.place < length way.run.items) × (length way.run.items < 2 ^ 32) };
}

impl Way {
    /// The way of the commitment at a place of a run, where the root of the run stands below these operations.
    pub(crate) fn through(
        alloc: Global,
        run: &[[u8; 44]],
        place: usize,
        above: Ops,
    ) -> Result<Way, OutOfMemory>
        requires is_one { place < length run.now }
        requires few { length run.now < 2 ^ 32 }
        ensures { IfOk result (λ way. way ≡ path (hashed run.now) place ++ above) }
    {
        let mut copied = Vec::with_capacity(alloc, run.len())?;
        copied.extend_from_slice(run)?;
        Ok(Way {
            run: copied,
            place,
            above,
        })
    }

    /// The way among commitments that are a run of their own.
    pub(crate) fn of_all(
        alloc: Global,
        commitments: &[[u8; 44]],
        place: usize,
    ) -> Result<Way, OutOfMemory>
        requires is_one { place < length commitments.now }
        requires few { length commitments.now < 2 ^ 32 }
        ensures { IfOk result (λ way. way ≡ path (hashed commitments.now) place) }
    {
        Way::through(alloc, commitments, place, Ops::new(alloc))
    }

    /// The operations of the path, in memory of `alloc`. Each commitment of the run is hashed, and the tree over
    /// them is made.
    pub fn ops(&self, alloc: Global) -> Result<Ops, OutOfMemory>
        ensures { IfOk result (λ ops. ops ≡ self.now) }
    {
        let leaves = hashed(alloc, &self.run)?;
        let mut ops = path(alloc, &leaves, self.place)?;
        ops.extend(self.above.items())?;
        Ok(ops)
    }
}
