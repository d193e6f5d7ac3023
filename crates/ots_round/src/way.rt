//! The way from a digest to its round's commitment.
ghost use Rattle.std.specs.Prelude.{◌≡◌, IfOk};
ghost use Rattle.ots_round.specs.Round.{way};

use crate::round::COMMITMENT;
use ots_base::OutOfMemory;
use ots_ops::{Arg, Op, Ops};
use std::alloc::Global;

/// The operations that lead from a digest to its round's commitment, in memory of `alloc`: the
/// nonce is put after it and that is hashed, the path, which is copied, leads from this leaf of
/// the round's tree to the root, before which the second is put and after it the keyed hash.
pub fn way_to_commitment(
    alloc: Global,
    nonce: &[u8; 16],
    path: &Ops,
    commitment: &[u8; COMMITMENT],
) -> Result<Ops, OutOfMemory>
    ensures { IfOk result (λ ops. ops ≡ way nonce.now path.now commitment.now) }
{
    let mut ops = Ops::new(alloc);
    ops.push(Op::Append(Arg::copy_of(alloc, nonce)?))?;
    ops.push(Op::Sha256)?;
    ops.extend(path.items())?;
    ops.push(Op::Prepend(Arg::copy_of(alloc, &commitment[..4])?))?;
    ops.push(Op::Append(Arg::copy_of(alloc, &commitment[36..])?))?;
    Ok(ops)
}
