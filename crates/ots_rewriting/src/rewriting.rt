//! The commands `canon` and `prune`.
ghost use Rattle.std.specs.Prelude.{[], ◌∷◌, IfOk};
ghost use Rattle.ots_client_endings.specs.Runs.{Runs, at};
ghost use Rattle.ots_client_inputs.specs.Inputs.{proof_under};
ghost use Rattle.ots_rewriting.specs.Rewritten.{IsRewritten, IsTreeOf, Rewrites};

use ots_base::OutOfMemory;
use ots_canon::{canon, prune};
use ots_client_endings::{refuse_stop, write_proof};
use ots_client_inputs::read_proof;
use ots_client_text::Status;
use ots_outside::{Shelf, Sink};
use ots_tree::{Detached, Tree, limits_of_detached};
use std::alloc::Global;

/// How a proof is written anew.
#[derive(Clone, Copy)]
pub enum Rewriting {
    /// In canonical form.
    Canon,
    /// Pruned to the first path among those with the least Bitcoin height.
    Prune,
}

/// Writes the proof that is under one name anew, under another that is not there yet.
pub fn rewrite<S: Shelf, K: Sink>(
    alloc: Global,
    way: Rewriting,
    from: &str,
    to: &str,
    shelf: &mut S,
    out: &mut K,
) -> Status
    ensures runs { Runs (λ told. Rewrites way told from.now to.now) (proof_under from.now ∷ [])
        (at S.told S.faults K.taken K.faults shelf.old out.old)
        (at S.told S.faults K.taken K.faults shelf.new out.new) result }
    ensures same { K.same out.old out.new }
{
    match read_proof(alloc, from, shelf) {
        Ok(proof) => match rewritten(alloc, way, &proof) {
            Ok(made) => write_proof(to, &made, shelf, out),
            Err(OutOfMemory) => Status::OutOfMemory,
        },
        Err(stop) => refuse_stop(stop, out),
    }
}

/// The proof with the same hash and digest and the tree written anew.
fn rewritten(alloc: Global, way: Rewriting, proof: &Detached) -> Result<Detached, OutOfMemory>
    ensures { IfOk result (IsRewritten way proof.now) }
{
    limits_of_detached(proof);
    let tree = rewritten_tree(alloc, way, &proof.tree)?;
    Ok(Detached {
        hash: proof.hash,
        digest: proof.digest,
        tree,
    })
}

/// The tree written anew.
fn rewritten_tree(alloc: Global, way: Rewriting, tree: &Tree) -> Result<Tree, OutOfMemory>
    ensures { IfOk result (λ made. IsTreeOf way tree.now made) }
{
    match way {
        Rewriting::Canon => canon(alloc, tree),
        Rewriting::Prune => prune(alloc, tree),
    }
}
