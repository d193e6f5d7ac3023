//! The command `merge`.
ghost use Rattle.std.specs.Prelude.{◌≡◌, [], ◌∷◌};
ghost use Rattle.ots_client_endings.specs.Runs.{Runs, at};
ghost use Rattle.ots_client_inputs.specs.Inputs.{proof_under};
ghost use Rattle.ots_client_text.specs.declared.status.Status.TheVariants.{Differs};
ghost use Rattle.ots_rewriting.specs.Merged.{Joins};

use ots_canon::MergeError;
use ots_client_endings::{refuse, refuse_stop, write_proof};
use ots_client_inputs::read_proof;
use ots_client_text::Status;
use ots_outside::{Shelf, Sink};
use ots_tree::Detached;
use std::alloc::Global;

/// Joins the proofs that are under two names, and writes that under another that is not there yet; or tells that they
/// are of different digests.
pub fn merge<S: Shelf, K: Sink>(
    alloc: Global,
    first: &str,
    second: &str,
    to: &str,
    shelf: &mut S,
    out: &mut K,
) -> Status
    ensures runs { Runs (λ told. Joins told first.now second.now to.now)
        (proof_under first.now ∷ proof_under second.now ∷ [])
        (at S.told S.faults K.taken K.faults shelf.old out.old)
        (at S.told S.faults K.taken K.faults shelf.new out.new) result }
    ensures same { K.same out.old out.new }
{
    let first = match read_proof(alloc, first, shelf) {
        Ok(first) => first,
        Err(stop) => return refuse_stop(stop, out),
    };
    let second = match read_proof(alloc, second, shelf) {
        Ok(second) => second,
        Err(stop) => return refuse_stop(stop, out),
    };
    match ots_canon::merge(alloc, &first, &second) {
        Ok(joined) => write_proof(to, &joined, shelf, out),
        Err(MergeError::Differs { .. }) => refuse("", differing(&first, &second), out),
        Err(MergeError::OutOfMemory) => Status::OutOfMemory,
    }
}

/// That two proofs are of different digests, or these made by different hashes.
fn differing(first: &Detached, second: &Detached) -> Status
    ensures { result ≡ Differs first.now.hash first.now.digest second.now.hash second.now.digest }
{
    Status::Differs {
        first_hash: first.hash,
        first_digest: first.digest,
        second_hash: second.hash,
        second_digest: second.digest,
    }
}
