//! The command `info`.
ghost use Rattle.std.specs.Prelude.{[], ◌∷◌};
ghost use Rattle.ots_client_endings.specs.Runs.{Runs, at};
ghost use Rattle.ots_client_inputs.specs.Inputs.{proof_under};
ghost use Rattle.ots_rewriting.specs.Info.{TellsProof};

use ots_client_endings::{print, refuse_stop};
use ots_client_inputs::read_proof;
use ots_client_text::Status;
use ots_info::put_proof;
use ots_outputs::PrintedText;
use ots_outside::{Shelf, Sink};
use ots_printer::Printer;
use ots_tree::Detached;
use std::alloc::Global;

/// What is printed of a proof.
#[derive(Clone, Copy)]
struct Listing<'a>(&'a Detached);

impl PrintedText for Listing<'_> {
    ghost use Rattle.ots_info.specs.Listing.{IsInfoText};

    ghost is_text = { λ t bytes. IsInfoText t.0.now bytes };

    fn put<K: Sink>(&self, out: &mut Printer<'_, K>) {
        put_proof(self.0, out)
    }
}

/// Prints the proof that is under a name.
pub fn info<S: Shelf, K: Sink>(alloc: Global, name: &str, shelf: &mut S, out: &mut K) -> Status
    ensures runs { Runs (λ told. TellsProof told name.now) (proof_under name.now ∷ [])
        (at S.told S.faults K.taken K.faults shelf.old out.old)
        (at S.told S.faults K.taken K.faults shelf.new out.new) result }
    ensures same { K.same out.old out.new }
{
    match read_proof(alloc, name, shelf) {
        Ok(proof) => print(&Listing(&proof), Status::Done, out),
        Err(stop) => refuse_stop(stop, out),
    }
}
