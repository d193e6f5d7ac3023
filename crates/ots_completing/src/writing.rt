//! Writing what calendars made of a proof.
ghost use Rattle.std.specs.Prelude.{[], ◌∷◌};
ghost use Rattle.ots_base.specs.Cause.{Rose};
ghost use Rattle.ots_client_endings.specs.CarriedOut.{Carries};
ghost use Rattle.ots_client_endings.specs.Ending.{makes, prints};
ghost use Rattle.ots_client_endings.specs.Runs.{Finishes, at};
ghost use Rattle.ots_client_text.specs.Lines.{complete_text};
ghost use Rattle.ots_client_text.specs.Status.{complete_status};
ghost use Rattle.ots_completing.specs.Upgrade.{WritesAsked};
ghost use Rattle.ots_detached.specs.File.{file_of};
ghost use Rattle.ots_outputs.specs.Printed.{SinkStays};
ghost use Rattle.ots_tree.specs.declared.detached.Detached.{Detached};
ghost use Rattle.ots_upgrade.specs.Upgrading.{IsProofWithin};

use crate::lines::put_asked;
use ots_base::MAX_PROOF_FILE;
use ots_client_endings::{is_too_long, make_proof, print, refuse, refuse_after};
use ots_client_text::{Status, complete_status, put_complete};
use ots_detached::written_file;
use ots_outputs::{OutputError, PrintedText, print_whole};
use ots_outside::{Failed, Shelf, Sink};
use ots_pending::has_bitcoin;
use ots_printer::Printer;
use ots_tree::Detached;
use ots_upgrade::{AskedList, UpgradedWithin};

/// A line for each pair that a proof asks calendars for.
#[derive(Clone, Copy)]
struct AskedLines<'a>(&'a AskedList);

impl PrintedText for AskedLines<'_> {
    ghost use Rattle.std.specs.Prelude.{◌≡◌};
    ghost use Rattle.ots_completing.specs.Upgrade.{asked_text};

    ghost is_text = { λ t bytes. bytes ≡ asked_text t.0.now };

    fn put<K: Sink>(&self, out: &mut Printer<'_, K>) {
        put_asked(self.0, out)
    }
}

/// Whether a proof has a path that ends in Bitcoin.
#[derive(Clone, Copy)]
struct CompleteLine(bool);

impl PrintedText for CompleteLine {
    ghost use Rattle.std.specs.Prelude.{◌≡◌};
    ghost use Rattle.ots_client_text.specs.Lines.{complete_text};

    ghost is_text = { λ t bytes. bytes ≡ complete_text t.0 };

    fn put<K: Sink>(&self, out: &mut Printer<'_, K>) {
        put_complete(self.0, out)
    }
}

/// Prints what was asked, and writes what came of it under a name, unless that is too long for a proof file.
pub fn write_upgraded<S: Shelf, K: Sink>(
    upgraded: &UpgradedWithin,
    to: &str,
    shelf: &mut S,
    out: &mut K,
) -> Status
    ensures finishes { (made : Detached) → IsProofWithin MAX_PROOF_FILE made upgraded.now.proof
        → Finishes (WritesAsked upgraded.now.asked to.now made)
        (at S.told S.faults K.taken K.faults shelf.old out.old)
        (at S.told S.faults K.taken K.faults shelf.new out.new) result }
    ensures same { K.same out.old out.new }
{
    let asked = &upgraded.asked;
    match &upgraded.proof {
        Some(proof) => write_asked(asked, proof, to, shelf, out),
        None => refuse_after(&AskedLines(asked), to, Status::TooBig, out),
    }
}

/// Prints what was asked and writes a proof under a name, and tells whether some path of it ends in Bitcoin; or prints
/// why it can't be made.
fn write_asked<S: Shelf, K: Sink>(
    asked: &AskedList,
    proof: &Detached,
    to: &str,
    shelf: &mut S,
    out: &mut K,
) -> Status
    ensures finishes { Finishes (WritesAsked asked.now to.now proof.now)
        (at S.told S.faults K.taken K.faults shelf.old out.old)
        (at S.told S.faults K.taken K.faults shelf.new out.new) result }
    ensures same { K.same out.old out.new }
{
    written_file(proof);
    if is_too_long(proof) {
        return refuse_after(&AskedLines(asked), to, Status::TooBig, out);
    }
    let complete = has_bitcoin(&proof.tree);
    match print_whole(&AskedLines(asked), out) {
        Ok(()) => make_and_tell(to, proof, complete, shelf, out),
        Err(Failed) => Status::WriteFault,
    }
}

/// Makes the file of a proof and tells whether some path of it ends in Bitcoin; or prints why it can't be made.
fn make_and_tell<S: Shelf, K: Sink>(
    name: &str,
    proof: &Detached,
    complete: bool,
    shelf: &mut S,
    out: &mut K,
) -> Status
    ensures made { Carries (complete_status complete)
        (makes name.now (file_of proof.now) ∷ prints (complete_text complete) ∷ [])
        (S.told shelf.old) (S.told shelf.new) (S.faults shelf.old) (S.faults shelf.new)
        (Rose (K.faults out.old) (K.faults out.new)) (K.taken out.old) (K.taken out.new) result }
    ensures sink { SinkStays K.faults K.same out.old out.new }
{
    match make_proof(name, proof, shelf) {
        Ok(()) => print(&CompleteLine(complete), complete_status(complete), out),
        Err(OutputError::Exists) => refuse(name, Status::Exists, out),
        Err(OutputError::WriteFault) => refuse(name, Status::WriteFault, out),
        Err(OutputError::OutOfMemory) => Status::OutOfMemory,
    }
}
