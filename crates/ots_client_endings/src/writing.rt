//! The file that a command ends with.
ghost use Rattle.std.specs.Prelude.{◌<◌, ◌↔◌, IsTrue, length};
ghost use Rattle.ots_base.specs.declared.limits.TheConstants.{MAX_PROOF_FILE};
ghost use Rattle.ots_client_endings.specs.Runs.{Finishes, at};
ghost use Rattle.ots_client_endings.specs.Writing.{Writes};
ghost use Rattle.ots_detached.specs.File.{file_of};
ghost use Rattle.ots_outputs.specs.Made.{MakesFile};

use crate::printing::refuse;
use ots_base::MAX_PROOF_FILE;
use ots_client_text::Status;
use ots_detached::{file_length, write_file, written_file};
use ots_outputs::{Contents, OutputError, make_file};
use ots_outside::{Failed, Shelf, Sink};
use ots_tree::{Detached, WriteFault};

/// The file of a proof.
#[derive(Clone, Copy)]
struct ProofFile<'a>(&'a Detached);

impl Contents for ProofFile<'_> {
    ghost use Rattle.ots_detached.specs.File.{file_of};

    ghost bytes = { λ f. file_of f.0.now };

    fn write_to<K: Sink>(&self, sink: &mut K) -> Result<(), Failed> {
        match write_file(self.0, sink) {
            Ok(()) => Ok(()),
            Err(WriteFault) => Err(Failed),
        }
    }
}

/// Creates a name that holds the file of a proof. All that the shelf tells of other names and of
/// slots stays.
pub fn make_proof<S: Shelf>(name: &str, proof: &Detached, shelf: &mut S) -> Result<(), OutputError>
    ensures { MakesFile name.now (file_of proof.now) (S.told shelf.old) (S.told shelf.new) (S.faults shelf.old)
        (S.faults shelf.new) result }
{
    make_file(name, &ProofFile(proof), shelf)
}

/// Whether a proof has more bytes than a proof file may have.
pub fn is_too_long(proof: &Detached) -> bool
    ensures { IsTrue result ↔ MAX_PROOF_FILE < length (file_of proof.now) }
{
    file_length(proof) > MAX_PROOF_FILE as u64
}

/// Makes the file of a proof under a name, with which a run is done; or prints why it can't be made: it would be too
/// long, the name is there, or the shelf failed. Where memory ran out, nothing is printed.
pub fn write_proof<S: Shelf, K: Sink>(
    name: &str,
    proof: &Detached,
    shelf: &mut S,
    out: &mut K,
) -> Status
    ensures finishes { Finishes (Writes name.now proof.now) (at S.told S.faults K.taken K.faults shelf.old out.old)
        (at S.told S.faults K.taken K.faults shelf.new out.new) result }
    ensures same { K.same out.old out.new }
{
    written_file(proof);
    if is_too_long(proof) {
        return refuse(name, Status::TooBig, out);
    }
    match make_proof(name, proof, shelf) {
        Ok(()) => Status::Done,
        Err(OutputError::Exists) => refuse(name, Status::Exists, out),
        Err(OutputError::WriteFault) => refuse(name, Status::WriteFault, out),
        Err(OutputError::OutOfMemory) => Status::OutOfMemory,
    }
}
