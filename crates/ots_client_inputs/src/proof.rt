//! The file of a proof.
ghost use Rattle.ots_detached.specs.File.{IsFileOf};
ghost use Rattle.ots_client_inputs.specs.Proof.{RefusesProof};
ghost use Rattle.ots_inputs.specs.File.{MeansInput};
ghost use Rattle.ots_inputs.specs.Input.{ReadsNamed};
ghost use Rattle.ots_base.specs.declared.limits.TheConstants.{MAX_PROOF_FILE};

use ots_base::MAX_PROOF_FILE;
use ots_client_text::Status;
use ots_detached::{FileError, read_bytes};
use ots_inputs::{InputError, Stop, TooBig, read_file};
use ots_outside::Shelf;
use ots_tree::Detached;
use std::alloc::Global;

/// The proof that a file is.
///
/// It is refused as `TooBig` where it has more than 4,194,304 bytes, whatever they are, and else as `BadProof`
/// where it is no proof.
pub fn read_proof<'a, S: Shelf>(
    alloc: Global,
    name: &'a str,
    shelf: &mut S,
) -> Result<Detached, Stop<'a, Status>>
    ensures { ReadsNamed IsFileOf RefusesProof name.entry.now (S.told shelf.old) (S.told shelf.new)
        (S.faults shelf.old) (S.faults shelf.new) result }
{
    let read = read_file(alloc, name, MAX_PROOF_FILE as u64, shelf);
    match proof_of(alloc, read) {
        Ok(proof) => Ok(proof),
        Err(why) => Err(Stop { name, why }),
    }
}

/// The proof that these bytes are the file of.
fn proof_of(
    alloc: Global,
    read: Result<Vec<u8>, InputError<TooBig>>,
) -> Result<Detached, InputError<Status>>
    ensures { MeansInput IsFileOf RefusesProof MAX_PROOF_FILE read result }
{
    match read {
        Ok(bytes) => match read_bytes(alloc, &bytes) {
            Ok(proof) => Ok(proof),
            Err(FileError::BadProof(fault)) => Err(InputError::Refused(Status::BadProof(fault))),
            Err(FileError::TooBig) => Err(InputError::Refused(Status::TooBig)),
            Err(FileError::OutOfMemory) => Err(InputError::OutOfMemory),
            // Bytes that were read have no fault of reading.
            Err(FileError::ReadFault) => unreachable!(),
        },
        Err(error) => Err(error.refused_as(Status::TooBig)),
    }
}
