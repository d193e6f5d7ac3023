//! The file of a proof, which is verified as it is read.
ghost use Rattle.std.specs.Prelude.{◌≡◌, [], IsErrOf};
ghost use Rattle.ots_base.specs.Cause.{Rose};
ghost use Rattle.ots_verifier.specs.Source.{IsChecked};
ghost use Rattle.ots_client_inputs.specs.Proof.{RefusesProof, refused_source};
ghost use Rattle.ots_inputs.specs.Input.{RanOut, ReadsInput, ReadsNamed};

use ots_client_text::Status;
use ots_inputs::{InputError, Stop};
use ots_outside::{Shelf, SlotSource};
use ots_verifier::{Checked, SourceError, Verifier, check_source};

/// What the proof confirms whose file is under a name, by a verifier to which nothing was fed. Memory runs out
/// only where the shelf has none to open the name.
///
/// It is refused as where a proof is read: as `TooBig` or as `BadProof`.
pub fn check_proof<'a, S: Shelf>(
    name: &'a str,
    verifier: Verifier<'_>,
    shelf: &mut S,
) -> Result<Checked, Stop<'a, Status>>
    requires { verifier.bytes ≡ [] }
    ensures reads { ReadsNamed (IsChecked verifier.entry.bitcoin verifier.entry.litecoin) RefusesProof name.entry.now
        (S.told shelf.old) (S.told shelf.new) (S.faults shelf.old) (S.faults shelf.new) result }
    ensures short { RanOut result → Rose (S.told shelf.old).short (S.told shelf.new).short }
{
    match checked_under(name, verifier, shelf) {
        Ok(checked) => Ok(checked),
        Err(why) => Err(Stop { name, why }),
    }
}

/// The same, without the name.
fn checked_under<S: Shelf>(
    name: &str,
    verifier: Verifier<'_>,
    shelf: &mut S,
) -> Result<Checked, InputError<Status>>
    requires { verifier.bytes ≡ [] }
    ensures reads { ReadsInput (IsChecked verifier.entry.bitcoin verifier.entry.litecoin) RefusesProof name.now
        (S.told shelf.old) (S.told shelf.new) (S.faults shelf.old) (S.faults shelf.new) result }
    ensures short { IsErrOf result InputError.OutOfMemory → Rose (S.told shelf.old).short (S.told shelf.new).short }
{
    let slot = shelf.open(name)?;
    let checked = check_source(verifier, &mut SlotSource::new(shelf, slot));
    shelf.close(slot);
    match checked {
        Ok(checked) => Ok(checked),
        Err(error) => Err(refused_source(error)),
    }
}

/// Why a source that is verified gives nothing.
fn refused_source(error: SourceError) -> InputError<Status>
    ensures { result ≡ refused_source error }
{
    match error {
        SourceError::ReadFault => InputError::ReadFault,
        SourceError::TooBig => InputError::Refused(Status::TooBig),
        SourceError::BadProof(fault) => InputError::Refused(Status::BadProof(fault)),
    }
}
