//! A file that is hashed.
ghost use Rattle.std.specs.Prelude.{◌≡◌, IsErrOf};
ghost use Rattle.ots_base.specs.Cause.{Rose};
ghost use Rattle.ots_client_inputs.specs.Target.{IsHashOf, RefusesTarget, refused_target};
ghost use Rattle.ots_inputs.specs.Input.{RanOut, ReadsInput, ReadsNamed};

use ots_base::MAX_TARGET_FILE;
use ots_client_text::Status;
use ots_detached::{HashError, hash_source};
use ots_inputs::{InputError, Stop};
use ots_ops::{Digest, HashOp};
use ots_outside::{Shelf, SlotSource};

/// The digest that a hash makes of a file. Memory runs out only where the shelf has none to open the name.
///
/// It is refused as `FileTooLong` where it has more than 2^40 bytes.
pub fn hash_target<'a, S: Shelf>(
    name: &'a str,
    hash: HashOp,
    shelf: &mut S,
) -> Result<Digest, Stop<'a, Status>>
    ensures reads { ReadsNamed (IsHashOf hash) RefusesTarget name.entry.now (S.told shelf.old) (S.told shelf.new)
        (S.faults shelf.old) (S.faults shelf.new) result }
    ensures short { RanOut result → Rose (S.told shelf.old).short (S.told shelf.new).short }
{
    match digest_under(name, hash, shelf) {
        Ok(digest) => Ok(digest),
        Err(why) => Err(Stop { name, why }),
    }
}

/// The same, without the name.
fn digest_under<S: Shelf>(
    name: &str,
    hash: HashOp,
    shelf: &mut S,
) -> Result<Digest, InputError<Status>>
    ensures reads { ReadsInput (IsHashOf hash) RefusesTarget name.now (S.told shelf.old) (S.told shelf.new)
        (S.faults shelf.old) (S.faults shelf.new) result }
    ensures short { IsErrOf result InputError.OutOfMemory → Rose (S.told shelf.old).short (S.told shelf.new).short }
{
    let slot = shelf.open(name)?;
    let hashed = hash_source(&mut SlotSource::new(shelf, slot), hash, MAX_TARGET_FILE);
    shelf.close(slot);
    match hashed {
        Ok(digest) => Ok(digest),
        Err(error) => Err(refused_target(error)),
    }
}

/// Why a source gives no digest.
fn refused_target(error: HashError) -> InputError<Status>
    ensures { result ≡ refused_target error }
{
    match error {
        HashError::ReadFault => InputError::ReadFault,
        HashError::FileTooLong(_) => InputError::Refused(Status::FileTooLong),
    }
}
