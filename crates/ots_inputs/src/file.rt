//! A file that is read whole.
ghost use Rattle.std.specs.Prelude.{◌≡◌};
ghost use Rattle.ots_inputs.specs.File.{GivesBytes, RefusesBytes, refused_read};
ghost use Rattle.ots_inputs.specs.Input.{ReadsInput, map_refusal};

use crate::error::InputError;
use ots_outside::{ReadAllError, Shelf, SlotSource, read_all};
use std::alloc::Global;

/// A file has more bytes than the limit.
#[derive(Clone, Copy, Debug, PartialEq, Eq)]
pub struct TooBig;

impl From<ReadAllError> for InputError<TooBig> {
    ghost from_gives = { λ e r. r ≡ refused_read e };

    fn from(error: ReadAllError) -> Self {
        match error {
            ReadAllError::ReadFault => InputError::ReadFault,
            ReadAllError::TooBig => InputError::Refused(TooBig),
            ReadAllError::OutOfMemory => InputError::OutOfMemory,
        }
    }
}

impl InputError<TooBig> {
    /// The same of a file whose bytes mean something: that there are too many of them is this refusal.
    pub fn refused_as<R: Drop>(self, refusal: R) -> InputError<R>
        ensures { result ≡ map_refusal (λ _. refusal) self }
    {
        match self {
            InputError::NoFile => InputError::NoFile,
            InputError::ReadFault => InputError::ReadFault,
            InputError::Refused(TooBig) => InputError::Refused(refusal),
            InputError::OutOfMemory => InputError::OutOfMemory,
        }
    }
}

/// All bytes of a file that has at most `limit` bytes. All that the shelf tells of names and slots stays.
pub fn read_file<S: Shelf>(
    alloc: Global,
    name: &str,
    limit: u64,
    shelf: &mut S,
) -> Result<Vec<u8>, InputError<TooBig>>
    ensures { ReadsInput (GivesBytes limit) (RefusesBytes limit) name.now (S.told shelf.old) (S.told shelf.new)
        (S.faults shelf.old) (S.faults shelf.new) result }
{
    let slot = shelf.open(name)?;
    let read = read_all(alloc, &mut SlotSource::new(shelf, slot), limit);
    shelf.close(slot);
    Ok(read?)
}
