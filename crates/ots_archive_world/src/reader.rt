//! What is made of the bytes of a file.
ghost use Rattle.std.specs.Prelude.{◌≡◌, ℕ, List, IsErrOf};
ghost use Rattle.ots_base.specs.Cause.{HasCauseWhere};
ghost use Rattle.ots_archive_world.specs.Reading.{MeansSource, refused_source};
ghost use Rattle.ots_inputs.specs.Input.{ReadsInput};

use ots_inputs::InputError;
use ots_outside::{Shelf, SlotSource, Source};
use std::alloc::Global;

/// Why the bytes of a source give nothing.
#[derive(Clone, Copy, Debug, PartialEq, Eq)]
pub enum ReadingError<R> {
    /// A read failed, and the source has counted the fault.
    ReadFault,
    /// They are not what was asked for.
    Refused(R),
    /// Memory ran out.
    OutOfMemory,
}

/// What is made of the bytes of a file.
pub trait Reader {
    /// What they give.
    type Item: Drop;

    /// Why they give nothing.
    type Refusal: Drop;

    /// What bytes give.
    ghost gives: { Self → List ℕ → Self.Item → Type 0 };

    /// How bytes are refused.
    ghost refuses: { Self → List ℕ → Self.Refusal → Type 0 };

    /// Reads a source. It need not read to the end where what came is refused whatever follows.
    fn read<R: Source>(
        &self,
        alloc: Global,
        source: &mut R,
    ) -> Result<Self::Item, ReadingError<Self::Refusal>>
        ensures means { MeansSource (gives self.now) (refuses self.now) (R.left source.old) result }
        ensures cause { HasCauseWhere (IsErrOf result ReadingError.ReadFault) (R.faults source.old)
            (R.faults source.new) }
        ensures same { R.same source.old source.new };
}

/// What is made of the bytes under a name. All that the shelf tells of names and slots stays.
pub(crate) fn read_under<R: Reader, S: Shelf>(
    alloc: Global,
    name: &str,
    reader: &R,
    shelf: &mut S,
) -> Result<R::Item, InputError<R::Refusal>>
    ensures { ReadsInput (R.gives reader.now) (R.refuses reader.now) name.now (S.told shelf.old) (S.told shelf.new)
        (S.faults shelf.old) (S.faults shelf.new) result }
{
    let slot = shelf.open(name)?;
    let read = reader.read(alloc, &mut SlotSource::new(shelf, slot));
    shelf.close(slot);
    match read {
        Ok(item) => Ok(item),
        Err(error) => Err(refused_source(error)),
    }
}

/// Why a source gives nothing, as that of a name.
fn refused_source<R: Drop>(error: ReadingError<R>) -> InputError<R>
    ensures { result ≡ refused_source error }
{
    match error {
        ReadingError::ReadFault => InputError::ReadFault,
        ReadingError::Refused(refusal) => InputError::Refused(refusal),
        ReadingError::OutOfMemory => InputError::OutOfMemory,
    }
}
