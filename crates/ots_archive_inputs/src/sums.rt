//! A file of sums.
ghost use Rattle.std.specs.Prelude.{◌≡◌};
ghost use Rattle.ots_archive_inputs.specs.inner.Refused.{refused_sums};

use ots_archive_text::ArchiveStatus;
use ots_archive_world::{Reader, ReadingError};
use ots_outside::Source;
use ots_sums::{Sums, SumsError, read_sums};
use std::alloc::Global;

/// Reads a file of sums, as `sha256sum` writes it. It is refused as `BadSums` at its first line that is not of its form.
#[derive(Clone, Copy)]
pub struct SumsReader;

impl Reader for SumsReader {
    ghost use Rattle.ots_sums.specs.Sums.{AreSums};
    ghost use Rattle.ots_archive_inputs.specs.Inputs.{RefusesSums};

    type Item = Sums;

    type Refusal = ArchiveStatus;

    ghost gives = { λ _ bytes sums. AreSums bytes sums };

    ghost refuses = { λ _ bytes status. RefusesSums bytes status };

    fn read<R: Source>(
        &self,
        alloc: Global,
        source: &mut R,
    ) -> Result<Sums, ReadingError<ArchiveStatus>> {
        match read_sums(alloc, source) {
            Ok(sums) => Ok(sums),
            Err(error) => Err(refused_sums(error)),
        }
    }
}

/// Why a source has no sums.
fn refused_sums(error: SumsError) -> ReadingError<ArchiveStatus>
    ensures { result ≡ refused_sums error }
{
    match error {
        SumsError::ReadFault => ReadingError::ReadFault,
        SumsError::BadLine(number) => ReadingError::Refused(ArchiveStatus::BadSums(number)),
        SumsError::OutOfMemory => ReadingError::OutOfMemory,
    }
}
