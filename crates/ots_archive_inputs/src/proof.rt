//! The file of a proof.
ghost use Rattle.std.specs.Prelude.{◌≡◌};
ghost use Rattle.ots_archive_inputs.specs.inner.Refused.{refused_proof};

use ots_archive_text::ArchiveStatus;
use ots_archive_world::{Reader, ReadingError};
use ots_detached::{FileError, read_file};
use ots_outside::Source;
use ots_tree::Detached;
use std::alloc::Global;

/// Reads a proof. Its bytes are refused as `TooBig` where there are more than 4,194,304, whatever they are, and else as
/// `BadProof` where they are no proof.
#[derive(Clone, Copy)]
pub struct ProofReader;

impl Reader for ProofReader {
    ghost use Rattle.ots_detached.specs.File.{IsFileOf};
    ghost use Rattle.ots_archive_inputs.specs.Inputs.{RefusesProof};

    type Item = Detached;

    type Refusal = ArchiveStatus;

    ghost gives = { λ _ bytes proof. IsFileOf bytes proof };

    ghost refuses = { λ _ bytes status. RefusesProof bytes status };

    fn read<R: Source>(
        &self,
        alloc: Global,
        source: &mut R,
    ) -> Result<Detached, ReadingError<ArchiveStatus>> {
        match read_file(alloc, source) {
            Ok(proof) => Ok(proof),
            Err(error) => Err(refused_proof(error)),
        }
    }
}

/// Why a source is no proof.
fn refused_proof(error: FileError) -> ReadingError<ArchiveStatus>
    ensures { result ≡ refused_proof error }
{
    match error {
        FileError::ReadFault => ReadingError::ReadFault,
        FileError::TooBig => ReadingError::Refused(ArchiveStatus::TooBig),
        FileError::BadProof(fault) => ReadingError::Refused(ArchiveStatus::BadProof(fault)),
        FileError::OutOfMemory => ReadingError::OutOfMemory,
    }
}
