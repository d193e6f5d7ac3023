//! A file that is hashed.
ghost use Rattle.std.specs.Prelude.{◌≡◌};
ghost use Rattle.ots_archive_inputs.specs.inner.Refused.{refused_target};

use ots_archive_text::ArchiveStatus;
use ots_archive_world::{Reader, ReadingError};
use ots_base::MAX_TARGET_FILE;
use ots_detached::{HashError, hash_source};
use ots_ops::{Digest, HashOp};
use ots_outside::Source;
use std::alloc::Global;

/// Hashes a file by SHA-256. It is refused as `FileTooLong` where it has more than 2^40 bytes. It takes no memory.
#[derive(Clone, Copy)]
pub struct TargetReader;

impl Reader for TargetReader {
    ghost use Rattle.ots_archive_inputs.specs.Inputs.{IsHashOf, RefusesTarget};

    type Item = Digest;

    type Refusal = ArchiveStatus;

    ghost gives = { λ _ bytes digest. IsHashOf bytes digest };

    ghost refuses = { λ _ bytes status. RefusesTarget bytes status };

    fn read<R: Source>(
        &self,
        _alloc: Global,
        source: &mut R,
    ) -> Result<Digest, ReadingError<ArchiveStatus>> {
        match hash_source(source, HashOp::Sha256, MAX_TARGET_FILE) {
            Ok(digest) => Ok(digest),
            Err(error) => Err(refused_target(error)),
        }
    }
}

/// Why a source has no digest.
fn refused_target(error: HashError) -> ReadingError<ArchiveStatus>
    ensures { result ≡ refused_target error }
{
    match error {
        HashError::ReadFault => ReadingError::ReadFault,
        HashError::FileTooLong(_) => ReadingError::Refused(ArchiveStatus::FileTooLong),
    }
}
