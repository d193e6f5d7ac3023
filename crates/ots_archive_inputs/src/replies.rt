//! A sheet of replies.
ghost use Rattle.std.specs.Prelude.{◌≡◌};
ghost use Rattle.ots_archive_inputs.specs.inner.Refused.{refused_replies};

use ots_archive_text::ArchiveStatus;
use ots_archive_world::{Reader, ReadingError};
use ots_outside::Source;
use ots_replies::{Replies, SheetError, read_replies};
use std::alloc::Global;

/// Reads a sheet of replies. It is refused as `BadSheet` at its first line that is not as it is to be.
#[derive(Clone, Copy)]
pub struct RepliesReader;

impl Reader for RepliesReader {
    ghost use Rattle.ots_replies.specs.Replies.{IsSheetOf};
    ghost use Rattle.ots_archive_inputs.specs.Inputs.{RefusesSheet};

    type Item = Replies;

    type Refusal = ArchiveStatus;

    ghost gives = { λ _ bytes replies. IsSheetOf bytes replies };

    ghost refuses = { λ _ bytes status. RefusesSheet bytes status };

    fn read<R: Source>(
        &self,
        alloc: Global,
        source: &mut R,
    ) -> Result<Replies, ReadingError<ArchiveStatus>> {
        match read_replies(alloc, source) {
            Ok(replies) => Ok(replies),
            Err(error) => Err(refused_replies(error)),
        }
    }
}

/// Why a source is no sheet of replies.
fn refused_replies(error: SheetError) -> ReadingError<ArchiveStatus>
    ensures { result ≡ refused_replies error }
{
    match error {
        SheetError::ReadFault => ReadingError::ReadFault,
        SheetError::BadSheet(number) => ReadingError::Refused(ArchiveStatus::BadSheet(number)),
        SheetError::OutOfMemory => ReadingError::OutOfMemory,
    }
}
